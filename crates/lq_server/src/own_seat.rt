//! A seat that holds the preconditions of a server's calls as invariants, so that its own calls
//! require little. Clauses say which changes it makes.
ghost use Rattle.std.specs.Prelude.{◌≡◌, ◌+◌, ◌≤◌, [], ◌∷◌, length, IfOk, IfErr, OnOk, OnErr, IfSome, IfNone, Some, None, Err, true, unwrap_or};
ghost use Rattle.lq_value.specs.declared.refusal.Refusal.TheVariants.{NoMemory, NoSeat};
ghost use Rattle.lq_value.specs.Refusal.{FailsOnlyForMemory, IsRefusedBy, first_refusal};
ghost use Rattle.lq_volume.specs.Book.{Extends, state_of};
ghost use Rattle.lq_volume.specs.Change.{refused};
ghost use Rattle.lq_volume.specs.Lookup.{entry_refusals, find_refusals, listed};
ghost use Rattle.lq_volume.specs.Result.{result_of};
ghost use Rattle.lq_volume.specs.State.{node_in, record_at};
ghost use Rattle.lq_update.specs.Options.{no_values};
ghost use Rattle.lq_board.specs.Author.{leader, with_roll};
ghost use Rattle.lq_board.specs.Roll.{numbers};
ghost use Rattle.lq_server_slots.specs.Applied.{IsAdded};
ghost use Rattle.lq_server_slots.specs.Opening.{IsOpeningRefused, size_refusal};
ghost use Rattle.lq_server.specs.Made.{MakesMore, NoneMadeFor};
ghost use Rattle.lq_server.specs.Opened.{IsNewReader};
ghost use Rattle.lq_server.specs.Retired.{IsRetired};

use crate::own_reader::OwnReader;
use crate::server::{Retired, Server};
use lq_predicate::Predicate;
use lq_server_slots::{Found, Named, Seat};
use lq_update::OpenOptions;
use lq_value::{Name, Refusal};
use lq_volume::{Applied, Change, Listing};
use std::marker::{Model, PhantomData};
use std::sync::Wait;

/// A seat of no slot, of N's board, which may make changes. A contract sees it as a `Seat`.
pub struct OwnSeat<N: Named> {
    seat: Seat,
    of: PhantomData<N>,
}

// One call takes it apart, wherever one is dropped.
impl<N: Named> Drop for OwnSeat<N> {
    fn drop(self) {
        let OwnSeat { seat: _, of: _ } = self;
    }
}

impl<N: Named> Model for OwnSeat<N> {
    ghost use Rattle.std.specs.Prelude.{◌≡◌, true};
    ghost use Rattle.std.specs.Coded.{codes};
    ghost use Rattle.lq_board.specs.Token.{SeatToken};
    ghost use Rattle.lq_board.specs.contracts.tokens.Seat as a_seat;
    ghost use Rattle.lq_server_slots.specs.contracts.identity.Identity as an_identity;
    ghost use Rattle.lq_server_slots.specs.declared.identity.Identity.{Identity};

    ghost Value = { SeatToken Identity };

    ghost coded = { Prim.hlevel (codes, (a_seat.the_row an_identity.the_row).coded) };

    ghost view = { λ c. c.seat };

    ghost invariant = { λ c. (c.seat.board ≡ N.board) × (c.seat.slot ≡ 0)
        × (c.seat.author.signs ≡ true) };
}

impl<N: Named> OwnSeat<N> {
    /// A seat of this counted server, made for its leading seat, which enlists it. Refused as
    /// `Server::seat_by` is.
    pub fn new<R: Wait>(rt: &R, server: &Server<N>, head: &mut Seat) -> Result<OwnSeat<N>, Refusal>
        requires board { head.old.board ≡ N.board }
        requires slot { head.old.slot ≡ 0 }
        requires leads { head.old.author.leads ≡ true }
        ensures fresh { IfOk result (λ seat. seat.author.changes ≡ []) }
        ensures counts { IfOk result (λ seat. (seat.seats ≡ 0) × (seat.openings ≡ 0)) }
        ensures head { IfOk result (λ seat. head.new ≡ record head.old {
          book = head.new.book;
          seats = head.old.seats + 1;
          author = with_roll head.old.author
              (seat.author.number ∷ head.old.author.enlisted) head.old.author.gathered;
        }) }
        ensures refused { IfErr result (λ e. e ≡ NoSeat) }
        ensures err { OnErr result (head.new ≡ record head.old { book = head.new.book }) }
        ensures few { OnErr result (15 ≤ head.old.seats) }
        ensures later { Extends head.new.book head.old.book }
    {
        let mut seat = server.seat_by(rt, head)?;
        server.enlist(head, &mut seat);
        Ok(OwnSeat {
            seat,
            of: PhantomData,
        })
    }

    /// Makes a change. Refused as `Server::apply` is; then it made none.
    pub fn apply<R: Wait>(
        &mut self,
        rt: &R,
        server: &Server<N>,
        change: &Change,
    ) -> Result<Applied, Refusal>
        ensures made { IfOk result (λ a. MakesMore self.old self.new (a ∷ [])) }
        ensures err { OnErr result (MakesMore self.old self.new []) }
        ensures counts { NoneMadeFor self.old self.new }
        ensures added { IfOk result (λ a. IsAdded self.old.book self.new.book a change.now) }
        ensures refused { IfErr result (λ e.
            e ≡ unwrap_or (refused (state_of self.new.book) change.now) NoMemory) }
    {
        server.apply(rt, &mut self.seat, change)
    }

    /// Opens a live query, with the clauses of `Server::open` that speak of the answer alone.
    #[tactic(auto, using(crate::proofs::MadeLemmas::made_moments))]
    pub fn open<R: Wait>(
        &mut self,
        rt: &R,
        server: &Server<N>,
        predicate: &Predicate,
        port: u64,
        backlog: u64,
        moved: bool,
    ) -> Result<OwnReader<N>, Refusal>
        ensures made { MakesMore self.old self.new [] }
        ensures seats { self.new.seats ≡ self.old.seats }
        ensures one { OnOk result (self.new.openings ≡ self.old.openings + 1) }
        ensures none { OnErr result (self.new.openings ≡ self.old.openings) }
        ensures opened { IfOk result (λ r.
            IsNewReader r N.board self.new.book predicate.now (no_values moved) port backlog) }
        ensures refused { IfSome (size_refusal port backlog) (λ e. result ≡ Err e) }
        ensures others { IfNone (size_refusal port backlog) (IfErr result IsOpeningRefused) }
    {
        let options = OpenOptions::without_values(port, backlog, moved);
        self.open_by(rt, server, predicate, &options)
    }

    /// Opens a live query with these options, with the clauses of `Server::open_by` that speak of
    /// the answer alone.
    #[tactic(auto, using(crate::proofs::MadeLemmas::made_moments))]
    pub fn open_by<R: Wait>(
        &mut self,
        rt: &R,
        server: &Server<N>,
        predicate: &Predicate,
        options: &OpenOptions,
    ) -> Result<OwnReader<N>, Refusal>
        ensures made { MakesMore self.old self.new [] }
        ensures seats { self.new.seats ≡ self.old.seats }
        ensures one { OnOk result (self.new.openings ≡ self.old.openings + 1) }
        ensures none { OnErr result (self.new.openings ≡ self.old.openings) }
        ensures opened { IfOk result (λ r. IsNewReader r N.board self.new.book predicate.now
            options.now.flags options.now.port options.now.backlog) }
        ensures refused { IfSome (size_refusal options.now.port options.now.backlog) (λ e.
            result ≡ Err e) }
        ensures others { IfNone (size_refusal options.now.port options.now.backlog)
            (IfErr result IsOpeningRefused) }
    {
        let reader = server.open_by(rt, &mut self.seat, predicate, options)?;
        Ok(OwnReader {
            reader,
            of: PhantomData,
        })
    }

    /// The entries that match a predicate. Refused as `Server::fetch` is.
    #[tactic(auto, using(crate::proofs::MadeLemmas::made_book))]
    pub fn fetch<R: Wait>(
        &mut self,
        rt: &R,
        server: &Server<N>,
        predicate: &Predicate,
    ) -> Result<Found, Refusal>
        ensures made { MakesMore self.old self.new [] }
        ensures counts { NoneMadeFor self.old self.new }
        ensures at { IfOk result (λ found. found.at ≡ length self.new.book.changes) }
        ensures entries { IfOk result (λ found.
            found.entries.items ≡ result_of predicate.now (state_of self.new.book)) }
        ensures refused { FailsOnlyForMemory result }
    {
        server.fetch(rt, &mut self.seat, predicate)
    }

    /// The node at a place. Refused as `Server::find` is.
    #[tactic(auto, using(crate::proofs::MadeLemmas::made_book))]
    pub fn find<R: Wait>(
        &mut self,
        rt: &R,
        server: &Server<N>,
        dir: u64,
        name: &Name,
    ) -> Result<u64, Refusal>
        ensures made { MakesMore self.old self.new [] }
        ensures counts { NoneMadeFor self.old self.new }
        ensures value { IfOk result (λ node.
            node_in (state_of self.new.book).records dir name.now ≡ Some node) }
        ensures ok { OnOk result
            (first_refusal (find_refusals (state_of self.new.book) dir name.now) ≡ None) }
        ensures err { IfErr result (λ e.
            first_refusal (find_refusals (state_of self.new.book) dir name.now) ≡ Some e) }
    {
        server.find(rt, &mut self.seat, dir, name)
    }

    /// The whole entry of a node. Refused as `Server::listing` is.
    #[tactic(auto, using(crate::proofs::MadeLemmas::made_book))]
    pub fn listing<R: Wait>(
        &mut self,
        rt: &R,
        server: &Server<N>,
        node: u64,
    ) -> Result<Listing, Refusal>
        ensures made { MakesMore self.old self.new [] }
        ensures counts { NoneMadeFor self.old self.new }
        ensures value { IfOk result (λ listing.
            record_at (state_of self.new.book) node ≡ Some (listed listing)) }
        ensures refused { IsRefusedBy result
            (first_refusal (entry_refusals (state_of self.new.book) node)) }
    {
        server.listing(rt, &mut self.seat, node)
    }

    /// Ends the server by its leading seat, which has enlisted this seat alone.
    ///
    /// All changes of the server are then this seat's.
    pub fn retire<R: Wait>(self, rt: &R, server: Server<N>, mut head: Seat) -> Retired
        requires board { head.board ≡ N.board }
        requires slot { head.slot ≡ 0 }
        requires leads { head.author ≡ with_roll leader (self.author.number ∷ []) [] }
        ensures retired { IsRetired N.start self.book result.volume result.changes }
        ensures all { self.author.changes ≡ numbers result.changes }
    {
        let OwnSeat { mut seat, of: _ } = self;
        server.meet(rt, &mut seat, &mut head);
        server.dismiss(&mut head, &mut seat);
        server.retire(rt, head)
    }
}
