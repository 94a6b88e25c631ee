//! Calls of a server on its volume: a change, ways to read, and the number of changes.
ghost use Rattle.std.specs.Prelude.{◌≡◌, length, true, IfOk, IfErr, OnOk, OnErr, None, Some, unwrap_or};
ghost use Rattle.lq_value.specs.declared.refusal.Refusal.TheVariants.{NoMemory};
ghost use Rattle.lq_value.specs.Refusal.{FailsOnlyForMemory, IsRefusedBy, first_refusal};
ghost use Rattle.lq_volume.specs.Book.{Extends, state_of};
ghost use Rattle.lq_volume.specs.Change.{refused};
ghost use Rattle.lq_volume.specs.Result.{result_of};
ghost use Rattle.lq_volume.specs.State.{record_at, node_in};
ghost use Rattle.lq_volume.specs.Lookup.{find_refusals, entry_refusals, listed};
ghost use Rattle.lq_board.specs.Author.{IsWhole, with_change};
ghost use Rattle.lq_server_slots.specs.Applied.{HasLooked, IsAdded};
ghost use Rattle.lq_server_slots.specs.Own.{StaysOwn};

use crate::server::{Accepted, Server};
use lq_predicate::Predicate;
use lq_server_slots::{Found, Named, Seat};
use lq_value::{Name, Refusal};
use lq_volume::{Change, Listing};
use std::sync::Wait;

impl<N: Named> Server<N> {
    /// Makes a change, notifies the subscriptions that it concerns, and fills their ports.
    ///
    /// The seat has to be one that may make changes: any of a server made by `new`, of a counted
    /// one an enlisted seat. It then knows a book that ends with this change, under the number that
    /// the call answers, and has this number among those of its own changes. No seat and no reader
    /// is made for it. Refused as `Volume::apply` is after the book that the seat then knows, or
    /// `NoMemory`. A subscription whose reader hung up before ends, even where it is refused: the
    /// seat records a moment at which the keeper knew of as many requests as the seat had heard of.
    /// No other clause of this call says what becomes of the subscriptions, or that a refused
    /// change leaves the volume as it was: clauses of `ServerState::apply` do.
    pub fn apply<R: Wait>(
        &self,
        rt: &R,
        seat: &mut Seat,
        change: &Change,
    ) -> Result<Accepted, Refusal>
        requires board { seat.old.board ≡ N.board }
        requires signs { seat.old.author.signs ≡ true }
        ensures seat { seat.new ≡ record seat.old {
          book = seat.new.book;
          author = seat.new.author;
          moments = seat.new.moments;
        } }
        ensures own { StaysOwn seat.old seat.new }

        // Accepted or refused, it looked at the requests of each slot whose seat is out.
        ensures looked { HasLooked seat.old seat.new }
        ensures author { IfOk result (λ a.
            seat.new.author ≡ with_change seat.old.author a.change) }
        ensures others { OnErr result (seat.new.author ≡ seat.old.author) }
        ensures later { Extends seat.new.book seat.old.book }
        ensures ok { IfOk result (λ a. IsAdded seat.old.book seat.new.book a change.now) }

        // The first refusal that fits, or `NoMemory` where none fits.
        ensures err { IfErr result (λ e.
            e ≡ unwrap_or (refused (state_of seat.new.book) change.now) NoMemory) }
    {
        self.state.lock(rt).apply(rt, &self.board, seat, change)
    }

    /// The entries that match a predicate, by rising node, and the number of changes then.
    ///
    /// They are the matches after the book that the seat then knows. Refused: `NoMemory`.
    pub fn fetch<R: Wait>(
        &self,
        rt: &R,
        seat: &mut Seat,
        predicate: &Predicate,
    ) -> Result<Found, Refusal>
        requires { seat.old.board ≡ N.board }
        ensures seat { seat.new ≡ record seat.old { book = seat.new.book } }
        ensures own { StaysOwn seat.old seat.new }
        ensures later { Extends seat.new.book seat.old.book }
        ensures at { IfOk result (λ found. found.at ≡ length seat.new.book.changes) }
        ensures entries { IfOk result (λ found.
            found.entries.items ≡ result_of predicate.now (state_of seat.new.book)) }
        ensures refused { FailsOnlyForMemory result }
    {
        let mut locked = self.state.lock(rt);
        let at = locked.meet(&self.board, seat);
        let entries = locked.volume().fetch(predicate)?;
        Ok(Found { at, entries })
    }

    /// The node at a place, after the book that the seat then knows.
    ///
    /// Refused, the first that fits: `NoNode` where there is no node `dir`, `NotFolder` where `dir`
    /// is a file, `NoEntry` where the folder has no entry of that name. It takes no memory.
    pub fn find<R: Wait>(
        &self,
        rt: &R,
        seat: &mut Seat,
        dir: u64,
        name: &Name,
    ) -> Result<u64, Refusal>
        requires { seat.old.board ≡ N.board }
        ensures seat { seat.new ≡ record seat.old { book = seat.new.book } }
        ensures own { StaysOwn seat.old seat.new }
        ensures later { Extends seat.new.book seat.old.book }
        ensures value { IfOk result (λ node.
            node_in (state_of seat.new.book).records dir name.now ≡ Some node) }
        ensures ok { OnOk result
            (first_refusal (find_refusals (state_of seat.new.book) dir name.now) ≡ None) }
        ensures err { IfErr result (λ e.
            first_refusal (find_refusals (state_of seat.new.book) dir name.now) ≡ Some e) }
    {
        let mut locked = self.state.lock(rt);
        locked.meet(&self.board, seat);
        locked.volume().find(dir, name)
    }

    /// A copy of a node's whole entry, after the book that the seat then knows.
    ///
    /// Refused, the first that fits: `NoNode` where there is no such node, `NoEntry` for the root,
    /// `NoMemory`.
    pub fn listing<R: Wait>(&self, rt: &R, seat: &mut Seat, node: u64) -> Result<Listing, Refusal>
        requires { seat.old.board ≡ N.board }
        ensures seat { seat.new ≡ record seat.old { book = seat.new.book } }
        ensures own { StaysOwn seat.old seat.new }
        ensures later { Extends seat.new.book seat.old.book }
        ensures value { IfOk result (λ listing.
            record_at (state_of seat.new.book) node ≡ Some (listed listing)) }
        ensures refused { IsRefusedBy result
            (first_refusal (entry_refusals (state_of seat.new.book) node)) }
    {
        let mut locked = self.state.lock(rt);
        locked.meet(&self.board, seat);
        locked.volume().listing(node)
    }

    /// The number of changes in a book that the seat then knows, which extends what it knew.
    ///
    /// Where it leads and none is enlisted, it has gathered all their numbers. It takes no lock.
    pub fn latest(&self, seat: &mut Seat) -> u64
        requires { seat.old.board ≡ N.board }
        ensures same { seat.new ≡ record seat.old { book = seat.new.book } }
        ensures own { StaysOwn seat.old seat.new }
        ensures later { Extends seat.new.book seat.old.book }
        ensures number { result ≡ length seat.new.book.changes }
        ensures whole { IsWhole seat.new.author result }
    {
        self.board.latest(seat)
    }

    /// The number of changes in one book, which both seats then know. Either may be a reader's
    /// seat.
    pub fn meet<R: Wait>(&self, rt: &R, one: &mut Seat, two: &mut Seat) -> u64
        requires boards { (one.old.board ≡ N.board) × (two.old.board ≡ N.board) }
        ensures one { one.new ≡ record one.old { book = one.new.book } }
        ensures two { two.new ≡ record two.old { book = two.new.book } }
        ensures own { StaysOwn one.old one.new × StaysOwn two.old two.new }
        ensures same { one.new.book ≡ two.new.book }
        ensures first { Extends one.new.book one.old.book }
        ensures second { Extends two.new.book two.old.book }
        ensures number { result ≡ length one.new.book.changes }
    {
        let mut locked = self.state.lock(rt);
        locked.meet(&self.board, one);
        locked.meet(&self.board, two)
    }
}
