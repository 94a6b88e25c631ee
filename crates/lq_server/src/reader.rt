//! The reader of a subscription.
ghost use Rattle.std.specs.Prelude.{◌≡◌, ◌↔◌, length, IfOk, IfSome, IsSome, OnErr, Ok, IsTrue, true, false};
ghost use mathlib.Core.List.{IsPrefix};
ghost use Rattle.std.specs.Borrow.{sem};
ghost use Rattle.lq_value.specs.Refusal.{FailsOnlyForMemory};
ghost use Rattle.lq_volume.specs.Book.{Extends, state_at};
ghost use Rattle.lq_volume.specs.Result.{result_of};
ghost use Rattle.lq_update.specs.Fold.{EntriesRise, folded, last_change};
ghost use Rattle.lq_update.specs.Updates.{IsSettled};
ghost use Rattle.lq_port.specs.End.{IsSamePort};
ghost use Rattle.lq_server_slots.specs.Rule.{query_of, all_updates};
ghost use Rattle.lq_server_slots.specs.Reading.{Gives, Fails, known_book, received, mark_read, opening_of};
ghost use Rattle.lq_server_slots.specs.Own.{IsOwn};
ghost use Rattle.lq_server.specs.Lending.{LendsSeat};
ghost use Rattle.lq_server.specs.Syncing.{IsWaitingRead};
ghost use Rattle.lq_server.specs.Headline.{ReaderIsTold};

use crate::server::Server;
use lq_desk_sub::Read;
use lq_server_slots::{Named, Reading, Seat, books_extend_themselves};
use lq_value::{Entry, Refusal};
use std::marker::Model;
use std::sync::Wait;

/// The reading end of a subscription, with the seat of its slot.
///
/// ```rattle
/// use lq_predicate::{Predicate, read};
/// use lq_server::{Base, Named, Read, Server};
/// use lq_value::Refusal;
/// use lq_volume::Volume;
/// use std::marker::Brand;
/// use std::sync::Wait;
///
/// fn read_once<N: Named, R: Wait>(rt: &R, base: Base, query: &Predicate) -> Result<Read, Refusal>
///     requires { (base.board ≡ N.board) × (base.volume ≡ N.start) }
/// {
///     let server: Server<N> = Server::new(base);
///     let mut seat = server.seat(rt)?;
///     let mut reader = server.open(rt, &mut seat, query, 4, 16, false)?;
///     reader.hang_up(&server);
///     reader.read_waiting(rt, &server)
/// }
///
/// let base = Base::new(alloc, Volume::new(alloc, 1000))?;
/// let query = read(alloc, "size>100")?;
/// assert!(rt; matches!(read_once::<Brand, _>(&rt, base, &query)?, Read::Fin(_)));
/// ```
#[derive(Drop)]
pub struct Reader {
    pub(crate) reading: Reading,
    pub(crate) seat: Seat,
    pub(crate) slot: u64,
    pub(crate) hang_up_asked: bool,
}

impl Model for Reader {
    ghost use Rattle.std.specs.Coded.{codes};
    ghost use Rattle.lq_server_slots.specs.contracts.identity.Identity as an_identity;
    ghost use Rattle.lq_server_slots.specs.contracts.reading.Reading as a_reading;
    ghost use Rattle.lq_board.specs.contracts.tokens.Seat as a_seat;
    ghost use Rattle.lq_server_slots.specs.Hold.{ReaderHold};

    ghost Value = { ReaderHold };

    ghost coded = { Prim.hlevel
        (codes, a_reading.the_row.coded, (a_seat.the_row an_identity.the_row).coded) };

    ghost view = { λ r. record {
      reading = r.reading;
      seat = r.seat;
      slot = r.slot;
      hang_up_asked = r.hang_up_asked;
    } };
}

impl Reader {
    /// The slot: 1 to 64 where `IsOwn` holds. It takes no lock.
    pub fn slot(&self) -> u64
        ensures { result ≡ self.now.slot }
    {
        self.slot
    }

    /// The number of changes at the opening. It takes no lock.
    pub fn opened(&self) -> u64
        ensures { result ≡ self.now.reading.port.floor.opened }
    {
        self.reading.opened()
    }

    /// The number of changes in a book that its seat then knows, which extends what it knew. It
    /// takes no lock.
    pub fn latest<N: Named>(&mut self, server: &Server<N>) -> u64
        requires board { self.old.seat.board ≡ N.board }
        ensures number { result ≡ length self.new.seat.book.changes }
        ensures later { Extends self.new.seat.book self.old.seat.book }
        ensures seat { self.new.seat ≡ record self.old.seat { book = self.new.seat.book } }
        ensures rest { self.new ≡ record self.old { seat = self.new.seat } }
        ensures own { IsOwn self.old → IsOwn self.new }
    {
        server.board.latest(&mut self.seat)
    }

    /// Asks for the end of its subscription. A second call does nothing. It takes no lock.
    ///
    /// By their clauses, `sync` then shows that it has ended, and `close` answers `NotOpen`.
    pub fn hang_up<N: Named>(&mut self, server: &Server<N>)
        requires board { self.old.seat.board ≡ N.board }
        requires own { IsOwn self.old }
        ensures own { IsOwn self.new }
        ensures hang_up_asked { self.new.hang_up_asked ≡ true }
        ensures reading { self.new.reading ≡ self.old.reading }
        ensures slot { self.new.slot ≡ self.old.slot }
        ensures seat { self.new.seat ≡ record self.old.seat { asks = self.new.seat.asks } }
        ensures again { self.old.hang_up_asked ≡ true → self.new ≡ self.old }
    {
        if !self.hang_up_asked {
            server.board.ask(&mut self.seat);
            self.hang_up_asked = true;
        }
    }

    /// The seat of its slot.
    ///
    /// The server's calls borrow it, and keep it fit for the reader's calls at the slot
    /// (`StaysOwn`): those require a seat of this slot and port (`IsOwn`).
    pub fn seat(&mut self) -> &mut Seat
        ensures* lends { sem 𝓛 (LendsSeat self.entry result) }
        ensures now { result.now ≡ self.old.seat }
        ensures own { IsOwn self.old → IsOwn (record self.old { seat = result.now }) }
    {
        &mut self.seat
    }

    /// The next update or the mark, if one waits in the port. It takes no lock.
    ///
    /// `Empty` only where none is known to wait; `Ended` after the mark. Refused: `NoMemory`; the
    /// reader then keeps the message, and the next read with memory gives it.
    pub fn read<R: Wait>(&mut self, rt: &R) -> Result<Read, Refusal>
        ensures refused { FailsOnlyForMemory result }
        ensures port { IsSamePort self.old.reading.port self.new.reading.port }
        ensures known { Extends (known_book self.new.reading) (known_book self.old.reading) }
        ensures received { IsPrefix (received self.new.reading)
            (all_updates self.new.reading.port.floor (known_book self.new.reading)) }
        ensures gives { IfOk result (Gives self.old.reading self.new.reading) }
        ensures fails { OnErr result (Fails self.old.reading self.new.reading) }
        ensures over { IsSome (mark_read self.old.reading) → result ≡ Ok Read.Ended }
        ensures rest { self.new ≡ record self.old { reading = self.new.reading } }
        ensures own { IsOwn self.old → IsOwn self.new }
    {
        self.reading.read(rt)
    }

    /// As `read`, but it fills its port first and waits for the next update or the mark.
    ///
    /// `Ended` after the mark. It never answers `Empty`.
    pub fn read_waiting<N: Named, R: Wait>(
        &mut self,
        rt: &R,
        server: &Server<N>,
    ) -> Result<Read, Refusal>
        requires board { self.old.seat.board ≡ N.board }
        requires own { IsOwn self.old }
        ensures { IsWaitingRead self.old self.new result }
    {
        // For the proof: a book extends itself, and the reading's invariant.
        books_extend_themselves();
        self.reading.update_facts();
        if self.reading.is_ended() {
            return Ok(Read::Ended);
        }
        server.pump(rt, self);
        self.reading.read_waiting(rt)
    }

    /// The result after the messages received, by rising node: the opening's result with each
    /// message folded in.
    ///
    /// After the mark it is the query's result after the mark's change.
    pub fn result(&self) -> &[Entry]
        ensures entries { result.now ≡ self.now.reading.result.entries }
        ensures rise { EntriesRise result.now }
        ensures folded { result.now ≡ folded (opening_of self.now.reading.port.floor).entries
            (received self.now.reading) }
        ensures marked { IfSome (mark_read self.now.reading) (λ k. result.now
            ≡ result_of (query_of self.now.reading.port.floor)
            (state_at (known_book self.now.reading) k.change)) }
    {
        self.reading.result()
    }

    /// Whether no update was received, or the latest was the last of its change. The result is then
    /// the query's after `last_change`. It takes no lock.
    pub fn is_settled(&self) -> bool
        ensures settled { result ≡ self.now.reading.result.settled }
        ensures received { (result ≡ true) ↔ IsSettled (received self.now.reading) }
        ensures whole { IsTrue result → self.now.reading.result.entries
            ≡ result_of (query_of self.now.reading.port.floor)
            (state_at (known_book self.now.reading) self.now.reading.result.change) }
    {
        self.reading.is_settled()
    }

    /// The change of the latest update received, or `opened` before the first. It takes no lock.
    pub fn last_change(&self) -> u64
        ensures change { result ≡ self.now.reading.result.change }
        ensures received { result ≡ last_change self.now.reading.port.floor.opened
            (received self.now.reading) }
    {
        self.reading.last_change()
    }

    /// The headline for this reader.
    ///
    /// What it has received is a prefix of its query's update list, each message once and in order.
    /// Its mark comes after the whole list up to the change that it names. Its result is the
    /// query's wherever that is settled, and after the mark. The call does nothing.
    /// `answers_are_told` says this of the answers of its reads.
    pub fn headline(&self)
        ensures { ReaderIsTold self.now }
    {
        // For the proof: what each of these calls says.
        self.reading.update_facts();
        self.reading.result();
        self.reading.is_settled();
        self.reading.last_change();
    }
}
