//! What is under the server's lock: volume, keeper and slots, which agree. Each call is one hold of
//! the lock; those for changes and subscriptions are in `apply_change`, `open`, `sync` and `close`.
ghost use Rattle.std.specs.Prelude.{◌≡◌, ◌+◌, ◌-◌, ◌<◌, ◌≤◌, [], ◌∷◌, ◌++◌, length, true, OnOk, OnErr};
ghost use Rattle.lq_volume.specs.Book.{Extends, state_of};
ghost use Rattle.lq_board.specs.Author.{HasHeard};
ghost use Rattle.lq_board.specs.Token.{moment_of};
ghost use Rattle.lq_server_slots.specs.Slots.{SameButKnown, IsState, KnowsAsks};
ghost use Rattle.lq_server_slots.specs.Leading.{GivesSeat};
ghost use Rattle.lq_server_slots.specs.Own.{StaysOwn};

use crate::identity::Identity;
use crate::server_base::Named;
use crate::slots::ServerSlots;
use crate::sync::{hear_at, record_at, refresh};
use lq_board::{Board, Keeper, Seat};
use lq_value::{Entry, Refusal};
use lq_volume::Volume;
use std::alloc::Global;
use std::marker::{Model, PhantomData};

/// The most seats that are out at the same time.
const MAX_SEATS: u64 = 16;

/// The entries that match a predicate after `at` changes, by rising node.
#[derive(Drop)]
pub struct Found {
    pub at: u64,
    pub entries: Vec<Entry>,
}

/// The volume, the subscriptions and the keeper of N's board.
///
/// A contract sees the slots, with the keeper and its book, the subscriptions and the number of
/// openings, and how many seats of no slot are out, which the keeper's register counts too.
pub struct ServerState<N: Named> {
    pub(crate) slots: ServerSlots,
    pub(crate) volume: Volume,
    pub(crate) seats: u64,
    pub(crate) alloc: Global,
    of: PhantomData<N>,
}

impl<N: Named> Drop for ServerState<N> {
    fn drop(self) {
        let ServerState {
            slots: _,
            volume: _,
            seats: _,
            alloc: _,
            of: _,
        } = self;
    }
}

impl<N: Named> Model for ServerState<N> {
    ghost use Rattle.std.specs.Coded.{codes};
    ghost use Rattle.lq_server_slots.specs.contracts.slots.ServerSlots as some_slots;
    ghost use Rattle.lq_server_slots.specs.Hold.{LockHold};
    ghost use Rattle.lq_server_slots.specs.Slots.{IsState};

    ghost Value = { LockHold };

    ghost coded = { Prim.hlevel (codes, some_slots.the_row.coded) };

    ghost view = { λ l. record { slots = l.slots; seats = l.seats } };

    ghost invariant = { λ l. IsState N.board N.start l.slots l.volume l.seats };
}

impl<N: Named> ServerState<N> {
    /// The state under the lock of a new server: this many seats are out.
    pub(crate) fn new(
        alloc: Global,
        slots: ServerSlots,
        volume: Volume,
        seats: u64,
    ) -> ServerState<N>
        requires { IsState N.board N.start slots volume seats }
        ensures slots { result.slots ≡ slots }
        ensures seats { result.seats ≡ seats }
    {
        ServerState {
            slots,
            volume,
            seats,
            alloc,
            of: PhantomData,
        }
    }

    /// The volume, which is the state after the keeper's book.
    pub fn volume(&self) -> &Volume
        ensures { result.now ≡ state_of self.now.slots.keeper.book }
    {
        &self.volume
    }

    /// A seat that knows the book and made no change, and may make changes.
    /// Refused: `NoSeat`, just where 16 seats are out. It takes no memory.
    pub fn seat(&mut self, board: &Board<Identity>) -> Result<Seat<Identity>, Refusal>
        requires board { board.now ≡ N.board }
        requires uncounted { N.board.free ≡ true }
        ensures { GivesSeat N.board N.start self.old self.new result }
    {
        if self.seats >= MAX_SEATS {
            return Err(Refusal::NoSeat);
        }
        self.seats += 1;
        Ok(board.seat(&mut self.slots.keeper))
    }

    /// As `seat`, made for the leading seat, which counts it. Refused only where at least 15 were
    /// made for that seat, which then knows the book, given or refused.
    pub fn seat_by(
        &mut self,
        board: &Board<Identity>,
        head: &mut Seat<Identity>,
    ) -> Result<Seat<Identity>, Refusal>
        requires board { (board.now ≡ N.board) × (head.old.board ≡ N.board) }
        requires leads { (head.old.slot ≡ 0) × (head.old.author.leads ≡ true) }
        ensures gives { GivesSeat N.board N.start self.old self.new result }
        ensures head { head.new ≡ record head.old {
          book = self.old.slots.keeper.book;
          seats = head.new.seats;
        } }
        ensures given { OnOk result (head.new.seats ≡ head.old.seats + 1) }
        ensures none { OnErr result (head.new.seats ≡ head.old.seats) }
        ensures few { OnErr result (15 ≤ head.old.seats) }
        ensures later { Extends head.new.book head.old.book }
    {
        // For the proof: the leading seat counts each seat that is out, but for itself.
        board.meet(&mut self.slots.keeper, head);
        if self.seats >= MAX_SEATS {
            return Err(Refusal::NoSeat);
        }
        self.seats += 1;
        Ok(board.seat_by(&mut self.slots.keeper, head))
    }

    /// Takes a seat back, so that another can be given out. It takes no memory.
    pub fn give_back(&mut self, board: &Board<Identity>, seat: Seat<Identity>)
        requires { (board.now ≡ N.board) × (seat.board ≡ N.board) × (seat.slot ≡ 0) }
        ensures same { SameButKnown self.old.slots self.new.slots }
        ensures later { Extends self.old.slots.keeper.book seat.book }
        ensures out { self.new.seats ≡ self.old.seats - 1 }
    {
        board.join(&mut self.slots.keeper, seat);
        self.seats = self.seats.saturating_sub(1);
    }

    /// The number of changes in the book, which the seat then knows. It takes no memory.
    ///
    /// It may be the seat of a slot. Nothing else of the seat changes.
    pub fn meet(&mut self, board: &Board<Identity>, seat: &mut Seat<Identity>) -> u64
        requires { (board.now ≡ N.board) × (seat.old.board ≡ N.board) }
        ensures same { SameButKnown self.old.slots self.new.slots }
        ensures plain { seat.old.slot ≡ 0 → self.new ≡ self.old }
        ensures seat { seat.new ≡ record seat.old { book = self.old.slots.keeper.book } }
        ensures known { KnowsAsks self.new.slots.keeper.slots seat.old }
        ensures own { StaysOwn seat.old seat.new }
        ensures later { Extends seat.new.book seat.old.book }
        ensures number { result ≡ length self.old.slots.keeper.book.changes }
        ensures seats { self.new.seats ≡ self.old.seats }
        ensures heard { self.new.slots.keeper.register.heard
            ≡ self.old.slots.keeper.register.heard }
    {
        if seat.slot() == 0 {
            return board.meet(&mut self.slots.keeper, seat);
        }
        refresh(board, &mut self.slots, seat)
    }

    /// As `meet` for the seat of a slot. Another stays as it is.
    pub(crate) fn meet_slot(&mut self, board: &Board<Identity>, seat: &mut Seat<Identity>)
        requires { (board.now ≡ N.board) × (seat.old.board ≡ N.board) }
        ensures same { SameButKnown self.old.slots self.new.slots }
        ensures seat { seat.new ≡ record seat.old { book = seat.new.book } }
        ensures known { KnowsAsks self.new.slots.keeper.slots seat.old }
        ensures later { Extends seat.new.book seat.old.book }
        ensures seats { self.new.seats ≡ self.old.seats }
    {
        if seat.slot() > 0 {
            self.meet(board, seat);
        }
    }

    /// The keeper hears of all requests that the seat has heard of. It knows how often the seat of
    /// a slot has asked.
    pub(crate) fn hear(&mut self, board: &Board<Identity>, seat: &mut Seat<Identity>)
        requires board { (board.now ≡ N.board) × (seat.old.board ≡ N.board) }
        requires known { KnowsAsks self.old.slots.keeper.slots seat.old }
        ensures same { SameButKnown self.old.slots self.new.slots }
        ensures seat { seat.new ≡ record seat.old { book = seat.new.book } }
        ensures known { KnowsAsks self.new.slots.keeper.slots seat.old }
        ensures heard { HasHeard self.new.slots.keeper.register.heard seat.old.author.heard }
        ensures later { Extends seat.new.book seat.old.book }
        ensures seats { self.new.seats ≡ self.old.seats }
    {
        if seat.has_heard() {
            hear_at(board, &mut self.slots, seat);
        }
    }

    /// As `meet`, and the seat records this moment of the keeper. The keeper knows how often the
    /// seat of a slot has asked, so all slots stay.
    pub(crate) fn record(&mut self, board: &Board<Identity>, seat: &mut Seat<Identity>)
        requires board { (board.now ≡ N.board) × (seat.old.board ≡ N.board) }
        requires known { KnowsAsks self.old.slots.keeper.slots seat.old }
        ensures same { SameButKnown self.old.slots self.new.slots }
        ensures slots { self.new.slots.keeper.slots ≡ self.old.slots.keeper.slots }
        ensures seat { seat.new ≡ record seat.old {
          book = self.old.slots.keeper.book;
          moments = seat.old.moments ++ moment_of self.new.slots.keeper ∷ [];
        } }
        ensures later { Extends seat.new.book seat.old.book }
        ensures seats { self.new.seats ≡ self.old.seats }
    {
        record_at(board, &mut self.slots, seat);
    }

    /// As `meet`, and the seat records this moment of the keeper, for contracts alone.
    pub fn meet_and_record(&mut self, board: &Board<Identity>, seat: &mut Seat<Identity>)
        requires { (board.now ≡ N.board) × (seat.old.board ≡ N.board) }
        ensures same { SameButKnown self.old.slots self.new.slots }
        ensures seat { seat.new ≡ record seat.old {
          book = self.old.slots.keeper.book;
          moments = seat.old.moments ++ moment_of self.new.slots.keeper ∷ [];
        } }
        ensures known { KnowsAsks self.new.slots.keeper.slots seat.old }
        ensures later { Extends seat.new.book seat.old.book }
        ensures seats { self.new.seats ≡ self.old.seats }
    {
        self.meet(board, seat);
        board.record_moment(&mut self.slots.keeper, seat);
    }

    /// The keeper and the volume.
    pub fn into_parts(self) -> (Keeper<Identity>, Volume)
        ensures board { result.0.board ≡ N.board }
        ensures book { result.0.book ≡ self.slots.keeper.book }
        ensures start { self.slots.keeper.book.start ≡ N.start }
        ensures state { result.1 ≡ state_of self.slots.keeper.book }
        ensures limit { result.1.limit ≡ N.start.limit }
    {
        let ServerState {
            slots,
            volume,
            seats: _,
            alloc: _,
            of: _,
        } = self;
        let ServerSlots { keeper, .. } = slots;
        (keeper, volume)
    }
}
