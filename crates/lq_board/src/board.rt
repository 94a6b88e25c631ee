//! Makes a board and its tokens, and reads its words: a thread learns the number of changes, or
//! asks for an end, without the lock.
ghost use Rattle.std.specs.Prelude.{◌≡◌, ◌+◌, ◌<◌, ◌≤◌, [], length, slice_index, IfOk, true, false, Some};
ghost use Rattle.lq_value.specs.Refusal.{FailsOnlyForMemory};
ghost use Rattle.lq_volume.specs.Book.{Extends};
ghost use Rattle.lq_board.specs.Author.{IsWhole, leader, leader_register, no_register, with_seat, come_home};
ghost use Rattle.lq_board.specs.Book.{IsFullBook};
ghost use Rattle.lq_board.specs.Meeting.{GoesOut, WasOut};
ghost use Rattle.lq_board.specs.Slot.{unused_slots, slot_at, come_back, counted};
ghost use Rattle.lq_board.specs.Token.{counted_board, slotless_token, new_seat_of};

use crate::token_views::{Law, TokenView};
use crate::tokens::{Keeper, Seat};
use crate::word_steps::{Ask, Back, Count, Home, Lead, See};
use atomic_table::Table;
use lq_value::Refusal;
use lq_volume::Volume;
use std::alloc::Global;
use std::marker::{Brand, Model};

/// One word for the number of changes, and one for each of 64 slots.
const WORDS: usize = 65;

/// The words beside a lock: the number of changes, and how often each slot's seat has asked.
///
/// Its calls take `&self`, so threads can share it. Contracts see which board it is, and whether
/// each seat may make changes, or just those that its leading seat enlists.
///
/// ```rattle
/// use lq_board::{Board, Keeper};
/// use lq_value::{Kind, Name};
/// use lq_volume::{Change, Volume};
///
/// let volume = Volume::new(alloc, 1000);
/// let (board, mut keeper): (Board<u64>, Keeper<u64>) = Board::new(alloc, &volume)?;
/// let mut seat = board.seat(&mut keeper);
/// let name = Name::read(alloc, "notes.txt")?;
/// let create = Change::Create { dir: 1, name, kind: Kind::File, size: 200, time: 0 };
/// volume.check(&create)?;
/// assert!(rt; board.add(&mut keeper, &create) == 1);
/// assert!(rt; board.latest(&mut seat) == 1);
/// ```
#[derive(Drop)]
pub struct Board<M> {
    pub(crate) table: Table<u8, TokenView<M>, Volume, Law, Global>,
    free: bool,
}

impl<M> Model for Board<M> {
    ghost use Rattle.std.specs.Prelude.{◌≡◌};
    ghost use Rattle.lq_board.specs.Token.{BoardName};

    ghost Value = { BoardName };

    ghost view = { λ b. record { table = b.table.shared.table_id; free = b.free } };

    ghost invariant = { λ b. (b.table.shared.table_id.words ≡ 65)
        × (b.table.shared.table_id.slots ≡ 0) };
}

impl<M> Board<M> {
    /// A board for a volume that has no changes yet, and its keeper, whose book is empty.
    ///
    /// No slot's seat is out. Each seat may make changes, until `lead`. Refused: `NoMemory`.
    pub fn new(alloc: Global, volume: &Volume) -> Result<(Board<M>, Keeper<M>), Refusal>
        requires first { volume.now.number ≡ 0 }
        ensures board { IfOk result (λ made. made.1.board ≡ made.0) }
        ensures book { IfOk result (λ made.
            made.1.book ≡ record { start = volume.now; changes = [] }) }
        ensures slots { IfOk result (λ made. made.1.slots ≡ unused_slots) }
        ensures register { IfOk result (λ made. made.1.register ≡ no_register) }
        ensures free { IfOk result (λ made. made.0.free ≡ true) }
        ensures full { IfOk result (λ made. IsFullBook made.1.book) }
        ensures refused { FailsOnlyForMemory result }
    {
        // For the proof: this call says that the volume is a tree within its limit.
        let _ = volume.changes();
        let (table, token) = Table::of_words(alloc, &[0; WORDS], volume)?;
        Ok((Board { table, free: true }, Keeper { token }))
    }

    /// The first seat, which leads: from then on a seat may make changes just while it is enlisted.
    ///
    /// It is of no slot, and knows the keeper's book, which has no changes. It takes no memory.
    pub fn lead(&mut self, keeper: &mut Keeper<M>) -> Seat<M>
        requires board { keeper.old.board ≡ self.old }
        requires first { keeper.old.register ≡ no_register }
        ensures board { self.new ≡ counted_board self.old }
        ensures seat { result ≡ slotless_token self.new keeper.old.book leader }
        ensures full { IsFullBook result.book }
        ensures keeper { keeper.new ≡ record keeper.old {
          board = self.new;
          register = leader_register;
        } }
    {
        let token = self.table.shared.split_seat::<Lead>(&mut keeper.token);
        self.free = false;
        Seat {
            token: Some(token),
            slot: 0,
            has_heard: false,
        }
    }

    /// A seat of no slot, with a new number, which knows the keeper's book and has recorded this
    /// moment of the keeper. It takes no memory.
    ///
    /// It may make changes. Where a seat leads, `seat_by` gives out seats.
    pub fn seat(&self, keeper: &mut Keeper<M>) -> Seat<M>
        requires board { keeper.old.board ≡ self.now }
        requires uncounted { self.now.free ≡ true }
        ensures seat { result ≡ new_seat_of keeper.old }
        ensures signs { result.author.signs ≡ keeper.old.board.free }
        ensures full { IsFullBook result.book }
        ensures keeper { keeper.new ≡ record keeper.old {
          register = with_seat keeper.old.register;
        } }
    {
        self.slotless_seat(keeper)
    }

    /// The seat of a slot, 1 to 64, under the name that the caller gives for contracts alone.
    ///
    /// It has a new number, and knows the keeper's book and how often the slot's seats have asked.
    /// It may make changes. No other seat of the slot may be out. Where a seat leads,
    /// `slot_seat_by` gives out a slot's seat. It takes no memory.
    pub fn slot_seat(&self, keeper: &mut Keeper<M>, slot: u64) -> Seat<M>
        ghost name: { M }
        requires board { keeper.old.board ≡ self.now }
        requires slot { (0 < slot) × (slot < 65) }
        requires free { (slot_at keeper.old.slots slot).out ≡ false }
        requires uncounted { self.now.free ≡ true }
        ensures out { GoesOut keeper.old keeper.new slot (Some name) result }
    {
        Seat {
            token: Some(self.slot_token::<Brand>(keeper, slot)),
            slot,
            has_heard: false,
        }
    }

    /// Takes a seat back. The keeper then knows how often it has asked, and that one seat less is
    /// out. It takes no memory.
    ///
    /// The keeper's book extends the seat's. A slot's seat was out under the name that the keeper
    /// knew, and had asked at least as often as the keeper knew. Where it leads and no seat is
    /// enlisted, it has gathered all changes. The seat's number is not given out again.
    pub fn join(&self, keeper: &mut Keeper<M>, seat: Seat<M>)
        requires board { (keeper.old.board ≡ self.now) × (seat.board ≡ self.now) }
        ensures keeper { keeper.new ≡ record keeper.old {
          slots = come_back keeper.old.slots seat.slot seat.asks seat.name;
          register = come_home keeper.old.register seat.slot;
        } }
        ensures whole { IsWhole seat.author (length keeper.old.book.changes) }
        ensures later { Extends keeper.old.book seat.book }
        ensures was_out { 0 < seat.slot → WasOut keeper.old.slots seat }
    {
        let Seat {
            token,
            slot: _,
            has_heard: _,
        } = seat;
        self.table
            .shared
            .join_seat::<Back>(&mut keeper.token, token.unwrap());
        // For the proof: this read tells what holds for the seat, and counts it.
        self.table.shared.load::<Home>(&mut keeper.token, 0);
    }

    /// How often a slot's seats have asked. The keeper then knows it. It takes no memory.
    ///
    /// The answer is at least what the keeper knew, and at least what it has heard of. It is what
    /// the keeper knew where no seat of the slot is out.
    pub fn asks(&self, keeper: &mut Keeper<M>, slot: u64) -> u64
        requires board { keeper.old.board ≡ self.now }
        requires slot { (0 < slot) × (slot < 65) }
        ensures known { (slot_at keeper.old.slots slot).asks ≤ result }
        ensures heard { slice_index keeper.old.register.heard slot ≤ result }
        ensures idle { (slot_at keeper.old.slots slot).out ≡ false
            → result ≡ (slot_at keeper.old.slots slot).asks }
        ensures keeper { keeper.new ≡ record keeper.old {
          slots = counted keeper.old.slots slot result;
        } }
    {
        self.table
            .shared
            .load::<Count>(&mut keeper.token, slot as usize)
    }

    /// The number of changes in a book that the seat then knows, which extends what it knew.
    ///
    /// Where it leads and no seat is enlisted, it has gathered all of them. It neither waits nor
    /// takes memory.
    pub fn latest(&self, seat: &mut Seat<M>) -> u64
        requires board { seat.old.board ≡ self.now }
        ensures number { result ≡ length seat.new.book.changes }
        ensures later { Extends seat.new.book seat.old.book }
        ensures full { IsFullBook seat.new.book }
        ensures whole { IsWhole seat.new.author result }
        ensures seat { seat.new ≡ record seat.old { book = seat.new.book } }
    {
        let mut token = seat.token.take().unwrap();
        let number = self.table.shared.load::<See>(&mut token, 0);
        seat.token = Some(token);
        number
    }

    /// Records that a slot's seat asks once more. The keeper knows it once it meets the seat.
    ///
    /// The seat must have asked fewer than 1,000,000,000,000 times before. It neither waits nor
    /// takes memory.
    pub fn ask(&self, seat: &mut Seat<M>)
        requires board { seat.old.board ≡ self.now }
        requires slot { 0 < seat.old.slot }
        requires room { seat.old.asks < 1000000000000 }
        ensures seat { seat.new ≡ record seat.old { asks = seat.old.asks + 1 } }
    {
        let slot = seat.slot as usize;
        let mut token = seat.token.take().unwrap();
        self.table.shared.fetch_add::<Ask>(&mut token, slot, 1);
        seat.token = Some(token);
    }

    /// The number of all changes, at the end of the board. It takes no memory.
    ///
    /// Where the seat leads and no seat is enlisted, it has gathered all of them.
    pub fn close_with(self, mut keeper: Keeper<M>, seat: Seat<M>) -> u64
        requires board { (keeper.board ≡ self) × (seat.board ≡ self) }
        ensures number { result ≡ length keeper.book.changes }
        ensures later { Extends keeper.book seat.book }
        ensures full { IsFullBook keeper.book }
        ensures whole { IsWhole seat.author result }
    {
        self.join(&mut keeper, seat);
        let Keeper { token } = keeper;
        let Board { table, free: _ } = self;
        let closed = table.close_with(token);
        let number = closed.word(0);
        closed.free();
        number
    }
}
