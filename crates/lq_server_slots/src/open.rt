//! An opening under the lock: the lowest free slot gets a subscription, and its seat goes out.
ghost use Rattle.std.specs.Prelude.{◌≡◌, ◌≢◌, ◌+◌, ◌<◌, ◌≤◌, ℕ, length, IfOk, OnOk, OnErr, Some, None, false};
ghost use Rattle.lq_value.specs.Refusal.{FailsOnlyForMemory};
ghost use Rattle.lq_volume.specs.Book.{Extends, state_of};
ghost use Rattle.lq_board.specs.Book.{IsFullBook};
ghost use Rattle.lq_board.specs.Meeting.{GoesOut};
ghost use Rattle.lq_board.specs.Slot.{slot_at};
ghost use Rattle.lq_board.specs.Token.{MayOpen};
ghost use Rattle.lq_server_slots.specs.Identity.{identity_of};
ghost use Rattle.lq_server_slots.specs.declared.identity.Identity.{Identity as IdentityOf};
ghost use Rattle.lq_server_slots.specs.Noted.{IsOpenedOver};
ghost use Rattle.lq_server_slots.specs.Slots.{AreConsistent, CountsOne, KnowsAsks, SameButKnown, slot_in};
ghost use Rattle.lq_desk_sub.specs.declared.slot_index.SlotIndex.{SlotIndex as IndexOf};
ghost use Rattle.lq_server_slots.specs.declared.slots.ServerSlots.{ServerSlots as SlotsOf};
ghost use Rattle.lq_server_slots.specs.Opening.{CountsOpening, IsNewSubscription, IsOpened, IsOpeningAnswer};

use crate::delivery::{Delivery, Opening};
use crate::ghost_copy::GhostCopy;
use crate::identity::{FirstClose, Identity, LastReport};
use crate::laws::new_subscriptions_stand;
use crate::reading::Reading;
use crate::server_base::Named;
use crate::server_state::ServerState;
use crate::slots::ServerSlots;
use crate::subscription::Subscription;
use lq_board::{Board, Keeper, Seat};
use lq_desk_sub::{SlotIndex, Sub};
use lq_port::make;
use lq_predicate::Predicate;
use lq_update::{OpenOptions, Rebuild, results_rise};
use lq_value::{MAX_BACKLOG, MAX_PLACES, Refusal};
use lq_volume::Volume;
use std::alloc::Global;

/// A new subscription: its reading, the seat of its slot, and its slot, 1 to 64.
#[derive(Drop)]
pub struct Opened {
    pub reading: Reading,
    pub seat: Seat<Identity>,
    pub slot: u64,
}

// A subscription over the keeper's book, and its reading end.
fn begin(
    alloc: Global,
    keeper: &Keeper<Identity>,
    volume: &Volume,
    predicate: &Predicate,
    options: &OpenOptions,
) -> Result<(Subscription, Reading), Refusal>
    requires volume { volume.now ≡ state_of keeper.now.book }
    requires full { IsFullBook keeper.now.book }
    requires port { (0 < options.now.port) × (options.now.port ≤ 1024) }
    ensures refused { FailsOnlyForMemory result }
    ensures begun { IfOk result (λ r. IsNewSubscription r.0 r.1 keeper.now.book
        predicate.now options.now.flags options.now.port options.now.backlog) }
    ensures keeper { IfOk result (λ r. r.1.port.floor.book.value ≡ keeper.now) }
{
    // For the proof: a result's nodes rise, and a new subscription stands over the book.
    results_rise();
    new_subscriptions_stand();
    let at = volume.changes();
    let entries = volume.fetch(predicate)?;
    let sub = Sub::new_by(alloc, predicate, at, options.backlog, options.flags)?;
    let opening_at = Opening {
        query: GhostCopy::of(predicate),
        flags: options.flags,
        opened: at,
        book: GhostCopy::of(keeper),
    };
    let (input, output) = make::<Delivery>(alloc, options.port, &opening_at)?;
    let slot = Subscription {
        sub,
        input,
        places: options.port,
        asks: 0,
        last_report: GhostCopy::of(&LastReport::Live {
            change: at,
            seen: 0,
        }),
        first_close: FirstClose::Never,
    };
    let reading = Reading::new(output, Rebuild::new(alloc, at, entries));
    Ok((slot, reading))
}

// The slot's seat, made for the caller's, under a name given for contracts alone, which is this
// subscription's. The keeper already knows how often the caller's seat has asked.
fn sit(
    board: &Board<Identity>,
    keeper: &mut Keeper<Identity>,
    by: &mut Seat<Identity>,
    slot: &Subscription,
    index: SlotIndex,
) -> Seat<Identity>
    ghost name: { IdentityOf }
    requires named { name ≡ identity_of slot.now }
    requires board { (keeper.old.board ≡ board.now) × (by.old.board ≡ board.now) }
    requires may { MayOpen by.old × KnowsAsks keeper.old.slots by.old }
    requires wide { length keeper.old.slots ≡ 65 }
    requires free { (slot_at keeper.old.slots (index.index + 1)).out ≡ false }
    ensures out { GoesOut keeper.old keeper.new (index.index + 1) (Some (identity_of slot.now))
        result }
    ensures by { CountsOpening keeper.old.book by.old by.new }
{
    // For the contract alone: it names the subscription, and a seat's slot is at most 64.
    let _ = slot;
    let _ = by.slot();
    board.slot_seat_by(keeper, by, index.number())
}

// Puts a subscription into a free slot, and gives out the slot's seat, made for the caller's.
fn settle(
    board: &Board<Identity>,
    slots: &mut ServerSlots,
    by: &mut Seat<Identity>,
    index: SlotIndex,
    mut slot: Subscription,
    reading: Reading,
) -> Opened
    requires board { (slots.old.keeper.board ≡ board.now) × (by.old.board ≡ board.now) }
    requires may { MayOpen by.old × KnowsAsks slots.old.keeper.slots by.old }
    requires free { slot_in slots.old.subscriptions index.index ≡ None }
    requires room { slots.old.openings < 1000000000000 }
    requires begun { IsNewSubscription slot reading slots.old.keeper.book slot.sub.held.query
        slot.sub.held.flags slot.places slot.sub.held.backlog }
    requires holding { AreConsistent slots.old slots.old.keeper.book }
    ensures counts { CountsOne slots.old slots.new }
    ensures by { CountsOpening slots.old.keeper.book by.old by.new }
    ensures holding { AreConsistent slots.new slots.new.keeper.book }
    ensures slot { result.slot ≡ index.index + 1 }
    ensures others { (i : ℕ) → i ≢ index.index
        → slot_in slots.new.subscriptions i ≡ slot_in slots.old.subscriptions i }
    ensures reading { result.reading ≡ reading }
    ensures opened { IsOpened result slots.old.keeper.board slots.old.keeper.book
        slot.sub.held.query slot.sub.held.flags slot.places slot.sub.held.backlog }
{
    let number = index.number();
    slot.asks = board.asks(&mut slots.keeper, number);
    let seat = sit(board, &mut slots.keeper, by, &slot, index);
    slots.watch.set(index, &slot.sub);
    slots.subscriptions.insert(index, slot);
    slots.openings += 1;
    Opened {
        reading,
        seat,
        slot: number,
    }
}

// The slot that an opening takes, the lowest that is free, or why it is refused before it takes
// memory: by its numbers, since no slot is free, or since `limit` openings were made.
fn slot_for(slots: &ServerSlots, limit: u64, options: &OpenOptions) -> Result<SlotIndex, Refusal>
    requires { AreConsistent slots.now slots.now.keeper.book }
    ensures answered { IsOpeningAnswer (λ (index : IndexOf). index.index + 1) slots.now limit
        options.now.port options.now.backlog result }
    ensures port { OnOk result ((0 < options.now.port) × (options.now.port ≤ 1024)) }
    ensures left { OnOk result (slots.now.openings < limit) }
{
    if options.port == 0 || options.port > MAX_PLACES {
        return Err(Refusal::BadPort);
    }
    if options.backlog > MAX_BACKLOG {
        return Err(Refusal::BadBacklog);
    }
    let Some(index) = slots.subscriptions.lowest_free() else {
        return Err(Refusal::NoSlot);
    };
    if limit <= slots.openings {
        return Err(Refusal::Exhausted);
    }
    Ok(index)
}

impl<N: Named> ServerState<N> {
    /// Opens a live query in the lowest free slot, over the book that the seat then knows. The seat
    /// records the moment of the keeper, and counts the opening.
    ///
    /// The port has `options.port` places, 1 to 1,024. At most `options.backlog` messages are held
    /// before it, up to 65,536. `options.flags` says which messages there are beside created and
    /// removed ones. Refused, the first that fits: `BadPort`, `BadBacklog`, `NoSlot` where 64 are
    /// open, `Exhausted` where the openings have reached the volume's limit on changes, `NoMemory`.
    /// A refused opening changes no slot and isn't counted.
    pub fn open(
        &mut self,
        board: &Board<Identity>,
        seat: &mut Seat<Identity>,
        predicate: &Predicate,
        options: &OpenOptions,
    ) -> Result<Opened, Refusal>
        requires board { (board.now ≡ N.board) × (seat.old.board ≡ N.board) }
        requires may { MayOpen seat.old }
        ensures book { self.new.slots.keeper.book ≡ self.old.slots.keeper.book }
        ensures seat { seat.new ≡ record seat.old {
          book = self.old.slots.keeper.book;
          moments = seat.new.moments;
          openings = seat.new.openings;
        } }
        ensures given { OnOk result (seat.new.openings ≡ seat.old.openings + 1) }
        ensures none { OnErr result (seat.new.openings ≡ seat.old.openings) }
        ensures seats { self.new.seats ≡ self.old.seats }
        ensures later { Extends seat.new.book seat.old.book }
        ensures opened { IfOk result (λ o.
            IsOpened o N.board seat.new.book predicate.now options.now.flags
            options.now.port options.now.backlog) }
        ensures counted { OnOk result (self.new.slots.openings ≡ self.old.slots.openings + 1) }
        ensures err { OnErr result (SameButKnown self.old.slots self.new.slots) }
        ensures others { IfOk result (λ o. (i : ℕ) → i + 1 ≢ o.slot
            → slot_in self.new.slots.subscriptions i ≡ slot_in self.old.slots.subscriptions i) }

        // The first refusal that fits and no other, or the lowest free slot, by the keeper whose
        // moment the seat has recorded.
        ensures over { (under : SlotsOf) × SameButKnown self.old.slots under
            × IsOpenedOver under N.start seat.old seat.new options.now.port options.now.backlog
            result }
    {
        self.meet_and_record(board, seat);
        let index = slot_for(&self.slots, self.volume.limit(), options)?;
        let keeper = &self.slots.keeper;
        let (slot, reading) = begin(self.alloc, keeper, &self.volume, predicate, options)?;
        Ok(settle(board, &mut self.slots, seat, index, slot, reading))
    }
}
