//! A reader's sync under the lock, and how a slot's seat meets the keeper.
ghost use Rattle.std.specs.Prelude.{◌≡◌, ◌+◌, ◌<◌, ℕ, [], ◌∷◌, ◌++◌, length, IsSome, IsSomeAnd, Some};
ghost use Rattle.lq_volume.specs.Book.{Extends};
ghost use Rattle.lq_board.specs.Author.{HasHeard};
ghost use Rattle.lq_board.specs.Token.{moment_of};
ghost use Rattle.lq_server_slots.specs.Identity.{identity_of};
ghost use Rattle.lq_server_slots.specs.Standing.{report_of};
ghost use Rattle.lq_server_slots.specs.declared.subscription.Subscription.{Subscription as SubscriptionOf};
ghost use Rattle.lq_server_slots.specs.declared.identity.Identity.{Identity as IdentityOf};
ghost use Rattle.lq_server_slots.specs.Slots.{AreConsistent, KeepsSlots, KnowsAsks, IsSlotMet, OthersStay, SameButKnown, slot_in};
ghost use Rattle.lq_server_slots.specs.Opening.{IdentityFits};
ghost use Rattle.lq_server_slots.specs.Progress.{ShowsProgress};

use crate::fill_port::drain;
use crate::ghost_copy::GhostCopy;
use crate::identity::{Identity, LastReport};
use crate::reading::Reading;
use crate::server_base::Named;
use crate::server_state::ServerState;
use crate::slots::{ServerSlots, notice_slot};
use crate::subscription::Subscription;
use lq_board::{Board, Keeper, Seat};
use lq_desk_sub::SlotIndex;
use lq_update::Mark;
use std::sync::Wait;

/// The progress of a subscription: the number of changes so far, the parcels in its port, the
/// messages held, its mark, and whether the mark was put.
#[derive(Clone, Copy)]
pub struct Progress {
    pub change: u64,
    pub waiting: u64,
    pub held: u64,
    pub mark: Option<Mark>,
    pub out: bool,
}

// The number of changes in the keeper's book, which a slot's seat then knows. The seat gets a name
// given for contracts alone, which is this subscription's.
pub(crate) fn refresh_slot(
    board: &Board<Identity>,
    keeper: &mut Keeper<Identity>,
    seat: &mut Seat<Identity>,
    slot: &Subscription,
) -> u64
    ghost name: { IdentityOf }
    requires board { (keeper.old.board ≡ board.now) × (seat.old.board ≡ board.now) }
    requires place { (0 < seat.old.slot) × (seat.old.slot < 65)
        × (length keeper.old.slots ≡ 65) }
    requires named { name ≡ identity_of slot.now }
    ensures { IsSlotMet keeper.old keeper.new seat.old seat.new (Some (identity_of slot.now))
        result }
{
    // For the contract alone, which names the subscription.
    let _ = slot;
    board.meet_slot(keeper, seat)
}

// As `refresh_slot`, for the subscription in the seat's slot, which is taken. The seat keeps its
// name.
pub(crate) fn refresh(
    board: &Board<Identity>,
    slots: &mut ServerSlots,
    seat: &mut Seat<Identity>,
) -> u64
    requires board { (slots.old.keeper.board ≡ board.now) × (seat.old.board ≡ board.now) }
    requires seat { 0 < seat.old.slot }
    requires holding { AreConsistent slots.old slots.old.keeper.book }
    ensures met { IsSlotMet slots.old.keeper slots.new.keeper seat.old seat.new seat.old.name
        result }
    ensures same { SameButKnown slots.old slots.new }
    ensures register { slots.new.keeper.register ≡ slots.old.keeper.register }
    ensures holding { AreConsistent slots.new slots.new.keeper.book }
    ensures taken { (i : ℕ) → i + 1 ≡ seat.old.slot
        → IsSome (slot_in slots.new.subscriptions i) }
{
    // For the proof: this call says that the slot is one of 64, and that the seat has a name.
    let _ = seat.slot();
    board.meet_slot(&mut slots.keeper, seat)
}

// The keeper hears of all requests that the seat has heard of. It has met a slot's seat before, so
// all slots stay.
pub(crate) fn hear_at(board: &Board<Identity>, slots: &mut ServerSlots, seat: &mut Seat<Identity>)
    requires board { (slots.old.keeper.board ≡ board.now) × (seat.old.board ≡ board.now) }
    requires known { KnowsAsks slots.old.keeper.slots seat.old }
    requires holding { AreConsistent slots.old slots.old.keeper.book }
    ensures keeps { KeepsSlots slots.old slots.new }
    ensures slots { slots.new.keeper.slots ≡ slots.old.keeper.slots }
    ensures subscriptions { slots.new.subscriptions ≡ slots.old.subscriptions }
    ensures seat { seat.new ≡ record seat.old { book = seat.new.book } }
    ensures heard { HasHeard slots.new.keeper.register.heard seat.old.author.heard }
    ensures later { Extends seat.new.book seat.old.book }
{
    // For the proof: this call says that the slot is one of 64, or 0.
    let _ = seat.slot();
    board.hear(&mut slots.keeper, seat);
}

// The seat meets the keeper, which has met a slot's seat before, and records this moment of it.
pub(crate) fn record_at(board: &Board<Identity>, slots: &mut ServerSlots, seat: &mut Seat<Identity>)
    requires board { (slots.old.keeper.board ≡ board.now) × (seat.old.board ≡ board.now) }
    requires known { KnowsAsks slots.old.keeper.slots seat.old }
    requires holding { AreConsistent slots.old slots.old.keeper.book }
    ensures keeps { KeepsSlots slots.old slots.new }
    ensures slots { slots.new.keeper.slots ≡ slots.old.keeper.slots }
    ensures subscriptions { slots.new.subscriptions ≡ slots.old.subscriptions }
    ensures seat { seat.new ≡ record seat.old {
      book = slots.old.keeper.book;
      moments = seat.old.moments ++ moment_of slots.new.keeper ∷ [];
    } }
    ensures later { Extends seat.new.book seat.old.book }
{
    // For the proof: this call says that the slot is one of 64, or 0.
    let _ = seat.slot();
    board.meet_and_record(&mut slots.keeper, seat);
}

// What a sync answers its reader after this many changes, where this many parcels were taken: that
// the subscription is live, or how it ended.
fn report_after(change: u64, seen: u64, mark: Option<Mark>) -> LastReport
    ensures { result ≡ report_of change seen mark }
{
    match mark {
        None => LastReport::Live { change, seen },
        Some(mark) => LastReport::Ended(mark),
    }
}

// A sync of the subscription of a slot's seat.
fn sync_at<R: Wait>(
    rt: &R,
    board: &Board<Identity>,
    slots: &mut ServerSlots,
    seat: &mut Seat<Identity>,
    reading: &mut Reading,
) -> Progress
    requires board { (slots.old.keeper.board ≡ board.now) × (seat.old.board ≡ board.now) }
    requires seat { (0 < seat.old.slot)
        × IsSomeAnd seat.old.name (λ t. IdentityFits t reading.old.port) }
    requires holding { AreConsistent slots.old slots.old.keeper.book }
    ensures keeps { KeepsSlots slots.old slots.new }
    ensures others { OthersStay slots.old slots.new seat.old.slot }
    ensures seat { seat.new.book ≡ slots.old.keeper.book }
    ensures progress { (s : SubscriptionOf)
        × ShowsProgress s seat.old seat.new reading.old reading.new result }
{
    let number = refresh(board, slots, seat);
    let Some(index) = SlotIndex::of(seat.slot()) else {
        unreachable!()
    };
    let Some(taken) = slots.subscriptions.get_mut(index) else {
        unreachable!()
    };
    let keeper = &mut slots.keeper;
    notice_slot(board, keeper, taken, index, number);
    let waiting = drain(rt, keeper, taken, reading);
    let mark = taken.sub.mark();
    taken.last_report = GhostCopy::of(&report_after(number, reading.taken(), mark));
    refresh_slot(board, keeper, seat, taken);
    Progress {
        change: number,
        waiting,
        held: taken.sub.held(),
        mark,
        out: taken.sub.is_marked(),
    }
}

impl<N: Named> ServerState<N> {
    /// The progress of a reader's subscription. Its port is filled, and the seat knows the book.
    ///
    /// First the subscription ends as hung up where its reader asked for that. The other slots stay
    /// as they are. It takes no memory.
    pub fn sync<R: Wait>(
        &mut self,
        rt: &R,
        board: &Board<Identity>,
        seat: &mut Seat<Identity>,
        reading: &mut Reading,
    ) -> Progress
        requires board { (board.now ≡ N.board) × (seat.old.board ≡ N.board) }
        requires seat { (0 < seat.old.slot)
            × IsSomeAnd seat.old.name (λ t. IdentityFits t reading.old.port) }
        ensures same { self.new.slots.keeper.book ≡ self.old.slots.keeper.book }
        ensures openings { self.new.slots.openings ≡ self.old.slots.openings }
        ensures seats { self.new.seats ≡ self.old.seats }
        ensures book { seat.new.book ≡ self.old.slots.keeper.book }
        ensures others { OthersStay self.old.slots self.new.slots seat.old.slot }
        ensures progress { (s : SubscriptionOf)
            × ShowsProgress s seat.old seat.new reading.old reading.new result }
    {
        sync_at(rt, board, &mut self.slots, seat, reading)
    }
}
