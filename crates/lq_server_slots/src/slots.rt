//! The slots under the lock, and the passes over them that end subscriptions and fill ports.
ghost use Rattle.std.specs.Prelude.{◌≡◌, ◌+◌, ◌<◌, ◌≤◌, ℕ, length, IsSome, IfOk, slice_index};
ghost use Rattle.lq_value.specs.Refusal.{FailsOnlyForMemory};
ghost use Rattle.lq_board.specs.Slot.{slot_at, counted};
ghost use Rattle.lq_server_slots.specs.Standing.{SameButHeld};
ghost use Rattle.lq_server_slots.specs.Marking.{MarkCovers};
ghost use Rattle.lq_server_slots.specs.Turn.{AllNoticed, AllPut, known_subscription, after_notice};
ghost use Rattle.lq_server_slots.specs.Slots.{IsTakenSlot, AreConsistent, KeepsBook, KeepsSlots, IsNoticed, IsServed, KnowsHeard, MarksCover, SlotsAre};

use crate::fill_port::fill;
use crate::identity::Identity;
use crate::subscription::{Subscription, notice};
use lq_board::{Board, Keeper};
use lq_desk_sub::{SlotIndex, SlotTable, Visit, Watch};
use lq_value::Refusal;
use std::alloc::Global;
use std::sync::Wait;

/// The subscriptions in the slots, what the keeper knows of the slots, and the number of openings
/// so far.
#[derive(Drop)]
pub struct ServerSlots {
    pub keeper: Keeper<Identity>,
    pub subscriptions: SlotTable<Subscription>,
    /// Which subscriptions a change may have messages for.
    pub watch: Watch,
    pub openings: u64,
}

impl ServerSlots {
    ghost use Rattle.lq_board.specs.Slot.{unused_slots};

    /// 64 free slots, with a keeper that has no slot's seat out. Refused: `NoMemory`.
    pub fn new(alloc: Global, keeper: Keeper<Identity>) -> Result<ServerSlots, Refusal>
        requires unused { keeper.slots ≡ unused_slots }
        ensures refused { FailsOnlyForMemory result }
        ensures keeper { IfOk result (λ slots. slots.keeper ≡ keeper) }
        ensures openings { IfOk result (λ slots. slots.openings ≡ 0) }
        ensures holding { IfOk result (λ slots. AreConsistent slots keeper.book) }
    {
        let subscriptions = SlotTable::new(alloc)?;
        Ok(ServerSlots {
            keeper,
            subscriptions,
            watch: Watch::new(),
            openings: 0,
        })
    }
}

/// Ends a subscription where its reader asked for that, and answers how often its slot's seats have
/// asked.
pub(crate) fn notice_slot(
    board: &Board<Identity>,
    keeper: &mut Keeper<Identity>,
    slot: &mut Subscription,
    index: SlotIndex,
    number: u64,
) -> u64
    requires board { keeper.old.board ≡ board.now }
    requires known { length keeper.old.slots ≡ 65 }
    requires number { number ≡ length keeper.old.book.changes }
    requires taken { IsTakenSlot slot.old (slot_at keeper.old.slots (index.index + 1))
        keeper.old.book }
    ensures keeper { KeepsBook keeper.old keeper.new (index.index + 1) }
    ensures slots { keeper.new.slots ≡ counted keeper.old.slots (index.index + 1) result }
    ensures asks { (slot_at keeper.old.slots (index.index + 1)).asks ≤ result }
    ensures heard { slice_index keeper.old.register.heard (index.index + 1)
        ≤ (slot_at keeper.new.slots (index.index + 1)).asks }
    ensures register { keeper.new.register ≡ keeper.old.register }
    ensures taken { IsTakenSlot slot.new (slot_at keeper.new.slots (index.index + 1))
        keeper.new.book }
    ensures ended { slot.old.asks < result → IsSome slot.new.sub.held.mark }
    ensures noticed { IsNoticed slot.new (slot_at keeper.new.slots (index.index + 1)) }
    ensures others { SameButHeld slot.old slot.new × (slot.new.first_close ≡ slot.old.first_close) }
    ensures mark { MarkCovers number slot.old.sub.held.mark slot.new.sub.held.mark }
    ensures shown { known_subscription slot.new (slot_at keeper.new.slots (index.index + 1))
        ≡ after_notice keeper.old.book (known_subscription slot.old
        (slot_at keeper.new.slots (index.index + 1))) }
{
    let asks = board.asks(keeper, index.number());
    let hang_up_asked = asks > slot.asks;
    notice(slot, hang_up_asked, number);
    asks
}

/// Ends each subscription whose reader asked for that. Its mark covers the changes so far.
pub(crate) fn notice_all(board: &Board<Identity>, slots: &mut ServerSlots, number: u64)
    requires board { slots.old.keeper.board ≡ board.now }
    requires number { number ≡ length slots.old.keeper.book.changes }
    requires holding { AreConsistent slots.old slots.old.keeper.book }
    ensures keeps { KeepsSlots slots.old slots.new }
    ensures noticed { SlotsAre IsNoticed slots.new.subscriptions slots.new.keeper.slots }
    ensures heard { KnowsHeard slots.old.keeper.register.heard slots.new.subscriptions
        slots.new.keeper.slots }
    ensures same { slots.new.keeper.register.heard ≡ slots.old.keeper.register.heard }
    ensures rises { (k : ℕ) → (slot_at slots.old.keeper.slots k).asks
        ≤ (slot_at slots.new.keeper.slots k).asks }
    ensures marks { MarksCover number slots.old.subscriptions slots.new.subscriptions }
    ensures watch { slots.new.watch ≡ slots.old.watch }
    ensures shown { AllNoticed slots.old.keeper.book slots.old.subscriptions
        slots.new.subscriptions slots.new.keeper.slots }
{
    let mut rest = slots.subscriptions.taken();
    while let Some(index) = rest.pop_lowest() {
        if let Some(slot) = slots.subscriptions.get_mut(index) {
            notice_slot(board, &mut slots.keeper, slot, index, number);
        }
    }
}

/// Fills a port.
#[derive(Drop)]
struct Fill<'a, R> {
    rt: &'a R,
    keeper: &'a Keeper<Identity>,
}

impl<'a, R: Wait> Visit<Subscription, ()> for Fill<'a, R> {
    ghost use Rattle.std.specs.Prelude.{◌+◌, length};
    ghost use Rattle.lq_board.specs.Slot.{slot_at};
    ghost use Rattle.lq_server_slots.specs.Slots.{IsTakenNoticed};
    ghost use Rattle.lq_server_slots.specs.Turn.{ServesAs};

    ghost allows = { λ v s i x.
        IsTakenNoticed x (slot_at v.keeper.now.slots (i + 1)) v.keeper.now.book };

    ghost did = { λ v t i x y. ServesAs (λ u. u) (length v.keeper.now.book.changes) x y
        (slot_at v.keeper.now.slots (i + 1)) v.keeper.now.book };

    fn visit(&self, _state: &mut (), _slot: SlotIndex, item: &mut Subscription) {
        fill(self.rt, self.keeper, item);
    }
}

/// Ends each subscription whose reader asked for that, and fills each port.
pub(crate) fn serve_all<R: Wait>(
    rt: &R,
    board: &Board<Identity>,
    slots: &mut ServerSlots,
    number: u64,
)
    requires board { slots.old.keeper.board ≡ board.now }
    requires number { number ≡ length slots.old.keeper.book.changes }
    requires holding { AreConsistent slots.old slots.old.keeper.book }
    ensures keeps { KeepsSlots slots.old slots.new }
    ensures served { SlotsAre IsServed slots.new.subscriptions slots.new.keeper.slots }
    ensures heard { KnowsHeard slots.old.keeper.register.heard slots.new.subscriptions
        slots.new.keeper.slots }
    ensures rises { (k : ℕ) → (slot_at slots.old.keeper.slots k).asks
        ≤ (slot_at slots.new.keeper.slots k).asks }
    ensures marks { MarksCover number slots.old.subscriptions slots.new.subscriptions }
    ensures turned { AllPut slots.old.keeper.book (after_notice slots.old.keeper.book)
        slots.old.subscriptions slots.new.subscriptions slots.new.keeper.slots }
{
    notice_all(board, slots, number);
    let taken = slots.subscriptions.taken();
    let keeper = &slots.keeper;
    slots
        .subscriptions
        .visit(taken, &Fill { rt, keeper }, &mut ());
}
