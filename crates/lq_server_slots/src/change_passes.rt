//! The two passes of a change over the slots: its messages are prepared in those that it is shown
//! to, and then committed, and all ports are filled.
ghost use Rattle.std.specs.Prelude.{◌≡◌, length, None};
ghost use Rattle.lq_volume.specs.Book.{state_of};
ghost use Rattle.lq_volume.specs.Change.{refused};
ghost use Rattle.lq_server_slots.specs.Changing.{IsPrepared};
ghost use Rattle.lq_server_slots.specs.Turn.{AllPut};
ghost use Rattle.lq_desk_world.specs.World.{after_change};
ghost use Rattle.lq_server_slots.specs.Slots.{AreConsistent, IsConsistentWith, AllPrepared, before_of, IsGrown, IsNoticed, IsServed, MarksCover, SlotsAre};

use crate::fill_port::fill;
use crate::identity::Identity;
use crate::slots::{ServerSlots, notice_all};
use crate::subscription::{Subscription, commit_if, prepare_messages};
use lq_board::{Board, Keeper};
use lq_desk_sub::{SlotIndex, SlotSet, Visit};
use lq_value::Refusal;
use lq_volume::{Change, Planned, Resolved};
use std::sync::Wait;

/// Prepares the messages of a change where the subscription is live, unless memory ran out before.
/// The state says whether it did.
#[derive(Drop)]
struct Prepare<'a, 'b> {
    planned: &'a Planned<'b>,
}

impl<'a, 'b> Visit<Subscription, bool> for Prepare<'a, 'b> {
    ghost use Rattle.std.specs.Prelude.{◌<◌, ◌^◌};
    ghost use Rattle.lq_server_slots.specs.Changing.{Prepares};

    ghost allows = { λ v s i x. x.sub.held.sent < 2 ^ 63 };

    ghost did = { λ v t i x y. Prepares v.planned.now.before v.planned.now.change t x y };

    fn visit(&self, full: &mut bool, _slot: SlotIndex, item: &mut Subscription) {
        if !*full {
            *full = prepare_messages(item, self.planned).is_err();
        }
    }
}

/// Ends each subscription whose reader asked, and prepares the messages of a change for the live
/// ones that it is shown to. The answer is what `make` needs of the change.
pub(crate) fn prepare_all(
    board: &Board<Identity>,
    slots: &mut ServerSlots,
    planned: &Planned<'_>,
) -> Result<Resolved, Refusal>
    requires board { slots.old.keeper.board ≡ board.now }
    requires stands { IsConsistentWith slots.old planned.now.before }
    requires lawful { refused planned.now.before planned.now.change ≡ None }
    ensures { IsPrepared planned.now.before planned.now.change result slots.old slots.new }
{
    let number = planned.applied().change - 1;
    notice_all(board, slots, number);
    let asked = slots.watch.slots_for(planned.change());
    let mut full = false;
    slots
        .subscriptions
        .visit(asked, &Prepare { planned }, &mut full);
    if full {
        return Err(Refusal::NoMemory);
    }
    Ok(planned.resolved())
}

/// Commits the change that was just added, if the slot is asked for it, and fills the port.
#[derive(Drop)]
struct Commit<'a, R> {
    rt: &'a R,
    keeper: &'a Keeper<Identity>,
    change: &'a Change,
    asked: SlotSet,
}

impl<'a, R: Wait> Visit<Subscription, ()> for Commit<'a, R> {
    ghost use Rattle.std.specs.Prelude.{◌+◌, length};
    ghost use Rattle.lq_board.specs.Slot.{slot_at};
    ghost use Rattle.lq_desk_sub.specs.SlotSet.{has};
    ghost use Rattle.lq_server_slots.specs.Changing.{MayCommit};
    ghost use Rattle.lq_server_slots.specs.Slots.{before_of};
    ghost use Rattle.lq_server_slots.specs.Turn.{ServesAs};
    ghost use Rattle.lq_desk_world.specs.World.{after_change};

    ghost allows = { λ v s i x. MayCommit v.change.now (has v.asked.word i) x
        (slot_at v.keeper.now.slots (i + 1)) v.keeper.now.book };

    ghost did = { λ v t i x y. ServesAs
        (after_change (before_of v.keeper.now.book) v.change.now)
        (length (before_of v.keeper.now.book).changes) x y
        (slot_at v.keeper.now.slots (i + 1)) v.keeper.now.book };

    fn visit(&self, _state: &mut (), slot: SlotIndex, item: &mut Subscription) {
        commit_if(item, self.change, self.asked.contains(slot));
        fill(self.rt, self.keeper, item);
    }
}

/// Commits the change just added in each subscription that it is shown to, and fills the ports.
pub(crate) fn commit_all<R: Wait>(rt: &R, slots: &mut ServerSlots, change: &Change)
    requires grown { IsGrown slots.old.keeper.book change.now }
    requires prepared { AllPrepared slots.old.watch slots.old.subscriptions
        (state_of (before_of slots.old.keeper.book)) change.now }
    requires holding { AreConsistent slots.old (before_of slots.old.keeper.book) }
    requires noticed { SlotsAre IsNoticed slots.old.subscriptions slots.old.keeper.slots }
    ensures keeper { slots.new.keeper ≡ slots.old.keeper }
    ensures openings { slots.new.openings ≡ slots.old.openings }
    ensures holding { AreConsistent slots.new slots.new.keeper.book }
    ensures served { SlotsAre IsServed slots.new.subscriptions slots.new.keeper.slots }
    ensures marks { MarksCover (length (before_of slots.old.keeper.book).changes)
        slots.old.subscriptions slots.new.subscriptions }
    ensures puts { AllPut slots.new.keeper.book
        (after_change (before_of slots.old.keeper.book) change.now)
        slots.old.subscriptions slots.new.subscriptions slots.new.keeper.slots }
{
    let taken = slots.subscriptions.taken();
    let commit = Commit {
        rt,
        keeper: &slots.keeper,
        change,
        asked: slots.watch.slots_for(change),
    };
    slots.subscriptions.visit(taken, &commit, &mut ());
}
