//! The 64 slots of a desk: passes over all that have work, and what is done at one, by its number.
ghost use Rattle.std.specs.Prelude.{◌≡◌, ◌<◌, ◌^◌, ◌-◌, None, Some, IfOk, MatchOption, map, replicate, slice_set};
ghost use Rattle.std.specs.List.{AllByRecursion};
ghost use Rattle.std.specs.Option.{option_map};
ghost use Rattle.lq_value.specs.Refusal.{FailsOnlyForMemory};
ghost use Rattle.lq_volume.specs.declared.change.Change.{Change};
ghost use Rattle.lq_volume.specs.State.{State};
ghost use Rattle.lq_desk_world.specs.World.{taken_before_free};
ghost use Rattle.lq_desk.specs.Slot.{slot_of, slot_after, filled, noticed};
ghost use Rattle.lq_desk.specs.Words.{ArePrepared};
ghost use Rattle.lq_desk.specs.DeskState.{IsFew};
ghost use Rattle.lq_desk.specs.Act.{act_of, close_turn, outcome_of, read_turn};
ghost use Rattle.lq_desk.specs.Ready.{MarksParcels};
ghost use Rattle.lq_desk.specs.Reply.{answer_of};

use crate::reply::Reply;
use crate::slot::{Commit, Fill, Notice, Slot};
use lq_desk_sub::{SlotIndex, SlotSet, SlotTable, Visit, Watch};
use lq_desk_world::Act;
use lq_value::Refusal;
use lq_volume::Planned;
use std::alloc::Global;
use std::marker::Model;

/// The slots of a desk.
///
/// One set has the slots that may be ending, the other those whose port may take a parcel. The
/// watch says which slots a change may have messages for. No other slot is looked at.
#[derive(Drop)]
pub struct Slots {
    table: SlotTable<Slot>,
    ending: SlotSet,
    movable: SlotSet,
    watch: Watch,
}

impl Model for Slots {
    ghost use Rattle.std.specs.Prelude.{List, Option, map};
    ghost use Rattle.std.specs.Option.{option_map};
    ghost use Rattle.lq_desk.specs.Slot.{PreparedSlot, slot_of};
    ghost use Rattle.lq_desk.specs.Words.{ArePlaces};
    ghost use Rattle.std.specs.Coded.{codes};
    ghost use Rattle.lq_predicate.specs.QueryCode.{coded_query};

    ghost Value = { List (Option PreparedSlot) };

    ghost coded = { Prim.hlevel (codes, coded_query) };

    ghost view = { λ s. s.table };

    ghost invariant = { λ s. ArePlaces s.ending.word s.movable.word s.watch
        (map (option_map slot_of) s.table) };
}

impl Slots {
    /// 64 free slots. Refused: `NoMemory`.
    pub fn new(alloc: Global) -> Result<Slots, Refusal>
        ensures refused { FailsOnlyForMemory result }
        ensures slots { IfOk result (λ slots. slots ≡ replicate 64 None) }
    {
        Ok(Slots {
            table: SlotTable::new(alloc)?,
            ending: SlotSet::new(),
            movable: SlotSet::new(),
            watch: Watch::new(),
        })
    }

    /// The lowest free slot. `None`: each is taken.
    pub fn lowest_free(&self) -> Option<SlotIndex>
        ensures { MatchOption result (taken_before_free (map (option_map slot_of) self.now) ≡ 64)
            (λ slot. slot.index ≡ taken_before_free (map (option_map slot_of) self.now)) }
    {
        self.table.lowest_free()
    }

    /// Puts a subscription into a slot.
    pub fn open(&mut self, index: SlotIndex, slot: Slot)
        ensures { self.new ≡ slice_set self.old index.index (Some slot) }
    {
        self.ending.put(index, slot.is_ending());
        self.movable.put(index, slot.can_move());
        self.watch.set(index, &slot.sub);
        self.table.insert(index, slot);
    }

    /// Makes the messages of a change; answers a set that has each slot with messages.
    pub fn prepare(&mut self, planned: &Planned<'_>) -> Result<SlotSet, Refusal>
        requires few { AllByRecursion (IsFew (2 ^ 63 - 1)) (map (option_map slot_of) self.old) }
        ensures refused { FailsOnlyForMemory result }
        ensures prepared { IfOk result (λ prepared.
            ArePrepared planned.now.before planned.now.change prepared.word self.new) }
        ensures kept { map (option_map slot_of) self.new ≡ map (option_map slot_of) self.old }
    {
        // A slot that isn't in this set has no message of this change.
        let asked = self.watch.slots_for(planned.change());
        // For its clauses `lawful` and `volume`.
        let _ = planned.applied();
        let mut state = Preparation {
            prepared: SlotSet::new(),
            full: false,
        };
        self.table.visit(asked, &Prepare { planned }, &mut state);
        if state.full {
            return Err(Refusal::NoMemory);
        }
        Ok(state.prepared)
    }

    /// Commits the messages of each subscription of a set.
    pub fn commit(&mut self, prepared: SlotSet)
        requires few { AllByRecursion (IsFew (2 ^ 63 - 1)) (map (option_map slot_of) self.old) }
        ensures { (s : State) (c : Change) → ArePrepared s c prepared.word self.old
            → map (option_map slot_of) self.new
            ≡ map (option_map (slot_after s c)) (map (option_map slot_of) self.old) }
    {
        self.table.visit(prepared, &Commit {}, &mut ());
        self.movable = self.movable.union(prepared);
    }

    /// Ends each live subscription whose reader has hung up.
    pub fn notice_all(&mut self, number: u64)
        requires { AllByRecursion (IsFew (2 ^ 63 - 1)) (map (option_map slot_of) self.old) }
        ensures { map (option_map slot_of) self.new ≡
            map (option_map (noticed number)) (map (option_map slot_of) self.old) }
    {
        self.table.visit(self.ending, &Notice { number }, &mut ());
        self.movable = self.movable.union(self.ending);
        self.ending = SlotSet::new();
    }

    /// Fills each port.
    pub fn fill_all(&mut self)
        ensures { map (option_map slot_of) self.new ≡
            map (option_map filled) (map (option_map slot_of) self.old) }
    {
        self.table.visit(self.movable, &Fill {}, &mut ());
        self.movable = SlotSet::new();
    }

    /// A word with the bits of the slots that have a parcel to read.
    pub fn readable_slots(&self) -> u64
        ensures { MarksParcels (map (option_map slot_of) self.now) result }
    {
        let mut readable = SlotSet::new();
        let mut rest = self.table.taken();
        while let Some(slot) = rest.pop_lowest() {
            if let Some(there) = self.table.get(slot) {
                readable.put(slot, there.has_parcel());
            }
        }
        readable.word()
    }

    /// Takes a parcel from a slot's port, after a notice of the slot and after its port was filled.
    pub fn read(&mut self, slot: u64, number: u64) -> Reply
        requires { AllByRecursion (IsFew (2 ^ 63 - 1)) (map (option_map slot_of) self.old) }
        ensures { (answer_of result, map (option_map slot_of) self.new) ≡
            outcome_of (read_turn number) (map (option_map slot_of) self.old) slot }
    {
        let _ = &self.table; // For the invariant: there are 64 slots.
        let Some(index) = SlotIndex::of(slot) else {
            return Reply::Refused(Refusal::NotOpen);
        };
        let may_work = self.ending.union(self.movable).contains(index);
        let Some(there) = self.table.get_mut(index) else {
            return Reply::Refused(Refusal::NotOpen);
        };
        if may_work {
            let _ = there.notice(number);
            there.fill();
        }
        let read = there.read();
        self.movable.put(index, there.can_move());
        Reply::Took(read)
    }

    /// Ends a slot's subscription, after a notice of the slot; then fills its port.
    pub fn close(&mut self, slot: u64, number: u64) -> Reply
        requires { AllByRecursion (IsFew (2 ^ 63 - 1)) (map (option_map slot_of) self.old) }
        ensures { (answer_of result, map (option_map slot_of) self.new) ≡
            outcome_of (close_turn number) (map (option_map slot_of) self.old) slot }
    {
        let _ = &self.table; // For the invariant: there are 64 slots.
        let Some(index) = SlotIndex::of(slot) else {
            return Reply::Refused(Refusal::NotOpen);
        };
        let Some(there) = self.table.get_mut(index) else {
            return Reply::Refused(Refusal::NotOpen);
        };
        let _ = there.notice(number);
        let reply = there.close(number);
        there.fill();
        reply
    }

    /// Carries out an act at a slot.
    pub fn act(&mut self, slot: u64, act: Act, number: u64) -> Reply
        requires { AllByRecursion (IsFew (2 ^ 63 - 1)) (map (option_map slot_of) self.old) }
        ensures { (answer_of result, map (option_map slot_of) self.new) ≡
            outcome_of (act_of number act) (map (option_map slot_of) self.old) slot }
    {
        let _ = &self.table; // For the invariant: there are 64 slots.
        let Some(index) = SlotIndex::of(slot) else {
            return Reply::Refused(Refusal::NotOpen);
        };
        let Some(there) = self.table.get_mut(index) else {
            return Reply::Refused(Refusal::NotOpen);
        };
        let reply = there.act(act, number);
        self.ending.put(index, there.is_ending());
        self.movable.put(index, there.can_move());
        if let Reply::Finished = &reply {
            let _ = self.table.remove(index);
        }
        reply
    }
}

/// The slots that have messages of a change so far, and whether memory ran out.
#[derive(Drop)]
pub struct Preparation {
    pub prepared: SlotSet,
    pub full: bool,
}

/// Makes the messages of a change in a live subscription, unless memory ran out before.
#[derive(Drop)]
struct Prepare<'a, 'b> {
    planned: &'a Planned<'b>,
}

impl<'a, 'b> Visit<Slot, Preparation> for Prepare<'a, 'b> {
    ghost use Rattle.lq_desk.specs.Words.{MayPrepare, Prepares};

    ghost allows = { λ v s i x. MayPrepare s i x };

    ghost did = { λ v t i x y. Prepares v.planned.now.before v.planned.now.change t i x y };

    fn visit(&self, state: &mut Preparation, slot: SlotIndex, item: &mut Slot) {
        if state.full {
            return;
        }
        match item.sub.prepare_if_any(self.planned) {
            Ok(true) => state.prepared.insert(slot),
            Ok(false) => {}
            Err(_) => state.full = true,
        }
    }
}
