//! What is in each of the 64 slots: the one container of slots, with the set of the taken ones.
ghost use Rattle.std.specs.Borrow.{sem};
ghost use Rattle.std.specs.Option.{option_copied_mut, option_flatten};
ghost use Rattle.std.specs.Prelude.{◌≡◌, ℕ, length, replicate, slice_get, slice_set, true, None, Some, IfOk, IsSome, MatchOption};
ghost use Rattle.lq_value.specs.Refusal.{FailsOnlyForMemory};
ghost use Rattle.lq_desk_sub.specs.Lends.{LendsSlot, LendsTaken};
ghost use Rattle.lq_desk_sub.specs.SlotSet.{has};
ghost use Rattle.lq_desk_sub.specs.SlotTable.{HasTaken, first_free};
ghost use Rattle.lq_desk_sub.specs.Visits.{Visits};

use crate::slot_index::SlotIndex;
use crate::slot_set::SlotSet;
use crate::visit::{Visit, visit_in};
use lq_value::Refusal;
use std::alloc::Global;
use std::marker::Model;

/// The number of slots.
pub const SLOTS: usize = 64;

/// 64 slots, each free or with an item, and the set of the taken ones.
///
/// Contracts see it as a list of 64 options.
#[derive(Drop)]
pub struct SlotTable<T> {
    slots: Vec<Option<T>>,
    taken: SlotSet,
}

impl<T> Model for SlotTable<T> {
    ghost use Rattle.std.specs.Prelude.{List, Option};
    ghost use Rattle.lq_desk_sub.specs.SlotTable.{IsTable};

    ghost Value = { List (Option T) };

    ghost view = { λ t. t.slots.items };

    ghost invariant = { λ t. IsTable t.taken.word t.slots.items };
}

impl<T> SlotTable<T> {
    /// 64 free slots. Refused: `NoMemory`.
    pub fn new(alloc: Global) -> Result<SlotTable<T>, Refusal>
        ensures refused { FailsOnlyForMemory result }
        ensures free { IfOk result (λ table. table ≡ replicate 64 None) }
    {
        let mut slots = Vec::with_capacity(alloc, SLOTS)?;
        for _ in 0..SLOTS {
            slots.push_reserved(None);
        }
        Ok(SlotTable {
            slots,
            taken: SlotSet::new(),
        })
    }

    /// The set of the taken slots.
    pub fn taken(&self) -> SlotSet
        ensures taken { HasTaken result.word self.now }
        ensures wide { length self.now ≡ 64 }
    {
        self.taken
    }

    /// The lowest free slot. `None`: each is taken.
    pub fn lowest_free(&self) -> Option<SlotIndex>
        ensures { MatchOption result (first_free self.now ≡ 64)
            (λ slot. slot.index ≡ first_free self.now) }
    {
        self.taken.lowest_outside()
    }

    /// The item of a slot. `None`: it is free.
    pub fn get(&self, slot: SlotIndex) -> Option<&T>
        ensures { MatchOption result (slice_get self.now slot.index ≡ Some None)
            (λ item. slice_get self.now slot.index ≡ Some (Some item.now)) }
    {
        self.slots[slot.index()].as_ref()
    }

    /// The item of a slot, to be changed. `None`: it is free.
    pub fn get_mut(&mut self, slot: SlotIndex) -> Option<&mut T>
        ensures* writes_back { sem 𝓛 (LendsSlot T.row self.entry slot.index result) }
        ensures value { option_copied_mut result
            ≡ option_flatten (slice_get self.old slot.index) }
    {
        if self.taken.contains(slot) {
            Some(self.taken_mut(slot))
        } else {
            None
        }
    }

    // The item of a taken slot.
    fn taken_mut(&mut self, slot: SlotIndex) -> &mut T
        requires { IsSome (option_flatten (slice_get self.old slot.index)) }
        ensures* writes_back { sem 𝓛 (LendsTaken T.row self.entry slot.index result) }
        ensures value { slice_get self.old slot.index ≡ Some (Some result.now) }
    {
        self.slots[slot.index()].as_mut().unwrap()
    }

    /// Frees a slot and answers its item. `None`: it was free.
    pub fn remove(&mut self, slot: SlotIndex) -> Option<T>
        ensures item { slice_get self.old slot.index ≡ Some result }
        ensures table { self.new ≡ slice_set self.old slot.index None }
    {
        self.taken.remove(slot);
        self.slots[slot.index()].take()
    }

    /// Visits the taken slots of a set, the lowest first.
    pub fn visit<S, V: Visit<T, S>>(&mut self, set: SlotSet, visitor: &V, state: &mut S)
        requires allowed { (i : ℕ) (x : T) → has set.word i ≡ true
            → slice_get self.old i ≡ Some (Some x) → V.allows visitor.now state.old i x }
        ensures visits { Visits (V.allows visitor.now) (V.did visitor.now) (has set.word)
            self.old self.new state.old state.new }
        ensures wide { length self.new ≡ 64 }
    {
        visit_in(&mut self.slots, set, visitor, state);
    }
}

impl<T: Drop> SlotTable<T> {
    /// Puts an item into a slot, in place of the one that was there.
    pub fn insert(&mut self, slot: SlotIndex, item: T)
        ensures { self.new ≡ slice_set self.old slot.index (Some item) }
    {
        self.slots[slot.index()] = Some(item);
        self.taken.insert(slot);
    }
}
