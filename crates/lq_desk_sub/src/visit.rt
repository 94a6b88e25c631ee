//! One loop over the slots of a set.
ghost use Rattle.std.specs.Prelude.{◌≡◌, ◌≢◌, ℕ, length, slice_get, true, Some};
ghost use Rattle.lq_desk_sub.specs.SlotSet.{has};
ghost use Rattle.lq_desk_sub.specs.Visits.{Visits};

use crate::slot_index::SlotIndex;
use crate::slot_set::SlotSet;

/// What is done in a taken slot, with a state that all visits share.
pub trait Visit<T, S> {
    /// Whether a slot with this item may be visited in a state.
    ghost allows: { Self → S → ℕ → T → Type 0 };

    /// What a visit did, by the state, the slot's index, and its item before and after.
    ghost did: { Self → S → ℕ → T → T → Type 0 };

    /// Visits a slot. Another that may be visited still may, and what was done there stands.
    fn visit(&self, state: &mut S, slot: SlotIndex, item: &mut T)
        requires { allows self.now state.old slot.index item.old }
        ensures did { did self.now state.new slot.index item.old item.new }
        ensures apart { (i : ℕ) (x : T) → i ≢ slot.index → allows self.now state.old i x
            → allows self.now state.new i x }
        ensures stands { (i : ℕ) (x y : T) → i ≢ slot.index → did self.now state.old i x y
            → did self.now state.new i x y };
}

/// Visits the taken slots of a set.
pub(crate) fn visit_in<T, S, V: Visit<T, S>>(
    slots: &mut Vec<Option<T>>,
    set: SlotSet,
    visitor: &V,
    state: &mut S,
)
    requires wide { length slots.old.items ≡ 64 }
    requires allowed { (i : ℕ) (x : T) → has set.word i ≡ true
        → slice_get slots.old.items i ≡ Some (Some x) → V.allows visitor.now state.old i x }
    ensures visits { Visits (V.allows visitor.now) (V.did visitor.now) (has set.word)
        slots.old.items slots.new.items state.old state.new }
    ensures wide { length slots.new.items ≡ 64 }
{
    let mut rest = set;
    while let Some(slot) = rest.pop_lowest() {
        if let Some(item) = &mut slots[slot.index()] {
            visitor.visit(state, slot, item);
        }
    }
}
