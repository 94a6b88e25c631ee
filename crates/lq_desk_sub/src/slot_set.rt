//! A set of slots as one word, so that a pass looks only at the slots with work.
ghost use Rattle.std.specs.Prelude.{◌≡◌, ◌≢◌, ◌<◌, ◌==◌, ◌&&◌, ◌||◌, ℕ, true, false, MatchOption, IfNone, IfSome};
ghost use Rattle.std.specs.Int.{bit_at};
ghost use Rattle.lq_desk_sub.specs.SlotSet.{has, IsEmpty, IsTakenOut};

use crate::slot_index::SlotIndex;

/// A set of slots, as a word with a bit for each.
///
/// Contracts see which indexes it has (`specs/SlotSet`).
#[derive(Clone, Copy, Drop)]
pub struct SlotSet {
    word: u64,
}

impl SlotSet {
    /// The set without slots.
    pub fn new() -> SlotSet
        ensures { IsEmpty (has result.word) }
    {
        SlotSet { word: 0 }
    }

    /// Whether no slot is in the set.
    pub fn is_empty(self) -> bool
        ensures empty { result ≡ true → IsEmpty (has self.word) }
        ensures some { result ≡ false → (i : ℕ) × (has self.word i ≡ true) }
    {
        self.word == 0
    }

    /// A word with the bits of the slots in the set, for each slot the one with its index.
    pub fn word(self) -> u64
        ensures { (i : ℕ) → has self.word i ≡ (bit_at result i == 1) }
    {
        self.word
    }

    /// Whether a slot is in the set.
    pub fn contains(self, slot: SlotIndex) -> bool
        ensures { result ≡ has self.word slot.index }
    {
        (self.word >> slot.index()) & 1 == 1
    }

    /// Both sets together.
    pub fn union(self, other: SlotSet) -> SlotSet
        ensures { (i : ℕ) → has result.word i ≡ (has self.word i || has other.word i) }
    {
        SlotSet {
            word: self.word | other.word,
        }
    }

    /// The slots that are in both sets.
    pub fn intersection(self, other: SlotSet) -> SlotSet
        ensures { (i : ℕ) → has result.word i ≡ (has self.word i && has other.word i) }
    {
        SlotSet {
            word: self.word & other.word,
        }
    }

    /// Adds a slot.
    pub fn insert(&mut self, slot: SlotIndex)
        ensures here { has self.new.word slot.index ≡ true }
        ensures others { (i : ℕ) → i ≢ slot.index → has self.new.word i ≡ has self.old.word i }
    {
        self.word |= 1 << slot.index();
    }

    /// Takes a slot out.
    pub fn remove(&mut self, slot: SlotIndex)
        ensures here { has self.new.word slot.index ≡ false }
        ensures others { (i : ℕ) → i ≢ slot.index → has self.new.word i ≡ has self.old.word i }
    {
        self.word &= !(1 << slot.index());
    }

    /// Adds a slot if `is_in`, else takes it out.
    pub fn put(&mut self, slot: SlotIndex, is_in: bool)
        ensures here { has self.new.word slot.index ≡ is_in }
        ensures others { (i : ℕ) → i ≢ slot.index → has self.new.word i ≡ has self.old.word i }
    {
        if is_in {
            self.insert(slot);
        } else {
            self.remove(slot);
        }
    }

    /// The lowest slot that is not in the set. `None`: each of the 64 is.
    pub fn lowest_outside(self) -> Option<SlotIndex>
        ensures outside { IfSome result (λ slot. has self.word slot.index ≡ false) }
        ensures lowest { IfSome result (λ slot.
            (i : ℕ) → i < slot.index → has self.word i ≡ true) }
        ensures full { IfNone result ((i : ℕ) → i < 64 → has self.word i ≡ true) }
    {
        if self.word == u64::MAX {
            return None;
        }
        Some(SlotIndex::at(self.word.trailing_ones() as usize))
    }

    /// Takes the lowest slot out of the set. `None`: the set is empty.
    pub fn pop_lowest(&mut self) -> Option<SlotIndex>
        ensures { MatchOption result (IsEmpty (has self.old.word))
            (λ slot. IsTakenOut self.old.word slot.index self.new.word) }
    {
        if self.word == 0 {
            return None;
        }
        let index = self.word.trailing_zeros() as usize;
        self.word &= self.word - 1;
        Some(SlotIndex::at(index))
    }
}
