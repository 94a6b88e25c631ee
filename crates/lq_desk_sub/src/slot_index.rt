//! A slot by its index, which is one less than its number; the number is tested once.
ghost use Rattle.std.specs.Prelude.{◌≡◌, ◌⊎◌, ◌<◌, ◌+◌, MatchOption};

/// One of 64 slots, by its index: that of slot 1 is 0.
#[derive(Clone, Copy, Drop)]
pub struct SlotIndex {
    index: usize,
    ghost within: { index < 64 },
}

impl SlotIndex {
    /// The slot with this number. `None`: it is none of 1 to 64.
    pub fn of(number: u64) -> Option<SlotIndex>
        ensures { MatchOption result ((number ≡ 0) ⊎ (64 < number))
            (λ slot. slot.index + 1 ≡ number) }
    {
        if number == 0 || number > 64 {
            return None;
        }
        Some(SlotIndex::at((number - 1) as usize))
    }

    /// The slot with this index.
    pub(crate) fn at(index: usize) -> SlotIndex
        requires { index < 64 }
        ensures { result.index ≡ index }
    {
        SlotIndex { index }
    }

    /// Its number, 1 to 64.
    pub fn number(self) -> u64
        ensures { result ≡ self.index + 1 }
    {
        self.index as u64 + 1
    }

    /// Its index, 0 to 63.
    pub fn index(self) -> usize
        ensures value { result ≡ self.index }
        ensures within { result < 64 }
    {
        self.index
    }
}
