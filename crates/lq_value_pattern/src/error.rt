//! Why the source of a pattern isn't read.
ghost use Rattle.std.specs.Prelude.{◌≡◌};
ghost use Rattle.lq_value_pattern.specs.declared.error.SourceError.TheVariants.{NoMemory};

use std::alloc::{AllocError, AllocFailed};

/// Why the source of a pattern isn't read.
#[derive(Clone, Copy)]
pub enum SourceError {
    /// The source has its leftmost fault at this byte offset, counted from 0.
    Faulty { offset: u64 },
    /// Memory ran out.
    NoMemory,
}

impl From<AllocError> for SourceError {
    ghost from_gives = { λ _ e. e ≡ NoMemory };

    fn from(_e: AllocError) -> SourceError {
        SourceError::NoMemory
    }
}

impl<T: Drop> From<AllocFailed<T>> for SourceError {
    ghost from_gives = { λ _ e. e ≡ NoMemory };

    fn from(_e: AllocFailed<T>) -> SourceError {
        SourceError::NoMemory
    }
}
