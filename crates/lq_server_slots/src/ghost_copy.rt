//! A copy of a value for contracts alone.
ghost use Rattle.std.specs.Prelude.{◌≡◌};
ghost use Rattle.std.specs.Borrow.{ftrue};

use std::marker::{Model, PhantomData};

/// What a contract saw of a value when `of` was called. It has no bytes and owns nothing.
#[derive(Drop)]
pub struct GhostCopy<T> {
    marker: PhantomData<T>,
    /// What was seen.
    pub ghost value: { T },
}

impl<T> Model for GhostCopy<T> {
    ghost also_owns = { λ _. ftrue };
}

// It owns nothing, so it may go to any thread, and any thread may share it.
unsafe impl<T> Send for GhostCopy<T> {}

unsafe impl<T> Sync for GhostCopy<T> {}

impl<T> GhostCopy<T> {
    /// A copy of what the reference shows now. It takes no memory.
    pub fn of(x: &T) -> GhostCopy<T>
        ensures { result.value ≡ x.now }
    {
        let _ = x;
        GhostCopy {
            marker: PhantomData,
        }
    }
}
