//! What each read of a batch passes: tests put a gate here that shows which reads go side by side.
use std::sync::Wait;

/// What each read passes before it is carried out, in the thread of its slot. It is our own.
pub trait Gate {
    /// Lets a read of this slot pass. It may wait.
    fn pass<R: Wait>(&self, rt: &R, slot: u64);
}

/// The gate that each read passes at once.
#[derive(Drop)]
pub struct OpenGate;

impl Gate for OpenGate {
    fn pass<R: Wait>(&self, rt: &R, slot: u64) {
        let _ = rt;
        let _ = slot;
    }
}
