//! The reasons why a run over a script stops early, with their texts for standard error.
use std::fmt;
use thiserror::Error;

/// Why a run stopped before the end of its input.
///
/// The display texts are this project's own.
#[derive(Clone, Copy, PartialEq, Eq, Error)]
pub enum RunFault {
    /// The reader failed.
    #[error("read fault")]
    Read,
    /// The writer failed, or took none of the bytes given.
    #[error("write fault")]
    Write,
    /// A byte follows the greatest number of lines or bytes.
    #[error("input too long")]
    Limit,
    /// Memory ran out.
    #[error("no memory")]
    Memory,
    /// A thread couldn't be started.
    #[error("no thread")]
    Thread,
}

impl fmt::Debug for RunFault {
    fn fmt<W: fmt::Write>(&self, f: &mut fmt::Formatter<W>) -> fmt::Result {
        fmt::Display::fmt(self, f)
    }
}
