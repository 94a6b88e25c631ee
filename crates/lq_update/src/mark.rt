//! The closing mark of a subscription: why it ended, and which changes its messages cover.

/// Why a subscription ended.
#[derive(Clone, Copy, Debug, PartialEq, Eq)]
pub enum Cause {
    /// Its holder closed it.
    Closed,
    /// Its reader asked for its end.
    HungUp,
    /// There were more messages than its backlog holds.
    Overrun,
}

/// The closing mark of a subscription, after its last message: our own.
///
/// `seq` is one more than the last message's `seq`. `change` is the last change that the messages
/// cover.
#[derive(Clone, Copy, Debug)]
pub struct Mark {
    pub seq: u64,
    pub change: u64,
    pub cause: Cause,
}
