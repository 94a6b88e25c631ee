//! What a reader of a subscription gets: a message, the mark, or neither.
use lq_update::{Mark, Message};

/// The result of a read of a subscription.
#[derive(Debug, Drop)]
pub enum Read {
    /// The next message.
    Update(Message),
    /// The mark that ends the subscription.
    Fin(Mark),
    /// No message and no mark is known to wait in the port.
    Empty,
    /// The mark was read already.
    Ended,
}
