//! What a desk answers to each event, in the code's own values.
use lq_desk_sub::Read;
use lq_value::{Entry, Refusal};
use lq_volume::Applied;

/// The desk's reply to an event.
#[derive(Drop)]
pub enum Reply {
    /// The change was accepted.
    Changed(Applied),
    /// The live query has this slot; `result` is its result after `at` changes, by rising node.
    Opened {
        slot: u64,
        at: u64,
        result: Vec<Entry>,
    },
    /// Whether a parcel moved into the port.
    Moved(bool),
    /// What was taken from the port.
    Took(Read),
    /// The subscription is asked to end.
    Asked,
    /// Whether this event ended the subscription.
    Noticed(bool),
    /// The subscription was ended, and covers the changes up to this number.
    Shut(u64),
    /// The slot is free.
    Finished,
    /// The event was refused, and changed nothing. The notices and puts of its turn stand.
    Refused(Refusal),
}
