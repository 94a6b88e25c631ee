//! What a session answers to a line, before it is text.
use lq_desk::Reply;
use lq_value::{Entry, Refusal};
use lq_volume::Listing;

/// The core's reply to an event, the answer of a look at the volume, a rebuilt result, or a
/// refusal.
#[derive(Drop)]
pub enum Response {
    /// The core's reply to an event of this slot; the slot is 0 where the event names none.
    Reply {
        slot: u64,
        reply: Reply,
    },
    /// Why the line has no request, or why its look at the volume is refused.
    Refused(Refusal),
    /// The node at the place.
    Found {
        node: u64,
    },
    /// The whole entry of a node.
    Listed {
        node: u64,
        listing: Listing,
    },
    /// The entries that match the predicate, after `at` changes.
    Fetched {
        at: u64,
        result: Vec<Entry>,
    },
    /// The result of a slot after the messages read from it, the change of the latest message, and
    /// whether that message was the last of its change.
    Rebuilt {
        change: u64,
        result: Vec<Entry>,
        settled: bool,
    },
}
