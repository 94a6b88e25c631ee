//! The messages of a live query, with the opcodes of B_QUERY_UPDATE.
use lq_value::{AttrName, Name};

/// What a message says about an entry, by the opcodes of B_QUERY_UPDATE.
#[derive(Debug, Drop)]
pub enum Opcode {
    /// B_ENTRY_CREATED: the entry entered the result.
    Created,
    /// B_ENTRY_REMOVED: the entry left the result.
    Removed,
    /// B_ENTRY_MOVED: the entry was in the result at this place and is now in it at a new one.
    Moved { from_dir: u64, from_name: Name },
    /// The entry was in the result and still is, at its place, and a value of it was written: this
    /// attribute was set or removed (B_ATTR_CHANGED of a node monitor), or with none its size and
    /// time were written (B_STAT_CHANGED).
    ValueChanged { attribute: Option<AttrName> },
}

/// One update of a live query's result, as B_QUERY_UPDATE in The Be Book.
///
/// `seq` counts a subscription's messages from 1. `change` is the number of the change that made
/// the message, and `last` is true on the final message of that change. `dir` and `name` are the
/// entry's place; for a moved entry, its new place.
#[derive(Debug, Drop)]
pub struct Message {
    pub seq: u64,
    pub change: u64,
    pub last: bool,
    pub op: Opcode,
    pub dir: u64,
    pub name: Name,
    pub node: u64,
}
