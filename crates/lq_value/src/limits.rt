//! The limits that several crates know: of names, texts, predicates and openings.

/// The longest name of an entry, in bytes.
pub const MAX_NAME: usize = 255;

/// The longest name of an attribute, in bytes.
pub const MAX_ATTR_NAME: usize = 255;

/// The longest text of an attribute's value, in bytes.
pub const MAX_VALUE_TEXT: usize = 4096;

/// The longest formula, which is also the longest canonical text of a predicate, in bytes.
pub const MAX_FORMULA: usize = 4096;

/// The greatest depth of a predicate.
pub const MAX_DEPTH: usize = 64;

/// The most comparisons of a predicate.
pub const MAX_COMPARISONS: u64 = 256;

/// The most parcels that a port holds.
pub const MAX_PLACES: u64 = 1_024;

/// The largest backlog, in messages.
pub const MAX_BACKLOG: u64 = 65_536;
