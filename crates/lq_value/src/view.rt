//! An attribute's value as a row shows it: its text isn't copied.

/// The borrowed value of an attribute: a text, or a whole number of one of four types.
///
/// The types are among the attribute types of Be's `TypeConstants.h`.
#[derive(Clone, Copy, Debug)]
pub enum View<'a> {
    Text(&'a str),
    Int32(i32),
    Int64(i64),
    UInt32(u32),
    UInt64(u64),
}
