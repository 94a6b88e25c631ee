//! Which field an attribute's name means, found once, so that no look-up compares texts for it.

/// What a name stands for: an attribute, or one of the three fields that each entry has.
#[derive(Clone, Copy)]
pub enum Field {
    Name,
    Size,
    LastModified,
    /// None of the fields: an attribute, which an entry may lack.
    Attribute,
}
