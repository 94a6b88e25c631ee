//! The operators of a postfix stack.

/// An operator, as in BQuery: it takes items from the top of a stack and leaves a predicate there.
#[derive(Clone, Copy, PartialEq, Eq)]
pub enum StackOp {
    /// The attribute matches the text as a pattern.
    Eq,
    /// The attribute doesn't match the text as a pattern.
    Ne,
    Gt,
    Ge,
    Lt,
    Le,
    /// The attribute has the text's characters somewhere.
    Contains,
    /// The attribute begins with the text's characters.
    BeginsWith,
    /// The attribute ends with the text's characters.
    EndsWith,
    And,
    Or,
    Not,
}
