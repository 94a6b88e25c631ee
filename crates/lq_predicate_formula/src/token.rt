//! Tokens of a formula's text, which borrow it.
use lq_value::Op;

/// A token of a formula.
#[derive(Clone, Copy)]
pub enum Token<'a> {
    /// `(`.
    Opens,
    /// `)`.
    Closes,
    /// `!`.
    Bang,
    /// `&&`.
    Ands,
    /// `||`.
    Ors,
    /// An operator; `=` and `==` are the same one.
    Is(Op),
    /// The raw text of a word, or the text between the marks of a quoted text.
    Word(&'a str),
    /// `&` or `|` alone.
    Lone,
    /// A quoted text without its end, or a `\` that ends the text.
    Cut,
}

/// A token with the byte offsets of its first byte and of its raw text.
#[derive(Clone, Copy)]
pub struct Placed<'a> {
    pub offset: usize,
    pub raw_offset: usize,
    pub token: Token<'a>,
}

/// The rest of a text, and the byte offset where it begins.
#[derive(Clone, Copy)]
pub struct Cursor<'a> {
    pub offset: usize,
    pub rest: &'a str,
}
