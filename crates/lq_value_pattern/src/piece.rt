//! What comes first in a pattern's source.
ghost use Rattle.std.specs.Prelude.{◌≡◌};
ghost use Rattle.lq_value_pattern.specs.Piece.{IsTextBehindPiece, first_of};
ghost use Rattle.lq_value_pattern.specs.Sign.{signs_of};
ghost use Rattle.lq_value_pattern.specs.Source.{element_at, set_at};

use crate::sign::{Sign, first_sign};

/// What comes first in a source where an element is expected, and the source after it.
#[derive(Clone, Copy)]
pub enum FirstPiece<'a> {
    /// The end of the source.
    End,
    /// A `*`.
    Star(&'a str),
    /// A `?`.
    Any(&'a str),
    /// A character that stands for itself.
    Plain(char, &'a str),
    /// The `[` of a set, or `[^`, and the source where its items begin.
    Opens { negated: bool, items: &'a str },
    /// A `\` that ends the source.
    Faulty,
}

/// What comes first in a pattern's source where an element is expected. It takes no memory.
///
/// Of a set it reads only the beginning. `first_item` says whether the set has items and an end.
pub fn first_piece<'a>(source: &'a str) -> FirstPiece<'a>
    ensures first { element_at (signs_of source.entry.now) ≡ first_of result }
    ensures text { IsTextBehindPiece result }
{
    match first_sign(source) {
        None => FirstPiece::End,
        Some((Sign::Bare('*'), rest)) => FirstPiece::Star(rest),
        Some((Sign::Bare('?'), rest)) => FirstPiece::Any(rest),
        Some((Sign::Bare('['), rest)) => set_begin(rest),
        Some((Sign::Bare(c), rest)) => FirstPiece::Plain(c, rest),
        Some((Sign::Escaped(c), rest)) => FirstPiece::Plain(c, rest),
        Some((Sign::Dangling, _)) => FirstPiece::Faulty,
    }
}

// The set whose `[` is just before the text.
fn set_begin<'a>(text: &'a str) -> FirstPiece<'a>
    ensures first { set_at (signs_of text.entry.now) ≡ first_of result }
    ensures text { IsTextBehindPiece result }
{
    match first_sign(text) {
        Some((Sign::Bare('^'), rest)) => FirstPiece::Opens {
            negated: true,
            items: rest,
        },
        _ => FirstPiece::Opens {
            negated: false,
            items: text,
        },
    }
}
