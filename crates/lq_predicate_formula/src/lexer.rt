//! The tokens of a text, one at a time.
ghost use Rattle.std.specs.Prelude.{◌≡◌, ◌≤◌, ◌<◌, ◌+◌, ◌^◌, length, IfSome, IfNone};
ghost use Rattle.std.specs.Str.{IsUtf8};
ghost use Rattle.lq_predicate_formula.specs.Words.{WordIs};
ghost use Rattle.lq_predicate_formula.specs.Tokens.{IsBlank, Yields};
ghost use Rattle.lq_predicate_formula.specs.TokenView.{placed_of, token_of};
ghost use Rattle.lq_predicate_formula.specs.Lexing.{BeginsBy, spaces, trimmed};

use crate::count::count_spaces;
use crate::leading_token::read_piece;
use crate::token::{Cursor, Placed};

/// The next token of a text with its offsets, and the rest of the text after it.
///
/// `None` where only white space remains. It takes no memory, and the token borrows the text. The
/// tokens are this project's own.
pub fn next_token<'a>(cursor: Cursor<'a>) -> Option<(Placed<'a>, Cursor<'a>)>
    requires { cursor.offset + length cursor.rest.now < 2 ^ 64 }
    ensures none { IfNone result (IsBlank cursor.entry.rest.now) }
    ensures some { IfSome result (λ r. Yields cursor.entry.offset cursor.entry.rest.now
        (placed_of r.0) r.1.offset r.1.rest.now) }

    // A word is a text.
    ensures text { IfSome result (λ r. WordIs IsUtf8 (token_of r.0.token)) }

    // The rest is the end of the same text, and shorter.
    ensures offset { IfSome result (λ r. r.1.offset + length r.1.rest.now
        ≡ cursor.entry.offset + length cursor.entry.rest.now) }
    ensures shorter { IfSome result (λ r. length r.1.rest.now < length cursor.entry.rest.now) }
{
    let (space, rest) = trim(cursor.rest);
    if rest.is_empty() {
        return None;
    }
    Some(token_at(cursor.offset + space, rest))
}

// The token that begins at an offset, and the rest after it.
fn token_at<'a>(offset: usize, rest: &'a str) -> (Placed<'a>, Cursor<'a>)
    requires some { 0 < length rest.now }
    requires small { offset + length rest.now < 2 ^ 64 }
    ensures begins { BeginsBy offset rest.entry.now (placed_of result.0)
        result.1.offset result.1.rest.now }
    ensures text { WordIs IsUtf8 (token_of result.0.token) }
    ensures offset { result.1.offset + length result.1.rest.now ≡ offset + length rest.entry.now }
    ensures shorter { length result.1.rest.now < length rest.entry.now }
{
    let piece = read_piece(rest);
    let (_, after) = rest.split_at(piece.size);
    (
        Placed {
            offset,
            raw_offset: offset + piece.inside,
            token: piece.token,
        },
        Cursor {
            offset: offset + piece.size,
            rest: after,
        },
    )
}

// The number of bytes of white space at a text's start, and the text after them.
fn trim<'a>(rest: &'a str) -> (usize, &'a str)
    ensures count { result.0 ≡ spaces rest.entry.now }
    ensures bound { result.0 ≤ length rest.entry.now }
    ensures rest { result.1.now ≡ trimmed rest.entry.now }
    ensures whole { result.0 + length result.1.now ≡ length rest.entry.now }
{
    let n = count_spaces(rest.as_bytes());
    let (_, left) = rest.split_at(n);
    (n, left)
}
