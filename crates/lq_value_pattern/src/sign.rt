//! Splits a pattern's source into characters, each with the `\` that takes its meaning away.
ghost use Rattle.std.specs.Prelude.{◌≡◌, ◌∷◌, [], MatchOption};
ghost use Rattle.lq_value_pattern.specs.Sign.{signs_of};

use crate::first::first_char;

/// A character of a pattern's source, with the `\` before it if there is one.
#[derive(Clone, Copy)]
pub(crate) enum Sign {
    /// A character without a `\` before it.
    Bare(char),
    /// A character after a `\`.
    Escaped(char),
    /// A `\` that ends the source.
    Dangling,
}

/// The first sign, and the text after it; `None` for the empty text.
pub(crate) fn first_sign<'a>(text: &'a str) -> Option<(Sign, &'a str)>
    ensures { MatchOption result (signs_of text.entry.now ≡ [])
        (λ r. signs_of text.entry.now ≡ r.0 ∷ signs_of r.1.now) }
{
    match first_char(text)? {
        ('\\', rest) => match first_char(rest) {
            None => Some((Sign::Dangling, rest)),
            Some((c, behind)) => Some((Sign::Escaped(c), behind)),
        },
        (c, rest) => Some((Sign::Bare(c), rest)),
    }
}
