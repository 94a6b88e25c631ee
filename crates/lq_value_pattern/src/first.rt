//! The first character of a text.
ghost use Rattle.std.specs.Prelude.{◌≡◌, ◌∷◌, ◌+◌, [], length, IfSome, MatchOption};
ghost use Rattle.std.specs.Char.{len_utf8};
ghost use Rattle.std.specs.Str.{chars};

/// The first character and the text after it; `None` for the empty text.
pub fn first_char<'a>(text: &'a str) -> Option<(char, &'a str)>
    ensures value { MatchOption result (chars text.entry.now ≡ [])
        (λ r. chars text.entry.now ≡ r.0 ∷ chars r.1.now) }
    ensures len { IfSome result (λ r. length text.entry.now ≡ len_utf8 r.0 + length r.1.now) }
{
    let mut all = text.chars();
    match all.next() {
        None => None,
        Some(c) => Some((c, all.as_str())),
    }
}
