//! Elements that are all plain, as their text.
ghost use Rattle.std.specs.Prelude.{◌≡◌, None, IfOk, MatchOption};
ghost use Rattle.std.specs.Str.{chars};
ghost use Rattle.std.specs.String.{string_bytes};
ghost use Rattle.lq_value_pattern.specs.Pattern.{is_fit, plain_chars, plain_elements};

use crate::element::Element;
use std::alloc::{AllocError, Global};

/// The text of the elements; `None` where they aren't all plain. It fails only for want of memory.
pub fn plain_text(alloc: Global, elements: &[Element]) -> Result<Option<String>, AllocError>
    ensures { IfOk result (λ text. MatchOption text (plain_chars elements.now ≡ None)
        (λ plain. plain_elements (chars (string_bytes plain)) ≡ elements.now)) }
{
    let mut text = String::new(alloc);
    for element in elements {
        let Element::Plain(c) = element else {
            return Ok(None);
        };
        text.push(*c)?;
    }
    Ok(Some(text))
}

/// Whether the plain elements for the characters of `plain` fit the whole text. It takes no memory.
pub fn fits_plain(plain: &str, text: &str) -> bool
    ensures { result ≡ is_fit (plain_elements (chars plain.now)) (chars text.now) }
{
    plain == text
}
