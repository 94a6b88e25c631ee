//! Plain text with a star before it, after it or both, which is searched for as text.
ghost use Rattle.std.specs.Prelude.{◌≡◌, ◌++◌, IfOk, IfSome, nat_eq};
ghost use Rattle.std.specs.List.{starts_with};
ghost use Rattle.std.specs.Str.{chars};
ghost use Rattle.lq_value_pattern.specs.Pattern.{is_fit, star_if, starred_elements};

use crate::element::Element;
use crate::plain::plain_text;
use std::alloc::{AllocError, Global};

/// The plain text of a pattern, and whether a star is before it and after it.
#[derive(Drop)]
pub struct Starred {
    pub text: String,
    pub before: bool,
    pub behind: bool,
}

impl Starred {
    /// The elements as plain text with a star before it, after it or both; `None` where they have
    /// another form. It fails only for want of memory.
    pub fn of(alloc: Global, elements: &[Element]) -> Result<Option<Starred>, AllocError>
        ensures { IfOk result (λ text. IfSome text
            (λ starred. starred_elements starred ≡ elements.now)) }
    {
        let inner = without_stars(elements);
        match plain_text(alloc, inner.elements)? {
            None => Ok(None),
            Some(text) => Ok(Some(Starred {
                text,
                before: inner.before,
                behind: inner.behind,
            })),
        }
    }

    /// Whether the pattern fits the whole text. It takes no memory.
    ///
    /// The steps are about the text's length in bytes, however long the plain text is.
    pub fn fits(&self, text: &str) -> bool
        ensures { result ≡ is_fit (starred_elements self.now) (chars text.now) }
    {
        let plain = self.text.as_str();
        match (self.before, self.behind) {
            (false, false) => plain == text,
            (false, true) => begins(text, plain),
            (true, false) => text.ends_with(plain),
            (true, true) => text.contains(plain),
        }
    }

    /// A copy. It fails only for want of memory.
    pub fn copy(&self, alloc: Global) -> Result<Starred, AllocError>
        ensures { IfOk result (λ copy. starred_elements copy ≡ starred_elements self.now) }
    {
        Ok(Starred {
            text: String::from_str(alloc, self.text.as_str())?,
            before: self.before,
            behind: self.behind,
        })
    }
}

// Whether a text begins with a plain one. Most texts that don't already differ in the first byte.
fn begins(text: &str, plain: &str) -> bool
    ensures { result ≡ starts_with nat_eq text.now plain.now }
{
    match (text.as_bytes().first(), plain.as_bytes().first()) {
        (Some(a), Some(b)) if *a != *b => false,
        _ => text.starts_with(plain),
    }
}

// Elements, and whether a star is before them and after them.
#[derive(Clone, Copy)]
struct Inner<'a> {
    before: bool,
    elements: &'a [Element],
    behind: bool,
}

// The elements between the stars at the ends.
fn without_stars<'a>(elements: &'a [Element]) -> Inner<'a>
    ensures { elements.entry.now
        ≡ star_if result.before ++ (result.elements.now ++ star_if result.behind) }
{
    match elements.split_first() {
        Some((Element::Star, rest)) => without_last_star(true, rest),
        _ => without_last_star(false, elements),
    }
}

fn without_last_star<'a>(before: bool, elements: &'a [Element]) -> Inner<'a>
    ensures before { result.before ≡ before }
    ensures elements { elements.entry.now ≡ result.elements.now ++ star_if result.behind }
{
    match elements.split_last() {
        Some((Element::Star, rest)) => Inner {
            before,
            elements: rest,
            behind: true,
        },
        _ => Inner {
            before,
            elements,
            behind: false,
        },
    }
}
