//! Matching a text with elements, with backtracking to the latest star only.
ghost use Rattle.std.specs.Prelude.{◌≡◌, MatchOption, false};
ghost use Rattle.std.specs.Str.{chars};
ghost use Rattle.lq_value_pattern.specs.Matching.{Finds, IsAtStar, IsTakenStep, PassesToStar};
ghost use Rattle.lq_value_pattern.specs.Pattern.{is_fit, is_end, some_rest};

use crate::element::Element;
use crate::element_chars::takes;
use crate::first::first_char;
use crate::long::fits_long;

// What is left of a pattern and of a text.
#[derive(Clone, Copy)]
struct Left<'a> {
    elements: &'a [Element],
    text: &'a str,
}

// The result of matching one element.
#[derive(Clone, Copy)]
enum Taken<'a> {
    // The element took the first character.
    More(Left<'a>),
    // The element is a star, or no element is left.
    AtStar,
    // The pattern doesn't fit the text.
    Never,
}

/// Whether the elements fit the whole text. It takes no memory.
///
/// It backtracks to the latest star only, since that star can take whatever an earlier one could.
/// It is never inlined, so that the caller's stack needs no room for a long text.
#[inline(never)]
pub fn fits_text(elements: &[Element], text: &str) -> bool
    ensures { result ≡ is_fit elements.now (chars text.now) }
{
    match pass(Left { elements, text }) {
        None => false,
        Some(left) => fits_stars(left),
    }
}

// Whether the elements that are left fit the whole text that is left. A star is first, or none is
// left.
fn fits_stars(start: Left<'_>) -> bool
    requires { IsAtStar start.elements.now }
    ensures { result ≡ is_fit start.entry.elements.now (chars start.entry.text.now) }
{
    match fits_long(start.elements, start.text) {
        None => fits_short(start),
        Some(fits) => fits,
    }
}

// As `fits_stars`, by one element and one character at a time.
fn fits_short(start: Left<'_>) -> bool
    requires { IsAtStar start.elements.now }
    ensures { result ≡ is_fit start.entry.elements.now (chars start.entry.text.now) }
{
    let mut left = start;
    while let Some((_, after)) = left.elements.split_first() {
        match find(Left {
            elements: after,
            text: left.text,
        }) {
            None => return false,
            Some(found) => left = found,
        }
    }
    is_at_end(left.text)
}

fn is_at_end(text: &str) -> bool
    ensures { result ≡ is_end (chars text.now) }
{
    first_char(text).is_none()
}

// The rest after the first place of the text at which the elements up to the next star fit.
#[tactic(auto, using(crate::proofs::MatchingLemmas::later))]
fn find<'a>(start: Left<'a>) -> Option<Left<'a>>
    ensures { MatchOption result
        (some_rest (is_fit start.entry.elements.now) (chars start.entry.text.now) ≡ false)
        (λ found. Finds start.entry.elements.now (chars start.entry.text.now)
        found.elements.now (chars found.text.now)) }
{
    let mut here = start;
    loop {
        if let Some(found) = find_here(here) {
            return Some(found);
        }
        match first_char(here.text) {
            None => return None,
            Some((_, text)) => here.text = text,
        }
    }
}

// The rest where the elements up to the next star fit the start of the text, or, where no star
// follows, the whole text.
#[tactic(auto, using(crate::proofs::MatchingLemmas::found_here))]
fn find_here<'a>(here: Left<'a>) -> Option<Left<'a>>
    ensures { MatchOption result
        (is_fit here.entry.elements.now (chars here.entry.text.now) ≡ false)
        (λ found. Finds here.entry.elements.now (chars here.entry.text.now)
        found.elements.now (chars found.text.now)) }
{
    let left = pass(here)?;
    match left.elements.split_first() {
        Some(_) => Some(left),
        None if is_at_end(left.text) => Some(left),
        None => None,
    }
}

// The rest after each element up to the next star has taken a character.
fn pass<'a>(start: Left<'a>) -> Option<Left<'a>>
    ensures { MatchOption result
        (is_fit start.entry.elements.now (chars start.entry.text.now) ≡ false)
        (λ left. PassesToStar start.entry.elements.now (chars start.entry.text.now)
        left.elements.now (chars left.text.now)) }
{
    let mut left = start;
    loop {
        match take_one(left) {
            Taken::More(more) => left = more,
            Taken::AtStar => return Some(left),
            Taken::Never => return None,
        }
    }
}

// Matches one element with one character.
fn take_one<'a>(left: Left<'a>) -> Taken<'a>
    ensures { IsTakenStep result left.entry.elements.now (chars left.entry.text.now) }
{
    let Some((element, elements)) = left.elements.split_first() else {
        return Taken::AtStar;
    };
    if let Element::Star = element {
        return Taken::AtStar;
    }
    match first_char(left.text) {
        Some((c, text)) if takes(element, c) => Taken::More(Left { elements, text }),
        _ => Taken::Never,
    }
}
