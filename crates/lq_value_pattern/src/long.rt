//! Matching a long text, through an array of its characters.
ghost use Rattle.std.specs.Prelude.{◌≡◌, ◌≤◌, length, take, drop, IfSome, MatchOption, false};
ghost use Rattle.std.specs.Str.{chars};
ghost use Rattle.lq_value_pattern.specs.Matching.{AreSingle, Finds, IsAtStar};
ghost use Rattle.lq_value_pattern.specs.Pattern.{is_fit, some_rest};
ghost use Rattle.lq_value_pattern.specs.Seek.{is_large, IsPiece};

use crate::element::Element;
use crate::first::first_char;
use crate::window_search::{find_index, from_index};

// From how many bytes on a text is matched at many places at once.
const LONG_TEXT: usize = 128;

// From how many bytes on such a text is, where a set has many items.
const LONG_FOR_SETS: usize = 32;

// A set of more items has many.
const MANY_ITEMS: usize = 16;

// How many characters it may have.
const MAX_CHARS: usize = 4096;

// The elements and characters that are left.
#[derive(Clone, Copy)]
struct Rest<'a> {
    elements: &'a [Element],
    text: &'a [char],
}

// The text that is left.
#[derive(Clone, Copy)]
struct Unread<'a> {
    text: &'a str,
}

// The elements before the first star, and those from the star on.
#[derive(Clone, Copy)]
struct Piece<'a> {
    single: &'a [Element],
    after: &'a [Element],
}

/// Whether the elements fit the whole text. There are none, or the first is a star. `None` for a
/// text that is matched place by place: it has less than 128 bytes, or less than 32 where a set has
/// many items, or more than 4,096 characters. It takes no memory.
pub(crate) fn fits_long(elements: &[Element], text: &str) -> Option<bool>
    requires { IsAtStar elements.now }
    ensures { IfSome result (λ r. r ≡ is_fit elements.now (chars text.now)) }
{
    if text.len() < LONG_FOR_SETS || text.len() < LONG_TEXT && !elements.iter().any(is_large) {
        return None;
    }
    fits_copied(elements, text)
}

// Whether it is a set of many items.
fn is_large(element: &Element) -> bool
    ensures { result ≡ is_large element.now }
{
    match element {
        Element::Set { items, .. } => MANY_ITEMS < items.as_slice().len(),
        _ => false,
    }
}

fn fits_copied(elements: &[Element], text: &str) -> Option<bool>
    requires { IsAtStar elements.now }
    ensures { IfSome result (λ r. r ≡ is_fit elements.now (chars text.now)) }
{
    let mut buffer = ['\0'; MAX_CHARS];
    let count = copy_chars(text, &mut buffer)?;
    Some(fits_chars(Rest {
        elements,
        text: &buffer[..count],
    }))
}

// Copies the characters into the buffer and answers their number; `None` if they have no room.
#[tactic(auto, using(crate::proofs::LongLemmas::copied))]
fn copy_chars(text: &str, buffer: &mut [char]) -> Option<usize>
    ensures room { IfSome result (λ count. count ≤ length buffer.new) }
    ensures value { IfSome result (λ count. take count buffer.new ≡ chars text.now) }
{
    let mut left = Unread { text };
    let mut count = 0;
    while let Some((c, rest)) = first_char(left.text) {
        if count == buffer.len() {
            return None;
        }
        buffer[count] = c;
        count += 1;
        left.text = rest;
    }
    Some(count)
}

fn fits_chars(start: Rest<'_>) -> bool
    requires { IsAtStar start.elements.now }
    ensures { result ≡ is_fit start.entry.elements.now start.entry.text.now }
{
    let mut left = start;
    while let Some((_, after)) = left.elements.split_first() {
        match find(Rest {
            elements: after,
            text: left.text,
        }) {
            None => return false,
            Some(found) => left = found,
        }
    }
    left.text.is_empty()
}

// The rest after the first index of the text at which the elements up to the next star fit.
#[tactic(auto, using(crate::proofs::SeekLemmas::pieces_found))]
fn find<'a>(start: Rest<'a>) -> Option<Rest<'a>>
    ensures { MatchOption result
        (some_rest (is_fit start.entry.elements.now) start.entry.text.now ≡ false)
        (λ found. Finds start.entry.elements.now start.entry.text.now
        found.elements.now found.text.now) }
{
    let piece = split_at_star(start.elements);
    let text = start.text;
    if text.len() < piece.single.len() {
        return None;
    }
    if piece.after.is_empty() {
        let end = from_index(text, text.len() - piece.single.len());
        find_index(piece.single, end)?;
        let nothing = from_index(text, text.len());
        return Some(Rest {
            elements: piece.after,
            text: nothing,
        });
    }
    let index = find_index(piece.single, text)?;
    let left = from_index(text, index + piece.single.len());
    Some(Rest {
        elements: piece.after,
        text: left,
    })
}

#[tactic(auto, using(crate::proofs::LongLemmas::piece_at))]
fn split_at_star<'a>(elements: &'a [Element]) -> Piece<'a>
    ensures { IsPiece elements.entry.now result.single.now result.after.now }
{
    let (single, after) = elements.split_at(count_single(elements));
    Piece { single, after }
}

// The number of elements before the first star.
#[tactic(auto, using(crate::proofs::LongLemmas::next_star))]
fn count_single(elements: &[Element]) -> usize
    ensures within { result ≤ length elements.now }
    ensures single { AreSingle (take result elements.now) }
    ensures star { IsAtStar (drop result elements.now) }
{
    for (k, element) in elements.iter().enumerate() {
        if let Element::Star = element {
            return k;
        }
    }
    elements.len()
}
