//! The size of a pattern's canonical text from its source, one element at a time, so that the
//! pattern itself need not be made.
ghost use Rattle.std.specs.Prelude.{◌≡◌, ◌-◌, ◌^◌, if◌then◌else◌, None, Some, MatchOption, IfSome};
ghost use Rattle.std.specs.Str.{IsUtf8};
ghost use Rattle.lq_predicate_formula.specs.Sizes.{IsSized, items_sized, pattern_sized};
ghost use Rattle.lq_value.specs.Sign.{signs_of};
ghost use Rattle.lq_value.specs.Source.{element_at, item_at, pattern_of, pieces_of, set_with};

use crate::size::{element_size, item_size};
use lq_value::{Element, FirstItem, FirstPiece, first_item, first_piece, sources_are_walked};

// The element at the start of a text: its number of bytes in canonical text, and the source after
// it.
pub(crate) enum FirstSize<'a> {
    End,
    Has(usize, &'a str),
    Faulty,
}

// The size of the pattern that a source writes, or the byte offset of its leftmost fault.
pub(crate) fn source_size(source: &str) -> Result<usize, u64>
    ensures { result ≡ pattern_sized (pattern_of source.now) }
{
    sources_are_walked();
    let mut size: usize = 0;
    let mut left = source;
    loop {
        match first_size(left) {
            FirstSize::End => return Ok(size),
            FirstSize::Has(element, rest) => {
                size = size.saturating_add(element);
                left = rest;
            }
            FirstSize::Faulty => return Err(source.len().saturating_sub(left.len()) as u64),
        }
    }
}

fn first_size<'a>(source: &'a str) -> FirstSize<'a>
    ensures { IsSized (element_at (signs_of source.entry.now)) result }
{
    match first_piece(source) {
        FirstPiece::End => FirstSize::End,
        FirstPiece::Star(rest) => FirstSize::Has(element_size(&Element::Star), rest),
        FirstPiece::Any(rest) => FirstSize::Has(element_size(&Element::Any), rest),
        FirstPiece::Plain(c, rest) => FirstSize::Has(element_size(&Element::Plain(c)), rest),
        FirstPiece::Opens { negated, items } => set_size(negated, items),
        FirstPiece::Faulty => FirstSize::Faulty,
    }
}

// The set whose items are at the start of the text: it has at least one item, which is more than
// its `]`.
fn set_size<'a>(negated: bool, text: &'a str) -> FirstSize<'a>
    ensures { IsSized (set_with negated (pieces_of item_at (signs_of text.entry.now))) result }
{
    match set_rest_size(text) {
        None => FirstSize::Faulty,
        Some((size, rest)) => {
            if size <= 1 {
                return FirstSize::Faulty;
            }
            FirstSize::Has(size.saturating_add(begin_size(negated)), rest)
        }
    }
}

// `[` or `[^`.
fn begin_size(negated: bool) -> usize
    ensures { result ≡ (if negated then 2 else 1) }
{
    if negated { 2 } else { 1 }
}

// The size of a set's items and its `]`, and the text after them.
fn set_rest_size<'a>(text: &'a str) -> Option<(usize, &'a str)>
    ensures value { MatchOption result
        (items_sized 0 (pieces_of item_at (signs_of text.entry.now)) ≡ None)
        (λ r. items_sized 0 (pieces_of item_at (signs_of text.entry.now))
        ≡ Some (r.0, signs_of r.1.now)) }
    ensures text { IfSome result (λ r. IsUtf8 r.1.now) }
{
    sources_are_walked();
    let mut size: usize = 0;
    let mut left = text;
    loop {
        match first_item(left) {
            FirstItem::End(rest) => return Some((size.saturating_add(1), rest)),
            FirstItem::Has(item, rest) => {
                size = size.saturating_add(item_size(item));
                left = rest;
            }
            FirstItem::Faulty => return None,
        }
    }
}
