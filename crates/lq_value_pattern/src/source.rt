//! Reading the elements of a pattern from its source.
ghost use Rattle.std.specs.Prelude.{◌≡◌, ℕ, IfErr, IfOk, Ok};
ghost use Rattle.lq_value_pattern.specs.SourceError.{IsFailedBy};
ghost use Rattle.lq_value_pattern.specs.Sign.{signs_of};
ghost use Rattle.lq_value_pattern.specs.Source.{element_at, item_at, pattern_of, pieces_of, set_with, source_error};
ghost use Rattle.lq_value_pattern.specs.Written.{HasFaultAt, Writes};
ghost use Rattle.lq_value_pattern.specs.declared.error.SourceError.TheVariants.{Faulty};
ghost use Rattle.lq_value_pattern.specs.Reading.{IsFirstRead, IsWithElement};

use crate::element::Element;
use crate::error::SourceError;
use crate::piece::{FirstPiece, first_piece};
use crate::set::read_items;
use std::alloc::Global;

/// What comes first in a text where an element is expected, and the text after it.
#[derive(Drop)]
pub(crate) enum FirstElement<'a> {
    /// The end of the source.
    End,
    /// An element, or a refusal where it had no memory.
    Has(Result<Element, SourceError>, &'a str),
    /// Neither.
    Faulty,
}

/// The elements that a source writes.
///
/// Errors, the first that fits: `Faulty` with the byte offset of the leftmost fault, `NoMemory`. So
/// after memory runs out the rest is still read.
pub fn read_elements(alloc: Global, source: &str) -> Result<Vec<Element>, SourceError>
    ensures value { IfOk result (λ elements. pattern_of source.now ≡ Ok elements.items) }
    ensures written { IfOk result (λ elements. Writes (signs_of source.now) elements.items) }

    // The leftmost fault, and where it is.
    ensures failed { IsFailedBy result (source_error source.now) }
    ensures fault { IfErr result
        (λ e. (offset : ℕ) → e ≡ Faulty offset → HasFaultAt source.now offset) }
{
    let mut elements = Ok(Vec::new(alloc));
    let mut left = source;
    loop {
        match first_element(alloc, left) {
            FirstElement::End => return elements,
            FirstElement::Has(element, rest) => {
                elements = with_element(elements, element);
                left = rest;
            }
            FirstElement::Faulty => {
                let offset = (source.len() - left.len()) as u64;
                return Err(SourceError::Faulty { offset });
            }
        }
    }
}

// Adds an element, unless memory ran out before or runs out now.
fn with_element(
    elements: Result<Vec<Element>, SourceError>,
    element: Result<Element, SourceError>,
) -> Result<Vec<Element>, SourceError>
    ensures { IsWithElement elements element result }
{
    let mut elements = elements?;
    elements.push(element?)?;
    Ok(elements)
}

fn first_element<'a>(alloc: Global, text: &'a str) -> FirstElement<'a>
    ensures { IsFirstRead (element_at (signs_of text.entry.now)) result }
{
    match first_piece(text) {
        FirstPiece::End => FirstElement::End,
        FirstPiece::Star(rest) => FirstElement::Has(Ok(Element::Star), rest),
        FirstPiece::Any(rest) => FirstElement::Has(Ok(Element::Any), rest),
        FirstPiece::Plain(c, rest) => FirstElement::Has(Ok(Element::Plain(c)), rest),
        FirstPiece::Opens { negated, items } => set_of(alloc, negated, items),
        FirstPiece::Faulty => FirstElement::Faulty,
    }
}

// The set whose items begin the text.
fn set_of<'a>(alloc: Global, negated: bool, text: &'a str) -> FirstElement<'a>
    ensures { IsFirstRead (set_with negated (pieces_of item_at (signs_of text.entry.now))) result }
{
    let Some((items, rest)) = read_items(alloc, text) else {
        return FirstElement::Faulty;
    };
    match items {
        Err(refusal) => FirstElement::Has(Err(refusal), rest),
        Ok(items) => {
            if items.is_empty() {
                return FirstElement::Faulty;
            }
            FirstElement::Has(Ok(Element::Set { negated, items }), rest)
        }
    }
}
