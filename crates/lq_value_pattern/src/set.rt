//! Reading the items of a set.
ghost use Rattle.std.specs.Prelude.{◌≡◌, ◌++◌, ◌∷◌, [], MatchOption};
ghost use Rattle.lq_value_pattern.specs.Sign.{signs_of};
ghost use Rattle.lq_value_pattern.specs.Source.{behind_char, behind_dash, item_at, pieces_of, range_at};
ghost use Rattle.lq_value_pattern.specs.Reading.{IsStuck, IsTextBehindItem, IsWithItem, ReadsItems, first_item_of};

use crate::element::{Item, Items};
use crate::error::SourceError;
use crate::sign::{Sign, first_sign};
use std::alloc::Global;

/// What comes first in a text where an item of a set is expected, and the text after it.
#[derive(Clone, Copy)]
pub enum FirstItem<'a> {
    /// The `]` that ends the set.
    End(&'a str),
    /// An item.
    Has(Item, &'a str),
    /// Neither: the source ends, or a range falls.
    Faulty,
}

/// The items of a set, and the text after its `]`; `None` where the set has a fault.
///
/// After memory runs out the rest is still read, since a fault comes first among the refusals.
pub(crate) fn read_items<'a>(
    alloc: Global,
    text: &'a str,
) -> Option<(Result<Items, SourceError>, &'a str)>
    ensures { MatchOption result (IsStuck (pieces_of item_at (signs_of text.entry.now)))
        (λ r. ReadsItems (signs_of text.entry.now) r.0 (signs_of r.1.now)) }
{
    let mut items = Ok(Items::new(alloc));
    let mut left = text;
    loop {
        match first_item(left) {
            FirstItem::End(rest) => return Some((items, rest)),
            FirstItem::Has(item, rest) => {
                items = with_item(items, item);
                left = rest;
            }
            FirstItem::Faulty => return None,
        }
    }
}

// Adds an item, unless memory ran out before or runs out now.
fn with_item(items: Result<Items, SourceError>, item: Item) -> Result<Items, SourceError>
    ensures { IsWithItem items item result }
{
    let mut items = items?;
    items.push(item)?;
    Ok(items)
}

/// What comes first in the text after the beginning of a set, where an item is expected. It takes
/// no memory.
pub fn first_item<'a>(text: &'a str) -> FirstItem<'a>
    ensures first { item_at (signs_of text.entry.now) ≡ first_item_of result }
    ensures text { IsTextBehindItem result }
{
    match first_sign(text) {
        None => FirstItem::Faulty,
        Some((Sign::Bare(']'), rest)) => FirstItem::End(rest),
        Some((Sign::Bare(c), rest)) => item_from(c, rest),
        Some((Sign::Escaped(c), rest)) => item_from(c, rest),
        Some((Sign::Dangling, _)) => FirstItem::Faulty,
    }
}

// The item that begins with this character, before the text.
fn item_from<'a>(c: char, text: &'a str) -> FirstItem<'a>
    ensures first { behind_char c (signs_of text.entry.now) ≡ first_item_of result }
    ensures text { IsTextBehindItem result }
{
    match first_sign(text) {
        Some((Sign::Bare('-'), behind)) => range_from(c, text, behind),
        _ => FirstItem::Has(Item::One(c), text),
    }
}

// The item that begins with this character, where `here` begins with a `-` and `behind` comes after
// it.
fn range_from<'a>(c: char, here: &'a str, behind: &'a str) -> FirstItem<'a>
    ensures first { behind_dash c (signs_of here.entry.now) (signs_of behind.entry.now)
        ≡ first_item_of result }
    ensures text { IsTextBehindItem result }
{
    match first_sign(behind) {
        None => FirstItem::Has(Item::One(c), here),
        Some((Sign::Bare(']'), _)) => FirstItem::Has(Item::One(c), here),
        Some((Sign::Bare(d), rest)) => range_to(c, d, rest),
        Some((Sign::Escaped(d), rest)) => range_to(c, d, rest),
        Some((Sign::Dangling, _)) => FirstItem::Faulty,
    }
}

fn range_to<'a>(c: char, d: char, rest: &'a str) -> FirstItem<'a>
    ensures first { range_at c d (signs_of rest.entry.now) ≡ first_item_of result }
    ensures text { IsTextBehindItem result }
{
    if c > d {
        return FirstItem::Faulty;
    }
    FirstItem::Has(Item::Range(c, d), rest)
}
