//! Which characters an element takes.
ghost use Rattle.std.specs.Prelude.{◌≡◌};
ghost use Rattle.lq_value_pattern.specs.Element.{has, set_has, takes};

use crate::element::{Element, Item};

/// Whether the element takes a single character, and takes this one.
pub(crate) fn takes(element: &Element, c: char) -> bool
    ensures { result ≡ takes element.now c }
{
    match element {
        Element::Star => false,
        Element::Any => true,
        Element::Plain(d) => *d == c,
        Element::Set { negated, items } => set_has(items.as_slice(), c) != *negated,
    }
}

// Whether an item includes the character.
fn set_has(items: &[Item], c: char) -> bool
    ensures { result ≡ set_has items.now c }
{
    items.iter().any(|item| has(*item, c))
}

/// Whether the item is or includes the character.
pub(crate) fn has(item: Item, c: char) -> bool
    ensures { result ≡ has item c }
{
    match item {
        Item::One(d) => d == c,
        Item::Range(first, last) => first <= c && c <= last,
    }
}
