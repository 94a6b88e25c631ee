//! Tests whether some text writes a literal.
ghost use Rattle.std.specs.Prelude.{◌↔◌, IsTrue};
ghost use Rattle.std.specs.Char.{IsScalar};
ghost use Rattle.std.specs.Str.{chars};
ghost use Rattle.lq_value.specs.Pattern.{plain_elements};
ghost use Rattle.lq_predicate_formula.specs.Limits.{AreGoodItems, IsGoodElement, IsGoodItem, IsGoodLiteral, IsGoodPattern};

use lq_value::{Element, Elements, Item, Literal};

// Whether some text writes the literal: each set of its pattern has an item, and no range falls.
pub(crate) fn has_source(literal: &Literal) -> bool
    ensures { IsTrue result ↔ IsGoodLiteral literal.now }
{
    match literal {
        Literal::Plain(_) => true,
        Literal::Pattern(pattern) => match pattern.elements() {
            Elements::Text(text) => is_text_good(text),
            Elements::List(elements) => are_elements_good(elements),
        },
    }
}

// True of each text, since a character is a scalar value.
#[tactic(auto, using(crate::proofs::StarredLemmas::text_good))]
fn is_text_good(text: &str) -> bool
    ensures { IsTrue result ↔ IsGoodPattern (plain_elements (chars text.now)) }
{
    let _ = text;
    true
}

fn are_elements_good(elements: &[Element]) -> bool
    ensures { IsTrue result ↔ IsGoodPattern elements.now }
{
    for element in elements {
        if !is_element_good(element) {
            return false;
        }
    }
    true
}

fn is_element_good(element: &Element) -> bool
    ensures { IsTrue result ↔ IsGoodElement element.now }
{
    match element {
        Element::Star | Element::Any => true,
        Element::Plain(c) => is_character(*c),
        Element::Set { negated: _, items } => {
            let items = items.as_slice();
            !items.is_empty() && are_items_good(items)
        }
    }
}

// True of each character, since a `char` is a scalar value.
fn is_character(c: char) -> bool
    ensures { IsTrue result ↔ IsScalar c }
{
    let _ = c;
    true
}

fn are_items_good(items: &[Item]) -> bool
    ensures { IsTrue result ↔ AreGoodItems items.now }
{
    for item in items {
        if !is_item_good(*item) {
            return false;
        }
    }
    true
}

// Whether the item is no range that falls.
fn is_item_good(item: Item) -> bool
    ensures { IsTrue result ↔ IsGoodItem item }
{
    match item {
        Item::One(c) => is_character(c),
        Item::Range(first, last) => is_character(first) && is_character(last) && first <= last,
    }
}
