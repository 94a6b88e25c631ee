//! How many bytes canonical texts have: the writer writes them into a counter.
ghost use Rattle.std.specs.Prelude.{◌≡◌, ◌+◌, [], length};
ghost use Rattle.std.specs.Str.{chars, encode_utf8_all};
ghost use Rattle.lq_value.specs.Pattern.{plain_elements};
ghost use Rattle.lq_predicate_formula.specs.Canonical.{attr_then, canonical, element_then, item_then, literal_text, pattern_text, quoted};
ghost use Rattle.lq_predicate_formula.specs.Query.{Compare};
ghost use Rattle.lq_predicate_formula.specs.Capped.{capped};

use crate::raw_size::joined_size;
use crate::text_sink::Counter;
use crate::write_comparison::{
    put_attr, put_comparison, put_element, put_elements, put_item, put_plain_text, put_quoted,
};
use lq_value::{AttrName, Element, Item, Literal, Op, Pattern};

/// The number of bytes in the canonical text of a comparison; the greatest usize stands for more.
/// It takes no memory.
pub fn comparison_size(attr: &AttrName, op: Op, literal: &Literal) -> usize
    ensures { result ≡ capped (length (canonical (Compare attr.now op literal.now))) }
{
    let mut counter = Counter { size: 0 };
    let Ok(()) = put_comparison(attr, op, literal, &mut counter);
    counter.size
}

/// The size of a comparison whose literal isn't made yet, from the number of bytes of the literal's
/// text between its marks. It takes no memory.
pub fn comparison_size_with(attr: &AttrName, op: Op, literal: usize) -> usize
    ensures { (l : Literal) → literal ≡ capped (length (literal_text l))
        → result ≡ capped (length (canonical (Compare attr.now op l))) }
{
    joined_size(attr_size(attr), op, literal)
}

/// The size of an `And` or an `Or` of two queries, from the sizes of both: it adds the parentheses
/// and the operator between them. It takes no memory.
pub fn pair_size(lower: usize, upper: usize) -> usize
    ensures { result ≡ capped (capped (lower + upper) + 4) }
{
    lower.saturating_add(upper).saturating_add(4)
}

fn attr_size(attr: &AttrName) -> usize
    ensures { result ≡ capped (length (attr_then attr.now [])) }
{
    let mut counter = Counter { size: 0 };
    let Ok(()) = put_attr(attr, &mut counter);
    counter.size
}

/// The number of bytes of a plain literal between its marks, with `\` before each `\` and `"`; the
/// greatest usize stands for more. It takes no memory.
pub fn plain_size(text: &str) -> usize
    ensures { result ≡ capped (length (quoted text.now)) }
{
    let mut counter = Counter { size: 0 };
    let Ok(()) = put_quoted(text, &mut counter);
    counter.size
}

/// The number of bytes of a pattern between its marks in canonical text; the greatest usize stands
/// for more. It takes no memory.
pub fn pattern_size(pattern: &Pattern) -> usize
    ensures { result ≡ capped (length (encode_utf8_all (pattern_text pattern.now))) }
{
    let mut counter = Counter { size: 0 };
    let Ok(()) = put_elements(pattern.elements(), &mut counter);
    counter.size
}

/// The size of the pattern, not made yet, whose elements are the characters of a text. It takes no
/// memory.
pub fn characters_size(text: &str) -> usize
    ensures { result
        ≡ capped (length (encode_utf8_all (pattern_text (plain_elements (chars text.now))))) }
{
    let mut counter = Counter { size: 0 };
    let Ok(()) = put_plain_text(text, &mut counter);
    counter.size
}

// The size of an element of a pattern.
pub(crate) fn element_size(element: &Element) -> usize
    ensures { result ≡ capped (length (encode_utf8_all (element_then element.now []))) }
{
    let mut counter = Counter { size: 0 };
    let Ok(()) = put_element(element, &mut counter);
    counter.size
}

// The size of an item of a set.
pub(crate) fn item_size(item: Item) -> usize
    ensures { result ≡ capped (length (encode_utf8_all (item_then item []))) }
{
    let mut counter = Counter { size: 0 };
    let Ok(()) = put_item(item, &mut counter);
    counter.size
}
