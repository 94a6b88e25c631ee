//! Calls of lq_value that no other test here makes: copies, a pattern of elements, literals, texts.
use lq_value::{
    AttrName, Element, Literal, Name, Op, Pattern, Refusal, Text, Value, View, compare,
};
use std::alloc::{AllocError, Global};
use std::test::Fail;

// Whether a copy of a name is that name, with this text.
fn is_copied(alloc: Global, name: &Name, text: &str) -> bool {
    match name.copy(alloc) {
        Ok(copy) => copy.as_str() == text && copy == *name,
        Err(_) => false,
    }
}

// Whether a name is read, copied and compared.
fn is_named(alloc: Global) -> bool {
    match (Name::read(alloc, "é"), Name::read(alloc, "z")) {
        (Ok(name), Ok(before)) => is_copied(alloc, &name, "é") && before < name,
        _ => false,
    }
}

// Whether an attribute's name is copied and compared.
fn is_attr_copied(alloc: Global, attr: &AttrName) -> bool {
    match attr.copy(alloc) {
        Ok(copy) => copy.as_str() == "a/b" && copy == *attr,
        Err(_) => false,
    }
}

// Whether that name is read.
fn is_attr_named(alloc: Global) -> bool {
    match AttrName::read(alloc, "a/b") {
        Ok(attr) => is_attr_copied(alloc, &attr),
        Err(_) => false,
    }
}

#[test]
fn names_are_read_and_copied(rt: HostRuntime) {
    assert!(rt; is_named(rt.alloc()));
    assert!(rt; is_attr_named(rt.alloc()));
}

/// Whether both views are of one type, and equal.
pub fn is_same(one: View<'_>, two: View<'_>) -> bool {
    match (one, two) {
        (View::Text(one), View::Text(two)) => one == two,
        (View::Int32(one), View::Int32(two)) => one == two,
        (View::Int64(one), View::Int64(two)) => one == two,
        (View::UInt32(one), View::UInt32(two)) => one == two,
        (View::UInt64(one), View::UInt64(two)) => one == two,
        _ => false,
    }
}

// A value of each type but a text, and its view.
const NUMBERS: [(Value, View<'static>); 4] = [
    (Value::Int32(-7), View::Int32(-7)),
    (Value::Int64(-9), View::Int64(-9)),
    (Value::UInt32(7), View::UInt32(7)),
    (Value::UInt64(9), View::UInt64(9)),
];

// Whether a copy of a value shows this.
fn is_shown(alloc: Global, value: &Value, shown: View<'_>) -> bool {
    match value.copy(alloc) {
        Ok(copy) => is_same(copy.view(), shown),
        Err(_) => false,
    }
}

// Whether a text that is a value shows itself.
fn is_text_shown(alloc: Global, text: &str) -> bool {
    match Value::text(alloc, text) {
        Ok(value) => is_shown(alloc, &value, View::Text(text)),
        Err(_) => false,
    }
}

#[test]
fn values_are_copied_and_shown(rt: HostRuntime) -> Result<(), Fail> {
    assert!(rt; is_text_shown(rt.alloc(), "q"));
    for (row, (value, view)) in NUMBERS.iter().enumerate() {
        if !is_shown(rt.alloc(), value, *view) {
            return Err(Fail::from(row));
        }
    }
    Ok(())
}

// The pattern of one character, then any run of them.
fn begins_with_a(alloc: Global) -> Result<Pattern, Refusal> {
    let mut elements = Vec::new(alloc);
    elements.push(Element::Plain('a'))?;
    elements.push(Element::Star)?;
    Pattern::of(alloc, elements)
}

// Whether that pattern is made, and fits what begins with `a`.
fn is_made(alloc: Global) -> bool {
    match begins_with_a(alloc) {
        Ok(pattern) => {
            pattern.matches("a")
                && pattern.matches("ab")
                && !pattern.matches("ba")
                && !pattern.matches("")
        }
        Err(_) => false,
    }
}

#[test]
fn a_pattern_is_made_of_its_elements(rt: HostRuntime) {
    assert!(rt; is_made(rt.alloc()));
}

// Whether the literal suits the operators of a pattern alone, and `10` equals it.
fn suits_as_pattern(literal: &Literal) -> bool {
    literal.suits(Op::Eq)
        && literal.suits(Op::Ne)
        && !literal.suits(Op::Lt)
        && compare(View::Text("10"), Op::Eq, literal)
}

// Whether the literal suits the operators of a plain text alone, and is below the number 10, and
// above the text `10`.
fn suits_as_plain(literal: &Literal) -> bool {
    literal.suits(Op::Gt)
        && literal.suits(Op::Le)
        && !literal.suits(Op::Eq)
        && compare(View::Int32(10), Op::Gt, literal)
        && !compare(View::Text("10"), Op::Ge, literal)
}

// The text 9.
fn nine(alloc: Global) -> Result<Text, AllocError> {
    Ok(Text::new(String::from_str(alloc, "9")?))
}

#[test]
fn a_literal_suits_operators_and_is_compared_with(rt: HostRuntime) {
    let pattern = Pattern::read(rt.alloc(), "1*").expect(&rt, "a pattern");
    assert!(rt; suits_as_pattern(&Literal::Pattern(pattern)));
    let plain = nine(rt.alloc()).expect(&rt, "a text");
    assert!(rt; suits_as_plain(&Literal::Plain(plain)));
}

#[test]
fn a_text_gives_its_string_back(rt: HostRuntime) {
    let text = nine(rt.alloc()).expect(&rt, "a text");
    assert!(rt; text.into_string().as_str() == "9");
}
