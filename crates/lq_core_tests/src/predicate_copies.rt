//! Predicates that are copied, that are made of others, and their truth for a caller's own row.
ghost use Rattle.std.specs.Prelude.{Some};
ghost use Rattle.lq_value.specs.PlainValue.{Number};

use lq_predicate::{Predicate, Row, holds, read, write};
use lq_value::{AttrName, Literal, Op, Pattern, Refusal, Text, View};
use std::alloc::Global;
use std::test::Fail;

// Whether a predicate has this canonical text.
fn is_text_of(alloc: Global, predicate: &Predicate, text: &str) -> bool {
    match write(alloc, predicate) {
        Ok(written) => written.as_str() == text,
        Err(_) => false,
    }
}

// Whether there is a predicate with this canonical text.
fn is_written(alloc: Global, made: Result<Option<Predicate>, Refusal>, text: &str) -> bool {
    match made {
        Ok(Some(predicate)) => is_text_of(alloc, &predicate, text),
        _ => false,
    }
}

// A copy of a formula's predicate.
fn copied(alloc: Global, formula: &str) -> Result<Option<Predicate>, Refusal> {
    read(alloc, formula)?.copy().map(Some)
}

#[test]
fn a_predicate_is_copied(rt: HostRuntime) {
    let copy = copied(rt.alloc(), "b=1&&!(a>2||b=3)");
    assert!(rt; is_written(rt.alloc(), copy, "((b==\"1\")&&!((a>\"2\")||(b==\"3\")))"));
}

// A row that shows one number under every name.
struct Same(i32);

impl Row for Same {
    ghost looks = { λ row _. Some (Number row.0) };

    fn look(&self, attr: &AttrName) -> Option<View<'_>> {
        let _ = attr;
        Some(View::Int32(self.0))
    }
}

#[test]
fn a_predicate_holds_of_a_row(rt: HostRuntime) {
    let predicate = read(rt.alloc(), "a>9&&b=1*||c!=10").expect(&rt, "a predicate");
    assert!(rt; holds(&predicate, &Same(11)));
    assert!(rt; !holds(&predicate, &Same(10)));
}

// `a` compared with a text as it stands.
fn ordered(alloc: Global, op: Op, text: &str) -> Result<Option<Predicate>, Refusal> {
    let attr = AttrName::read(alloc, "a")?;
    let literal = Literal::Plain(Text::new(String::from_str(alloc, text)?));
    Ok(Predicate::compare(alloc, attr, op, literal))
}

// `b` compared with the pattern of a source.
fn matched(alloc: Global, op: Op, source: &str) -> Result<Option<Predicate>, Refusal> {
    let attr = AttrName::read(alloc, "b")?;
    let literal = Literal::Pattern(Pattern::read(alloc, source)?);
    Ok(Predicate::compare(alloc, attr, op, literal))
}

// Whether there is no predicate, and no refusal either.
fn is_none(made: Result<Option<Predicate>, Refusal>) -> bool {
    matches!(&made, Ok(None))
}

#[test]
fn a_comparison_is_made_of_its_parts(rt: HostRuntime) {
    let alloc = rt.alloc();
    assert!(rt; is_written(alloc, ordered(alloc, Op::Ge, "-2"), "(a>=\"-2\")"));
    let set = matched(alloc, Op::Ne, "x[^a-c]*");
    assert!(rt; is_written(alloc, set, "(b!=\"x[^a-c]*\")"));
    assert!(rt; is_none(ordered(alloc, Op::Eq, "x")));
    assert!(rt; is_none(matched(alloc, Op::Le, "x")));
}

// Whether `Not`, `And` and `Or` of two predicates have the texts of the specification.
fn are_joined(alloc: Global, one: &Predicate, two: &Predicate) -> bool {
    is_written(alloc, one.not(), "!(a<\"2\")")
        && is_written(alloc, one.both(two), "((a<\"2\")&&(b==\"x*\"))")
        && is_written(alloc, two.either(one), "((b==\"x*\")||(a<\"2\"))")
}

#[test]
fn predicates_are_made_of_others(rt: HostRuntime) -> Result<(), Fail> {
    let alloc = rt.alloc();
    match (ordered(alloc, Op::Lt, "2"), matched(alloc, Op::Eq, "x*")) {
        (Ok(Some(one)), Ok(Some(two))) => {
            assert!(rt; are_joined(alloc, &one, &two));
            Ok(())
        }
        _ => Err(Fail::from("a comparison")),
    }
}
