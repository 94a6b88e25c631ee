//! Of lq_predicate: formulas, and predicates from pushes, which no script makes.
use lq_predicate::{Predicate, Stack, StackOp, names, needs_attribute, read, write};
use lq_value::Refusal;
use std::alloc::Global;
use std::test::Fail;

// A call of a stack; of those that are refused, the place.
enum Call {
    Attr(&'static str),
    Text(&'static str),
    Int32(i32),
    Int64(i64),
    Op(StackOp),
    RefusedOp(StackOp, u64),
    RefusedFinish(u64),
}

// what is called on a new stack in turn; of what it then gives the canonical text and the names
const TEXTS: [(&[Call], &str, &[&str]); 2] = [
    (
        &[
            Call::Attr("size"),
            Call::Int32(10),
            Call::Op(StackOp::Gt),
            Call::Attr("name"),
            Call::Text("oo"),
            Call::Op(StackOp::Contains),
            Call::Op(StackOp::And),
        ],
        "((size>\"10\")&&(name==\"*oo*\"))",
        &["size", "name"],
    ),
    (
        &[
            Call::RefusedFinish(0),
            Call::Attr("a"),
            Call::Int64(-5),
            Call::RefusedOp(StackOp::And, 2),
            Call::Op(StackOp::Lt),
        ],
        "(a<\"-5\")",
        &["a"],
    ),
];

// `Ok` where that is why a call is refused.
fn is_refused_at<T: Drop>(answer: Result<T, Refusal>, place: u64) -> Result<(), Refusal> {
    match answer {
        Err(refusal) if refusal == Refusal::BadQuery { place } => Ok(()),
        _ => Err(Refusal::Mismatch),
    }
}

fn make(stack: &mut Stack, call: &Call) -> Result<(), Refusal> {
    match call {
        Call::Attr(name) => stack.push_attr(name),
        Call::Text(text) => stack.push_text(text),
        Call::Int32(number) => stack.push_int32(*number),
        Call::Int64(number) => stack.push_int64(*number),
        Call::Op(op) => stack.push_op(*op),
        Call::RefusedOp(op, place) => is_refused_at(stack.push_op(*op), *place),
        Call::RefusedFinish(place) => is_refused_at(stack.finish(), *place),
    }
}

// What a new stack gives after these.
fn finished(alloc: Global, calls: &[Call]) -> Result<Predicate, Refusal> {
    let mut stack = Stack::new(alloc);
    for call in calls {
        make(&mut stack, call)?;
    }
    stack.finish()
}

#[test]
fn scenario_postfix_stack(rt: HostRuntime) -> Result<(), Fail> {
    for (calls, text, attrs) in &TEXTS {
        let predicate = finished(rt.alloc(), calls)?;
        let named = names(rt.alloc(), &predicate)?;
        let are_named = named.len() == attrs.len()
            && named
                .iter()
                .zip(*attrs)
                .all(|(one, other)| one.as_str() == *other);
        if !are_named || write(rt.alloc(), &predicate)?.as_str() != *text {
            return Err(Fail::from(*text));
        }
    }
    Ok(())
}

// A text that is no pattern.
const NO_PATTERN: [Call; 4] = [
    Call::Attr("a"),
    Call::Text("a\\"),
    Call::RefusedOp(StackOp::Eq, 2),
    Call::Op(StackOp::Lt),
];

#[test]
fn a_pattern_with_a_fault_is_not_pushed(rt: HostRuntime) -> Result<(), Fail> {
    finished(rt.alloc(), &NO_PATTERN)?;
    Ok(())
}

// a formula, its canonical text
const FORMULAS: [(&str, &str); 2] = [
    (
        "((((((((((((((((((((((((((((((((((((((((((((((((((((((((((((((((\
         a=1))))))))))))))))))))))))))))))))))))))))))))))))))))))))))))))))",
        "(a==\"1\")",
    ),
    ("a=1||b=2&&!c=3", "((a==\"1\")||((b==\"2\")&&!(c==\"3\")))"),
];

// a formula, the place at which it is refused
const FAULTS: [(&str, u64); 4] = [
    ("size>10 &", 8),
    ("name==\"[a\"", 7),
    (
        "(((((((((((((((((((((((((((((((((((((((((((((((((((((((((((((((((\
         a=1)))))))))))))))))))))))))))))))))))))))))))))))))))))))))))))))))",
        64,
    ),
    ("", 0),
];

#[test]
fn scenario_formula_texts(rt: HostRuntime) -> Result<(), Fail> {
    for (formula, text) in &FORMULAS {
        let predicate = read(rt.alloc(), formula)?;
        if write(rt.alloc(), &predicate)?.as_str() != *text {
            return Err(Fail::from(*text));
        }
    }
    for (formula, place) in &FAULTS {
        let refused = read(rt.alloc(), formula).err();
        if refused != Some(Refusal::BadQuery { place: *place }) {
            return Err(Fail::from(*formula));
        }
    }
    Ok(())
}

// a formula, whether it needs an attribute
const NEEDS: [(&str, bool); 9] = [
    ("PRIO==2", true),
    ("PRIO!=2", true),
    ("size>0", false),
    ("name==a", false),
    ("last_modified>0", false),
    ("!(PRIO==2)", false),
    ("size>0&&PRIO==2", true),
    ("size>0||PRIO==2", false),
    ("PRIO==1||PRIO==2", true),
];

#[test]
fn formulas_that_need_an_attribute(rt: HostRuntime) -> Result<(), Fail> {
    for (formula, needs) in &NEEDS {
        let predicate = read(rt.alloc(), formula)?;
        if needs_attribute(&predicate) != *needs {
            return Err(Fail::from(*formula));
        }
    }
    Ok(())
}
