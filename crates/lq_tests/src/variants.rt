//! Calls that may answer `NoMemory`, each with every variant of what it is given.
//!
//! No clause can say that memory is found, so a body that gives up for one variant is proved: here
//! there is memory, and each call has to give what was asked for.
use crate::act::Act;
use crate::again::again;
use crate::ask::{Ask, event};
use lq_desk::{Desk, Event, Reply};
use lq_predicate::{Stack, StackOp, write};
use lq_value::{Refusal, View};
use lq_volume::Volume;
use std::alloc::Global;
use std::test::Fail;

// As a pattern it has each kind of element, as a text it is plain.
const TEXT: &str = "*?[b-c][^d]e";

// operator of `a` and the text; operators of that and of `b=2`, where it is pushed; what they make
const STACKS: [(StackOp, &[StackOp], &str); 14] = [
    (StackOp::Eq, &[], "(a==\"*?[b-c][^d]e\")"),
    (StackOp::Ne, &[], "(a!=\"*?[b-c][^d]e\")"),
    (StackOp::Gt, &[], "(a>\"*?[b-c][^d]e\")"),
    (StackOp::Ge, &[], "(a>=\"*?[b-c][^d]e\")"),
    (StackOp::Lt, &[], "(a<\"*?[b-c][^d]e\")"),
    (StackOp::Le, &[], "(a<=\"*?[b-c][^d]e\")"),
    (StackOp::Contains, &[], "(a==\"*\\*\\?\\[b-c]\\[^d]e*\")"),
    (StackOp::BeginsWith, &[], "(a==\"\\*\\?\\[b-c]\\[^d]e*\")"),
    (StackOp::EndsWith, &[], "(a==\"*\\*\\?\\[b-c]\\[^d]e\")"),
    (
        StackOp::Eq,
        &[StackOp::And],
        "((a==\"*?[b-c][^d]e\")&&(b==\"2\"))",
    ),
    (
        StackOp::Ne,
        &[StackOp::Or],
        "((a!=\"*?[b-c][^d]e\")||(b==\"2\"))",
    ),
    (
        StackOp::Lt,
        &[StackOp::Not, StackOp::And],
        "((a<\"*?[b-c][^d]e\")&&!(b==\"2\"))",
    ),
    (
        StackOp::Eq,
        &[StackOp::And, StackOp::Not],
        "!((a==\"*?[b-c][^d]e\")&&(b==\"2\"))",
    ),
    (
        StackOp::Eq,
        &[StackOp::Or, StackOp::Not],
        "!((a==\"*?[b-c][^d]e\")||(b==\"2\"))",
    ),
];

// Openings, changes of each kind, a value of each type, more attributes than stay a list, and what
// ends it all.
static EVENTS: [Ask; 43] = [
    Ask::Open("name='a*'", 9, 9, false),
    Ask::Open("name='a*'", 9, 9, true),
    Ask::Open("!x>1", 9, 9, false),
    Ask::Open("!x>1", 9, 9, true),
    Ask::Open("name!=b&&x<=1", 9, 9, false),
    Ask::Open("name!=b&&x<=1", 9, 9, true),
    Ask::Open("x=1||size<2", 1, 1, false),
    Ask::Open("x=1||size<2", 1, 1, true),
    Ask::Open("!(x>=1&&!name=[^b-d])||name=?*&&'e f'=1", 9, 9, false),
    Ask::Open("!(x>=1&&!name=[^b-d])||name=?*&&'e f'=1", 9, 9, true),
    Ask::Change(Act::File(1, "a", 0)),
    Ask::Change(Act::Folder(1, "d")),
    Ask::Change(Act::Write(2, 2)),
    Ask::Change(Act::Set(2, 1)),
    Ask::Change(Act::Unset(2)),
    Ask::Change(Act::Move(2, 3, "b")),
    Ask::Change(Act::File(1, "b", 0)),
    Ask::Change(Act::Clobber(2, 1, "b")),
    Ask::Set("x", View::Text("q")),
    Ask::Set("x", View::Int32(-7)),
    Ask::Set("s", View::Text("q")),
    Ask::Set("l", View::Int64(-9_000_000_000)),
    Ask::Set("u", View::UInt32(4_294_967_295)),
    Ask::Set("v", View::UInt64(18_446_744_073_709_551_615)),
    Ask::Set("a", View::Int32(1)),
    Ask::Set("b", View::Int32(1)),
    Ask::Set("c", View::Int32(1)),
    Ask::Set("d", View::Int32(1)),
    Ask::Set("e", View::Int32(1)),
    Ask::Set("f", View::Int32(1)),
    Ask::Set("g", View::Int32(1)),
    Ask::Set("h", View::Int32(1)),
    Ask::Set("i", View::Int32(1)),
    Ask::Set("j", View::Int32(1)),
    Ask::Set("k", View::Int32(1)),
    Ask::Set("m", View::Int32(1)),
    Ask::Change(Act::Remove(3)),
    Ask::At(1, lq_desk_world::Act::HangUp),
    Ask::At(1, lq_desk_world::Act::Notice),
    Ask::At(2, lq_desk_world::Act::Close),
    Ask::At(2, lq_desk_world::Act::Put),
    Ask::At(2, lq_desk_world::Act::Take),
    Ask::At(3, lq_desk_world::Act::Take),
];

/// Whether operators make this.
fn is_made(alloc: Global, op: StackOp, joins: &[StackOp], text: &str) -> Result<bool, Refusal> {
    let mut stack = Stack::new(alloc);
    stack.push_attr("a")?;
    stack.push_text(TEXT)?;
    stack.push_op(op)?;
    if !joins.is_empty() {
        stack.push_attr("b")?;
        stack.push_int32(2)?;
        stack.push_op(StackOp::Eq)?;
    }
    for join in joins {
        stack.push_op(*join)?;
    }
    let predicate = stack.finish()?;
    Ok(write(alloc, &predicate)?.as_str() == text)
}

#[test]
fn each_operator_is_pushed(rt: HostRuntime) -> Result<(), Fail> {
    for (op, joins, text) in &STACKS {
        if !is_made(rt.alloc(), *op, joins, text)? {
            return Err(Fail::from(*text));
        }
    }
    Ok(())
}

/// Why a desk refuses an event, or its turn, if it does.
fn refusal(desk: &mut Desk, is_turn: bool, event: &Event) -> Option<Refusal> {
    let reply = if is_turn {
        desk.turn(event)
    } else {
        desk.event(event)
    };
    match reply {
        Reply::Refused(refusal) => Some(refusal),
        _ => None,
    }
}

/// Whether a new desk refuses none of the events, each given again where memory ran out, and has
/// all attributes then.
fn are_carried_out(alloc: Global, is_turn: bool) -> Result<bool, Refusal> {
    let mut desk = again!(Desk::new(alloc, Volume::new(alloc, 99)))?;
    for ask in &EVENTS {
        let event = again!(event(alloc, ask))?;
        let mut refused = refusal(&mut desk, is_turn, &event);
        if refused == Some(Refusal::NoMemory) {
            refused = refusal(&mut desk, is_turn, &event);
        }
        if refused.is_some() {
            return Ok(false);
        }
    }
    let copy = again!(desk.volume().copy())?;
    Ok(again!(copy.listing(2))?.attrs.len() == 17)
}

#[test]
fn each_event_is_carried_out(rt: HostRuntime) -> Result<(), Fail> {
    assert!(rt; are_carried_out(rt.alloc(), false)?);
    assert!(rt; are_carried_out(rt.alloc(), true)?);
    Ok(())
}
