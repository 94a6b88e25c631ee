//! Worked examples as lists of events of one desk, each with its answer: with memory, and with one
//! growth refused, where the event that ran out of memory is repeated; and the limits of changes
//! and openings.
ghost use Rattle.std.specs.Prelude.{◌≤◌};

use crate::act::Act;
use crate::again::again;
use crate::ask::{Ask, event, is_told};
use lq_desk::{Desk, Reply};
use lq_desk_world::Act::{Close, Finish, HangUp, Notice, Put, Take};
use lq_predicate::read;
use lq_value::{Entry, Refusal, View};
use lq_volume::Volume;
use std::alloc::Global;
use std::test::Fail;

/// An event and its answer, with the answer's numbers. Of a change: its own and the node; of an
/// opening: the slot, the changes before it, the entries; of a message, written as `U+` or `U-`,
/// its entry's name and, where it isn't the last of its change, `..`: `seq`, change and node;
/// of a mark: `seq` and change; of a close: its change.
type Row = (Ask, &'static str, (u64, u64, u64));

const A: Ask = Ask::Change(Act::File(1, "a", 0));

// Of a desk whose volume takes two changes.
static OPENINGS: [Row; 3] = [
    (Ask::Open("size>0", 1, 1, false), "Opened", (1, 0, 0)),
    (Ask::Open("size>0", 1, 1, false), "Opened", (2, 0, 0)),
    (Ask::Open("size>0", 1, 1, false), "Exhausted", (0, 0, 0)),
];

static CLOSE_ON_FULL_PORT: [Row; 13] = [
    (Ask::Open("name=*", 1, 1, false), "Opened", (1, 0, 0)),
    (A, "Changed", (1, 2, 0)),
    (Ask::At(1, Close), "Shut", (1, 0, 0)),
    (Ask::At(1, Put), "Moved", (0, 0, 0)),
    (Ask::At(1, Put), "Stayed", (0, 0, 0)),
    (Ask::At(1, Take), "U+ a", (1, 1, 2)),
    (Ask::At(1, Take), "Empty", (0, 0, 0)),
    (Ask::At(1, Put), "Moved", (0, 0, 0)),
    (Ask::At(1, Take), "Closed", (2, 1, 0)),
    (Ask::At(1, Put), "Stayed", (0, 0, 0)),
    (Ask::At(1, Take), "Ended", (0, 0, 0)),
    (Ask::At(1, Finish), "Finished", (0, 0, 0)),
    (Ask::At(1, Take), "NotOpen", (0, 0, 0)),
];

static HANG_UP_TOLD_AFTER: [Row; 10] = [
    (Ask::Open("name=*", 2, 2, false), "Opened", (1, 0, 0)),
    (Ask::At(1, HangUp), "Asked", (0, 0, 0)),
    (A, "Changed", (1, 2, 0)),
    (Ask::At(1, Notice), "Noticed", (0, 0, 0)),
    (Ask::At(1, Notice), "Unasked", (0, 0, 0)),
    (Ask::At(1, Close), "NotOpen", (0, 0, 0)),
    (Ask::At(1, Put), "Moved", (0, 0, 0)),
    (Ask::At(1, Put), "Moved", (0, 0, 0)),
    (Ask::At(1, Take), "U+ a", (1, 1, 2)),
    (Ask::At(1, Take), "HungUp", (2, 1, 0)),
];

static OVERRUN_BEFORE_NOTICE: [Row; 6] = [
    (Ask::Open("name=*", 1, 0, false), "Opened", (1, 0, 0)),
    (Ask::At(1, HangUp), "Asked", (0, 0, 0)),
    (A, "Changed", (1, 2, 0)),
    (Ask::At(1, Notice), "Unasked", (0, 0, 0)),
    (Ask::At(1, Put), "Moved", (0, 0, 0)),
    (Ask::At(1, Take), "Overrun", (1, 0, 0)),
];

static HANG_UP_DOES_NOT_CARRY_OVER: [Row; 8] = [
    (Ask::Open("name=*", 1, 1, false), "Opened", (1, 0, 0)),
    (Ask::At(1, Close), "Shut", (0, 0, 0)),
    (Ask::At(1, HangUp), "Asked", (0, 0, 0)),
    (Ask::At(1, Put), "Moved", (0, 0, 0)),
    (Ask::At(1, Take), "Closed", (1, 0, 0)),
    (Ask::At(1, Finish), "Finished", (0, 0, 0)),
    (Ask::Open("name=*", 1, 1, false), "Opened", (1, 0, 0)),
    (Ask::At(1, Notice), "Unasked", (0, 0, 0)),
];

// A move onto another entry: refused without `clobber`, three messages with it.
static CLOBBER: [Row; 11] = [
    (A, "Changed", (1, 2, 0)),
    (Ask::Change(Act::File(1, "b", 0)), "Changed", (2, 3, 0)),
    (Ask::Open("name=*", 4, 16, false), "Opened", (1, 2, 2)),
    (Ask::Change(Act::Move(3, 1, "a")), "Exists", (0, 0, 0)),
    (Ask::Change(Act::Clobber(3, 1, "a")), "Changed", (3, 3, 0)),
    (Ask::At(1, Put), "Moved", (0, 0, 0)),
    (Ask::At(1, Put), "Moved", (0, 0, 0)),
    (Ask::At(1, Put), "Moved", (0, 0, 0)),
    (Ask::At(1, Take), "U- a..", (1, 3, 2)),
    (Ask::At(1, Take), "U- b..", (2, 3, 3)),
    (Ask::At(1, Take), "U+ a", (3, 3, 3)),
];

// The first message is in the port, two are held, and the mark comes after them.
static CLOSE_AFTER_HELD: [Row; 14] = [
    (Ask::Open("name=*", 1, 2, false), "Opened", (1, 0, 0)),
    (A, "Changed", (1, 2, 0)),
    (Ask::At(1, Put), "Moved", (0, 0, 0)),
    (Ask::Change(Act::File(1, "b", 0)), "Changed", (2, 3, 0)),
    (Ask::Change(Act::File(1, "c", 0)), "Changed", (3, 4, 0)),
    (Ask::At(1, Close), "Shut", (3, 0, 0)),
    (Ask::At(1, Take), "U+ a", (1, 1, 2)),
    (Ask::At(1, Put), "Moved", (0, 0, 0)),
    (Ask::At(1, Take), "U+ b", (2, 2, 3)),
    (Ask::At(1, Put), "Moved", (0, 0, 0)),
    (Ask::At(1, Take), "U+ c", (3, 3, 4)),
    (Ask::At(1, Put), "Moved", (0, 0, 0)),
    (Ask::At(1, Take), "Closed", (4, 3, 0)),
    (Ask::At(1, Take), "Ended", (0, 0, 0)),
];

static AS_TEXT: Ask = Ask::Set("x", View::Text("10"));

static AS_NUMBER: Ask = Ask::Set("x", View::Int32(10));

// A formula, and whether it finds node 2: where `x` is the text 10, and where it is the number.
const FETCHES: [(&str, bool, bool); 4] = [
    ("x=10", true, true),
    ("x>9", false, true),
    ("x=1*", true, false),
    ("x!=abc", true, false),
];

/// Whether a new desk, whose volume takes two changes, gives these answers to these events.
fn are_told(alloc: Global, rows: &[Row]) -> Result<bool, Refusal> {
    let mut events = Vec::new(alloc);
    for (ask, _, _) in rows {
        events.push(event(alloc, ask)?)?;
    }
    let mut desk = Desk::new(alloc, Volume::new(alloc, 2))?;
    let replies = desk.run(&events)?;
    for (reply, (_, wanted, numbers)) in replies.iter().zip(rows) {
        if !is_told(reply, wanted, *numbers) {
            return Ok(false);
        }
    }
    Ok(replies.len() == rows.len())
}

/// Whether a desk, whose volume takes this many changes, gives these answers, event by event, each
/// repeated where memory ran out.
fn are_told_again(alloc: Global, limit: u64, rows: &[Row]) -> Result<bool, Refusal>
    requires { (1 ≤ limit) × (limit ≤ 1000000000000) }
{
    let mut desk = again!(Desk::new(alloc, Volume::new(alloc, limit)))?;
    for (ask, wanted, numbers) in rows {
        let event = again!(event(alloc, ask))?;
        let mut reply = desk.event(&event);
        if let Reply::Refused(Refusal::NoMemory) = reply {
            reply = desk.event(&event);
        }
        if !is_told(&reply, wanted, *numbers) {
            return Ok(false);
        }
    }
    Ok(true)
}

/// Whether an event is a change that is accepted, given again where memory ran out.
fn is_changed(alloc: Global, desk: &mut Desk, ask: &Ask) -> Result<bool, Refusal> {
    let event = again!(event(alloc, ask))?;
    let mut reply = desk.event(&event);
    if let Reply::Refused(Refusal::NoMemory) = reply {
        reply = desk.event(&event);
    }
    Ok(matches!(reply, Reply::Changed(_)))
}

/// Whether a formula finds just the file `a` of node 2, or nothing.
fn is_found(alloc: Global, desk: &Desk, formula: &str, wanted: bool) -> Result<bool, Refusal> {
    let predicate = again!(read(alloc, formula))?;
    let found: Vec<Entry> = again!(desk.volume().fetch(&predicate))?;
    Ok(match found.as_slice() {
        [entry] => wanted && entry.dir == 1 && entry.name.as_str() == "a" && entry.node == 2,
        rest => !wanted && rest.is_empty(),
    })
}

/// Whether each formula finds what it has to, with the text 10 and with the number.
fn are_found(alloc: Global) -> Result<bool, Refusal> {
    let mut desk = again!(Desk::new(alloc, Volume::new(alloc, 99)))?;
    if !is_changed(alloc, &mut desk, &A)? || !is_changed(alloc, &mut desk, &AS_TEXT)? {
        return Ok(false);
    }
    for (formula, is_text_found, _) in &FETCHES {
        if !is_found(alloc, &desk, formula, *is_text_found)? {
            return Ok(false);
        }
    }
    if !is_changed(alloc, &mut desk, &AS_NUMBER)? {
        return Ok(false);
    }
    for (formula, _, is_number_found) in &FETCHES {
        if !is_found(alloc, &desk, formula, *is_number_found)? {
            return Ok(false);
        }
    }
    Ok(true)
}

#[test]
fn scenario_clobber(rt: HostRuntime) -> Result<(), Fail> {
    assert!(rt; are_told_again(rt.alloc(), 99, &CLOBBER)?);
    Ok(())
}

#[test]
fn scenario_close_after_held(rt: HostRuntime) -> Result<(), Fail> {
    assert!(rt; are_told_again(rt.alloc(), 99, &CLOSE_AFTER_HELD)?);
    Ok(())
}

#[test]
fn scenario_text_and_number(rt: HostRuntime) -> Result<(), Fail> {
    assert!(rt; are_found(rt.alloc())?);
    Ok(())
}

#[test]
fn scenario_change_limit(rt: HostRuntime) -> Result<(), Fail> {
    let mut volume = Volume::new(rt.alloc(), 2);
    for (name, refusal) in [
        ("a", None),
        ("b", None),
        ("a", Some(Refusal::Exists)),
        ("c", Some(Refusal::Exhausted)),
    ] {
        let change = Act::File(1, name, 0).change(rt.alloc())?;
        if volume.apply(&change).err() != refusal {
            return Err(Fail::from(name));
        }
    }
    assert!(rt; are_told(rt.alloc(), &OPENINGS)?);
    assert!(rt; are_told(rt.alloc(), &[])?);
    Ok(())
}

#[test]
fn an_opening_without_memory_is_not_counted(rt: HostRuntime) -> Result<(), Fail> {
    assert!(rt; are_told_again(rt.alloc(), 2, &OPENINGS)?);
    Ok(())
}

#[test]
fn scenario_close_on_full_port(rt: HostRuntime) -> Result<(), Fail> {
    assert!(rt; are_told(rt.alloc(), &CLOSE_ON_FULL_PORT)?);
    Ok(())
}

#[test]
fn scenario_hang_up_told_after(rt: HostRuntime) -> Result<(), Fail> {
    assert!(rt; are_told(rt.alloc(), &HANG_UP_TOLD_AFTER)?);
    Ok(())
}

#[test]
fn scenario_overrun_before_notice(rt: HostRuntime) -> Result<(), Fail> {
    assert!(rt; are_told(rt.alloc(), &OVERRUN_BEFORE_NOTICE)?);
    Ok(())
}

#[test]
fn scenario_hang_up_does_not_carry_over(rt: HostRuntime) -> Result<(), Fail> {
    assert!(rt; are_told(rt.alloc(), &HANG_UP_DOES_NOT_CARRY_OVER)?);
    Ok(())
}
