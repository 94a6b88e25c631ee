//! Both bodies of `step_planned` over worked examples and drawn changes.
ghost use Rattle.lq_volume.specs.Change.{IsLawful};

use crate::act::{Act, Draws};
use crate::plain_step;
use lq_predicate::{Predicate, read};
use lq_update::{Flags, Message, Opcode, matches_of, step, step_by, step_planned};
use lq_value::AttrName;
use lq_volume::{Change, Planned, Volume};
use std::alloc::Global;
use std::test::Fail;

// Worked examples, each from an empty volume: moved-with-clobber, the same onto a higher node,
// rename-out-of-result, rename-to-same-place, numbering, size-threshold, attribute-changes.
const EXAMPLES: [[Act; 3]; 7] = [
    [
        Act::File(1, "a", 0),
        Act::File(1, "b", 0),
        Act::Clobber(3, 1, "a"),
    ],
    [
        Act::File(1, "a", 0),
        Act::File(1, "b", 0),
        Act::Clobber(2, 1, "b"),
    ],
    [
        Act::File(1, "a1", 0),
        Act::Move(2, 1, "b1"),
        Act::Move(2, 1, "a1"),
    ],
    [
        Act::File(1, "a", 0),
        Act::Clobber(2, 1, "a"),
        Act::Remove(2),
    ],
    [Act::Folder(1, "d"), Act::File(2, "f", 0), Act::Remove(3)],
    [Act::File(1, "a", 1), Act::Write(2, 2), Act::Write(2, 1)],
    [Act::File(1, "f", 1), Act::Set(2, 2), Act::Unset(2)],
];

const FORMULAS: [&str; 5] = [
    "name=*",
    "name='a*'",
    "size>1",
    "x=1||name=b",
    "!(x>1)&&size<2",
];

fn is_same_attribute(one: Option<&AttrName>, two: Option<&AttrName>) -> bool {
    match (one, two) {
        (Some(one), Some(two)) => one == two,
        (None, None) => true,
        _ => false,
    }
}

fn is_same_op(a: &Opcode, b: &Opcode) -> bool {
    match (a, b) {
        (Opcode::Created, Opcode::Created) | (Opcode::Removed, Opcode::Removed) => true,
        (
            Opcode::Moved {
                from_dir,
                from_name,
            },
            Opcode::Moved {
                from_dir: dir,
                from_name: name,
            },
        ) => from_dir == dir && from_name == name,
        (Opcode::ValueChanged { attribute: one }, Opcode::ValueChanged { attribute: two }) => {
            is_same_attribute(one.as_ref(), two.as_ref())
        }
        _ => false,
    }
}

fn is_same(a: &Message, b: &Message) -> bool {
    let numbers = a.seq == b.seq && a.change == b.change && a.last == b.last;
    numbers && is_same_op(&a.op, &b.op) && a.dir == b.dir && a.name == b.name && a.node == b.node
}

fn are_same(one: &[Message], other: &[Message]) -> bool {
    one.len() == other.len() && one.iter().zip(other).all(|(a, b)| is_same(a, b))
}

/// Whether `may_have_messages` says no just where there is no message and nothing is clobbered.
fn is_foreseen(
    predicate: &Predicate,
    planned: &Planned<'_>,
    flags: Flags,
    plain: &[Message],
) -> bool {
    let is_quiet = plain.is_empty() && planned.clobbered().is_none();
    matches_of(predicate, planned).may_have_messages(flags) != is_quiet
}

/// The message of the value that a change writes, where its entry is in the result before the
/// change and after it: found by whole results.
fn plain_value(
    alloc: Global,
    predicate: &Predicate,
    volume: &Volume,
    change: &Change,
) -> Result<Vec<Message>, Fail>
    requires { IsLawful volume.now change.now }
{
    let mut messages = Vec::new(alloc);
    let (node, attribute) = match change {
        Change::Write { node, .. } => (*node, None),
        Change::SetAttr { node, attr, .. } | Change::RemoveAttr { node, attr } => {
            (*node, Some(attr.copy(alloc)?))
        }
        _ => return Ok(messages),
    };
    let mut after = volume.copy()?;
    after.apply(change)?;
    let is_before = volume
        .fetch(predicate)?
        .iter()
        .any(|entry| entry.node == node);
    for entry in after.fetch(predicate)? {
        if is_before && entry.node == node {
            messages.push(Message {
                seq: 7,
                change: after.changes(),
                last: true,
                op: Opcode::ValueChanged { attribute },
                dir: entry.dir,
                name: entry.name,
                node,
            })?;
            return Ok(messages);
        }
    }
    Ok(messages)
}

/// How many messages a change has for a predicate; an error where the two bodies differ.
fn compare(
    alloc: Global,
    predicate: &Predicate,
    volume: &Volume,
    change: &Change,
    flags: Flags,
) -> Result<u64, Fail>
    requires { IsLawful volume.now change.now }
{
    let planned = volume.plan(change)?;
    let fast = step_planned(alloc, predicate, &planned, 7, flags)?;
    let mut plain = plain_step::step(alloc, predicate, volume, change, 7, flags.moved)?;
    if flags.values && plain.is_empty() {
        plain = plain_value(alloc, predicate, volume, change)?;
    }
    if !are_same(&fast, &plain) || !is_foreseen(predicate, &planned, flags, &plain) {
        return Err(Fail::from("the bodies differ"));
    }
    if !flags.values {
        let promised = step(alloc, predicate, volume, change, 7, flags.moved)?;
        return Ok(promised.len() as u64);
    }
    Ok(step_by(alloc, predicate, volume, change, 7, flags)?.len() as u64)
}

fn flags(moved: bool, values: bool) -> Flags {
    Flags { moved, values }
}

/// How many messages an act has for a predicate with each of the flags, if it is accepted; then it
/// is made.
fn make(alloc: Global, predicate: &Predicate, volume: &mut Volume, act: &Act) -> Result<u64, Fail> {
    let change = act.change(alloc)?;
    if volume.check(&change).is_err() {
        return Ok(0);
    }
    let plain = compare(alloc, predicate, volume, &change, flags(false, false))?;
    let moves = compare(alloc, predicate, volume, &change, flags(true, false))?;
    let values = compare(alloc, predicate, volume, &change, flags(false, true))?;
    let both = compare(alloc, predicate, volume, &change, flags(true, true))?;
    volume.apply(&change)?;
    let told = plain.saturating_add(moves);
    Ok(told.saturating_add(values).saturating_add(both))
}

/// Makes the examples, each in a new volume.
fn over_examples(alloc: Global, predicate: &Predicate) -> Result<(), Fail> {
    for acts in &EXAMPLES {
        let mut volume = Volume::new(alloc, 99);
        for act in acts {
            make(alloc, predicate, &mut volume, act)?;
        }
        if volume.changes() != 3 {
            return Err(Fail::from("an example was refused"));
        }
    }
    Ok(())
}

/// How many messages 40 drawn acts have, made in each of 100 new volumes.
fn over_draws(alloc: Global, predicate: &Predicate) -> Result<u64, Fail> {
    let mut draws = Draws { state: 1 };
    let mut messages: u64 = 0;
    for _ in 0..100 {
        let mut volume = Volume::new(alloc, 99);
        for _ in 0..40 {
            let told = make(alloc, predicate, &mut volume, &draws.act())?;
            messages = messages.saturating_add(told);
        }
    }
    Ok(messages)
}

#[test]
fn both_bodies_tell_alike(rt: HostRuntime) -> Result<(), Fail> {
    for formula in &FORMULAS {
        let predicate = read(rt.alloc(), formula)?;
        over_examples(rt.alloc(), &predicate)?;
        if over_draws(rt.alloc(), &predicate)? < 100 {
            return Err(Fail::from(*formula));
        }
    }
    Ok(())
}
