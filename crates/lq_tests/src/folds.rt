//! Messages of a change, messages that a kept result refuses, and predicates from pushes.
ghost use Rattle.std.specs.Prelude.{IfOk};
ghost use Rattle.lq_volume.specs.Change.{IsLawful};

use crate::act::Act;
use lq_predicate::{Stack, StackOp, read, write};
use lq_update::{IndexedRebuild, Message, Opcode, Rebuild, step};
use lq_value::{Entry, Name, Refusal};
use lq_volume::{Change, Volume};
use std::alloc::Global;
use std::test::Fail;

// A message of node 2 in the root.
fn message(
    alloc: Global,
    (seq, change): (u64, u64),
    last: bool,
    op: Opcode,
) -> Result<Message, Refusal> {
    Ok(Message {
        seq,
        change,
        last,
        op,
        dir: 1,
        name: Name::read(alloc, "a")?,
        node: 2,
    })
}

#[test]
fn scenario_fold_refusals(rt: HostRuntime) -> Result<(), Fail> {
    let alloc = rt.alloc();
    let mut rebuild = Rebuild::new(alloc, 0, Vec::new(alloc));
    let second = message(alloc, (2, 1), true, Opcode::Created)?;
    assert!(rt; rebuild.apply(&second).err() == Some(Refusal::OutOfStep));
    let removed = message(alloc, (1, 1), true, Opcode::Removed)?;
    assert!(rt; rebuild.apply(&removed).err() == Some(Refusal::Mismatch));
    rebuild.apply(&message(alloc, (1, 1), false, Opcode::Created)?)?;
    assert!(rt; !rebuild.is_settled());
    let next = message(alloc, (2, 2), true, Opcode::Created)?;
    assert!(rt; rebuild.apply(&next).err() == Some(Refusal::OutOfStep));
    Ok(())
}

// Whether this is the file of that message.
fn is_kept(entries: &[Entry]) -> bool {
    match entries {
        [entry] => entry.dir == 1 && entry.name.as_str() == "a" && entry.node == 2,
        _ => false,
    }
}

#[test]
fn an_indexed_rebuild_keeps_its_entries(rt: HostRuntime) -> Result<(), Fail> {
    let alloc = rt.alloc();
    let mut rebuild = IndexedRebuild::new(alloc, 3, &[])?;
    assert!(rt; rebuild.is_settled() && rebuild.last_change() == 3);
    rebuild.apply(&message(alloc, (1, 4), false, Opcode::Created)?)?;
    assert!(rt; !rebuild.is_settled() && rebuild.last_change() == 4);
    assert!(rt; is_kept(&rebuild.entries()?));
    Ok(())
}

// A message of a write to the file.
fn written(alloc: Global, seq: u64, change: u64) -> Result<Message, Refusal> {
    message(
        alloc,
        (seq, change),
        true,
        Opcode::ValueChanged { attribute: None },
    )
}

#[test]
fn a_message_of_a_value_leaves_the_entries(rt: HostRuntime) -> Result<(), Fail> {
    let alloc = rt.alloc();
    let mut rebuild = Rebuild::new(alloc, 0, Vec::new(alloc));
    let mut indexed = IndexedRebuild::new(alloc, 0, &[])?;
    let early = written(alloc, 1, 1)?;
    assert!(rt; rebuild.apply(&early).err() == Some(Refusal::Mismatch));
    assert!(rt; indexed.apply(&early).err() == Some(Refusal::Mismatch));
    let created = message(alloc, (1, 1), true, Opcode::Created)?;
    rebuild.apply(&created)?;
    indexed.apply(&created)?;
    let write = written(alloc, 2, 5)?;
    rebuild.apply(&write)?;
    indexed.apply(&write)?;
    assert!(rt; is_kept(rebuild.result()) && rebuild.last_change() == 5);
    assert!(rt; is_kept(&indexed.entries()?) && indexed.last_change() == 5);
    Ok(())
}

// The canonical text of `a<=` and a number, which is pushed as one of 64 bits or of 32.
fn at_most(alloc: Global, is_wide: bool) -> Result<String, Refusal> {
    let mut stack = Stack::new(alloc);
    stack.push_attr("a")?;
    if is_wide {
        stack.push_uint64(18_446_744_073_709_551_615)?;
    } else {
        stack.push_uint32(7)?;
    }
    stack.push_op(StackOp::Le)?;
    write(alloc, &stack.finish()?)
}

#[test]
fn scenario_moved_fold_and_pushes(rt: HostRuntime) -> Result<(), Fail> {
    let alloc = rt.alloc();
    let mut rebuild = Rebuild::new(alloc, 0, Vec::new(alloc));
    let op = Opcode::Moved {
        from_dir: 1,
        from_name: Name::read(alloc, "b")?,
    };
    let moved = message(alloc, (1, 1), true, op)?;
    assert!(rt; rebuild.apply(&moved).err() == Some(Refusal::Mismatch));
    assert!(rt; rebuild.result().is_empty() && rebuild.is_settled() && rebuild.last_change() == 0);
    assert!(rt; at_most(alloc, true)?.as_str() == "(a<=\"18446744073709551615\")");
    assert!(rt; at_most(alloc, false)?.as_str() == "(a<=\"7\")");
    Ok(())
}

// A volume with files `a` and `b`, nodes 2 and 3.
fn volume(alloc: Global) -> Result<Volume, Refusal> {
    let mut volume = Volume::new(alloc, 9);
    volume.apply(&Act::File(1, "a", 0).change(alloc)?)?;
    volume.apply(&Act::File(1, "b", 0).change(alloc)?)?;
    Ok(volume)
}

// `b` is moved onto `a`.
fn clobber(alloc: Global, volume: &Volume) -> Result<Change, Refusal>
    ensures { IfOk result (λ change. IsLawful volume.now change) }
{
    let change = Act::Clobber(3, 1, "a").change(alloc)?;
    volume.check(&change)?;
    Ok(change)
}

// Whether a message of the third change is this one, created or removed.
fn is_told(message: &Message, numbers: (u64, u64), name: &str, comes: bool) -> bool {
    let is_right = match &message.op {
        Opcode::Created => comes,
        Opcode::Removed => !comes,
        Opcode::Moved { .. } | Opcode::ValueChanged { .. } => false,
    };
    is_right
        && message.change == 3
        && message.dir == 1
        && message.name.as_str() == name
        && (message.seq, message.node) == numbers
        && message.last == (message.seq == 3)
}

#[test]
fn scenario_clobber(rt: HostRuntime) -> Result<(), Fail> {
    let alloc = rt.alloc();
    let predicate = read(alloc, "name=*")?;
    let before = volume(alloc)?;
    let change = clobber(alloc, &before)?;
    let messages = step(alloc, &predicate, &before, &change, 1, false)?;
    let is_right = match messages.as_slice() {
        [one, two, three] => {
            is_told(one, (1, 2), "a", false)
                && is_told(two, (2, 3), "b", false)
                && is_told(three, (3, 3), "a", true)
        }
        _ => false,
    };
    assert!(rt; is_right);
    Ok(())
}
