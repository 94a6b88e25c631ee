//! The plain body of `lq_update::step`: the difference of two whole results.
ghost use Rattle.std.specs.Prelude.{◌≡◌, ◌+◌, ◌<◌, ◌≤◌, ◌^◌, ◌++◌, ◌==◌, length, IfOk, OnOk, map, vec_len};
ghost use Rattle.std.specs.List.{find, list_any};
ghost use Rattle.std.specs.Option.{option_copied, option_map_or};
ghost use Rattle.lq_value.specs.Refusal.{FailsOnlyForMemory};
ghost use Rattle.lq_volume.specs.Change.{after, IsLawful};
ghost use Rattle.lq_volume.specs.Result.{result_of};
ghost use Rattle.lq_update.specs.declared.message.Opcode.TheVariants.{Created, Moved, Removed};
ghost use Rattle.lq_update.specs.Diff.{as_moved, is_move, missing, messages_of, same_entry, with_moves};
ghost use Rattle.lq_update.specs.Options.{no_values};
ghost use Rattle.lq_update.specs.Updates.{numbered, step_of};

use lq_predicate::Predicate;
use lq_update::{Message, Opcode, steps_are_few};
use lq_value::{Entry, Refusal};
use lq_volume::{Change, Volume};
use std::alloc::Global;

/// The messages of an accepted change for a query, as `lq_update::step` answers them.
///
/// It makes the change on a copy of the volume, fetches from both and takes the difference of the
/// two results, so it costs time and memory in the number of entries. Refused: `NoMemory`. It
/// changes nothing.
pub fn step(
    alloc: Global,
    predicate: &Predicate,
    before: &Volume,
    change: &Change,
    first_seq: u64,
    moved: bool,
) -> Result<Vec<Message>, Refusal>
    requires lawful { IsLawful before.now change.now }
    requires room { first_seq + 2 < 2 ^ 64 }
    ensures refused { FailsOnlyForMemory result }
    ensures messages { IfOk result (λ messages.
        messages.items ≡ step_of predicate.now (no_values moved) before.now change.now
        first_seq) }
    ensures few { IfOk result (λ messages. vec_len messages ≤ 3) }
{
    steps_are_few();
    let number = before.changes() + 1;
    let old = before.fetch(predicate)?;
    let new = fetch_after(before, predicate, change)?;
    let differences = told_between(alloc, moved, &old, &new)?;
    Ok(number_all(alloc, differences, number, first_seq)?)
}

// The result after an accepted change, from a copy of the volume.
fn fetch_after(
    before: &Volume,
    predicate: &Predicate,
    change: &Change,
) -> Result<Vec<Entry>, Refusal>
    requires { IsLawful before.now change.now }
    ensures refused { FailsOnlyForMemory result }
    ensures entries { IfOk result (λ entries.
        entries.items ≡ result_of predicate.now (after before.now change.now)) }
{
    let mut volume = before.copy()?;
    volume.apply(change)?;
    Ok(volume.fetch(predicate)?)
}

// The messages for the difference of two results: for what left, and for what came.
fn told_between(
    alloc: Global,
    moved: bool,
    old: &[Entry],
    new: &[Entry],
) -> Result<Vec<(Opcode, Entry)>, Refusal>
    ensures refused { FailsOnlyForMemory result }
    ensures value { IfOk result (λ all.
        all.items ≡ messages_of moved (missing old.now new.now) (missing new.now old.now)) }
{
    let mut all = Vec::new(alloc);
    put_removed(alloc, &mut all, &missing(alloc, old, new)?)?;
    put_created(alloc, &mut all, &missing(alloc, new, old)?)?;
    if moved {
        return with_moves(alloc, &all);
    }
    Ok(all)
}

// The entries of one list that aren't in another.
fn missing(alloc: Global, entries: &[Entry], others: &[Entry]) -> Result<Vec<Entry>, Refusal>
    ensures refused { FailsOnlyForMemory result }
    ensures value { IfOk result (λ kept. kept.items ≡ missing entries.now others.now) }
{
    let mut kept = Vec::new(alloc);
    for entry in entries {
        if !is_among(entry, others) {
            kept.push(copy_of(alloc, entry)?)?;
        }
    }
    Ok(kept)
}

fn is_among(entry: &Entry, others: &[Entry]) -> bool
    ensures { result ≡ list_any (same_entry entry.now) others.now }
{
    others.iter().any(|other| is_same(entry, other))
}

/// Whether two entries have the same place and node.
pub fn is_same(a: &Entry, b: &Entry) -> bool
    ensures { result ≡ same_entry a.now b.now }
{
    a.dir == b.dir && a.name == b.name && a.node == b.node
}

fn copy_of(alloc: Global, entry: &Entry) -> Result<Entry, Refusal>
    ensures refused { FailsOnlyForMemory result }
    ensures value { IfOk result (λ copy. copy ≡ entry.now) }
{
    Ok(Entry {
        dir: entry.dir,
        name: entry.name.copy(alloc)?,
        node: entry.node,
    })
}

fn put_removed(alloc: Global, all: &mut Vec<(Opcode, Entry)>, gone: &[Entry]) -> Result<(), Refusal>
    ensures refused { FailsOnlyForMemory result }
    ensures all { OnOk result (all.new.items
        ≡ all.old.items ++ map (λ e. (Removed, e)) gone.now) }
{
    for entry in gone {
        all.push((Opcode::Removed, copy_of(alloc, entry)?))?;
    }
    Ok(())
}

fn put_created(alloc: Global, all: &mut Vec<(Opcode, Entry)>, come: &[Entry]) -> Result<(), Refusal>
    ensures refused { FailsOnlyForMemory result }
    ensures all { OnOk result (all.new.items
        ≡ all.old.items ++ map (λ e. (Created, e)) come.now) }
{
    for entry in come {
        all.push((Opcode::Created, copy_of(alloc, entry)?))?;
    }
    Ok(())
}

// The same messages, where a removed and a created one of a node are one moved one.
fn with_moves(alloc: Global, all: &[(Opcode, Entry)]) -> Result<Vec<(Opcode, Entry)>, Refusal>
    ensures refused { FailsOnlyForMemory result }
    ensures value { IfOk result (λ kept. kept.items ≡ with_moves all.now) }
{
    let mut kept = Vec::new(alloc);
    for message in all {
        if !is_first(message, all) {
            kept.push(as_moved(alloc, all, message)?)?;
        }
    }
    Ok(kept)
}

// Whether the message is removed and another one creates its node.
fn is_first(message: &(Opcode, Entry), all: &[(Opcode, Entry)]) -> bool
    ensures { result ≡ list_any (is_move message.now) all.now }
{
    all.iter().any(|other| is_move(message, other))
}

fn is_move(from: &(Opcode, Entry), to: &(Opcode, Entry)) -> bool
    ensures { result ≡ is_move from.now to.now }
{
    match (&from.0, &to.0) {
        (Opcode::Removed, Opcode::Created) => from.1.node == to.1.node,
        _ => false,
    }
}

// A created message as a moved one, if its node was removed; else a copy of it.
fn as_moved(
    alloc: Global,
    all: &[(Opcode, Entry)],
    message: &(Opcode, Entry),
) -> Result<(Opcode, Entry), Refusal>
    ensures refused { FailsOnlyForMemory result }
    ensures value { IfOk result (λ differences. differences ≡ as_moved all.now message.now) }
{
    moved_by(alloc, removed_of(message, all), message)
}

// The first message that makes a move with this one.
fn removed_of<'a>(
    message: &(Opcode, Entry),
    all: &'a [(Opcode, Entry)],
) -> Option<&'a (Opcode, Entry)>
    ensures { option_copied result ≡ find (λ m. is_move m message.now) all.now }
{
    all.iter().find(|other| is_move(other, message))
}

fn moved_by(
    alloc: Global,
    from: Option<&(Opcode, Entry)>,
    message: &(Opcode, Entry),
) -> Result<(Opcode, Entry), Refusal>
    ensures refused { FailsOnlyForMemory result }
    ensures value { IfOk result (λ differences. differences ≡ option_map_or
        (λ m. (Moved m.1.dir m.1.name, message.now.1)) (option_copied from.entry) message.now) }
{
    let entry = copy_of(alloc, &message.1)?;
    match from {
        Some(from) => Ok((moved_from(alloc, &from.1)?, entry)),
        None => Ok((copy_of_opcode(alloc, &message.0)?, entry)),
    }
}

fn copy_of_opcode(alloc: Global, op: &Opcode) -> Result<Opcode, Refusal>
    ensures refused { FailsOnlyForMemory result }
    ensures value { IfOk result (λ copy. copy ≡ op.now) }
{
    Ok(match op {
        Opcode::Created => Opcode::Created,
        Opcode::Removed => Opcode::Removed,
        Opcode::Moved {
            from_dir,
            from_name,
        } => Opcode::Moved {
            from_dir: *from_dir,
            from_name: from_name.copy(alloc)?,
        },
        Opcode::ValueChanged { attribute: None } => Opcode::ValueChanged { attribute: None },
        Opcode::ValueChanged {
            attribute: Some(attribute),
        } => Opcode::ValueChanged {
            attribute: Some(attribute.copy(alloc)?),
        },
    })
}

fn moved_from(alloc: Global, from: &Entry) -> Result<Opcode, Refusal>
    ensures refused { FailsOnlyForMemory result }
    ensures value { IfOk result (λ op. op ≡ Moved from.now.dir from.now.name) }
{
    Ok(Opcode::Moved {
        from_dir: from.dir,
        from_name: from.name.copy(alloc)?,
    })
}

// The messages of a change, numbered from `first_seq` on.
fn number_all(
    alloc: Global,
    differences: Vec<(Opcode, Entry)>,
    change: u64,
    first_seq: u64,
) -> Result<Vec<Message>, Refusal>
    requires few { length differences.items ≤ 3 }
    requires room { first_seq + 2 < 2 ^ 64 }
    ensures refused { FailsOnlyForMemory result }
    ensures messages { IfOk result (λ messages.
        messages.items ≡ numbered first_seq change differences.items) }
{
    let count = differences.len();
    let mut messages = Vec::new(alloc);
    for (op, entry) in differences {
        let place = messages.len();
        let is_last = place + 1 == count;
        messages.push(message(op, entry, change, first_seq + place as u64, is_last))?;
    }
    Ok(messages)
}

fn message(op: Opcode, entry: Entry, change: u64, seq: u64, last: bool) -> Message
    ensures { result ≡ record {
      seq = seq;
      change = change;
      last = last;
      op = op;
      dir = entry.dir;
      name = entry.name;
      node = entry.node;
    } }
{
    let Entry { dir, name, node } = entry;
    Message {
        seq,
        change,
        last,
        op,
        dir,
        name,
        node,
    }
}
