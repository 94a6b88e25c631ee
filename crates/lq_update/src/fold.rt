//! Folds one message into the entries of a result, which stay in order of nodes.
ghost use Rattle.std.specs.Prelude.{◌≡◌, Some, None, IfOk, IfErr, IfSome, OnOk, OnErr, is_ok, is_some, if◌then◌else◌};
ghost use Rattle.lq_value.specs.declared.refusal.Refusal.TheVariants.{Mismatch};
ghost use Rattle.lq_value.specs.Refusal.{FailsOnlyForMemory, IsRefusedBy};
ghost use Rattle.lq_update.specs.Diff.{has_node, same_entry};
ghost use Rattle.lq_update.specs.Fold.{EntriesRise, message_entry, fits_in, folded_one, has_entry};
ghost use Rattle.lq_update.specs.Place.{IsEntryAt, IsGapFor, IsTripleAt};

use crate::message::{Message, Opcode};
use lq_value::{Entry, Name, Refusal};
use std::alloc::Global;

/// Folds a message into entries that rise by node. Afterwards they still rise by node.
///
/// Refused, the first that fits: `Mismatch` where the message doesn't fit the entries, `NoMemory`.
/// A refused message changes nothing.
pub fn fold(alloc: Global, entries: &mut Vec<Entry>, message: &Message) -> Result<(), Refusal>
    requires { EntriesRise entries.old.items }
    ensures refused { IsRefusedBy result
        (if fits_in entries.old.items message.now then None else Some Mismatch) }
    ensures ok { OnOk result (entries.new.items ≡ folded_one entries.old.items message.now) }
    ensures err { OnErr result (entries.new.items ≡ entries.old.items) }
    ensures rise { EntriesRise entries.new.items }
{
    match &message.op {
        Opcode::Created => {
            let Err(index) = index_of(entries, message.node) else {
                return Err(Refusal::Mismatch);
            };
            let entry = entry_of(alloc, message)?;
            entries.insert(index, entry)?;
            Ok(())
        }
        Opcode::Removed => {
            let Some(index) = index_with(entries, message.dir, &message.name, message.node) else {
                return Err(Refusal::Mismatch);
            };
            entries.remove(index);
            Ok(())
        }
        Opcode::Moved {
            from_dir,
            from_name,
        } => {
            let Some(index) = index_with(entries, *from_dir, from_name, message.node) else {
                return Err(Refusal::Mismatch);
            };
            let entry = entry_of(alloc, message)?;
            entries[index] = entry;
            Ok(())
        }
        Opcode::ValueChanged { .. } => {
            if index_with(entries, message.dir, &message.name, message.node).is_none() {
                return Err(Refusal::Mismatch);
            }
            Ok(())
        }
    }
}

fn entry_of(alloc: Global, message: &Message) -> Result<Entry, Refusal>
    ensures refused { FailsOnlyForMemory result }
    ensures value { IfOk result (λ entry. entry ≡ message_entry message.now) }
{
    Ok(Entry {
        dir: message.dir,
        name: message.name.copy(alloc)?,
        node: message.node,
    })
}

// The index of an entry, if it is in the result.
fn index_with(entries: &[Entry], dir: u64, name: &Name, node: u64) -> Option<usize>
    requires { EntriesRise entries.now }
    ensures found { IfSome result
        (IsTripleAt entries.now (record { dir = dir; name = name.now; node = node })) }
    ensures has { has_entry (record { dir = dir; name = name.now; node = node }) entries.now
        ≡ is_some result }
{
    let Ok(index) = index_of(entries, node) else {
        return None;
    };
    if is_triple(&entries[index], dir, name, node) {
        Some(index)
    } else {
        None
    }
}

fn is_triple(entry: &Entry, dir: u64, name: &Name, node: u64) -> bool
    ensures { result ≡ same_entry (record { dir = dir; name = name.now; node = node }) entry.now }
{
    dir == entry.dir && *name == entry.name && node == entry.node
}

// The index of a node's entry, or where it would go, found by binary search.
fn index_of(entries: &[Entry], node: u64) -> Result<usize, usize>
    requires { EntriesRise entries.now }
    ensures found { IfOk result (IsEntryAt entries.now node) }
    ensures absent { IfErr result (IsGapFor entries.now node) }
    ensures has { has_node node entries.now ≡ is_ok result }
{
    entries.binary_search_by_key(&node, |entry| entry.node)
}
