//! The test that a walk up from each record reaches the root. A walk ends at a folder that an
//! earlier one passed, so together they take a step for each record and two for each folder.
ghost use Rattle.std.specs.Prelude.{◌≡◌, length, nat_eq, true, None, IfOk};
ghost use Rattle.std.specs.List.{list_all};
ghost use Rattle.std.specs.Map.{lookup};
ghost use Rattle.lq_value.specs.Refusal.{FailsOnlyForMemory};
ghost use Rattle.lq_volume.specs.State.{root, dir_of, climbs};
ghost use Rattle.lq_volume.specs.Restore.{AreSettled};

use crate::volume::ROOT;
use lq_value::Refusal;
use lq_volume_entries::{Entries, NodeSet, records_are_kept};
use std::alloc::Global;

/// Whether a walk up from each record reaches the root. Refused: `NoMemory`.
pub fn all_climb(alloc: Global, entries: &Entries) -> Result<bool, Refusal>
    requires { lookup (nat_eq root) entries.now ≡ None }
    ensures refused { FailsOnlyForMemory result }
    ensures all { IfOk result (λ all. all ≡ list_all
        (λ e. climbs (length entries.now) (dir_of entries.now) root e.0) entries.now) }
{
    records_are_kept();
    let mut settled = NodeSet::new(alloc);
    for (_, record) in entries.in_order()? {
        if !settle(entries, &mut settled, record.dir())? {
            return Ok(false);
        }
    }
    Ok(true)
}

// Whether a walk up from a node reaches the root. If it does, the nodes that it passes are settled.
fn settle(entries: &Entries, settled: &mut NodeSet, from: u64) -> Result<bool, Refusal>
    requires top { lookup (nat_eq root) entries.now ≡ None }
    requires settled { AreSettled entries.now settled.old }
    ensures refused { FailsOnlyForMemory result }
    ensures reaches { IfOk result (λ reaches.
        reaches ≡ climbs (length entries.now) (dir_of entries.now) root from) }
    ensures settled { AreSettled entries.now settled.new }
{
    if !reaches_root(entries, settled, from) {
        return Ok(false);
    }
    mark(entries, settled, from)?;
    Ok(true)
}

// Whether a walk up from a node reaches the root: it ends at a settled node, which does.
fn reaches_root(entries: &Entries, settled: &NodeSet, from: u64) -> bool
    requires top { lookup (nat_eq root) entries.now ≡ None }
    requires settled { AreSettled entries.now settled.now }
    ensures { result ≡ climbs (length entries.now) (dir_of entries.now) root from }
{
    records_are_kept();
    let mut at = from;
    for _ in 0..entries.len() {
        if at == ROOT || settled.contains(at) {
            return true;
        }
        match entries.get(at) {
            None => return false,
            Some(record) => at = record.dir(),
        }
    }
    at == ROOT
}

// Settles the nodes that a walk up from a node passes, up to the first that is settled.
fn mark(entries: &Entries, settled: &mut NodeSet, from: u64) -> Result<(), Refusal>
    requires top { lookup (nat_eq root) entries.now ≡ None }
    requires reaches { climbs (length entries.now) (dir_of entries.now) root from ≡ true }
    requires settled { AreSettled entries.now settled.old }
    ensures refused { FailsOnlyForMemory result }
    ensures settled { AreSettled entries.now settled.new }
{
    records_are_kept();
    let mut at = from;
    for _ in 0..entries.len() {
        if at == ROOT || settled.contains(at) {
            return Ok(());
        }
        settled.add(at)?;
        match entries.get(at) {
            None => return Ok(()),
            Some(record) => at = record.dir(),
        }
    }
    Ok(())
}
