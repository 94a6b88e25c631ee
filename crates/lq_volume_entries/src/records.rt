//! The records of a volume, found by node in a hash map.
ghost use Rattle.std.specs.Prelude.{◌≡◌, [], length, filter, map, nat_eq, reverse, IfOk, OnOk};
ghost use Rattle.std.specs.List.{IsDistinct};
ghost use Rattle.std.specs.List.Sorted.{IsStrictlyIncreasing};
ghost use Rattle.std.specs.Map.{keys_of, lookup};
ghost use Rattle.std.specs.Option.{option_copied};
ghost use Rattle.lq_value.specs.Refusal.{FailsOnlyForMemory};
ghost use Rattle.lq_volume_entries.specs.Order.{shown_pair};
ghost use Rattle.lq_volume_entries.specs.Record.{entry_of};

use crate::node_hash::NodeHashes;
use crate::record_filter::RecordFilter;
use crate::stored_record::StoredRecord;
use indexmap::IndexMap;
use lq_value::{Entry, Name, Refusal};
use std::alloc::Global;
use std::marker::Model;

/// The records of all entries, each under its node; their stored order doesn't matter.
///
/// To look up, add, remove or alter a record takes the same time on average however many there are,
/// except when the map grows. Contracts see a list by rising node.
#[derive(Drop)]
pub struct Records {
    pub(crate) stored: IndexMap<u64, StoredRecord, NodeHashes>,
}

impl Model for Records {
    ghost use Rattle.std.specs.Prelude.{ℕ, List};
    ghost use Rattle.lq_volume_entries.specs.Order.{by_node};
    ghost use Rattle.lq_volume_entries.specs.Record.{Record, Rises};

    ghost Value = { List (ℕ × Record) };

    ghost view = { λ r. by_node r.stored.entries };

    ghost invariant = { λ r. Rises (by_node r.stored.entries) };
}

impl Records {
    ghost use Rattle.lq_volume_entries.specs.Record.{Rises, climbs, dir_of, root};
    ghost use Rattle.lq_volume_entries.specs.Folder.{Leads, CanClimb, HasNodesIn, entries_in, entry_in, with_entry};
    ghost use Rattle.lq_volume_entries.specs.PlaceIndex.{is_named};

    /// No records. It takes no memory.
    pub fn new(alloc: Global) -> Records
        ensures { result ≡ [] }
    {
        Records {
            stored: IndexMap::with_hasher(alloc, NodeHashes::new()),
        }
    }

    /// The record of a node.
    pub fn get(&self, node: u64) -> Option<&StoredRecord>
        ensures record { option_copied result ≡ lookup (nat_eq node) self.now }
        ensures rise { Rises self.now }
    {
        self.stored.get(&node)
    }

    /// Whether the record of a node has this name.
    pub fn is_named(&self, node: u64, name: &Name) -> bool
        ensures { result ≡ is_named self.now name.now node }
    {
        match self.get(node) {
            None => false,
            Some(record) => record.name() == name,
        }
    }

    /// Whether a walk up from one node, folder by folder, reaches another.
    pub fn climbs(&self, from: u64, to: u64) -> bool
        ensures { result ≡ climbs (length self.now) (dir_of self.now) to from }
    {
        let mut at = from;
        for _ in 0..self.len() {
            if at == to {
                return true;
            }
            match self.get(at) {
                None => return false,
                Some(record) => at = record.dir(),
            }
        }
        at == to
    }

    /// How many records there are.
    pub fn len(&self) -> usize
        ensures { result ≡ length self.now }
    {
        self.stored.len()
    }

    /// The names that lead from the root down to a node. Refused: `NoMemory`.
    pub fn path(&self, alloc: Global, node: u64) -> Result<Vec<Name>, Refusal>
        requires { CanClimb self.now node }
        ensures refused { FailsOnlyForMemory result }
        ensures path { IfOk result (λ path. Leads self.now root path.items node) }
    {
        let mut path = self.names_up(alloc, node)?;
        path.reverse();
        Ok(path)
    }

    // The names on the walk from a node up to the root, which has no record.
    fn names_up(&self, alloc: Global, from: u64) -> Result<Vec<Name>, Refusal>
        requires { CanClimb self.now from }
        ensures refused { FailsOnlyForMemory result }
        ensures names { IfOk result (λ names.
            Leads self.now root (reverse names.items) from) }
    {
        let mut names = Vec::new(alloc);
        let mut at = from;
        for _ in 0..self.len() {
            match self.get(at) {
                None => return Ok(names),
                Some(record) => {
                    names.push(record.name().copy(alloc)?)?;
                    at = record.dir();
                }
            }
        }
        Ok(names)
    }

    /// The entries in a folder by rising node, where its nodes rise and each of them is given.
    ///
    /// Refused: `NoMemory`.
    pub fn entries_in(&self, alloc: Global, dir: u64, nodes: &[u64]) -> Result<Vec<Entry>, Refusal>
        requires rise { Rises self.now }
        requires nodes { IsStrictlyIncreasing nodes.now }
        requires all { HasNodesIn self.now dir nodes.now }
        ensures refused { FailsOnlyForMemory result }
        ensures entries { IfOk result (λ entries. entries.items ≡ entries_in self.now dir) }
    {
        let mut entries = Vec::with_capacity(alloc, nodes.len())?;
        for node in nodes {
            self.push_entry_in(alloc, dir, *node, &mut entries)?;
        }
        Ok(entries)
    }

    // Pushes the entry of a node, if it is in the folder. Refused: `NoMemory`.
    fn push_entry_in(
        &self,
        alloc: Global,
        dir: u64,
        node: u64,
        entries: &mut Vec<Entry>,
    ) -> Result<(), Refusal>
        ensures refused { FailsOnlyForMemory result }
        ensures ok { OnOk result (entries.new.items
            ≡ with_entry entries.old.items (entry_in self.now dir node)) }
    {
        if let Some(record) = self.get(node) {
            if record.dir() == dir {
                entries.push(record.entry(alloc, node)?)?;
            }
        }
        Ok(())
    }

    /// The records with their nodes, by rising node. Refused: `NoMemory`.
    pub fn in_order(&self, alloc: Global) -> Result<Vec<(u64, &StoredRecord)>, Refusal>
        ensures refused { FailsOnlyForMemory result }
        ensures records { IfOk result (λ records. map shown_pair records.items ≡ self.now) }
        ensures rise { Rises self.now }
    {
        let mut records = pairs_of(&self.stored, alloc)?;
        records.sort_unstable_by_key(|pair| pair.0);
        Ok(records)
    }

    /// The entries whose records pass the test, by rising node. Refused: `NoMemory`.
    pub fn fetch<T: RecordFilter>(&self, alloc: Global, test: &T) -> Result<Vec<Entry>, Refusal>
        ensures refused { FailsOnlyForMemory result }
        ensures entries { IfOk result (λ entries. entries.items
            ≡ map entry_of (filter (λ e. T.picks test.now e.1) self.now)) }
    {
        let mut entries = finds_in(&self.stored, alloc, test)?;
        // Linear where the nodes rise already, as long as nothing was ever removed.
        entries.sort_unstable_by_key(|entry| entry.node);
        Ok(entries)
    }
}

// The nodes and records of a map, in its order. Refused: `NoMemory`.
fn pairs_of(
    stored: &IndexMap<u64, StoredRecord, NodeHashes>,
    alloc: Global,
) -> Result<Vec<(u64, &StoredRecord)>, Refusal>
    ensures refused { FailsOnlyForMemory result }
    ensures pairs { IfOk result (λ pairs. map shown_pair pairs.items ≡ stored.now.entries) }
    ensures own { IsDistinct nat_eq (keys_of stored.now.entries) }
{
    let mut pairs = Vec::new(alloc);
    for (node, record) in stored.iter() {
        pairs.push((*node, record))?;
    }
    Ok(pairs)
}

// The entries of a map whose records pass the test, in its order. Refused: `NoMemory`.
fn finds_in<T: RecordFilter>(
    stored: &IndexMap<u64, StoredRecord, NodeHashes>,
    alloc: Global,
    test: &T,
) -> Result<Vec<Entry>, Refusal>
    ensures refused { FailsOnlyForMemory result }
    ensures finds { IfOk result (λ finds. finds.items
        ≡ map entry_of (filter (λ e. T.picks test.now e.1) stored.now.entries)) }
    ensures own { IsDistinct nat_eq (keys_of stored.now.entries) }
{
    let mut finds = Vec::new(alloc);
    for (node, record) in stored.iter() {
        if test.passes(record) {
            finds.push(record.entry(alloc, *node)?)?;
        }
    }
    Ok(finds)
}
