//! The entries of a volume: the records by node, and an index by place that is kept with them.
ghost use Rattle.std.specs.Prelude.{◌≡◌, ◌==◌, ◌<◌, ◌^◌, [], ◌∷◌, ◌++◌, length, map, filter, nat_eq, not, None, IfOk, OnErr, OnOk};
ghost use Rattle.std.specs.List.{list_any, AllByRecursion};
ghost use Rattle.std.specs.Map.{lookup, values_of};
ghost use Rattle.std.specs.Option.{option_copied};
ghost use Rattle.lq_value.specs.Refusal.{FailsOnlyForMemory};
ghost use Rattle.lq_volume_entries.specs.Order.{shown_pair};

use crate::places::Places;
use crate::record_filter::RecordFilter;
use crate::records::Records;
use crate::stored_record::StoredRecord;
use lq_value::{AttrName, Entry, Name, Refusal, Value};
use std::alloc::Global;
use std::marker::Model;

/// The records of all entries, and an index of their places.
///
/// The time to find a node doesn't depend on how many there are. The time to find a place is
/// logarithmic in the number of folders and in the number of names in its folder. Contracts see the
/// records alone, by rising node.
pub struct Entries {
    alloc: Global,
    records: Records,
    places: Places,
}

impl Drop for Entries {
    fn drop(self) {
        let Entries {
            alloc: _,
            records: _,
            places: _,
        } = self;
    }
}

impl Model for Entries {
    ghost use Rattle.std.specs.Prelude.{ℕ, List};
    ghost use Rattle.lq_volume_entries.specs.Record.{Record};
    ghost use Rattle.lq_volume_entries.specs.PlaceIndex.{IsIndex};

    ghost Value = { List (ℕ × Record) };

    ghost view = { λ e. e.records };

    ghost invariant = { λ e. IsIndex e.places e.records };
}

impl Entries {
    ghost use Rattle.lq_volume_entries.specs.Record.{climbs, dir_of, node_in, root, Rises, entry_of};
    ghost use Rattle.lq_volume_entries.specs.Folder.{AreChildren, CanClimb, Leads};
    ghost use Rattle.lq_volume_entries.specs.Edits.{without, altered, at_place, rewritten, set_attr, remove_attr};
    ghost use Rattle.lq_volume_entries.specs.PlaceIndex.{IsApart, CanMoveEntry};

    /// No entries.
    pub fn new(alloc: Global) -> Entries
        ensures { result ≡ [] }
    {
        Entries {
            alloc,
            records: Records::new(alloc),
            places: Places::new(alloc),
        }
    }

    /// The record of a node.
    pub fn get(&self, node: u64) -> Option<&StoredRecord>
        ensures { option_copied result ≡ lookup (nat_eq node) self.now }
    {
        self.records.get(node)
    }

    /// The node at a place.
    pub fn node_in(&self, dir: u64, name: &Name) -> Option<u64>
        ensures { result ≡ node_in self.now dir name.now }
    {
        match self.places.first(dir, name.hash()) {
            Some(node) if self.records.is_named(node, name) => Some(node),
            _ => self.places.other(dir, name),
        }
    }

    /// Whether an entry is in the folder.
    pub fn has_any(&self, dir: u64) -> bool
        ensures { result ≡ list_any (λ r. r.dir == dir) (values_of self.now) }
    {
        self.places.has_names(dir)
    }

    /// Whether a walk up from one node, folder by folder, reaches another.
    pub fn reaches(&self, from: u64, to: u64) -> bool
        ensures { result ≡ climbs (length self.now) (dir_of self.now) to from }
    {
        self.records.climbs(from, to)
    }

    /// The entries in a folder, by rising name. Refused: `NoMemory`.
    pub fn children(&self, dir: u64) -> Result<Vec<Entry>, Refusal>
        requires rise { Rises self.now }
        requires apart { IsApart self.now }
        ensures refused { FailsOnlyForMemory result }
        ensures children { IfOk result (λ entries. AreChildren self.now dir entries.items) }
    {
        let mut nodes = self.places.nodes(dir)?;
        // Rising nodes read the records in the order in which most of them lie.
        nodes.sort_unstable();
        nodes.dedup();
        let mut entries = self.records.entries_in(self.alloc, dir, &nodes)?;
        entries.sort_unstable_by(|a, b| a.name.cmp(&b.name));
        Ok(entries)
    }

    /// The names that lead from the root down to a node. Refused: `NoMemory`.
    pub fn path(&self, node: u64) -> Result<Vec<Name>, Refusal>
        requires { CanClimb self.now node }
        ensures refused { FailsOnlyForMemory result }
        ensures path { IfOk result (λ path. Leads self.now root path.items node) }
    {
        self.records.path(self.alloc, node)
    }

    /// Adds a record under a node above all others, at a free place. Refused: `NoMemory`.
    pub fn add(&mut self, node: u64, stored: StoredRecord) -> Result<(), Refusal>
        requires last { AllByRecursion (λ e. e.0 < node) self.old }
        requires free { node_in self.old stored.dir stored.name ≡ None }
        ensures refused { FailsOnlyForMemory result }
        ensures ok { OnOk result (self.new ≡ self.old ++ (node, stored) ∷ []) }
        ensures err { OnErr result (self.new ≡ self.old) }
    {
        let dir = stored.dir();
        let name = stored.name().copy(self.alloc)?;
        match self.records.add(node, stored) {
            Err(_) => Err(Refusal::NoMemory),
            Ok(()) => match self.places.put(dir, &name, node, None) {
                Ok(()) => Ok(()),
                // Undoing what grew first takes no memory.
                Err(refusal) => {
                    self.records.remove(node);
                    Err(refusal)
                }
            },
        }
    }

    /// Removes a node's record.
    pub fn remove(&mut self, node: u64)
        requires { IsApart self.old }
        ensures { self.new ≡ filter (λ e. not (e.0 == node)) self.old }
    {
        if let Some(record) = self.records.get(node) {
            let was_first = self.places.is_first(record.dir(), record.name(), node);
            self.places.take(record.dir(), record.name(), was_first);
        }
        self.records.remove(node);
    }

    /// Moves a node to another place and removes the other node there, if any. Refused: `NoMemory`.
    pub fn move_entry(
        &mut self,
        node: u64,
        dir: u64,
        name: &Name,
        other: Option<u64>,
    ) -> Result<(), Refusal>
        requires { CanMoveEntry self.old node dir name.now other }
        ensures refused { FailsOnlyForMemory result }
        ensures ok { OnOk result
            (self.new ≡ altered node (at_place dir name.now) (without other self.old)) }
        ensures err { OnErr result (self.new ≡ self.old) }
    {
        // What may fail for lack of memory comes first, so nothing has to be undone.
        let kept = name.copy(self.alloc)?;
        if let Some(record) = self.records.get(node) {
            if !record.is_at(dir, name) {
                let was_first = self.places.is_first(record.dir(), record.name(), node);
                self.places.put(dir, name, node, other)?;
                self.places.take(record.dir(), record.name(), was_first);
            }
        }
        self.records.remove_if(other);
        self.records.relocate(node, dir, kept);
        Ok(())
    }

    /// Sets a node's size and time.
    pub fn write(&mut self, node: u64, size: u64, time: i64)
        requires { size < 2 ^ 63 }
        ensures { self.new ≡ altered node (rewritten size time) self.old }
    {
        self.records.write(node, size, time);
    }

    /// Sets an attribute of a node. Refused: `NoMemory`; a refused call changes nothing.
    pub fn set_attr(&mut self, node: u64, attr: &AttrName, value: &Value) -> Result<(), Refusal>
        ensures refused { FailsOnlyForMemory result }
        ensures ok { OnOk result
            (self.new ≡ altered node (set_attr attr.now value.now) self.old) }
        ensures err { OnErr result (self.new ≡ self.old) }
    {
        let attr = attr.copy(self.alloc)?;
        let value = value.copy(self.alloc)?;
        self.records.set_attr(node, attr, value)?;
        Ok(())
    }

    /// Removes an attribute of a node.
    pub fn remove_attr(&mut self, node: u64, attr: &AttrName)
        ensures { self.new ≡ altered node (remove_attr attr.now) self.old }
    {
        self.records.remove_attr(node, attr);
    }

    /// The entries whose records pass the test, by rising node. Refused: `NoMemory`.
    pub fn fetch<T: RecordFilter>(&self, test: &T) -> Result<Vec<Entry>, Refusal>
        ensures refused { FailsOnlyForMemory result }
        ensures entries { IfOk result (λ entries. entries.items
            ≡ map entry_of (filter (λ e. T.picks test.now e.1) self.now)) }
    {
        self.records.fetch(self.alloc, test)
    }

    /// The records with their nodes, by rising node. Refused: `NoMemory`.
    pub fn in_order(&self) -> Result<Vec<(u64, &StoredRecord)>, Refusal>
        ensures refused { FailsOnlyForMemory result }
        ensures records { IfOk result (λ records. map shown_pair records.items ≡ self.now) }
        ensures rise { Rises self.now }
    {
        self.records.in_order(self.alloc)
    }

    /// How many records there are.
    pub fn len(&self) -> usize
        ensures { result ≡ length self.now }
    {
        self.records.len()
    }

    /// A copy: the same records under the same nodes. Refused: `NoMemory`.
    pub fn copy(&self) -> Result<Entries, Refusal>
        requires { IsApart self.now }
        ensures refused { FailsOnlyForMemory result }
        ensures value { IfOk result (λ copy. copy ≡ self.now) }
    {
        let mut copy = Entries::new(self.alloc);
        for (node, record) in self.records.in_order(self.alloc)? {
            copy.add(node, record.copy(self.alloc)?)?;
        }
        Ok(copy)
    }
}
