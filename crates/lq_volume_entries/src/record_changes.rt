//! How the records of a volume are added, altered and removed.
ghost use Rattle.std.specs.Prelude.{◌≡◌, ◌==◌, ◌<◌, ◌^◌, [], ◌∷◌, ◌++◌, filter, nat_eq, not, IfErr, OnErr, OnOk};
ghost use Rattle.std.specs.List.{AllByRecursion};
ghost use Rattle.std.specs.Map.{lookup};
ghost use Rattle.lq_value.specs.Refusal.{FailsOnlyForMemory};

use crate::records::Records;
use crate::stored_record::StoredRecord;
use lq_value::{AttrName, Name, Refusal, Value};

impl Records {
    ghost use Rattle.lq_volume_entries.specs.Record.{Rises};
    ghost use Rattle.lq_volume_entries.specs.Edits.{without, altered, at_place, rewritten, set_attr, remove_attr};

    /// Adds a record under a node above all others, or gives it back where there is no memory.
    pub fn add(&mut self, node: u64, stored: StoredRecord) -> Result<(), StoredRecord>
        requires { AllByRecursion (λ e. e.0 < node) self.old }
        ensures ok { OnOk result (self.new ≡ self.old ++ (node, stored) ∷ []) }
        ensures err { OnErr result (self.new ≡ self.old) }
        ensures back { IfErr result (λ back. back ≡ stored) }
    {
        match self.stored.insert(node, stored) {
            Ok(_) => Ok(()),
            Err(failed) => Err(failed.value.1),
        }
    }

    /// Removes a node's record, and gives it.
    pub fn remove(&mut self, node: u64) -> Option<StoredRecord>
        ensures record { result ≡ lookup (nat_eq node) self.old }
        ensures rise { Rises self.old }
        ensures left { self.new ≡ filter (λ e. not (e.0 == node)) self.old }
    {
        self.stored.swap_remove(&node)
    }

    /// Removes a node's record, if a node is given.
    pub fn remove_if(&mut self, node: Option<u64>)
        ensures { self.new ≡ without node self.old }
    {
        if let Some(node) = node {
            self.remove(node);
        }
    }

    /// Moves a node to another place.
    pub fn relocate(&mut self, node: u64, dir: u64, name: Name)
        ensures { self.new ≡ altered node (at_place dir name) self.old }
    {
        if let Some(record) = self.stored.get_mut(&node) {
            record.relocate(dir, name);
        }
    }

    /// Sets a node's size and time.
    pub fn write(&mut self, node: u64, size: u64, time: i64)
        requires { size < 2 ^ 63 }
        ensures { self.new ≡ altered node (rewritten size time) self.old }
    {
        if let Some(record) = self.stored.get_mut(&node) {
            record.write(size, time);
        }
    }

    /// Sets an attribute of a node. Refused: `NoMemory`; a refused call changes nothing.
    pub fn set_attr(&mut self, node: u64, attr: AttrName, value: Value) -> Result<(), Refusal>
        ensures refused { FailsOnlyForMemory result }
        ensures ok { OnOk result (self.new ≡ altered node (set_attr attr value) self.old) }
        ensures err { OnErr result (self.new ≡ self.old) }
    {
        if let Some(record) = self.stored.get_mut(&node) {
            record.set_attr(attr, value)?;
        }
        Ok(())
    }

    /// Removes an attribute of a node.
    pub fn remove_attr(&mut self, node: u64, attr: &AttrName)
        ensures { self.new ≡ altered node (remove_attr attr.now) self.old }
    {
        if let Some(record) = self.stored.get_mut(&node) {
            record.remove_attr(attr);
        }
    }
}
