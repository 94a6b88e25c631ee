//! An entry as a volume stores it under its node: its place, kind, size, time and attributes.
ghost use Rattle.std.specs.Prelude.{◌≡◌, ◌==◌, ◌&&◌, ◌<◌, ◌^◌, [], IfOk, OnOk, OnErr};
ghost use Rattle.std.specs.Str.{bytes_eq};
ghost use Rattle.lq_value.specs.Refusal.{FailsOnlyForMemory};

use crate::attributes::Attributes;
use lq_value::{AttrName, Entry, Kind, Name, Refusal, Value};
use std::alloc::Global;
use std::marker::Model;

/// An entry as it is stored under its node. Its size fits into an `i64`.
pub struct StoredRecord {
    dir: u64,
    name: Name,
    kind: Kind,
    size: u64,
    time: i64,
    attrs: Attributes,
}

impl Drop for StoredRecord {
    fn drop(self) {
        let StoredRecord {
            dir: _,
            name: _,
            kind: _,
            size: _,
            time: _,
            attrs: _,
        } = self;
    }
}

impl Model for StoredRecord {
    ghost use Rattle.std.specs.Prelude.{◌<◌, ◌^◌};
    ghost use Rattle.lq_volume_entries.specs.Record.{Record};

    ghost Value = { Record };

    ghost view = { λ r. record {
      dir = r.dir;
      name = r.name;
      kind = r.kind;
      size = r.size;
      time = r.time;
      attrs = r.attrs;
    } };

    ghost invariant = { λ r. r.size < 2 ^ 63 };
}

impl StoredRecord {
    ghost use Rattle.lq_volume_entries.specs.Kind.{is_folder};
    ghost use Rattle.lq_volume_entries.specs.Record.{Record, entry_of};
    ghost use Rattle.lq_volume_entries.specs.Edits.{at_place, rewritten, set_attr, remove_attr};

    /// A record without attributes.
    pub fn new(
        alloc: Global,
        dir: u64,
        name: Name,
        kind: Kind,
        size: u64,
        time: i64,
    ) -> StoredRecord
        requires { size < 2 ^ 63 }
        ensures { result ≡ record {
          dir = dir;
          name = name;
          kind = kind;
          size = size;
          time = time;
          attrs = [];
        } }
    {
        StoredRecord {
            dir,
            name,
            kind,
            size,
            time,
            attrs: Attributes::new(alloc),
        }
    }

    /// The node of the entry's folder. Only `set_attr`, `entry` and `copy` take memory.
    pub fn dir(&self) -> u64
        ensures { result ≡ self.now.dir }
    {
        self.dir
    }

    /// The entry's name.
    pub fn name(&self) -> &Name
        ensures { result.now ≡ self.now.name }
    {
        &self.name
    }

    /// Whether the entry is a file or a folder.
    pub fn kind(&self) -> Kind
        ensures { result ≡ self.now.kind }
    {
        self.kind
    }

    /// Whether the entry is a folder.
    pub fn is_folder(&self) -> bool
        ensures { result ≡ is_folder self.now.kind }
    {
        self.kind == Kind::Folder
    }

    /// The entry's size in bytes, which fits into an `i64`.
    pub fn size(&self) -> u64
        ensures value { result ≡ self.now.size }
        ensures small { result < 2 ^ 63 }
    {
        self.size
    }

    /// The entry's `last_modified`, in seconds since 1970.
    pub fn time(&self) -> i64
        ensures { result ≡ self.now.time }
    {
        self.time
    }

    /// The entry's attributes, in the order in which they were first set.
    pub fn attrs(&self) -> &Attributes
        ensures { result.now ≡ self.now.attrs }
    {
        &self.attrs
    }

    /// Whether the entry is in this folder, under this name.
    pub fn is_at(&self, dir: u64, name: &Name) -> bool
        ensures { result ≡ ((self.now.dir == dir) && bytes_eq self.now.name name.now) }
    {
        self.dir == dir && self.name == *name
    }

    /// The entry's triple of folder, name and this node. Refused: `NoMemory`.
    pub fn entry(&self, alloc: Global, node: u64) -> Result<Entry, Refusal>
        ensures refused { FailsOnlyForMemory result }
        ensures value { IfOk result (λ entry. entry ≡ entry_of (node, self.now)) }
    {
        Ok(Entry {
            dir: self.dir,
            name: self.name.copy(alloc)?,
            node,
        })
    }

    /// Moves the entry to another place.
    pub fn relocate(&mut self, dir: u64, name: Name)
        ensures { self.new ≡ at_place dir name self.old }
    {
        self.dir = dir;
        self.name = name;
    }

    /// Sets the entry's size and time.
    pub fn write(&mut self, size: u64, time: i64)
        requires { size < 2 ^ 63 }
        ensures { self.new ≡ rewritten size time self.old }
    {
        self.size = size;
        self.time = time;
    }

    /// Sets an attribute. Refused: `NoMemory`; a refused call changes nothing.
    pub fn set_attr(&mut self, attr: AttrName, value: Value) -> Result<(), Refusal>
        ensures refused { FailsOnlyForMemory result }
        ensures ok { OnOk result (self.new ≡ set_attr attr value self.old) }
        ensures err { OnErr result (self.new ≡ self.old) }
    {
        self.attrs.set(attr, value)?;
        Ok(())
    }

    /// Removes an attribute.
    pub fn remove_attr(&mut self, attr: &AttrName)
        ensures { self.new ≡ remove_attr attr.now self.old }
    {
        self.attrs.remove(attr);
    }

    /// A copy of the record. Refused: `NoMemory`.
    pub fn copy(&self, alloc: Global) -> Result<StoredRecord, Refusal>
        ensures refused { FailsOnlyForMemory result }
        ensures value { IfOk result (λ copy. copy ≡ self.now) }
    {
        Ok(StoredRecord {
            dir: self.dir,
            name: self.name.copy(alloc)?,
            kind: self.kind,
            size: self.size,
            time: self.time,
            attrs: self.attrs.copy(alloc)?,
        })
    }
}
