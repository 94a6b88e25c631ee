//! A volume that is restored: its numbers, then its entries one by one, then the test that they are
//! a tree.
ghost use Rattle.std.specs.Prelude.{◌≡◌, ◌≤◌, [], None, Some, IfOk, IfErr, OnOk, OnErr};
ghost use Rattle.lq_volume.specs.Lookup.{listed};
ghost use Rattle.lq_volume.specs.Restore.{FailsBy, first_fault, attr_faults};

use crate::checks::{MAX_SIZE, is_reserved};
use crate::entry_ref::Listing;
use crate::restore_fault::RestoreFault;
use crate::volume::{ROOT, Volume};
use crate::walks::all_climb;
use lq_value::{Kind, Name};
use lq_volume_entries::{Entries, StoredRecord, records_are_kept};
use std::alloc::Global;
use std::marker::Model;

/// A volume that is being restored: its numbers, and its entries so far.
///
/// In contracts it is a `State`. `specs/Restore` has the faults of each call, in order. So the
/// entries may be read one by one, as from a file.
///
/// ```rattle
/// use lq_value::{Kind, Name};
/// use lq_volume::{Listing, Restoring};
///
/// let mut restoring = Restoring::new(alloc, 1000, 7, 6)?;
/// let name = Name::read(alloc, "notes.txt")?;
/// let attrs = Vec::new(alloc);
/// let notes = Listing { dir: 1, name, kind: Kind::File, size: 200, time: 0, attrs };
/// restoring.push(4, notes)?;
/// let volume = restoring.finish()?;
/// assert!(rt; volume.changes() == 7);
/// assert!(rt; volume.next() == 6);
/// ```
pub struct Restoring {
    limit: u64,
    changes: u64,
    next: u64,
    last: u64,
    alloc: Global,
    entries: Entries,
}

impl Drop for Restoring {
    fn drop(self) {
        let Restoring {
            limit: _,
            changes: _,
            next: _,
            last: _,
            alloc: _,
            entries: _,
        } = self;
    }
}

impl Model for Restoring {
    ghost use Rattle.lq_volume.specs.State.{State};
    ghost use Rattle.lq_volume.specs.Restore.{IsRestoring};

    ghost Value = { State };

    ghost view = { λ r. record {
      limit = r.limit;
      number = r.changes;
      next = r.next;
      records = r.entries;
    } };

    ghost invariant = { λ r. IsRestoring (record {
      limit = r.limit;
      number = r.changes;
      next = r.next;
      records = r.entries;
    }) r.last };
}

impl Restoring {
    ghost use Rattle.lq_volume.specs.State.{kind_at, is_taken};
    ghost use Rattle.lq_volume.specs.Restore.{start_faults, started, place_faults, push_faults, pushed, folder_faults, all_folder_faults, finish_faults};

    /// No entry yet, and a volume's numbers: its limit, the number of its changes, and the node of
    /// the next entry.
    ///
    /// The limit is at most `MAX_CHANGES`. It takes no memory. Refused, the first that fits:
    /// `NumberOutOfRange` for more changes than the limit, `NodeOutOfRange` where the next node
    /// isn't one of 2 to `changes` + 2.
    pub fn new(
        alloc: Global,
        limit: u64,
        changes: u64,
        next: u64,
    ) -> Result<Restoring, RestoreFault>
        requires { limit ≤ 1000000000000 }
        ensures ok { OnOk result (first_fault (start_faults limit changes next) ≡ None) }
        ensures err { IfErr result (λ e. first_fault (start_faults limit changes next) ≡ Some e) }
        ensures value { IfOk result (λ restoring. restoring ≡ started limit changes next) }
    {
        if changes > limit {
            return Err(RestoreFault::NumberOutOfRange);
        }
        if next < 2 || next > changes + 2 {
            return Err(RestoreFault::NodeOutOfRange);
        }
        Ok(Restoring {
            limit,
            changes,
            next,
            last: ROOT,
            alloc,
            entries: Entries::new(alloc),
        })
    }

    /// Adds an entry. Its folder may be added later.
    ///
    /// Refused, the first that fits: `OutOfOrder` for a node that isn't above the last one,
    /// `NodeOutOfRange` where it isn't below the next node, `NameTaken` where the folder has the
    /// name already, `SizeOfFolder`, `TooLong`; then, by the first attribute that has one of these,
    /// `Reserved`, `NameTwice`. Or `NoMemory`. A refused call leaves the entries so far unchanged.
    pub fn push(&mut self, node: u64, listing: Listing) -> Result<(), RestoreFault>
        ensures refused { FailsBy result
            (first_fault (push_faults self.old node (listed listing))) }
        ensures ok { OnOk result (self.new ≡ pushed self.old node (listed listing)) }
        ensures err { OnErr result (self.new ≡ self.old) }
    {
        records_are_kept();
        self.check(node, &listing)?;
        let stored = stored_of(self.alloc, listing)?;
        self.entries
            .add(node, stored)
            .map_err(|_| RestoreFault::NoMemory)?;
        self.last = node;
        Ok(())
    }

    // Refuses an entry by its node, its place or its size.
    fn check(&self, node: u64, listing: &Listing) -> Result<(), RestoreFault>
        ensures ok { OnOk result
            (first_fault (place_faults self.now node (listed listing.now)) ≡ None) }
        ensures err { IfErr result (λ e.
            first_fault (place_faults self.now node (listed listing.now)) ≡ Some e) }
    {
        if node <= self.last {
            return Err(RestoreFault::OutOfOrder);
        }
        if self.next <= node {
            return Err(RestoreFault::NodeOutOfRange);
        }
        if self.is_taken(listing.dir, &listing.name) {
            return Err(RestoreFault::NameTaken);
        }
        if listing.kind == Kind::Folder && listing.size != 0 {
            return Err(RestoreFault::SizeOfFolder);
        }
        if listing.size > MAX_SIZE {
            return Err(RestoreFault::TooLong);
        }
        Ok(())
    }

    fn is_taken(&self, dir: u64, name: &Name) -> bool
        ensures { result ≡ is_taken self.now dir name.now }
    {
        self.entries.node_in(dir, name).is_some()
    }

    /// The volume with these numbers and entries.
    ///
    /// Refused, the first that fits: by the first entry that has one of these, `NoFolder`,
    /// `NotFolder`; then `Ring` where a folder is within itself. Or `NoMemory`. It takes time in
    /// proportion to the number of entries.
    pub fn finish(self) -> Result<Volume, RestoreFault>
        ensures refused { FailsBy result (first_fault (finish_faults self)) }
        ensures value { IfOk result (λ volume. volume ≡ self) }
    {
        records_are_kept();
        self.check_folders()?;
        let reached = all_climb(self.alloc, &self.entries).map_err(|_| RestoreFault::NoMemory)?;
        if !reached {
            return Err(RestoreFault::Ring);
        }
        let Restoring {
            limit,
            changes,
            next,
            last: _,
            alloc,
            entries,
        } = self;
        Ok(Volume::from_parts(alloc, limit, changes, next, entries))
    }

    // Refuses an entry whose folder isn't there or is a file.
    fn check_folders(&self) -> Result<(), RestoreFault>
        ensures refused { FailsBy result
            (first_fault (all_folder_faults self.now self.now.records)) }
    {
        let records = self.entries.in_order().map_err(|_| RestoreFault::NoMemory)?;
        for (_, record) in records {
            self.check_folder(record.dir())?;
        }
        Ok(())
    }

    fn check_folder(&self, dir: u64) -> Result<(), RestoreFault>
        ensures ok { OnOk result (first_fault (folder_faults self.now dir) ≡ None) }
        ensures err { IfErr result (λ e. first_fault (folder_faults self.now dir) ≡ Some e) }
    {
        match self.kind(dir) {
            None => Err(RestoreFault::NoFolder),
            Some(Kind::File) => Err(RestoreFault::NotFolder),
            Some(Kind::Folder) => Ok(()),
        }
    }

    fn kind(&self, node: u64) -> Option<Kind>
        ensures { result ≡ kind_at self.now node }
    {
        if node == ROOT {
            return Some(Kind::Folder);
        }
        Some(self.entries.get(node)?.kind())
    }
}

// The record that a listing shows. Refused: by the first attribute that has a fault, or `NoMemory`.
fn stored_of(alloc: Global, listing: Listing) -> Result<StoredRecord, RestoreFault>
    requires { listing.size ≤ 9223372036854775807 }
    ensures refused { FailsBy result (first_fault (attr_faults [] listing.attrs.items)) }
    ensures value { IfOk result (λ stored. stored ≡ listed listing) }
{
    let Listing {
        dir,
        name,
        kind,
        size,
        time,
        attrs,
    } = listing;
    let mut stored = StoredRecord::new(alloc, dir, name, kind, size, time);
    for (attr, value) in attrs {
        if is_reserved(&attr) {
            return Err(RestoreFault::Reserved);
        }
        if stored.attrs().get(&attr).is_some() {
            return Err(RestoreFault::NameTwice);
        }
        stored
            .set_attr(attr, value)
            .map_err(|_| RestoreFault::NoMemory)?;
    }
    Ok(stored)
}
