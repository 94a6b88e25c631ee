//! The volume: it checks and makes changes, and numbers those that it accepts.
ghost use Rattle.std.specs.Prelude.{◌≡◌, ◌⊎◌, ◌≤◌, ◌+◌, Some, None, IfOk, IfErr, OnErr, OnOk, map};
ghost use Rattle.lq_volume.specs.declared.restore_fault.RestoreFault.TheVariants.{NoMemory};

use crate::change::{Applied, Change, Resolved};
use crate::entry_ref::Listing;
use crate::laws::{accepted_changes_keep_trees, volumes_are_restored};
use crate::restore_fault::RestoreFault;
use crate::restoring::Restoring;
use crate::saved::Saved;
use lq_value::Refusal;
use lq_volume_entries::{Entries, StoredRecord, records_are_kept};
use std::alloc::Global;
use std::fmt;
use std::marker::Model;

/// The node of the root, which is a folder but not an entry.
pub(crate) const ROOT: u64 = 1;

/// The greatest limit on changes that a volume can have.
pub const MAX_CHANGES: u64 = 1_000_000_000_000;

/// A tree of entries below one root, and the number of changes that it accepted.
///
/// It accepts at most `limit` changes. The nodes of entries count from 2 and are never used again.
/// Contracts see a volume as a `State`, and every volume is a tree.
///
/// ```rattle
/// use lq_value::{Kind, Name, Refusal};
/// use lq_volume::{Change, Volume};
///
/// let mut volume = Volume::new(alloc, 1000);
/// let name = Name::read(alloc, "notes.txt")?;
/// let create = Change::Create { dir: 1, name, kind: Kind::File, size: 200, time: 0 };
/// assert!(rt; volume.apply(&create)?.node == 2);
/// assert!(rt; volume.apply(&create).err() == Some(Refusal::Exists));
/// assert!(rt; volume.changes() == 1);
/// ```
pub struct Volume {
    limit: u64,
    changes: u64,
    next: u64,
    pub(crate) alloc: Global,
    pub(crate) entries: Entries,
}

/// Shows the numbers of a volume, and no entry: it may have a million.
impl fmt::Debug for Volume {
    fn fmt<W: fmt::Write>(&self, f: &mut fmt::Formatter<W>) -> fmt::Result {
        f.debug_struct("Volume")
            .field("limit", &self.limit)
            .field("changes", &self.changes)
            .finish_non_exhaustive()
    }
}

impl Drop for Volume {
    fn drop(self) {
        let Volume {
            limit: _,
            changes: _,
            next: _,
            alloc: _,
            entries: _,
        } = self;
    }
}

impl Model for Volume {
    ghost use Rattle.lq_volume.specs.State.{State, IsVolume};

    ghost Value = { State };

    ghost view = { λ v. record {
      limit = v.limit;
      number = v.changes;
      next = v.next;
      records = v.entries;
    } };

    ghost invariant = { λ v. IsVolume (record {
      limit = v.limit;
      number = v.changes;
      next = v.next;
      records = v.entries;
    }) };
}

impl Volume {
    ghost use Rattle.lq_value.specs.Refusal.{FailsOnlyForMemory, IsRefusedBy};
    ghost use Rattle.lq_volume.specs.State.{empty_state, IsVolume};
    ghost use Rattle.lq_volume.specs.Change.{refused, after, node_of, is_full, IsLawful};
    ghost use Rattle.lq_volume.specs.Plan.{resolved_of};
    ghost use Rattle.lq_volume.specs.Restore.{FailsBy, first_fault, listed_pair, restore_faults, state_with};

    /// A volume with the root alone. It accepts at most `limit` changes, 1 to 1,000,000,000,000.
    ///
    /// It takes no memory. The limit is our own.
    pub fn new(alloc: Global, limit: u64) -> Volume
        requires { (1 ≤ limit) × (limit ≤ 1000000000000) }
        ensures { result ≡ empty_state limit }
    {
        Volume {
            limit,
            changes: 0,
            next: 2,
            alloc,
            entries: Entries::new(alloc),
        }
    }

    /// The volume with these numbers and entries.
    pub(crate) fn from_parts(
        alloc: Global,
        limit: u64,
        changes: u64,
        next: u64,
        entries: Entries,
    ) -> Volume
        requires { IsVolume (record {
          limit = limit;
          number = changes;
          next = next;
          records = entries;
        }) }
        ensures { result ≡ record {
          limit = limit;
          number = changes;
          next = next;
          records = entries;
        } }
    {
        Volume {
            limit,
            changes,
            next,
            alloc,
            entries,
        }
    }

    /// How many changes the volume accepted, which is also the number of the latest one. It takes
    /// no memory.
    ///
    /// The volume is a tree within its limit, and the nodes of its entries are 2 or more.
    pub fn changes(&self) -> u64
        ensures number { result ≡ self.now.number }
        ensures volume { IsVolume self.now }
    {
        self.changes
    }

    /// The most changes that the volume accepts. It takes no memory.
    pub fn limit(&self) -> u64
        ensures { result ≡ self.now.limit }
    {
        self.limit
    }

    /// The node of the entry that is created next. It takes no memory.
    pub fn next(&self) -> u64
        ensures { result ≡ self.now.next }
    {
        self.next
    }

    /// All entries with their nodes, by rising node. Refused: `NoMemory`.
    ///
    /// Together with `limit`, `changes` and `next` they determine the volume: `restore` makes the
    /// same volume of them.
    pub fn saved(&self) -> Result<Saved<'_>, Refusal>
        ensures refused { FailsOnlyForMemory result }
        ensures records { IfOk result (λ saved. saved ≡ self.now.records) }
    {
        Ok(Saved::new(self.entries.in_order()?))
    }

    /// What `apply` would answer. It takes no memory and changes nothing.
    ///
    /// Refused for the first row of the change's table in `specs/Change` that applies; the last row
    /// is always `Exhausted`. `NoNode`: a node or `dir` is missing. `Reserved`: the root, or an
    /// attribute `name`, `size` or `last_modified`. `NotFolder`: `dir` is a file. `Exists`,
    /// `KindClash`, `NotEmpty`: the entry at the place, without and with `clobber`, or the one to
    /// remove. `WouldLoop`: `dir` is the node or below it. `IsFolder`, `TooLong`: the size.
    /// `NoAttr`: no attribute of that name. The order is our own.
    #[inline(always)]
    pub fn check(&self, change: &Change) -> Result<Applied, Refusal>
        ensures ok { OnOk result (refused self.now change.now ≡ None) }
        ensures err { IfErr result (λ e. refused self.now change.now ≡ Some e) }
        ensures value { IfOk result (λ applied.
            applied ≡ record { change = self.now.number + 1; node = node_of self.now change.now }) }
    {
        Ok(self.resolve(change)?.applied)
    }

    /// Makes a change. Refused: as `check` refuses it, or `NoMemory`.
    ///
    /// A refused change leaves the volume unchanged.
    pub fn apply(&mut self, change: &Change) -> Result<Applied, Refusal>
        ensures refused { IsRefusedBy result (refused self.old change.now) }
        ensures value { IfOk result (λ applied.
            applied ≡ record { change = self.old.number + 1; node = node_of self.old change.now }) }
        ensures ok { OnOk result (self.new ≡ after self.old change.now) }
        ensures err { OnErr result (self.new ≡ self.old) }
    {
        let resolved = self.resolve(change)?;
        self.make(change, &resolved)
    }

    /// Makes a change that `check` doesn't refuse, with what `resolve` or a plan found for it.
    ///
    /// Refused: `NoMemory`, which leaves the volume unchanged.
    pub fn make(&mut self, change: &Change, resolved: &Resolved) -> Result<Applied, Refusal>
        requires lawful { IsLawful self.old change.now }
        requires resolved { resolved.now ≡ resolved_of self.old change.now }
        ensures refused { FailsOnlyForMemory result }
        ensures value { IfOk result (λ applied.
            applied ≡ record { change = self.old.number + 1; node = node_of self.old change.now }) }
        ensures ok { OnOk result (self.new ≡ after self.old change.now) }
        ensures err { OnErr result (self.new ≡ self.old) }
    {
        accepted_changes_keep_trees();
        records_are_kept();
        match change {
            Change::Create {
                dir,
                name,
                kind,
                size,
                time,
            } => {
                let record = StoredRecord::new(
                    self.alloc,
                    *dir,
                    name.copy(self.alloc)?,
                    *kind,
                    *size,
                    *time,
                );
                self.entries.add(self.next, record)?;
                self.next += 1;
            }
            Change::Remove { node } => self.entries.remove(*node),
            Change::Move {
                node,
                dir,
                name,
                ..
            } => {
                self.entries
                    .move_entry(*node, *dir, name, resolved.clobbered)?;
            }
            Change::Write { node, size, time } => self.entries.write(*node, *size, *time),
            Change::SetAttr { node, attr, value } => self.entries.set_attr(*node, attr, value)?,
            Change::RemoveAttr { node, attr } => self.entries.remove_attr(*node, attr),
        }
        self.changes += 1;
        Ok(resolved.applied)
    }

    /// A copy of the volume. Refused: `NoMemory`.
    pub fn copy(&self) -> Result<Volume, Refusal>
        ensures refused { FailsOnlyForMemory result }
        ensures value { IfOk result (λ copy. copy ≡ self.now) }
    {
        Ok(Volume {
            limit: self.limit,
            changes: self.changes,
            next: self.next,
            alloc: self.alloc,
            entries: self.entries.copy()?,
        })
    }

    /// The volume with this limit, number of changes and next node, and with these entries.
    ///
    /// The limit is at most `MAX_CHANGES`. Refused with the fault of the first call of `Restoring`
    /// that refuses its part of them, and so just where there is no such volume; or `NoMemory`.
    pub fn restore(
        alloc: Global,
        limit: u64,
        changes: u64,
        next: u64,
        records: Vec<(u64, Listing)>,
    ) -> Result<Volume, RestoreFault>
        requires { limit ≤ 1000000000000 }
        ensures refused { FailsBy result
            (first_fault (restore_faults limit changes next (map listed_pair records.items))) }
        ensures value { IfOk result (λ volume.
            volume ≡ state_with limit changes next records.items) }
        ensures err { IfErr result (λ e.
            (e ≡ NoMemory) ⊎ (IsVolume (state_with limit changes next records.items) → ⊥)) }
    {
        volumes_are_restored();
        let mut restoring = Restoring::new(alloc, limit, changes, next)?;
        for (node, listing) in records {
            restoring.push(node, listing)?;
        }
        restoring.finish()
    }

    /// A copy that is restored from the volume's own numbers and entries. Refused: `NoMemory`.
    ///
    /// Its contract shows that a volume which is saved and restored is the same volume. `copy` is
    /// faster.
    pub fn restored_copy(&self) -> Result<Volume, RestoreFault>
        ensures refused { FailsBy result None }
        ensures value { IfOk result (λ copy. copy ≡ self.now) }
    {
        volumes_are_restored();
        let saved = self.saved().map_err(|_| RestoreFault::NoMemory)?;
        let mut restoring = Restoring::new(self.alloc, self.limit, self.changes, self.next)?;
        for index in 0..saved.len() {
            match saved.at(index) {
                None => unreachable!(),
                Some((node, entry)) => {
                    let listing = entry
                        .listing(self.alloc)
                        .map_err(|_| RestoreFault::NoMemory)?;
                    restoring.push(node, listing)?;
                }
            }
        }
        restoring.finish()
    }

    /// What an accepted change answers: its number, and the node that it creates or names.
    #[inline]
    pub(crate) fn applied_by(&self, change: &Change) -> Applied
        ensures { result ≡ record {
          change = self.now.number + 1;
          node = node_of self.now change.now;
        } }
    {
        let node = match change {
            Change::Create { .. } => self.next,
            Change::Remove { node }
            | Change::Move { node, .. }
            | Change::Write { node, .. }
            | Change::SetAttr { node, .. }
            | Change::RemoveAttr { node, .. } => *node,
        };
        Applied {
            change: self.changes + 1,
            node,
        }
    }

    pub(crate) fn is_full(&self) -> bool
        ensures { result ≡ is_full self.now }
    {
        self.limit <= self.changes
    }
}
