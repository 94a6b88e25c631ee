//! The entries of a volume with their nodes, as a restore takes them.
ghost use Rattle.std.specs.Prelude.{◌≡◌, length, slice_get};

use crate::entry_ref::EntryRef;
use lq_volume_entries::StoredRecord;
use std::marker::Model;

/// The entries of a volume, borrowed, by rising node. In contracts it is the list of nodes and
/// records.
#[derive(Drop)]
pub struct Saved<'a> {
    records: Vec<(u64, &'a StoredRecord)>,
}

impl<'a> Model for Saved<'a> {
    ghost use Rattle.std.specs.Prelude.{ℕ, List, map};
    ghost use Rattle.lq_volume.specs.State.{Record};
    ghost use Rattle.lq_volume_entries.specs.Order.{shown_pair};

    ghost Value = { List (ℕ × Record) };

    ghost view = { λ s. map shown_pair s.records.items };
}

impl<'a> Saved<'a> {
    ghost use Rattle.std.specs.Prelude.{map};
    ghost use Rattle.lq_volume_entries.specs.Order.{shown_pair};

    pub(crate) fn new(records: Vec<(u64, &'a StoredRecord)>) -> Saved<'a>
        ensures { result ≡ map shown_pair records.entry.items }
    {
        Saved { records }
    }

    /// The number of entries.
    pub fn len(&self) -> usize
        ensures { result ≡ length self.now }
    {
        self.records.len()
    }

    /// The node and the entry at an index, counted from 0.
    pub fn at(&self, index: usize) -> Option<(u64, EntryRef<'a>)>
        ensures { result ≡ slice_get self.now index }
    {
        let (node, stored) = self.records.get(index)?;
        Some((*node, EntryRef::new(stored)))
    }
}
