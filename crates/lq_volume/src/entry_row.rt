//! An entry as a predicate sees it, before a change or after it, without a copy of the entry.
ghost use Rattle.std.specs.Prelude.{◌≡◌, ◌<◌, ◌^◌, Some, IfOk, IsSome};
ghost use Rattle.std.specs.Option.{option_copied};
ghost use Rattle.lq_value.specs.Refusal.{FailsOnlyForMemory};
ghost use Rattle.lq_volume_entries.specs.Attributes.{value_of};
ghost use Rattle.lq_volume.specs.Change.{node_of, record_left, IsLawful};
ghost use Rattle.lq_volume.specs.EntryRow.{view_of, IsEntryRow};
ghost use Rattle.lq_volume.specs.State.{record_at, IsVolume};

use crate::change::Change;
use crate::volume::Volume;
use lq_predicate::Row;
use lq_value::{AttrName, Entry, Field, Name, Refusal, Value, View, same_text};
use lq_volume_entries::{StoredRecord, values_are_found};
use std::alloc::Global;
use std::marker::Model;

/// An entry as it is, or as a change would leave it, borrowed: what a predicate looks at.
///
/// What it shows beside its place is in the change, where that says it, else in the record.
/// Contracts see it as its `Record`. Its size fits into an `i64`.
#[derive(Drop)]
pub struct EntryRow<'a> {
    dir: u64,
    name: &'a Name,
    // The entry's record; none where the change creates the entry.
    stored: Option<&'a StoredRecord>,
    // The change; none where the entry is seen as it is.
    change: Option<&'a Change>,
}

impl<'a> Model for EntryRow<'a> {
    ghost use Rattle.lq_volume.specs.Change.{at_place};
    ghost use Rattle.lq_volume.specs.EntryRow.{view_of, IsEntryRow};
    ghost use Rattle.lq_volume.specs.State.{Record};

    ghost Value = { Record };

    ghost view = { λ v. at_place v.dir v.name.now (view_of v.stored v.change) };

    ghost invariant = { λ v. IsEntryRow v.stored v.change };
}

impl<'a> EntryRow<'a> {
    ghost use Rattle.lq_volume_entries.specs.Attributes.{value_of};
    ghost use Rattle.lq_volume.specs.Change.{at_place};
    ghost use Rattle.lq_volume.specs.Result.{entry_of};
    ghost use Rattle.lq_volume.specs.EntryRow.{has_same_place, view_of, IsEntryRow};

    /// An entry as it is.
    pub(crate) fn stored(stored: &'a StoredRecord) -> EntryRow<'a>
        ensures { result ≡ stored.now }
    {
        EntryRow {
            dir: stored.dir(),
            name: stored.name(),
            stored: Some(stored),
            change: None,
        }
    }

    /// An entry as a change would leave it, at this place; without a record, as the change would
    /// create it.
    pub(crate) fn changed(
        dir: u64,
        name: &'a Name,
        stored: Option<&'a StoredRecord>,
        change: &'a Change,
    ) -> EntryRow<'a>
        requires { IsEntryRow stored (Some change) }
        ensures { result ≡ at_place dir name.now (view_of stored.entry (Some change.entry)) }
    {
        EntryRow {
            dir,
            name,
            stored,
            change: Some(change),
        }
    }

    /// The entry's size, in bytes. It takes no memory.
    pub fn size(&self) -> u64
        ensures { result ≡ self.now.size }
    {
        self.small_size()
    }

    // The size, which fits into an `i64`.
    fn small_size(&self) -> u64
        ensures value { result ≡ self.now.size }
        ensures small { result < 2 ^ 63 }
    {
        match self.change {
            Some(Change::Create { size, .. } | Change::Write { size, .. }) => *size,
            _ => record_of(self.stored).size(),
        }
    }

    /// The entry's `last_modified`, in seconds since 1970. It takes no memory.
    pub fn time(&self) -> i64
        ensures { result ≡ self.now.time }
    {
        match self.change {
            Some(Change::Create { time, .. } | Change::Write { time, .. }) => *time,
            _ => record_of(self.stored).time(),
        }
    }

    /// Whether another entry has the same place: the same folder and name. It takes no memory.
    pub fn shares_place(&self, other: &EntryRow<'_>) -> bool
        ensures { result ≡ has_same_place self.now other.now }
    {
        self.dir == other.dir && *self.name == *other.name
    }

    /// The entry's triple of folder, name and this node. Refused: `NoMemory`.
    pub fn entry(&self, alloc: Global, node: u64) -> Result<Entry, Refusal>
        ensures refused { FailsOnlyForMemory result }
        ensures value { IfOk result (λ entry. entry ≡ entry_of (node, self.now)) }
    {
        Ok(Entry {
            dir: self.dir,
            name: self.name.copy(alloc)?,
            node,
        })
    }

    // The value of an attribute.
    fn value(&self, asked: &AttrName) -> Option<&Value>
        ensures { option_copied result ≡ value_of self.now.attrs asked.now }
    {
        values_are_found();
        if let Some(change) = self.change {
            match change {
                Change::Create { .. } => return None,
                Change::SetAttr { attr, value, .. } => {
                    if same_text(asked.as_str(), attr.as_str()) {
                        return Some(value);
                    }
                }
                Change::RemoveAttr { attr, .. } => {
                    if same_text(asked.as_str(), attr.as_str()) {
                        return None;
                    }
                }
                Change::Remove { .. } | Change::Move { .. } | Change::Write { .. } => {}
            }
        }
        record_of(self.stored).attrs().get(asked)
    }
}

// The record of an entry that no change creates.
pub(crate) fn record_of<'a>(stored: Option<&'a StoredRecord>) -> &'a StoredRecord
    requires { IsSome stored }
    ensures { stored.entry ≡ Some result }
{
    match stored {
        None => unreachable!(),
        Some(stored) => stored,
    }
}

// The entry of the change's own node after the change.
pub(crate) fn view_after<'a>(
    volume: &Volume,
    change: &'a Change,
    stored: Option<&'a StoredRecord>,
) -> Option<EntryRow<'a>>
    requires volume { IsVolume volume.now }
    requires lawful { IsLawful volume.now change.now }
    requires stored { option_copied stored
        ≡ record_at volume.now (node_of volume.now change.now) }
    ensures { result ≡ record_left volume.now change.now }
{
    match change {
        Change::Remove { .. } => None,
        Change::Create { dir, name, .. } | Change::Move { dir, name, .. } => {
            Some(EntryRow::changed(*dir, name, stored, change))
        }
        Change::Write { .. } | Change::SetAttr { .. } | Change::RemoveAttr { .. } => {
            let record = record_of(stored);
            Some(EntryRow::changed(record.dir(), record.name(), stored, change))
        }
    }
}

impl<'a> Row for EntryRow<'a> {
    ghost use Rattle.lq_volume.specs.Result.{shown};

    ghost looks = { shown };

    fn look(&self, attr: &AttrName) -> Option<View<'_>> {
        match attr.field() {
            Field::Name => Some(View::Text(self.name.as_str())),
            Field::Size => Some(View::Int64(self.small_size() as i64)),
            Field::LastModified => Some(View::Int64(self.time())),
            Field::Attribute => Some(self.value(attr)?.view()),
        }
    }
}
