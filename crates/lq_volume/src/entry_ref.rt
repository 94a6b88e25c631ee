//! One entry of a volume, borrowed, as a look-up gives it, and its copy for a caller who keeps it.
ghost use Rattle.std.specs.Prelude.{◌≡◌, IfOk, length, slice_get};
ghost use Rattle.std.specs.Option.{option_map};
ghost use Rattle.lq_value.specs.Refusal.{FailsOnlyForMemory};

use lq_value::{AttrName, Kind, Name, Refusal, Value, View};
use lq_volume_entries::StoredRecord;
use std::alloc::Global;
use std::marker::Model;

/// One entry of a volume, borrowed. Contracts see it as its `Record`.
#[derive(Drop)]
pub struct EntryRef<'a> {
    stored: &'a StoredRecord,
}

impl<'a> Model for EntryRef<'a> {
    ghost use Rattle.lq_volume.specs.State.{Record};

    ghost Value = { Record };

    ghost view = { λ e. e.stored.now };
}

/// A copy of an entry: its place, its kind, its size in bytes, its `last_modified` in seconds since
/// 1970, and its attributes.
#[derive(Drop)]
pub struct Listing {
    pub dir: u64,
    pub name: Name,
    pub kind: Kind,
    pub size: u64,
    pub time: i64,
    /// The attributes, in the order in which they were first set.
    pub attrs: Vec<(AttrName, Value)>,
}

impl<'a> EntryRef<'a> {
    ghost use Rattle.lq_value.specs.Value.{shown_by};
    ghost use Rattle.lq_volume_entries.specs.Attributes.{value_of};
    ghost use Rattle.lq_volume.specs.Lookup.{listed};

    pub(crate) fn new(stored: &'a StoredRecord) -> EntryRef<'a>
        ensures { result ≡ stored.now }
    {
        EntryRef { stored }
    }

    /// The node of the entry's folder. No call here but `listing` takes memory.
    pub fn dir(&self) -> u64
        ensures { result ≡ self.now.dir }
    {
        self.stored.dir()
    }

    /// The entry's name.
    pub fn name(&self) -> &'a Name
        ensures { result.now ≡ self.now.name }
    {
        self.stored.name()
    }

    /// Whether the entry is a file or a folder.
    pub fn kind(&self) -> Kind
        ensures { result ≡ self.now.kind }
    {
        self.stored.kind()
    }

    /// The entry's size in bytes. `IsTree` says that it is 0 for a folder of a volume.
    pub fn size(&self) -> u64
        ensures { result ≡ self.now.size }
    {
        self.stored.size()
    }

    /// The entry's `last_modified`, in seconds since 1970.
    pub fn time(&self) -> i64
        ensures { result ≡ self.now.time }
    {
        self.stored.time()
    }

    /// The value of an attribute, if the entry has one of that name.
    pub fn attr(&self, attr: &AttrName) -> Option<View<'_>>
        ensures { option_map shown_by result ≡ value_of self.now.attrs attr.now }
    {
        Some(self.stored.attrs().get(attr)?.view())
    }

    /// The number of the entry's attributes.
    pub fn attr_count(&self) -> usize
        ensures { result ≡ length self.now.attrs }
    {
        self.stored.attrs().len()
    }

    /// The attribute at an index, counted from 0 in the order in which they were first set.
    pub fn attr_at(&self, place: usize) -> Option<(&AttrName, View<'_>)>
        ensures { option_map (λ p. (p.0.now, shown_by p.1)) result
            ≡ slice_get self.now.attrs place }
    {
        let (name, value) = self.stored.attrs().at(place)?;
        Some((name, value.view()))
    }

    /// A copy of the whole entry. Refused: `NoMemory`.
    pub(crate) fn listing(&self, alloc: Global) -> Result<Listing, Refusal>
        ensures refused { FailsOnlyForMemory result }
        ensures value { IfOk result (λ listing. listed listing ≡ self.now) }
    {
        Ok(Listing {
            dir: self.dir(),
            name: self.name().copy(alloc)?,
            kind: self.kind(),
            size: self.size(),
            time: self.time(),
            attrs: self.stored.attrs().list(alloc)?,
        })
    }
}
