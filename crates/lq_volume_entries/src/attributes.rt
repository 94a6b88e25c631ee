//! The attributes of an entry, which take 8 bytes if there are none.
ghost use Rattle.std.specs.Prelude.{◌≡◌, [], length, slice_get, IfOk, OnOk, OnErr};
ghost use Rattle.std.specs.Map.Iter.{deref_pair};
ghost use Rattle.std.specs.Option.{option_copied, option_map};
ghost use Rattle.lq_value.specs.Refusal.{FailsOnlyForMemory};

use crate::attr_table::AttrTable;
use lq_value::{AttrName, Refusal, Value};
use std::alloc::Global;
use std::marker::Model;

/// The attributes of an entry, in the order in which they were first set.
///
/// Most entries have none; these take no memory beyond the 8 bytes of this value. Contracts see the
/// attributes as the list of their names and values.
#[derive(Drop)]
pub struct Attributes {
    alloc: Global,
    table: Option<Box<AttrTable>>,
}

impl Model for Attributes {
    ghost use Rattle.std.specs.Prelude.{[]};
    ghost use Rattle.std.specs.Option.{option_map_or};
    ghost use Rattle.lq_volume_entries.specs.Attributes.{Attributes as List};

    ghost Value = { List };

    ghost view = { λ a. option_map_or (λ t. t.value) a.table [] };
}

impl Attributes {
    ghost use Rattle.lq_volume_entries.specs.Attributes.{value_of, with_attr, without_attr};

    /// No attributes. It takes no memory.
    pub fn new(alloc: Global) -> Attributes
        ensures { result ≡ [] }
    {
        Attributes { alloc, table: None }
    }

    /// The number of attributes.
    pub fn len(&self) -> usize
        ensures { result ≡ length self.now }
    {
        match &self.table {
            None => 0,
            Some(table) => table.len(),
        }
    }

    /// The value of an attribute.
    pub fn get(&self, attr: &AttrName) -> Option<&Value>
        ensures { option_copied result ≡ value_of self.now attr.now }
    {
        self.table.as_ref()?.get(attr)
    }

    /// The name and value at an index, counted from 0.
    pub fn at(&self, place: usize) -> Option<(&AttrName, &Value)>
        ensures { option_map deref_pair result ≡ slice_get self.now place }
    {
        self.table.as_ref()?.at(place)
    }

    /// Sets an attribute. Refused: `NoMemory`; a refused call changes nothing.
    pub fn set(&mut self, attr: AttrName, value: Value) -> Result<(), Refusal>
        ensures refused { FailsOnlyForMemory result }
        ensures ok { OnOk result (self.new ≡ with_attr self.old attr value) }
        ensures err { OnErr result (self.new ≡ self.old) }
    {
        match &mut self.table {
            None => {
                let mut table = AttrTable::new(self.alloc);
                table.set(attr, value)?;
                self.table = Some(Box::new(self.alloc, table)?);
            }
            Some(table) => table.set(attr, value)?,
        }
        Ok(())
    }

    /// Removes an attribute. Those after it move up, so the time is linear in their number.
    pub fn remove(&mut self, attr: &AttrName)
        ensures { self.new ≡ without_attr self.old attr.now }
    {
        if let Some(table) = &mut self.table {
            table.remove(attr);
        }
    }

    /// A copy of the attributes, in the same order. Refused: `NoMemory`.
    pub fn copy(&self, alloc: Global) -> Result<Attributes, Refusal>
        ensures refused { FailsOnlyForMemory result }
        ensures value { IfOk result (λ copy. copy ≡ self.now) }
    {
        match &self.table {
            None => Ok(Attributes::new(alloc)),
            Some(table) => {
                let copy = table.copy(alloc)?;
                Ok(Attributes {
                    alloc,
                    table: Some(Box::new(alloc, copy)?),
                })
            }
        }
    }

    /// A copy of the names and values, in order. Refused: `NoMemory`.
    pub fn list(&self, alloc: Global) -> Result<Vec<(AttrName, Value)>, Refusal>
        ensures refused { FailsOnlyForMemory result }
        ensures value { IfOk result (λ list. list.items ≡ self.now) }
    {
        match &self.table {
            None => Ok(Vec::new(alloc)),
            Some(table) => table.list(alloc),
        }
    }
}
