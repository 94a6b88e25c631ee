//! The attributes of an entry that has at least one: a short list, or a map once there are many.
ghost use Rattle.std.specs.Prelude.{◌≡◌, [], length, slice_get, Some, None, IfOk, IfSome, IfNone, OnOk, OnErr};
ghost use Rattle.std.specs.Map.Iter.{deref_pair};
ghost use Rattle.std.specs.Option.{option_copied, option_map};
ghost use Rattle.lq_value.specs.Refusal.{FailsOnlyForMemory};
ghost use Rattle.lq_volume_entries.specs.Attributes.{HasOwnNames, value_of, with_attr, without_attr};

use indexmap::IndexMap;
use lq_value::{AttrName, Refusal, Value, same_text};
use std::alloc::Global;
use std::marker::Model;

/// A list with this many attributes becomes a map before the next one is set.
const FEW: usize = 16;

/// The attributes of an entry that has at least one, in the order in which they were first set.
///
/// Contracts see them as the list of their names and values.
pub struct AttrTable {
    alloc: Global,
    // A list to search, since a map takes far more memory; empty where there are many attributes.
    few: Vec<(AttrName, Value)>,
    many: Option<Box<IndexMap<AttrName, Value>>>,
}

impl Drop for AttrTable {
    fn drop(self) {
        let AttrTable {
            alloc: _,
            few: _,
            many: _,
        } = self;
    }
}

impl Model for AttrTable {
    ghost use Rattle.std.specs.Option.{option_map_or};
    ghost use Rattle.lq_volume_entries.specs.Attributes.{Attributes as List, HasOwnNames};

    ghost Value = { List };

    ghost view = { λ a. option_map_or (λ m. m.value.entries) a.many a.few.items };

    ghost invariant = { λ a. HasOwnNames a.few.items };
}

impl AttrTable {
    ghost use Rattle.lq_volume_entries.specs.Attributes.{value_of, with_attr, without_attr};

    /// No attributes. It takes no memory.
    pub fn new(alloc: Global) -> AttrTable
        ensures { result ≡ [] }
    {
        AttrTable {
            alloc,
            few: Vec::new(alloc),
            many: None,
        }
    }

    /// The number of attributes.
    pub fn len(&self) -> usize
        ensures { result ≡ length self.now }
    {
        match &self.many {
            None => self.few.len(),
            Some(many) => many.len(),
        }
    }

    /// The value of an attribute.
    pub fn get(&self, attr: &AttrName) -> Option<&Value>
        ensures { option_copied result ≡ value_of self.now attr.now }
    {
        match &self.many {
            None => find(&self.few, attr),
            Some(many) => many.get(attr),
        }
    }

    /// The name and value at an index, counted from 0.
    pub fn at(&self, index: usize) -> Option<(&AttrName, &Value)>
        ensures { option_map deref_pair result ≡ slice_get self.now index }
    {
        match &self.many {
            None => {
                let pair = self.few.get(index)?;
                Some((&pair.0, &pair.1))
            }
            Some(many) => many.get_index(index),
        }
    }

    /// Sets an attribute. Refused: `NoMemory`; a refused call changes nothing.
    pub fn set(&mut self, attr: AttrName, value: Value) -> Result<(), Refusal>
        ensures refused { FailsOnlyForMemory result }
        ensures ok { OnOk result (self.new ≡ with_attr self.old attr value) }
        ensures err { OnErr result (self.new ≡ self.old) }
    {
        self.spread()?;
        match &mut self.many {
            None => put(&mut self.few, attr, value)?,
            Some(many) => {
                many.insert(attr, value)?;
            }
        }
        Ok(())
    }

    // Turns a list that is no longer short into a map. Refused: `NoMemory`.
    fn spread(&mut self) -> Result<(), Refusal>
        ensures refused { FailsOnlyForMemory result }
        ensures same { self.new ≡ self.old }
    {
        if self.many.is_none() && self.few.len() >= FEW {
            let many = map_of(self.alloc, copied(self.alloc, &self.few)?)?;
            self.many = Some(Box::new(self.alloc, many)?);
            self.few = Vec::new(self.alloc);
        }
        Ok(())
    }

    /// Removes an attribute. Those after it move up, so the time is linear in their number.
    pub fn remove(&mut self, attr: &AttrName)
        ensures { self.new ≡ without_attr self.old attr.now }
    {
        match &mut self.many {
            None => take_out(&mut self.few, attr),
            Some(many) => drop(many.shift_remove(attr)),
        }
    }

    /// A copy of the attributes, in the same order. Refused: `NoMemory`.
    pub fn copy(&self, alloc: Global) -> Result<AttrTable, Refusal>
        ensures refused { FailsOnlyForMemory result }
        ensures value { IfOk result (λ copy. copy ≡ self.now) }
    {
        match &self.many {
            None => Ok(AttrTable {
                alloc,
                few: copied(alloc, &self.few)?,
                many: None,
            }),
            Some(many) => {
                let copy = map_of(alloc, listed(alloc, many)?)?;
                Ok(AttrTable {
                    alloc,
                    few: Vec::new(alloc),
                    many: Some(Box::new(alloc, copy)?),
                })
            }
        }
    }

    /// A copy of the names and values, in order. Refused: `NoMemory`.
    pub fn list(&self, alloc: Global) -> Result<Vec<(AttrName, Value)>, Refusal>
        ensures refused { FailsOnlyForMemory result }
        ensures value { IfOk result (λ list. list.items ≡ self.now) }
    {
        match &self.many {
            None => copied(alloc, &self.few),
            Some(many) => listed(alloc, many),
        }
    }
}

// The value of an attribute of a list.
fn find<'a>(list: &'a [(AttrName, Value)], attr: &AttrName) -> Option<&'a Value>
    ensures { option_copied result ≡ value_of list.now attr.now }
{
    for pair in list {
        if same_text(attr.as_str(), pair.0.as_str()) {
            return Some(&pair.1);
        }
    }
    None
}

// The index of an attribute in a list, counted from 0.
fn index_of(list: &[(AttrName, Value)], attr: &AttrName) -> Option<usize>
    ensures found { IfSome result (λ index.
        option_map (λ a. a.0) (slice_get list.now index) ≡ Some attr.now) }
    ensures none { IfNone result (value_of list.now attr.now ≡ None) }
{
    let mut index = 0;
    for pair in list {
        if same_text(attr.as_str(), pair.0.as_str()) {
            return Some(index);
        }
        index += 1;
    }
    None
}

// Sets an attribute in a list. Refused: `NoMemory`; a refused call changes nothing.
fn put(list: &mut Vec<(AttrName, Value)>, attr: AttrName, value: Value) -> Result<(), Refusal>
    requires { HasOwnNames list.old.items }
    ensures refused { FailsOnlyForMemory result }
    ensures ok { OnOk result (list.new.items ≡ with_attr list.old.items attr value) }
    ensures err { OnErr result (list.new.items ≡ list.old.items) }
{
    match index_of(list, &attr) {
        None => {
            list.reserve_exact(1)?;
            list.push((attr, value))?;
        }
        Some(index) => list[index] = (attr, value),
    }
    Ok(())
}

// Removes an attribute from a list.
fn take_out(list: &mut Vec<(AttrName, Value)>, attr: &AttrName)
    requires { HasOwnNames list.old.items }
    ensures { list.new.items ≡ without_attr list.old.items attr.now }
{
    if let Some(index) = index_of(list, attr) {
        list.remove(index);
    }
}

// A copy of a list's names and values. Refused: `NoMemory`.
fn copied(alloc: Global, list: &[(AttrName, Value)]) -> Result<Vec<(AttrName, Value)>, Refusal>
    ensures refused { FailsOnlyForMemory result }
    ensures value { IfOk result (λ copy. copy.items ≡ list.now) }
{
    let mut copy = Vec::with_capacity(alloc, list.len())?;
    for pair in list {
        copy.push((pair.0.copy(alloc)?, pair.1.copy(alloc)?))?;
    }
    Ok(copy)
}

// A copy of a map's names and values, in order. Refused: `NoMemory`.
fn listed(alloc: Global, map: &IndexMap<AttrName, Value>) -> Result<Vec<(AttrName, Value)>, Refusal>
    ensures refused { FailsOnlyForMemory result }
    ensures value { IfOk result (λ list. list.items ≡ map.now.entries) }
    ensures own { IfOk result (λ list. HasOwnNames list.items) }
{
    let mut list = Vec::with_capacity(alloc, map.len())?;
    for (attr, value) in map.iter() {
        list.push((attr.copy(alloc)?, value.copy(alloc)?))?;
    }
    Ok(list)
}

// A map with the attributes of a list. Refused: `NoMemory`.
fn map_of(alloc: Global, list: Vec<(AttrName, Value)>) -> Result<IndexMap<AttrName, Value>, Refusal>
    requires { HasOwnNames list.items }
    ensures refused { FailsOnlyForMemory result }
    ensures value { IfOk result (λ map. map.entries ≡ list.items) }
{
    Ok(IndexMap::from_iter(alloc, list)?)
}
