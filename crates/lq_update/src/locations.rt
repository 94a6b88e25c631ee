//! Folds one message into the locations of a result's nodes, for an indexed rebuild.
ghost use Rattle.std.specs.Prelude.{◌≡◌, None, Some, IfOk, IsSome, OnOk, OnErr, not, if◌then◌else◌};
ghost use Rattle.std.specs.BTreeMap.{get, insert_entry};
ghost use Rattle.std.specs.Ordering.{nat_cmp};
ghost use Rattle.lq_value.specs.declared.refusal.Refusal.TheVariants.{Mismatch};
ghost use Rattle.lq_value.specs.Refusal.{FailsOnlyForMemory, IsRefusedBy};
ghost use Rattle.lq_update.specs.Diff.{has_node};
ghost use Rattle.lq_update.specs.Fold.{EntriesRise, message_entry, fits_in, folded_one, has_entry, put_in};
ghost use Rattle.lq_update.specs.Locations.{entries_of};

use crate::message::{Message, Opcode};
use lq_value::{Entry, Name, Refusal};
use std::alloc::Global;
use std::collections::BTreeMap;

/// The location of an entry: its folder and its name.
#[derive(Drop)]
pub struct Location {
    dir: u64,
    name: Name,
}

impl Location {
    // A folder with a copy of a name.
    fn new(alloc: Global, dir: u64, name: &Name) -> Result<Location, Refusal>
        ensures refused { FailsOnlyForMemory result }
        ensures value { IfOk result (λ location. location ≡ record { dir = dir; name = name.now }) }
    {
        Ok(Location {
            dir,
            name: name.copy(alloc)?,
        })
    }
}

/// The location of each entry's node. Refused: `NoMemory`.
pub fn locations_of(alloc: Global, entries: &[Entry]) -> Result<BTreeMap<u64, Location>, Refusal>
    requires { EntriesRise entries.now }
    ensures refused { FailsOnlyForMemory result }
    ensures value { IfOk result (λ locations. entries_of locations.entries ≡ entries.now) }
{
    let mut locations = BTreeMap::new(alloc);
    for entry in entries {
        let location = Location::new(alloc, entry.dir, &entry.name)?;
        locations.insert(entry.node, location)?;
    }
    Ok(locations)
}

/// The entries by rising node. Refused: `NoMemory`.
pub fn entries_of(alloc: Global, locations: &BTreeMap<u64, Location>) -> Result<Vec<Entry>, Refusal>
    ensures refused { FailsOnlyForMemory result }
    ensures value { IfOk result (λ entries. entries.items ≡ entries_of locations.now.entries) }
{
    let mut entries = Vec::new(alloc);
    for (node, location) in locations {
        entries.push(Entry {
            dir: location.dir,
            name: location.name.copy(alloc)?,
            node: *node,
        })?;
    }
    Ok(entries)
}

/// Folds a message into the locations of a result: in logarithmic time, as the code says.
///
/// Refused, the first that fits: `Mismatch` where the message doesn't fit the locations,
/// `NoMemory`. A refused message changes nothing.
pub fn fold_into(
    alloc: Global,
    locations: &mut BTreeMap<u64, Location>,
    message: &Message,
) -> Result<(), Refusal>
    requires { EntriesRise (entries_of locations.old.entries) }
    ensures refused { IsRefusedBy result
        (if fits_in (entries_of locations.old.entries) message.now then None else Some Mismatch) }
    ensures ok { OnOk result (entries_of locations.new.entries
        ≡ folded_one (entries_of locations.old.entries) message.now) }
    ensures err { OnErr result (locations.new.entries ≡ locations.old.entries) }
    ensures rise { EntriesRise (entries_of locations.new.entries) }
{
    match &message.op {
        Opcode::Created => put(alloc, locations, message),
        Opcode::Removed => {
            if !is_at(locations, message.dir, &message.name, message.node) {
                return Err(Refusal::Mismatch);
            }
            locations.remove(&message.node);
            Ok(())
        }
        Opcode::Moved {
            from_dir,
            from_name,
        } => {
            if !is_at(locations, *from_dir, from_name, message.node) {
                return Err(Refusal::Mismatch);
            }
            let location = Location::new(alloc, message.dir, &message.name)?;
            locations.insert(message.node, location)?;
            Ok(())
        }
        Opcode::ValueChanged { .. } => {
            if !is_at(locations, message.dir, &message.name, message.node) {
                return Err(Refusal::Mismatch);
            }
            Ok(())
        }
    }
}

fn put(
    alloc: Global,
    locations: &mut BTreeMap<u64, Location>,
    message: &Message,
) -> Result<(), Refusal>
    requires { EntriesRise (entries_of locations.old.entries) }
    ensures refused { IsRefusedBy result
        (if not (has_node message.now.node (entries_of locations.old.entries))
        then None else Some Mismatch) }
    ensures ok { OnOk result (entries_of locations.new.entries
        ≡ put_in (message_entry message.now) (entries_of locations.old.entries)) }
    ensures err { OnErr result (locations.new.entries ≡ locations.old.entries) }
    ensures rise { EntriesRise (entries_of locations.new.entries) }
{
    let Ok(location) = Location::new(alloc, message.dir, &message.name) else {
        return Err(if has(locations, message.node) {
            Refusal::Mismatch
        } else {
            Refusal::NoMemory
        });
    };
    match locations.insert(message.node, location) {
        Ok(None) => Ok(()),
        Ok(Some(before)) => {
            put_back(locations, message.node, before);
            Err(Refusal::Mismatch)
        }
        Err(_) => Err(Refusal::NoMemory),
    }
}

// Gives a node the location back that it had, which takes no memory.
fn put_back(locations: &mut BTreeMap<u64, Location>, node: u64, before: Location)
    requires { IsSome (get nat_cmp locations.old node) }
    ensures { locations.new.entries ≡ insert_entry nat_cmp locations.old.entries node before }
{
    let _ = locations.insert(node, before);
}

// Whether the node has a location.
fn has(locations: &BTreeMap<u64, Location>, node: u64) -> bool
    ensures { result ≡ has_node node (entries_of locations.now.entries) }
{
    locations.contains_key(&node)
}

// Whether the node has this location.
fn is_at(locations: &BTreeMap<u64, Location>, dir: u64, name: &Name, node: u64) -> bool
    requires { EntriesRise (entries_of locations.now.entries) }
    ensures { result ≡ has_entry (record { dir = dir; name = name.now; node = node })
        (entries_of locations.now.entries) }
{
    match locations.get(&node) {
        None => false,
        Some(location) => dir == location.dir && *name == location.name,
    }
}
