//! An entry of a volume, by the places of its attributes and by their names.
use crate::act::{creation, setting};
use crate::ask::value;
use crate::value_calls::is_same;
use lq_value::{AttrName, Kind, Refusal, View};
use lq_volume::{EntryRef, Volume};
use std::alloc::Global;

// An attribute of node 2 and what it is set to, in turn.
const SET: [(&str, View<'static>); 3] = [
    ("x", View::Int32(7)),
    ("y", View::Text("q")),
    ("x", View::Text("z")),
];

// The volume of the scenario `attributes`: the file `f` of size 3 and time 5 at node 2, whose `x`
// was 7 and is the text `z`, and whose `y` is the text `q`. It takes nine changes.
fn made(alloc: Global) -> Result<Volume, Refusal> {
    let mut volume = Volume::new(alloc, 9);
    volume.apply(&creation(alloc, 1, "f", Kind::File, (3, 5))?)?;
    for (attr, view) in &SET {
        let change = setting(alloc, 2, attr, value(alloc, view)?)?;
        volume.apply(&change)?;
    }
    Ok(volume)
}

// Whether this is that file.
fn is_file(entry: &EntryRef<'_>) -> bool {
    entry.dir() == 1
        && entry.name().as_str() == "f"
        && entry.kind() == Kind::File
        && entry.size() == 3
        && entry.time() == 5
}

// Whether an entry has this attribute, by its place and by its name.
fn has_attr(entry: &EntryRef<'_>, place: usize, attr: &AttrName, view: View<'_>) -> bool {
    match (entry.attr_at(place), entry.attr(attr)) {
        (Some((name, placed)), Some(named)) => {
            *name == *attr && is_same(placed, view) && is_same(named, view)
        }
        _ => false,
    }
}

// The same, of the text of its name.
fn shows(alloc: Global, entry: &EntryRef<'_>, place: usize, attr: &str, view: View<'_>) -> bool {
    match AttrName::read(alloc, attr) {
        Ok(attr) => has_attr(entry, place, &attr, view),
        Err(_) => false,
    }
}

// Whether an entry has no attribute of this name.
fn lacks(alloc: Global, entry: &EntryRef<'_>, attr: &str) -> bool {
    match AttrName::read(alloc, attr) {
        Ok(attr) => entry.attr(&attr).is_none(),
        Err(_) => false,
    }
}

// Whether node 2 is that file, with those attributes at the first two places and no other.
fn has_attributes(alloc: Global, volume: &Volume) -> bool {
    let Ok(entry) = volume.entry(2) else {
        return false;
    };
    is_file(&entry)
        && entry.attr_count() == 2
        && shows(alloc, &entry, 0, "x", View::Text("z"))
        && shows(alloc, &entry, 1, "y", View::Text("q"))
        && entry.attr_at(2).is_none()
        && lacks(alloc, &entry, "w")
}

#[test]
fn scenario_attributes(rt: HostRuntime) {
    let volume = made(rt.alloc()).expect(&rt, "a volume");
    assert!(rt; has_attributes(rt.alloc(), &volume));
    assert!(rt; volume.changes() == 4 && volume.limit() == 9);
}
