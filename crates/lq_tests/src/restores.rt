//! Restored volumes: from a volume's own records, and from rows; each fault by its name.
use crate::act::{Act, setting};
use crate::again::again;
use crate::ask::value;
use crate::value_calls::is_same;
use lq_value::{AttrName, Kind, Name, Refusal, Value, View};
use lq_volume::{EntryRef, Listing, MAX_CHANGES, RestoreFault, Restoring, Volume};
use std::alloc::Global;
use std::test::Fail;

// A file that is moved into a folder with a higher node; node 4 is gone.
const ACTS: [Act; 5] = [
    Act::File(1, "low", 3),
    Act::Folder(1, "high"),
    Act::File(1, "gone", 0),
    Act::Move(2, 3, "moved"),
    Act::Remove(4),
];

// The attributes that node 2 then gets, one of each type, in this order.
const ATTRS: [(&str, View<'static>); 5] = [
    ("t", View::Text("é")),
    ("c", View::UInt32(4_294_967_295)),
    ("a", View::Int32(-7)),
    ("d", View::UInt64(18_446_744_073_709_551_615)),
    ("b", View::Int64(-9_223_372_036_854_775_808)),
];

/// An entry of a table.
enum Row {
    /// A node, its folder's node, a name and a size.
    File(u64, u64, &'static str, u64),
    /// A node, its folder's node, a name and a size.
    Folder(u64, u64, &'static str, u64),
    /// A node; the file `a` of the root with attributes of these names.
    With(u64, &'static [&'static str]),
}

/// The limit, the number of changes, the next node, and the entries.
struct Given(u64, u64, u64, &'static [Row]);

// what is given, the name of its fault
const FAULTS: [(Given, &str); 21] = [
    (Given(4, 5, 7, &[]), "NumberOutOfRange"),
    (Given(4, 5, 8, &[]), "NumberOutOfRange"),
    (Given(9, 5, 8, &[]), "NodeOutOfRange"),
    (Given(9, 5, 1, &[]), "NodeOutOfRange"),
    (Given(9, 5, 7, &[Row::File(7, 1, "a", 0)]), "NodeOutOfRange"),
    (Given(9, 5, 7, &[Row::Folder(1, 1, "a", 0)]), "OutOfOrder"),
    (
        Given(9, 5, 7, &[Row::File(3, 1, "a", 0), Row::File(3, 1, "b", 0)]),
        "OutOfOrder",
    ),
    (
        Given(9, 5, 7, &[Row::File(4, 1, "a", 0), Row::File(3, 1, "a", 0)]),
        "OutOfOrder",
    ),
    (
        Given(9, 5, 7, &[Row::File(3, 5, "a", 0), Row::File(4, 5, "a", 0)]),
        "NameTaken",
    ),
    (Given(9, 5, 7, &[Row::Folder(2, 1, "a", 1)]), "SizeOfFolder"),
    (
        Given(9, 5, 7, &[Row::File(2, 1, "a", 9_223_372_036_854_775_808)]),
        "TooLong",
    ),
    (Given(9, 5, 7, &[Row::With(2, &["x", "name"])]), "Reserved"),
    (Given(9, 5, 7, &[Row::With(2, &["size"])]), "Reserved"),
    (
        Given(9, 5, 7, &[Row::With(2, &["last_modified", "x", "x"])]),
        "Reserved",
    ),
    (
        Given(9, 5, 7, &[Row::With(2, &["x", "y", "x", "name"])]),
        "NameTwice",
    ),
    (Given(9, 5, 7, &[Row::File(2, 3, "a", 0)]), "NoFolder"),
    (Given(9, 5, 7, &[Row::File(2, 0, "a", 0)]), "NoFolder"),
    (
        Given(9, 5, 7, &[Row::File(2, 3, "a", 0), Row::File(3, 1, "b", 0)]),
        "NotFolder",
    ),
    (
        Given(
            9,
            5,
            7,
            &[Row::Folder(2, 1, "a", 0), Row::Folder(3, 3, "b", 0)],
        ),
        "Ring",
    ),
    (
        Given(
            9,
            5,
            7,
            &[
                Row::Folder(2, 4, "a", 0),
                Row::Folder(3, 2, "b", 0),
                Row::Folder(4, 3, "c", 0),
                Row::File(5, 4, "d", 0),
            ],
        ),
        "Ring",
    ),
    (
        Given(
            9,
            5,
            7,
            &[Row::Folder(2, 2, "a", 0), Row::File(3, 6, "b", 0)],
        ),
        "NoFolder",
    ),
];

// A tree in which each folder has a higher node than what is in it; the greatest size and node.
const TREE: Given = Given(
    9,
    5,
    7,
    &[
        Row::With(2, &["x", "y"]),
        Row::File(3, 4, "f", 9_223_372_036_854_775_807),
        Row::Folder(4, 6, "e", 0),
        Row::Folder(6, 1, "d", 0),
    ],
);

/// The fault where memory ran out.
fn no_memory(_refusal: Refusal) -> RestoreFault {
    RestoreFault::NoMemory
}

/// An entry without attributes.
fn bare(alloc: Global, dir: u64, name: &str, kind: Kind, size: u64) -> Result<Listing, Refusal> {
    Ok(Listing {
        dir,
        name: Name::read(alloc, name)?,
        kind,
        size,
        time: 40,
        attrs: Vec::new(alloc),
    })
}

/// A row's node and entry.
fn entry_of(alloc: Global, row: &Row) -> Result<(u64, Listing), Refusal> {
    match row {
        Row::File(node, dir, name, size) => {
            Ok((*node, bare(alloc, *dir, name, Kind::File, *size)?))
        }
        Row::Folder(node, dir, name, size) => {
            Ok((*node, bare(alloc, *dir, name, Kind::Folder, *size)?))
        }
        Row::With(node, attrs) => {
            let mut listing = bare(alloc, 1, "a", Kind::File, 0)?;
            for attr in *attrs {
                let attr = AttrName::read(alloc, attr)?;
                listing.attrs.push((attr, Value::Int32(1)))?;
            }
            Ok((*node, listing))
        }
    }
}

/// The entries of rows with their nodes.
fn entries_of(alloc: Global, rows: &[Row]) -> Result<Vec<(u64, Listing)>, Refusal> {
    let mut entries = Vec::new(alloc);
    for row in rows {
        entries.push(entry_of(alloc, row)?)?;
    }
    Ok(entries)
}

/// The entries of a volume with their nodes.
fn told(alloc: Global, volume: &Volume) -> Result<Vec<(u64, Listing)>, Refusal> {
    let saved = volume.saved()?;
    let mut entries = Vec::new(alloc);
    for index in 0..saved.len() {
        if let Some((node, _)) = saved.at(index) {
            entries.push((node, volume.listing(node)?))?;
        }
    }
    Ok(entries)
}

/// The volume of what is given; no row has a limit above the greatest.
fn restored(alloc: Global, given: &Given) -> Result<Volume, RestoreFault> {
    let Given(limit, changes, next, rows) = given;
    if *limit > MAX_CHANGES {
        return Err(RestoreFault::NumberOutOfRange);
    }
    let entries = entries_of(alloc, rows).map_err(no_memory)?;
    Volume::restore(alloc, *limit, *changes, *next, entries)
}

/// A volume of nine changes with a file that has an attribute of each type.
fn made(alloc: Global) -> Result<Volume, Refusal> {
    let mut volume = Volume::new(alloc, 12);
    for act in &ACTS {
        volume.apply(&act.change(alloc)?)?;
    }
    for (attr, view) in &ATTRS {
        volume.apply(&setting(alloc, 2, attr, value(alloc, view)?)?)?;
    }
    Ok(volume)
}

/// Whether an entry has just those attributes in that order.
fn has_attrs(entry: &EntryRef<'_>) -> bool {
    entry.attr_count() == 5
        && ATTRS.iter().enumerate().all(|(place, (attr, view))| {
            match entry.attr_at(place) {
                Some((name, shown)) => name.as_str() == *attr && is_same(shown, *view),
                None => false,
            }
        })
}

/// Whether node 2 is the file that was moved, with its attributes.
fn has_moved(volume: &Volume) -> bool {
    match volume.entry(2) {
        Ok(entry) => {
            entry.dir() == 3
                && entry.name().as_str() == "moved"
                && entry.kind() == Kind::File
                && entry.size() == 3
                && entry.time() == 40
                && has_attrs(&entry)
        }
        Err(_) => false,
    }
}

/// Whether a volume has the numbers and entries of the one that is made by changes.
fn is_made(volume: &Volume) -> bool {
    volume.limit() == 12
        && volume.changes() == 10
        && volume.next() == 5
        && has_moved(volume)
        && matches!(volume.entry(3), Ok(entry) if entry.dir() == 1 && entry.kind() == Kind::Folder)
        && volume.entry(4).is_err()
}

/// Whether the next two changes of a volume get its next numbers and nodes, and the third none.
fn goes_on(alloc: Global, volume: &mut Volume) -> Result<bool, Refusal> {
    let first = volume.apply(&Act::File(3, "low", 0).change(alloc)?)?;
    let second = volume.apply(&Act::Folder(1, "low").change(alloc)?)?;
    let third = volume.apply(&Act::Remove(2).change(alloc)?);
    Ok(
        first.change == 11
            && first.node == 5
            && second.change == 12
            && second.node == 6
            && third.err() == Some(Refusal::Exhausted),
    )
}

#[test]
fn a_volume_is_restored_of_what_it_tells(rt: HostRuntime) -> Result<(), Fail> {
    let alloc = rt.alloc();
    let volume = made(alloc)?;
    assert!(rt; is_made(&volume));
    let entries = told(alloc, &volume)?;
    let mut again = Volume::restore(alloc, 12, 10, 5, entries)?;
    assert!(rt; is_made(&again) && goes_on(alloc, &mut again)?);
    let mut copy = volume.restored_copy()?;
    assert!(rt; is_made(&copy) && goes_on(alloc, &mut copy)?);
    let bare = Volume::new(alloc, 1).restored_copy()?;
    assert!(rt; bare.limit() == 1 && bare.changes() == 0 && bare.next() == 2);
    assert!(rt; bare.children(1)?.is_empty());
    Ok(())
}

#[test]
fn each_fault_has_its_name(rt: HostRuntime) -> Result<(), Fail> {
    let alloc = rt.alloc();
    for (given, name) in &FAULTS {
        match restored(alloc, given) {
            Err(fault) if format!(in alloc; "{fault}")?.as_str() == *name => {}
            _ => return Err(Fail::from(*name)),
        }
    }
    let text = format!(in alloc; "{:?}", RestoreFault::NoMemory)?;
    assert!(rt; text.as_str() == "NoMemory");
    Ok(())
}

/// The volume of the tree, whose pushes are made again where memory runs out.
fn pushed(alloc: Global) -> Result<Volume, RestoreFault> {
    let Given(limit, changes, next, rows) = TREE;
    let mut restoring = Restoring::new(alloc, limit, changes, next)?;
    for row in rows {
        let (node, entry) = again!(entry_of(alloc, row)).map_err(no_memory)?;
        match restoring.push(node, entry) {
            Err(RestoreFault::NoMemory) => {
                let (node, entry) = entry_of(alloc, row).map_err(no_memory)?;
                restoring.push(node, entry)?;
            }
            answer => answer?,
        }
    }
    restoring.finish()
}

/// Whether a volume is the tree.
fn is_tree(volume: &Volume) -> bool {
    match (volume.entry(2), volume.entry(3), volume.entry(4)) {
        (Ok(a), Ok(f), Ok(e)) => {
            a.attr_count() == 2
                && f.dir() == 4
                && f.size() == 9_223_372_036_854_775_807
                && e.dir() == 6
                && volume.next() == 7
        }
        _ => false,
    }
}

// A call that is refused for want of memory is made again, and nothing is lost by it.
#[test]
fn a_refused_growth_is_made_good(rt: HostRuntime) -> Result<(), Fail> {
    let alloc = rt.alloc();
    let volume = match pushed(alloc) {
        Err(RestoreFault::NoMemory) => pushed(alloc)?,
        answer => answer?,
    };
    assert!(rt; is_tree(&volume));
    let copy = match volume.restored_copy() {
        Err(RestoreFault::NoMemory) => volume.restored_copy()?,
        answer => answer?,
    };
    assert!(rt; is_tree(&volume) && is_tree(&copy));
    let whole = match restored(alloc, &TREE) {
        Err(RestoreFault::NoMemory) => restored(alloc, &TREE)?,
        answer => answer?,
    };
    assert!(rt; is_tree(&whole));
    Ok(())
}
