//! The listing of a folder by name, and the path of a node.
use crate::act::Act;
use lq_value::{Entry, Name, Refusal};
use lq_volume::Volume;
use std::alloc::Global;
use std::test::Fail;

// Nodes 2 to 10. The last three names have the same hash.
const MADE: [Act; 9] = [
    Act::Folder(1, "d"),
    Act::File(2, "b", 0),
    Act::Folder(2, "é"),
    Act::File(2, "B", 0),
    Act::Folder(4, "a.b"),
    Act::File(4, "a", 0),
    Act::File(4, "lqijsmmgpqin0", 0),
    Act::File(4, "mmmmmmmmmmmm0", 0),
    Act::File(4, "niqpgmmsjiql0", 0),
];

// a folder, the nodes of its entries by rising bytes of their names
const LISTINGS: [(u64, &[u64]); 4] = [(1, &[2]), (2, &[5, 3, 4]), (4, &[7, 6, 8, 9, 10]), (6, &[])];

// a node, its path
const PATHS: [(u64, &str); 5] = [
    (1, ""),
    (2, "/d"),
    (5, "/d/B"),
    (6, "/d/é/a.b"),
    (10, "/d/é/niqpgmmsjiql0"),
];

fn made(alloc: Global) -> Result<Volume, Refusal> {
    let mut volume = Volume::new(alloc, 20);
    for act in &MADE {
        volume.apply(&act.change(alloc)?)?;
    }
    Ok(volume)
}

fn has_nodes(entries: &[Entry], dir: u64, nodes: &[u64]) -> bool {
    entries.len() == nodes.len()
        && entries
            .iter()
            .zip(nodes)
            .all(|(entry, node)| entry.dir == dir && entry.node == *node)
}

// The names, each after a slash.
fn joined(alloc: Global, names: &[Name]) -> Result<String, Fail> {
    let mut text = String::new(alloc);
    for name in names {
        text.push_str("/")?;
        text.push_str(name.as_str())?;
    }
    Ok(text)
}

#[test]
fn a_folder_is_listed_by_name(rt: HostRuntime) -> Result<(), Fail> {
    let mut volume = made(rt.alloc())?;
    for (dir, nodes) in &LISTINGS {
        if !has_nodes(&volume.children(*dir)?, *dir, nodes) {
            return Err(Fail::from(*dir));
        }
    }
    assert!(rt; volume.children(3).err() == Some(Refusal::NotFolder));
    assert!(rt; volume.children(11).err() == Some(Refusal::NoNode));
    // Of names with one hash the first may go, and another be moved away and back.
    for act in &[
        Act::Remove(8),
        Act::Move(9, 1, "x"),
        Act::Move(9, 4, "mmmmmmmmmmmm0"),
    ] {
        volume.apply(&act.change(rt.alloc())?)?;
    }
    assert!(rt; has_nodes(&volume.children(4)?, 4, &[7, 6, 9, 10]));
    Ok(())
}

#[test]
fn a_path_leads_from_the_root(rt: HostRuntime) -> Result<(), Fail> {
    let volume = made(rt.alloc())?;
    for (node, path) in &PATHS {
        if joined(rt.alloc(), &volume.path(*node)?)?.as_str() != *path {
            return Err(Fail::from(*path));
        }
    }
    assert!(rt; volume.path(11).err() == Some(Refusal::NoNode));
    Ok(())
}
