//! Changes whose names stand in a table, and drawn ones.
ghost use Rattle.std.specs.Prelude.{◌<◌};

use lq_value::{AttrName, Kind, Name, Refusal, Value};
use lq_volume::Change;
use std::alloc::Global;

/// A change by plain values; its attribute is always `x`.
#[derive(Drop)]
pub enum Act {
    /// A folder's node, a name and a size.
    File(u64, &'static str, u64),
    /// A folder's node and a name.
    Folder(u64, &'static str),
    /// A node.
    Remove(u64),
    /// A node, a folder's node and a name.
    Move(u64, u64, &'static str),
    /// A node, a folder's node and a name. The node that has the place is removed.
    Clobber(u64, u64, &'static str),
    /// A node and a size.
    Write(u64, u64),
    /// A node and a value.
    Set(u64, i32),
    /// A node.
    Unset(u64),
}

impl Act {
    /// The change itself.
    pub fn change(&self, alloc: Global) -> Result<Change, Refusal> {
        match self {
            Act::File(dir, name, size) => creation(alloc, *dir, name, Kind::File, (*size, 40)),
            Act::Folder(dir, name) => creation(alloc, *dir, name, Kind::Folder, (0, 40)),
            Act::Remove(node) => Ok(Change::Remove { node: *node }),
            Act::Move(node, dir, name) => motion(alloc, *node, *dir, name, false),
            Act::Clobber(node, dir, name) => motion(alloc, *node, *dir, name, true),
            Act::Write(node, size) => Ok(Change::Write {
                node: *node,
                size: *size,
                time: 60,
            }),
            Act::Set(node, value) => setting(alloc, *node, "x", Value::Int32(*value)),
            Act::Unset(node) => Ok(Change::RemoveAttr {
                node: *node,
                attr: AttrName::read(alloc, "x")?,
            }),
        }
    }
}

/// A change that makes a file or a folder, of this size and time.
pub fn creation(
    alloc: Global,
    dir: u64,
    name: &str,
    kind: Kind,
    (size, time): (u64, i64),
) -> Result<Change, Refusal> {
    Ok(Change::Create {
        dir,
        name: Name::read(alloc, name)?,
        kind,
        size,
        time,
    })
}

/// A change that moves a node to this name in a folder.
fn motion(
    alloc: Global,
    node: u64,
    dir: u64,
    name: &str,
    clobber: bool,
) -> Result<Change, Refusal> {
    Ok(Change::Move {
        node,
        dir,
        name: Name::read(alloc, name)?,
        clobber,
    })
}

/// A change that sets a node's attribute.
pub fn setting(alloc: Global, node: u64, attr: &str, value: Value) -> Result<Change, Refusal> {
    Ok(Change::SetAttr {
        node,
        attr: AttrName::read(alloc, attr)?,
        value,
    })
}

/// Numbers drawn from a seed, by the linear congruence of Knuth's MMIX.
#[derive(Drop)]
pub struct Draws {
    pub state: u64,
}

impl Draws {
    /// The next act: its nodes are below 13, its names three, its sizes and values below 3.
    pub fn act(&mut self) -> Act {
        let node = self.below(12) + 1;
        // The root half the time.
        let dir = self.below(2) * self.below(12) + 1;
        let name = ["a", "b", "c"][self.below(3) as usize];
        let value = self.below(3);
        match self.below(11) {
            0 | 1 => Act::File(dir, name, value),
            2 => Act::Folder(dir, name),
            3 => Act::Remove(node),
            4 => Act::Move(node, dir, name),
            5 => Act::Clobber(node, dir, name),
            6 => Act::Write(node, value),
            7 => Act::Unset(node),
            8 | 9 => Act::Set(node, 2),
            _ => Act::Set(node, 1),
        }
    }

    fn below(&mut self, bound: u64) -> u64
        requires { 0 < bound }
        ensures { result < bound }
    {
        self.state = self
            .state
            .wrapping_mul(6_364_136_223_846_793_005)
            .wrapping_add(1);
        (self.state >> 33) % bound
    }
}
