//! The changes of a volume: the only way to alter it, each accepted whole or refused.
use lq_value::{AttrName, Kind, Name, Value};

/// One act on a volume. Nodes count from 1, the root; times are seconds since 1970.
///
/// ```rattle
/// use lq_value::{AttrName, Kind, Name, Refusal, Value};
/// use lq_volume::{Change, Volume};
///
/// let mut volume = Volume::new(alloc, 1000);
/// let name = Name::read(alloc, "letter")?;
/// let create = Change::Create { dir: 1, name, kind: Kind::File, size: 200, time: 0 };
/// let attr = AttrName::read(alloc, "MAIL:priority")?;
/// let set = Change::SetAttr { node: 2, attr, value: Value::Int32(3) };
/// assert!(rt; volume.check(&set).err() == Some(Refusal::NoNode));
/// volume.apply(&create)?;
/// assert!(rt; volume.apply(&set)?.change == 2);
/// ```
#[derive(Drop)]
pub enum Change {
    /// Creates an entry in the folder `dir`, under the next node; `size` is in bytes.
    Create {
        dir: u64,
        name: Name,
        kind: Kind,
        size: u64,
        time: i64,
    },
    /// Removes the entry of a node.
    Remove {
        node: u64,
    },
    /// Moves the entry of a node to another place; with `clobber` another node there is removed.
    Move {
        node: u64,
        dir: u64,
        name: Name,
        clobber: bool,
    },
    /// Sets a file's size, in bytes, and its `last_modified`.
    Write {
        node: u64,
        size: u64,
        time: i64,
    },
    /// Sets an attribute of an entry; an attribute that it already has keeps its position.
    SetAttr {
        node: u64,
        attr: AttrName,
        value: Value,
    },
    /// Removes an attribute of an entry.
    RemoveAttr {
        node: u64,
        attr: AttrName,
    },
}

/// The effect of an accepted change: its number, counted from 1, and the node that it created or
/// named.
#[derive(Clone, Copy, Debug, PartialEq, Eq)]
pub struct Applied {
    pub change: u64,
    pub node: u64,
}

/// What `make` needs of an accepted change: what it answers, and the other node that a move
/// removes.
#[derive(Clone, Copy, Drop)]
pub struct Resolved {
    pub applied: Applied,
    pub clobbered: Option<u64>,
}
