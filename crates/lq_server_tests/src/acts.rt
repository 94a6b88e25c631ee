//! The calls in the tables of the scenarios, and the answers that are expected.
use crate::random_changes::{DrawnOpening, Draws, numbered};
use lq_update::{Cause, OpenOptions};
use lq_value::{AttrName, Entry, Kind, Name, Refusal, Value};
use lq_volume::Change;
use std::alloc::Global;

/// A name and a node, of an entry in the root.
pub type Row = (&'static str, u64);

/// One call. A change is of an entry in the root, and its attribute is `x`.
pub enum Act {
    Create(&'static str),
    /// A name: this text and the number of changes that the thread has made before.
    CreateNext(&'static str),
    Remove(u64),
    /// A node and its new name.
    Move(u64, &'static str),
    /// A node and a size.
    Write(u64, u64),
    SetAttr(u64, i32),
    RemoveAttr(u64),
    /// A change that is drawn.
    ChangeDrawn,
    /// A query, a port and a backlog. The reader is kept, and the one before it dropped.
    Open(&'static str, u64, u64),
    OpenMoved(&'static str, u64, u64),
    /// An opening that is drawn.
    OpenDrawn,
    /// From here on the seat of the reader makes the calls of a seat, and not the thread's own.
    ByReader,
    /// Right after an opening: what its reader reads is kept, and compared in the end.
    Keep,
    /// A query, and the entries that it has to find.
    Fetch(&'static str, &'static [Row]),
    Find(&'static str),
    /// A node and a name that it has to have.
    Listing(u64, &'static str),
    Latest,
    /// A seat is taken and meets the thread's own. It is kept, and the one before it dropped.
    Seat,
    /// The seat that is kept is given back.
    GiveBack,
    /// As many fetches as another thread takes to come to a read that waits.
    Linger,
    Slot,
    /// Of the reader: the number of changes at its opening.
    Opened,
    /// What the reader has to have.
    Result(&'static [Row]),
    /// Of the reader: whether the last change that it read of is read whole.
    Settled,
    /// Of the reader: the last change that it read of.
    LastChange,
    ReaderLatest,
    /// The seat of the reader and the thread's own meet.
    Meet,
    Read,
    ReadWaiting,
    /// As many reads as are drawn, some after a pump.
    ReadDrawn,
    /// Reads that wait, up to the mark.
    ReadOut,
    Pump,
    Sync,
    HangUp,
    Close,
    Finish,
}

/// What a call answers, or is expected to answer.
#[derive(Clone, Copy, PartialEq)]
pub enum Expected {
    /// Whatever it is, but `NoMemory`.
    Any,
    /// change, node.
    Changed(u64, u64),
    Number(u64),
    /// Whether just the expected entries were found.
    Is(bool),
    /// seq, change, node.
    Update(u64, u64, u64),
    /// seq, change, cause.
    End(u64, u64, Cause),
    /// Why a subscription ended whose parcels were all read.
    Over(Cause),
    Empty,
    Ended,
    /// change, waiting, held.
    Live(u64, u64, u64),
    /// The same of a subscription that ended, and its mark: seq, change, cause.
    Marked(u64, u64, u64, u64, u64, Cause),
    Done,
    /// As `OutOfStep`, which no server answers, where there is no reader or no seat is kept.
    Refused(Refusal),
}

/// A call, and the expected answer.
pub type Call = (Act, Expected);

/// Calls that a thread makes in turn: once, or this many times.
pub enum Table {
    Once(&'static [Call]),
    Times(usize, &'static [Call]),
}

/// What a call answers.
pub type Answer = Result<Expected, Refusal>;

/// Returns whether these are just the entries of the rows, in order.
pub fn are_entries(entries: &[Entry], rows: &[Row]) -> bool {
    for (entry, (name, node)) in entries.iter().zip(rows) {
        if entry.dir != 1 || entry.name.as_str() != *name || entry.node != *node {
            return false;
        }
    }
    entries.len() == rows.len()
}

/// The change that an act asks for, if it asks for one.
pub fn change(alloc: Global, draws: &mut Draws, act: &Act) -> Result<Option<Change>, Refusal> {
    Ok(Some(match act {
        Act::ChangeDrawn => draws.change(alloc)?,
        Act::Create(name) => file(Name::read(alloc, name)?),
        Act::CreateNext(start) => file(numbered(alloc, start, draws.made)?),
        Act::Move(node, name) => Change::Move {
            node: *node,
            dir: 1,
            name: Name::read(alloc, name)?,
            clobber: false,
        },
        Act::Write(node, size) => Change::Write {
            node: *node,
            size: *size,
            time: 60,
        },
        Act::SetAttr(node, value) => Change::SetAttr {
            node: *node,
            attr: AttrName::read(alloc, "x")?,
            value: Value::Int32(*value),
        },
        Act::RemoveAttr(node) => Change::RemoveAttr {
            node: *node,
            attr: AttrName::read(alloc, "x")?,
        },
        Act::Remove(node) => Change::Remove { node: *node },
        _ => return Ok(None),
    }))
}

/// The opening that an act asks for, if it asks for one.
pub fn opening(draws: &mut Draws, act: &Act) -> Option<DrawnOpening> {
    let (query, port, backlog, moved) = match act {
        Act::Open(query, port, backlog) => (*query, *port, *backlog, false),
        Act::OpenMoved(query, port, backlog) => (*query, *port, *backlog, true),
        Act::OpenDrawn => return Some(draws.opening()),
        _ => return None,
    };
    let options = OpenOptions::without_values(port, backlog, moved);
    Some(DrawnOpening { query, options })
}

/// A change that makes an empty file of this name in the root.
pub fn file(name: Name) -> Change {
    Change::Create {
        dir: 1,
        name,
        kind: Kind::File,
        size: 0,
        time: 0,
    }
}

/// Changes that make empty files of these names in the root.
pub fn files(alloc: Global, names: &[&str]) -> Result<Vec<Change>, Refusal> {
    let mut changes = Vec::with_capacity(alloc, names.len())?;
    for name in names {
        changes.push(file(Name::read(alloc, name)?))?;
    }
    Ok(changes)
}
