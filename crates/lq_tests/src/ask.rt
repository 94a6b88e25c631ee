//! Events whose parts stand in a table, and what their answers are told as.
use crate::act::{Act, setting};
use lq_desk::{Event, Read, Reply};
use lq_predicate::read;
use lq_update::{Cause, Message, Opcode};
use lq_value::{Refusal, Value, View};
use std::alloc::Global;

/// An event of a table. One that sets an attribute sets it at node 2.
pub enum Ask {
    /// A live query: formula, port, backlog, `moved`.
    Open(&'static str, u64, u64, bool),
    Change(Act),
    /// An attribute's name and its value.
    Set(&'static str, View<'static>),
    /// A slot and an act at it.
    At(u64, lq_desk_world::Act),
}

/// The value of a view.
pub fn value(alloc: Global, view: &View<'_>) -> Result<Value, Refusal> {
    match view {
        View::Text(text) => Value::text(alloc, text),
        View::Int32(number) => Ok(Value::Int32(*number)),
        View::Int64(number) => Ok(Value::Int64(*number)),
        View::UInt32(number) => Ok(Value::UInt32(*number)),
        View::UInt64(number) => Ok(Value::UInt64(*number)),
    }
}

/// The event itself.
pub fn event(alloc: Global, ask: &Ask) -> Result<Event, Refusal> {
    match ask {
        Ask::Open(formula, port, backlog, moved) => Ok(Event::Open {
            predicate: read(alloc, formula)?,
            port: *port,
            backlog: *backlog,
            moved: *moved,
        }),
        Ask::Change(act) => Ok(Event::Change(act.change(alloc)?)),
        Ask::Set(attr, view) => {
            let value = value(alloc, view)?;
            Ok(Event::Change(setting(alloc, 2, attr, value)?))
        }
        Ask::At(slot, act) => Ok(act.at(*slot)),
    }
}

/// Whether a message in the root is as wanted: its operation, its name, and whether more follow.
fn is_message(message: &Message, wanted: &str) -> bool {
    let wanted = match message.op {
        Opcode::Created => wanted.strip_prefix("U+ "),
        Opcode::Removed => wanted.strip_prefix("U- "),
        _ => None,
    };
    let name = match wanted {
        Some(name) if message.last => Some(name),
        Some(name) => name.strip_suffix(".."),
        None => None,
    };
    name == Some(message.name.as_str()) && message.dir == 1
}

/// Whether an event has this answer, with its numbers.
pub fn is_told(reply: &Reply, wanted: &str, numbers: (u64, u64, u64)) -> bool {
    let (told, one, two, three) = match reply {
        Reply::Changed(applied) => ("Changed", applied.change, applied.node, 0),
        Reply::Opened { slot, at, result } => ("Opened", *slot, *at, result.len() as u64),
        Reply::Moved(true) => ("Moved", 0, 0, 0),
        Reply::Moved(false) => ("Stayed", 0, 0, 0),
        Reply::Took(Read::Update(message)) => {
            if !is_message(message, wanted) {
                return false;
            }
            (wanted, message.seq, message.change, message.node)
        }
        Reply::Took(Read::Fin(mark)) => match mark.cause {
            Cause::Closed => ("Closed", mark.seq, mark.change, 0),
            Cause::HungUp => ("HungUp", mark.seq, mark.change, 0),
            Cause::Overrun => ("Overrun", mark.seq, mark.change, 0),
        },
        Reply::Took(Read::Empty) => ("Empty", 0, 0, 0),
        Reply::Took(Read::Ended) => ("Ended", 0, 0, 0),
        Reply::Asked => ("Asked", 0, 0, 0),
        Reply::Noticed(true) => ("Noticed", 0, 0, 0),
        Reply::Noticed(false) => ("Unasked", 0, 0, 0),
        Reply::Shut(change) => ("Shut", *change, 0, 0),
        Reply::Finished => ("Finished", 0, 0, 0),
        Reply::Refused(refusal) => (refusal.name(), 0, 0, 0),
    };
    told == wanted && one == numbers.0 && two == numbers.1 && three == numbers.2
}
