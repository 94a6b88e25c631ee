//! What a line asks: an event of the core, or a look at the volume or at a rebuilt result.
use lq_desk_world::Event;
use lq_predicate::Predicate;
use lq_value::Name;

/// The request of a line, with its values read.
#[derive(Drop)]
pub enum Request {
    /// An event of the core.
    Event(Event),
    /// A look, which changes nothing.
    Look(Look),
}

/// A look at the volume, or at what was read from a slot.
#[derive(Drop)]
pub enum Look {
    /// The node at a place.
    Find { dir: u64, name: Name },
    /// The whole entry of a node.
    Entry { node: u64 },
    /// The entries that match a predicate.
    Fetch { predicate: Predicate },
    /// The result of a slot, rebuilt from what was read from it.
    Rebuilt { slot: u64 },
}
