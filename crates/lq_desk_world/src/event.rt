//! The events of a world: all that a caller may ask of the core, as one type that runs and laws
//! speak of.
ghost use Rattle.std.specs.Prelude.{◌≡◌};

use lq_predicate::Predicate;
use lq_update::OpenOptions;
use lq_volume::Change;

/// One event of the core. Slots count from 1.
#[derive(Drop)]
pub enum Event {
    /// Makes a change of the volume.
    Change(Change),
    /// Opens a live query without messages of values. The port has `port` places, and at most
    /// `backlog` messages are held for it. With `moved`, one message reports an entry that matches
    /// before and after a move.
    Open {
        predicate: Predicate,
        port: u64,
        backlog: u64,
        moved: bool,
    },
    /// Opens a live query with these options: its port, its backlog and its flags.
    OpenBy {
        predicate: Predicate,
        options: OpenOptions,
    },
    /// Moves the next parcel of this slot's subscription into its port.
    Put(u64),
    /// Takes the oldest parcel from this slot's port.
    Take(u64),
    /// Asks for the end of this slot's subscription, as its reader does.
    HangUp(u64),
    /// Ends this slot's subscription if its reader asked for that.
    Notice(u64),
    /// Ends this slot's subscription.
    Close(u64),
    /// Frees this slot, whose mark was taken.
    Finish(u64),
}

/// An act at one slot: an event without the slot's number.
#[derive(Clone, Copy)]
pub enum Act {
    /// Moves the next parcel into the port.
    Put,
    /// Takes the oldest parcel from the port.
    Take,
    /// Asks for the end of the subscription.
    HangUp,
    /// Ends the subscription if that was asked for.
    Notice,
    /// Ends the subscription.
    Close,
    /// Frees the slot, whose mark was taken.
    Finish,
}

impl Act {
    ghost use Rattle.lq_desk_world.specs.Events.{event_at};

    /// The event that does this act at a slot.
    pub fn at(self, slot: u64) -> Event
        ensures { result ≡ event_at slot self }
    {
        match self {
            Act::Put => Event::Put(slot),
            Act::Take => Event::Take(slot),
            Act::HangUp => Event::HangUp(slot),
            Act::Notice => Event::Notice(slot),
            Act::Close => Event::Close(slot),
            Act::Finish => Event::Finish(slot),
        }
    }
}
