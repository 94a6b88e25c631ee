//! The desk that a caller has: an engine, with the world that contracts speak of.
//!
//! The engine does the work. The world is a book of changes and the subscriptions over it, which no
//! code holds; each call here says which world comes next, and that the engine keeps what it shows.
ghost use Rattle.std.specs.Prelude.{◌≡◌, ◌⊎◌, [], IfOk, OnErr, map};
ghost use Rattle.lq_value.specs.Refusal.{FailsOnlyForMemory};
ghost use Rattle.lq_value.specs.declared.refusal.Refusal.{Refusal};
ghost use Rattle.lq_value.specs.declared.refusal.Refusal.TheVariants.{NoMemory};
ghost use Rattle.lq_volume.specs.Book.{state_of};
ghost use Rattle.lq_volume.specs.State.{IsVolume};
ghost use Rattle.lq_desk_world.specs.Events.{Refused};
ghost use Rattle.lq_desk_world.specs.Fair.{IsFairWorld};
ghost use Rattle.lq_desk_world.specs.Headline.{ReadersAreTold};
ghost use Rattle.lq_desk_world.specs.Runs.{Run, Step};
ghost use Rattle.lq_desk_world.specs.Turns.{turn_outcome};
ghost use Rattle.lq_desk_world.specs.World.{first_world};
ghost use Rattle.lq_desk.specs.Ready.{TellsReady};
ghost use Rattle.lq_desk.specs.Reply.{answer_of};
ghost use Rattle.lq_desk.specs.Turn.{TurnRuns};

use crate::engine::Engine;
use crate::laws::kept_shows_worlds;
use crate::reply::Reply;
use crate::witness::Witness;
use lq_desk_world::{Event, first_worlds_are_fair, readers_are_told, refusals_leave_worlds};
use lq_value::Refusal;
use lq_volume::Volume;
use std::alloc::Global;
use std::marker::Model;

/// The volume and its live queries with their ports; it takes one event at a time.
///
/// Contracts see it as a world of lq_desk_world: a book of changes, and the subscriptions over it.
/// No code holds that world. What a desk keeps is what it would keep for that world (`Shows`).
///
/// ```rattle
/// use lq_desk::{Desk, Event, Read, Reply};
/// use lq_predicate::read;
/// use lq_volume::Volume;
///
/// let mut desk = Desk::new(alloc, Volume::new(alloc, 1000))?;
/// let open = Event::Open {
///     predicate: read(alloc, "size>100")?,
///     port: 4,
///     backlog: 16,
///     moved: false,
/// };
/// assert!(rt; matches!(desk.turn(&open), Reply::Opened { slot: 1, .. }));
/// assert!(rt; matches!(desk.turn(&Event::Take(1)), Reply::Took(Read::Empty)));
/// ```
pub struct Desk {
    alloc: Global,
    engine: Engine,
    witness: Witness,
}

impl Drop for Desk {
    fn drop(self) {
        let Desk {
            alloc: _,
            engine: _,
            witness: _,
        } = self;
    }
}

impl Model for Desk {
    ghost use Rattle.lq_desk_world.specs.World.{World};
    ghost use Rattle.lq_desk.specs.DeskState.{Shows};
    ghost use Rattle.std.specs.Coded.{codes};
    ghost use Rattle.lq_predicate.specs.QueryCode.{coded_query};

    ghost Value = { World };

    ghost coded = { Prim.hlevel (codes, coded_query) };

    ghost view = { λ d. d.witness.world };

    ghost invariant = { λ d. Shows d.engine d.witness.world };
}

impl Desk {
    /// A desk over a volume, with 64 free slots. Refused: `NoMemory`.
    pub fn new(alloc: Global, volume: Volume) -> Result<Desk, Refusal>
        ensures refused { FailsOnlyForMemory result }
        ensures world { IfOk result (λ desk. desk
            ≡ first_world (record { start = volume; changes = [] })) }
    {
        first_worlds_are_fair();
        let witness = Witness::start(&volume);
        Ok(Desk {
            alloc,
            engine: Engine::new(alloc, volume)?,
            witness,
        })
    }

    /// The volume as it is now: the one that the world's book leads to. It takes no memory.
    pub fn volume(&self) -> &Volume
        ensures volume { result.now ≡ state_of self.now.book }
        ensures fair { IsFairWorld self.now }
    {
        self.engine.volume()
    }

    /// Carries out one event and answers it.
    ///
    /// A change is refused as by `Volume::apply`. An opening is refused with the first that fits of
    /// `BadPort`, `BadBacklog`, `NoSlot`, `Exhausted`, `NoMemory`; an act at a free slot, and the
    /// close of a subscription that has ended, with `NotOpen`; the finish of a slot whose mark
    /// wasn't read with `StillOpen`. A refused event changes nothing. Only a change and an opening
    /// take memory.
    pub fn event(&mut self, event: &Event) -> Reply
        ensures world { Step self.old event.now (answer_of result) self.new }
        ensures refused { (refusal : Refusal) → answer_of result ≡ Refused refusal
            → self.new ≡ self.old }
    {
        kept_shows_worlds();
        refusals_leave_worlds();
        let reply = self.engine.answer_event(event);
        self.witness = Witness::step(&self.witness, event, &reply);
        reply
    }

    /// Carries out events in order and answers each.
    ///
    /// Refused: `NoMemory`, before any event. The messages read of each subscription that these
    /// events open are a prefix of its update list, and its mark comes after all of it up to the
    /// mark's change. Where settled, and before the mark, they fold to the query's result.
    pub fn run(&mut self, events: &[Event]) -> Result<Vec<Reply>, Refusal>
        ensures refused { FailsOnlyForMemory result }
        ensures run { IfOk result (λ replies.
            Run self.old events.now (map answer_of replies.items) self.new) }
        ensures readers { IfOk result (λ replies. ReadersAreTold (state_of self.old.book)
            events.now (map answer_of replies.items)) }
        ensures volume { IsVolume (state_of self.old.book) }
        ensures err { OnErr result (self.new ≡ self.old) }
    {
        readers_are_told();
        let _ = self.volume().changes();
        let mut replies = Vec::with_capacity(self.alloc, events.len())?;
        for event in events {
            let reply = self.event(event);
            replies.push_reserved(reply);
        }
        Ok(replies)
    }

    /// Carries out one event with all that belongs to its turn, and answers the event.
    ///
    /// A change comes after the notices of all taken slots, and each port is filled after it; a
    /// read comes after the notice of its slot, and after its port was filled; a close comes
    /// after the notice of its slot, whose port is filled after it. Any other event comes alone.
    /// The event is refused as `event` refuses it, and the rest of its turn stands.
    pub fn turn(&mut self, event: &Event) -> Reply
        ensures outcome { (answer_of result ≡ Refused NoMemory)
            ⊎ ((answer_of result, self.new) ≡ turn_outcome self.old event.now) }
        ensures run { TurnRuns self.old event.now (answer_of result) self.new }
    {
        kept_shows_worlds();
        refusals_leave_worlds();
        let reply = self.engine.carry_out_turn(event);
        self.witness = Witness::turn(&self.witness, event, &reply);
        reply
    }

    /// Which slots have something to read: a word with a bit for each slot, for slot k the one at
    /// k - 1. A bit is set just where `turn` of a read would give a message or the mark. It takes
    /// no memory.
    pub fn ready(&self) -> u64
        ensures { TellsReady self.now result }
    {
        kept_shows_worlds();
        self.engine.readable_slots()
    }
}
