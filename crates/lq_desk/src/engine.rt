//! The code of a desk: the volume with the 64 slots, and what each event and each turn does to
//! them.
//!
//! An engine knows no book and no world: `desk` ties it to the world that contracts speak of.
ghost use Rattle.std.specs.Prelude.{◌≡◌, ◌+◌, None, IfOk, OnOk, OnErr, replicate};
ghost use Rattle.lq_value.specs.Refusal.{FailsOnlyForMemory, IsRefusedBy};
ghost use Rattle.lq_volume.specs.Change.{refused, node_of};

use crate::desk_slots::Slots;
use crate::reply::Reply;
use crate::slot::Slot;
use lq_desk_world::{Act, Event};
use lq_predicate::Predicate;
use lq_update::{OpenOptions, steps_are_few};
use lq_value::{MAX_BACKLOG, MAX_PLACES, Refusal};
use lq_volume::{Applied, Change, Volume, changes_are_counted};
use std::alloc::Global;
use std::marker::Model;

/// The volume, the slots, and the number of openings so far.
///
/// Contracts see it as the state that it keeps (`DeskState`).
pub struct Engine {
    volume: Volume,
    openings: u64,
    alloc: Global,
    slots: Slots,
}

impl Drop for Engine {
    fn drop(self) {
        let Engine {
            volume: _,
            openings: _,
            alloc: _,
            slots: _,
        } = self;
    }
}

impl Model for Engine {
    ghost use Rattle.std.specs.Prelude.{map};
    ghost use Rattle.std.specs.Option.{option_map};
    ghost use Rattle.lq_desk.specs.DeskState.{DeskState, IsKept};
    ghost use Rattle.lq_desk.specs.Slot.{slot_of};
    ghost use Rattle.std.specs.Coded.{codes};
    ghost use Rattle.lq_predicate.specs.QueryCode.{coded_query};

    ghost Value = { DeskState };

    ghost coded = { Prim.hlevel (codes, coded_query) };

    ghost view = { λ d. record {
      volume = d.volume;
      openings = d.openings;
      slots = map (option_map slot_of) d.slots;
    } };

    ghost invariant = { λ d. IsKept (record {
      volume = d.volume;
      openings = d.openings;
      slots = map (option_map slot_of) d.slots;
    }) };
}

impl Engine {
    ghost use Rattle.lq_volume.specs.Result.{result_of};
    ghost use Rattle.lq_desk_world.specs.Events.{Opened};
    ghost use Rattle.lq_desk.specs.Slot.{fresh_slot};
    ghost use Rattle.lq_desk.specs.DeskState.{KeptStep, changed, opened, opening_refusal, kept_act};
    ghost use Rattle.lq_desk_world.specs.World.{taken_before_free};
    ghost use Rattle.lq_desk.specs.Reply.{answer_of};
    ghost use Rattle.lq_desk.specs.KeptTurn.{TurnStep};
    ghost use Rattle.lq_desk.specs.Ready.{TellsParcels};

    /// One over a volume, with 64 free slots. Refused: `NoMemory`.
    pub fn new(alloc: Global, volume: Volume) -> Result<Engine, Refusal>
        ensures refused { FailsOnlyForMemory result }
        ensures kept { IfOk result (λ engine. engine ≡
            record { volume = volume; openings = 0; slots = replicate 64 None }) }
    {
        Ok(Engine {
            volume,
            openings: 0,
            alloc,
            slots: Slots::new(alloc)?,
        })
    }

    /// The volume as it is now. It takes no memory.
    pub fn volume(&self) -> &Volume
        ensures { result.now ≡ self.now.volume }
    {
        &self.volume
    }

    /// Carries out one event and answers it.
    pub fn answer_event(&mut self, event: &Event) -> Reply
        ensures { KeptStep self.old event.now (answer_of result) self.new }
    {
        let (slot, act) = match event {
            Event::Change(change) => {
                return match self.change(change) {
                    Ok(applied) => Reply::Changed(applied),
                    Err(refusal) => Reply::Refused(refusal),
                };
            }
            Event::Open {
                predicate,
                port,
                backlog,
                moved,
            } => {
                let options = OpenOptions::without_values(*port, *backlog, *moved);
                return match self.open(predicate, &options) {
                    Ok(reply) => reply,
                    Err(refusal) => Reply::Refused(refusal),
                };
            }
            Event::OpenBy { predicate, options } => {
                return match self.open(predicate, options) {
                    Ok(reply) => reply,
                    Err(refusal) => Reply::Refused(refusal),
                };
            }
            Event::Put(slot) => (*slot, Act::Put),
            Event::Take(slot) => (*slot, Act::Take),
            Event::HangUp(slot) => (*slot, Act::HangUp),
            Event::Notice(slot) => (*slot, Act::Notice),
            Event::Close(slot) => (*slot, Act::Close),
            Event::Finish(slot) => (*slot, Act::Finish),
        };
        let number = self.volume.changes();
        self.slots.act(slot, act, number)
    }

    // Makes a change and notifies each live query. It first makes the messages, which may fail for
    // lack of memory, then makes the change, then commits the messages.
    fn change(&mut self, change: &Change) -> Result<Applied, Refusal>
        ensures refused { IsRefusedBy result (refused self.old.volume change.now) }
        ensures value { IfOk result (λ applied. applied ≡ record {
          change = self.old.volume.number + 1;
          node = node_of self.old.volume change.now;
        }) }
        ensures ok { OnOk result (self.new ≡ changed self.old change.now) }
        ensures err { OnErr result (self.new ≡ self.old) }
    {
        steps_are_few();
        changes_are_counted();
        let _ = self.volume.changes();
        let planned = self.volume.plan(change)?;
        let resolved = planned.resolved();
        let prepared = self.slots.prepare(&planned)?;
        let applied = self.volume.make(change, &resolved)?;
        self.slots.commit(prepared);
        Ok(applied)
    }

    // Opens a live query in the lowest free slot.
    fn open(&mut self, predicate: &Predicate, options: &OpenOptions) -> Result<Reply, Refusal>
        ensures refused { IsRefusedBy result
            (opening_refusal self.old options.now.port options.now.backlog) }
        ensures reply { IfOk result (λ reply. answer_of reply ≡
            Opened (taken_before_free self.old.slots + 1) self.old.volume.number
            (result_of predicate.now self.old.volume)) }
        ensures ok { OnOk result (self.new ≡ opened self.old
            (fresh_slot predicate.now self.old.volume.number options.now)) }
        ensures err { OnErr result (self.new ≡ self.old) }
    {
        if options.port < 1 || options.port > MAX_PLACES {
            return Err(Refusal::BadPort);
        }
        if options.backlog > MAX_BACKLOG {
            return Err(Refusal::BadBacklog);
        }
        let Some(index) = self.slots.lowest_free() else {
            return Err(Refusal::NoSlot);
        };
        if self.volume.limit() <= self.openings {
            return Err(Refusal::Exhausted);
        }
        let at = self.volume.changes();
        let result = self.volume.fetch(predicate)?;
        let slot = Slot::new(self.alloc, predicate, at, options)?;
        self.slots.open(index, slot);
        self.openings += 1;
        Ok(Reply::Opened {
            slot: index.number(),
            at,
            result,
        })
    }

    /// Carries out a turn and answers its event.
    #[inline(always)]
    pub fn carry_out_turn(&mut self, event: &Event) -> Reply
        ensures { TurnStep self.old event.now (answer_of result) self.new }
    {
        let number = self.volume.changes();
        match event {
            Event::Change(_) => {
                self.slots.notice_all(number);
                let reply = self.answer_event(event);
                self.slots.fill_all();
                reply
            }
            Event::Take(slot) => self.slots.read(*slot, number),
            Event::Close(slot) => self.slots.close(*slot, number),
            Event::Open { .. }
            | Event::OpenBy { .. }
            | Event::Put(_)
            | Event::HangUp(_)
            | Event::Notice(_)
            | Event::Finish(_) => self.answer_event(event),
        }
    }

    /// Which slots have something to read, as a word with a bit for each slot.
    pub fn readable_slots(&self) -> u64
        ensures { TellsParcels self.now result }
    {
        self.slots.readable_slots()
    }
}
