//! A script's session, which answers lines: a desk, and the rebuilt result of each slot.
ghost use Rattle.std.specs.Prelude.{◌≡◌, ◌++◌, IfErr, OnOk, OnErr};
ghost use Rattle.lq_value.specs.Refusal.{FailsOnlyForMemory};
ghost use Rattle.lq_value.specs.declared.refusal.Refusal.TheVariants.{NoMemory};
ghost use Rattle.lq_desk_world.specs.Turns.{turn_outcome};
ghost use mathlib.Core.List.{IsPrefix};
ghost use Rattle.lq_script_desk.specs.Response.{Refuses};
ghost use Rattle.lq_script_desk.specs.Reply.{reply_text};
ghost use Rattle.lq_script_desk.specs.Answered.{answered_event, look_response, slot_named};
ghost use Rattle.lq_script_desk.specs.Keeps.{keeps};
ghost use Rattle.lq_script_desk.specs.Session.{session_with};
ghost use Rattle.lq_script_desk.specs.Turned.{Turned};
ghost use Rattle.lq_desk_world.specs.Events.{Answer};

mod typed;

use crate::rebuilds::{fold_reply, folded_slot, put};
use crate::reply_text::{put_event_reply, put_reply};
use crate::response::Response;
use lq_desk::{Desk, Event, Reply};
use lq_desk_sub::SlotTable;
use lq_script_lines::Responder;
use lq_script_request::{Look, Request, Scratch, request_in};
use lq_update::{IndexedRebuild, results_rise};
use lq_value::Refusal;
use std::alloc::Global;

/// A desk, and the rebuilt result of each slot; together they answer the lines of a script.
pub struct Session {
    alloc: Global,
    desk: Desk,
    rebuilds: SlotTable<IndexedRebuild>,
    // The scratch for reading lines, reused from line to line.
    scratch: Scratch,
}

impl Drop for Session {
    fn drop(self) {
        let Session {
            alloc: _,
            desk: _,
            rebuilds: _,
            scratch: _,
        } = self;
    }
}

impl Session {
    /// A session over a desk and the rebuilt results of its slots. It takes no memory.
    pub fn new(alloc: Global, desk: Desk, rebuilds: SlotTable<IndexedRebuild>) -> Session
        ensures desk { result.desk ≡ desk }
        ensures rebuilds { result.rebuilds ≡ rebuilds }
    {
        Session {
            alloc,
            desk,
            rebuilds,
            scratch: Scratch::new(alloc),
        }
    }

    // Carries out an event, updates its slot's result by the reply, and appends the reply to `out`.
    // Where memory runs out for the result, the slot is left without one.
    fn write_answer(&mut self, event: &Event, out: &mut Vec<u8>) -> Result<(), Refusal>
        ensures ok { OnOk result (out.new.items ≡ out.old.items
            ++ reply_text (answered_event (slot_named event.now) self.old.rebuilds
            (turn_outcome self.old.desk event.now)).0) }
        ensures after { OnOk result (session_with self.new.desk self.new.rebuilds ≡
            (answered_event (slot_named event.now) self.old.rebuilds
            (turn_outcome self.old.desk event.now)).1) }
        ensures err { OnErr result (IsPrefix out.old.items out.new.items) }
        ensures memory { IfErr result (λ e. e ≡ NoMemory) }
        ensures turned { (a : Answer) × Turned (keeps self.old) (keeps self.new) event.now a
            × OnOk result (a ≡ (turn_outcome self.old.desk event.now).0) }
    {
        // Two calls for what they prove: a result rises by node, and the desk's volume is a tree.
        results_rise();
        let _ = self.desk.volume().changes();
        let reply = self.desk.turn(event);
        if let Reply::Refused(Refusal::NoMemory) = &reply {
            return Err(Refusal::NoMemory);
        }
        let slot = slot_of(event);
        if fold_reply(self.alloc, &mut self.rebuilds, slot, &reply).is_err() {
            put(&mut self.rebuilds, folded_slot(slot, &reply), None);
            return Err(Refusal::NoMemory);
        }
        put_event_reply(out, slot, &reply)
    }

    // Appends the response to a look to `out`.
    #[inline(never)]
    fn put_look(&self, look: &Look, out: &mut Vec<u8>) -> Result<(), Refusal>
        ensures refused { FailsOnlyForMemory result }
        ensures ok { OnOk result (out.new.items ≡ out.old.items
            ++ reply_text (look_response (keeps self.now) look.now)) }
        ensures err { OnErr result (IsPrefix out.old.items out.new.items) }
    {
        let response = self.look(look);
        if let Response::Refused(Refusal::NoMemory) = &response {
            return Err(Refusal::NoMemory);
        }
        put_reply(out, &response)
    }
}

// The slot that an event names, or 0.
fn slot_of(event: &Event) -> u64
    ensures { result ≡ slot_named event.now }
{
    match event {
        Event::Change(_) | Event::Open { .. } | Event::OpenBy { .. } => 0,
        Event::Put(slot)
        | Event::Take(slot)
        | Event::HangUp(slot)
        | Event::Notice(slot)
        | Event::Close(slot)
        | Event::Finish(slot) => *slot,
    }
}

// Appends a refusal of a line to `out`. This and `put_look` are separate functions: a call clears
// places for its values, and most lines are events.
#[inline(never)]
fn put_refusal(out: &mut Vec<u8>, refusal: Refusal) -> Result<(), Refusal>
    ensures refused { FailsOnlyForMemory result }
    ensures ok { OnOk result
        (out.new.items ≡ out.old.items ++ reply_text (Refuses refusal)) }
    ensures err { OnErr result (IsPrefix out.old.items out.new.items) }
{
    put_reply(out, &Response::Refused(refusal))
}

impl Responder for Session {
    ghost use Rattle.lq_script_desk.specs.Session as spec;
    ghost use Rattle.lq_script_desk.specs.Script.{world_rules};
    ghost use Rattle.std.specs.Result.{result_ok};
    ghost use Rattle.lq_script_desk.specs.Turned.{TurnedByLine};
    ghost use Rattle.lq_script_request.specs.Request.{request_in};

    ghost State = { spec.Session };

    ghost state = { λ s. session_with s.desk s.rebuilds };

    ghost rules = { world_rules };

    // The trait's clauses, and the turn.
    fn respond(&mut self, line: &[u8], out: &mut Vec<u8>) -> Result<(), Refusal>
        ensures ok { OnOk result (out.new.items ≡ out.old.items ++ world_rules.reply
            (session_with self.old.desk self.old.rebuilds) line.now) }
        ensures after { OnOk result (session_with self.new.desk self.new.rebuilds
            ≡ world_rules.after (session_with self.old.desk self.old.rebuilds) line.now) }
        ensures err { OnErr result (IsPrefix out.old.items out.new.items) }
        ensures memory { IfErr result (λ e. e ≡ NoMemory) }
        ensures turned { TurnedByLine (keeps self.old) (keeps self.new) result
            (result_ok (request_in line.now)) }
    {
        match request_in(self.alloc, &mut self.scratch, line) {
            Ok(request) => match &request {
                Request::Event(event) => self.write_answer(event, out),
                Request::Look(look) => self.put_look(look, out),
            },
            Err(Refusal::NoMemory) => Err(Refusal::NoMemory),
            Err(refusal) => put_refusal(out, refusal),
        }
    }

    fn respond_long(&self, out: &mut Vec<u8>) -> Result<(), Refusal> {
        put_refusal(out, Refusal::LongLine)
    }
}
