//! The runner of a script's lines: it carries out each. Clauses tie each reply to its line
//! (`Replies`), but for what a read gives and what a slot's other lines are answered.
ghost use Rattle.std.specs.Prelude.{◌≡◌, ◌⊎◌, ◌+◌, ◌<◌, [], ◌∷◌, length, drop, IfErr, IfOk, IfSome, OnOk, Ok, Err, true, false, ◌≢◌};
ghost use Rattle.lq_value.specs.declared.refusal.Refusal.TheVariants.{NoMemory};
ghost use Rattle.lq_desk_world.specs.declared.event.Event.TheVariants as events;
ghost use Rattle.lq_script_request.specs.declared.request.Request.TheVariants as requests;
ghost use Rattle.lq_script.specs.Asked.{asked_by, asked_by_all, asked_reads};
ghost use Rattle.lq_script.specs.Progress.{Carries, standing_of_seat};

use crate::gate::Gate;
use crate::server_session::ServerSession;
use lq_script_desk::{Output, Response};
use lq_script_lines::{RunFault, Sink, first_lf};
use lq_script_request::{Event, Request, Scratch, request_in};
use lq_server::{Named, OwnSeat};
use lq_value::Refusal;
use std::alloc::Global;
use std::sync::Wait;
use std::thread::Threads;

/// The most reads of a batch.
const MAX_READS: usize = 1_024;

/// Carries out the lines that `Lines` gives, and writes the reply to each.
#[derive(Drop)]
pub struct Runner<'s, 'w, E: 's, N: Named, R, G, W> {
    alloc: Global,
    session: ServerSession<'s, E, N, R, G>,
    /// What it writes.
    pub output: Output<'w, W>,
    // What the reading of a line takes, kept from line to line.
    scratch: Scratch,
    slots: Vec<u64>,
}

impl<
    's,
    'w,
    E: 's,
    N: Named + Send + Sync + 's,
    R: Threads + Wait + Sync,
    G: Gate + Sync + 's,
    W: Sink,
> Runner<'s, 'w, E, N, R, G, W> {
    /// A runner of a session's lines, before the first line.
    pub fn new(
        alloc: Global,
        session: ServerSession<'s, E, N, R, G>,
        writer: &'w mut W,
    ) -> Runner<'s, 'w, E, N, R, G, W>
        ensures same { result.output.writer.ghost_name ≡ writer.entry.ghost_name }
        ensures writer { result.output.writer.now ≡ writer.old }
        ensures seat { result.session.seat ≡ session.entry.seat }
        ensures empty { result.output.replies.items ≡ [] }
        ensures no_reads { result.slots.items ≡ [] }
    {
        Runner {
            alloc,
            session,
            output: Output::new(alloc, writer),
            scratch: Scratch::new(alloc),
            slots: Vec::new(alloc),
        }
    }

    /// Carries out these lines, each with its LF, and writes all their replies.
    ///
    /// Refused: `Write` where the writer failed or took none of the bytes given, `Memory`.
    pub fn answer_lines(&mut self, lines: &[u8]) -> Result<(), RunFault>
        ensures same { self.new.output.writer.ghost_name ≡ self.old.output.writer.ghost_name }
        ensures cause { IfErr result (λ e. e ≡ RunFault.Write →
            (W.failed self.new.output.writer.now ≡ true)
            ⊎ (W.stalled self.new.output.writer.now ≡ true)) }
        ensures carried { Carries (asked_by_all lines.now) result
            (standing_of_seat self.old.session.seat (W.written self.old.output.writer.now)
            self.old.output.replies.items self.old.slots.items)
            (standing_of_seat self.new.session.seat (W.written self.new.output.writer.now)
            self.new.output.replies.items self.new.slots.items) }
        ensures empty { OnOk result (self.new.output.replies.items ≡ []) }
        ensures no_reads { OnOk result (self.new.slots.items ≡ []) }
    {
        let mut rest = lines;
        while let Some(count) = first_lf(rest) {
            self.take_line(&rest[..count])?;
            rest = after(rest, count);
        }
        self.end_batch()?;
        self.output.write_replies()
    }

    /// Ends the threads of all slots; its seat and its writer.
    pub fn end(self) -> (OwnSeat<N>, &'w mut W)
        ensures seat { result.0 ≡ self.entry.session.seat }
        ensures same { result.1.ghost_name ≡ self.entry.output.writer.ghost_name }
        ensures writer { result.1.now ≡ self.entry.output.writer.now }
    {
        let Runner {
            alloc: _,
            session,
            output,
            scratch: _,
            slots: _,
        } = self;
        (session.end(), output.into_writer())
    }

    // A read joins the batch; any other line ends it, and is carried out.
    fn take_line(&mut self, line: &[u8]) -> Result<(), RunFault>
        ensures same { self.new.output.writer.ghost_name ≡ self.old.output.writer.ghost_name }
        ensures cause { IfErr result (λ e. e ≡ RunFault.Write →
            (W.failed self.new.output.writer.now ≡ true)
            ⊎ (W.stalled self.new.output.writer.now ≡ true)) }
        ensures carried { Carries (asked_by line.now ∷ []) result
            (standing_of_seat self.old.session.seat (W.written self.old.output.writer.now)
            self.old.output.replies.items self.old.slots.items)
            (standing_of_seat self.new.session.seat (W.written self.new.output.writer.now)
            self.new.output.replies.items self.new.slots.items) }
    {
        match asked_by(self.alloc, &mut self.scratch, line) {
            Ok(request) => self.take_request(&request),
            Err(refusal) => {
                if is_memory(refusal) {
                    return Err(RunFault::Memory);
                }
                self.end_batch()?;
                self.output.put(&Response::Refused(refusal))
            }
        }
    }

    fn take_request(&mut self, request: &Request) -> Result<(), RunFault>
        ensures same { self.new.output.writer.ghost_name ≡ self.old.output.writer.ghost_name }
        ensures cause { IfErr result (λ e. e ≡ RunFault.Write →
            (W.failed self.new.output.writer.now ≡ true)
            ⊎ (W.stalled self.new.output.writer.now ≡ true)) }
        ensures carried { Carries (Ok request.now ∷ []) result
            (standing_of_seat self.old.session.seat (W.written self.old.output.writer.now)
            self.old.output.replies.items self.old.slots.items)
            (standing_of_seat self.new.session.seat (W.written self.new.output.writer.now)
            self.new.output.replies.items self.new.slots.items) }
    {
        if let Some(slot) = slot_of_read(request) {
            return self.put_read(slot);
        }
        self.end_batch()?;
        match self.session.answer(request) {
            Ok(response) => self.output.put(&response),
            Err(refusal) => {
                if is_memory(refusal) {
                    return Err(RunFault::Memory);
                }
                self.output.put(&Response::Refused(refusal))
            }
        }
    }

    fn put_read(&mut self, slot: u64) -> Result<(), RunFault>
        ensures same { self.new.output.writer.ghost_name ≡ self.old.output.writer.ghost_name }
        ensures cause { IfErr result (λ e. e ≡ RunFault.Write →
            (W.failed self.new.output.writer.now ≡ true)
            ⊎ (W.stalled self.new.output.writer.now ≡ true)) }
        ensures carried { Carries (asked_reads (slot ∷ [])) result
            (standing_of_seat self.old.session.seat (W.written self.old.output.writer.now)
            self.old.output.replies.items self.old.slots.items)
            (standing_of_seat self.new.session.seat (W.written self.new.output.writer.now)
            self.new.output.replies.items self.new.slots.items) }
    {
        if self.slots.push(slot).is_err() {
            return Err(RunFault::Memory);
        }
        if self.slots.len() < MAX_READS {
            return Ok(());
        }
        self.end_batch()
    }

    // Carries out the reads that wait, and writes their replies.
    fn end_batch(&mut self) -> Result<(), RunFault>
        ensures same { self.new.output.writer.ghost_name ≡ self.old.output.writer.ghost_name }
        ensures cause { IfErr result (λ e. e ≡ RunFault.Write →
            (W.failed self.new.output.writer.now ≡ true)
            ⊎ (W.stalled self.new.output.writer.now ≡ true)) }
        ensures carried { Carries [] result
            (standing_of_seat self.old.session.seat (W.written self.old.output.writer.now)
            self.old.output.replies.items self.old.slots.items)
            (standing_of_seat self.new.session.seat (W.written self.new.output.writer.now)
            self.new.output.replies.items self.new.slots.items) }
        ensures no_reads { OnOk result (self.new.slots.items ≡ []) }
    {
        if self.slots.is_empty() {
            return Ok(());
        }
        let appended = self.session.read(&self.slots, &mut self.output.replies);
        self.slots.clear();
        match appended {
            Ok(()) => self.output.write_replies(),
            Err(_) => Err(RunFault::Memory),
        }
    }
}

// What comes after the byte at this place.
fn after(bytes: &[u8], place: usize) -> &[u8]
    requires { place < length bytes.now }
    ensures rest { result.now ≡ drop (place + 1) bytes.now }
    ensures shorter { length result.now + (place + 1) ≡ length bytes.now }
{
    &bytes[place + 1..]
}

// The request of a line, which is empty where the line was too long. Refused as the line is.
fn asked_by(alloc: Global, scratch: &mut Scratch, line: &[u8]) -> Result<Request, Refusal>
    ensures value { IfOk result (λ request. asked_by line.now ≡ Ok request) }
    ensures refused { IfErr result (λ e. (e ≡ NoMemory) ⊎ (asked_by line.now ≡ Err e)) }
{
    if line.is_empty() {
        return Err(Refusal::LongLine);
    }
    request_in(alloc, scratch, line)
}

// Whether memory was wanting.
fn is_memory(refusal: Refusal) -> bool
    ensures yes { result ≡ true → refusal ≡ NoMemory }
    ensures no { result ≡ false → refusal ≢ NoMemory }
{
    match refusal {
        Refusal::NoMemory => true,
        _ => false,
    }
}

// The slot of a read; `None` of any other request.
fn slot_of_read(request: &Request) -> Option<u64>
    ensures read { IfSome result (λ slot. request.now ≡ requests.Event (events.Take slot)) }
{
    match request {
        Request::Event(Event::Take(slot)) => Some(*slot),
        _ => None,
    }
}
