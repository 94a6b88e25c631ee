//! The replies to lines, by a server's public calls. Contracts say which changes they report. If a
//! seat made all changes that it knows, its reply to a change, or to a look at the volume, is the
//! one that the script's world has (`Answers`).
ghost use Rattle.std.specs.Prelude.{◌≡◌, [], ◌∷◌, length, IfOk, IfErr, OnOk, OnErr, Ok};
ghost use Rattle.lq_value.specs.Refusal.{FailsOnlyForMemory};
ghost use Rattle.lq_server.specs.Made.{MakesMore};
ghost use Rattle.lq_script_desk.specs.Answer.{response_of};
ghost use Rattle.lq_script_request.specs.declared.request.Request.TheVariants as asked;
ghost use Rattle.lq_desk_world.specs.declared.event.Event.TheVariants as events;
ghost use Rattle.lq_script.specs.Answers.{Answers, AnswersRefusal};
ghost use Rattle.lq_script.specs.Changes.{change_told};
ghost use Rattle.lq_script.specs.Progress.{AppendsReads};

use crate::batch::{ReadTask, read_beside};
use crate::gate::Gate;
use crate::reader_table::ReaderTable;
use crate::workers::Workers;
use lq_script_desk::{Reply, Response};
use lq_script_request::{Event, Look, Request};
use lq_server::{Named, OpenOptions, OwnSeat, Server};
use lq_value::Refusal;
use lq_volume::{Change, changes_are_counted};
use std::alloc::Global;
use std::sync::Wait;
use std::thread::Threads;

/// A seat and the readers at a server, that answer the lines of a script.
#[derive(Drop)]
pub struct ServerSession<'s, E: 's, N: Named, R, G> {
    pub(crate) rt: &'s R,
    pub(crate) alloc: Global,
    pub(crate) server: &'s Server<N>,
    gate: &'s G,
    pub(crate) seat: OwnSeat<N>,
    pub(crate) readers: ReaderTable<N>,
    pub(crate) workers: Workers<'s, E, R, ReadTask<'s, N, G>>,
}

impl<
    's,
    E: 's,
    N: Named + Send + Sync + 's,
    R: Threads + Wait + Sync,
    G: Gate + Sync + 's,
> ServerSession<'s, E, N, R, G> {
    /// A session at a server by this seat, with these readers and these threads of slots.
    pub fn new(
        rt: &'s R,
        alloc: Global,
        seat: OwnSeat<N>,
        server: &'s Server<N>,
        gate: &'s G,
        readers: ReaderTable<N>,
        workers: Workers<'s, E, R, ReadTask<'s, N, G>>,
    ) -> ServerSession<'s, E, N, R, G>
        ensures seat { result.seat ≡ seat }
    {
        ServerSession {
            rt,
            alloc,
            server,
            gate,
            seat,
            readers,
            workers,
        }
    }

    /// Ends the threads of all slots; its seat.
    pub fn end(self) -> OwnSeat<N>
        ensures seat { result ≡ self.entry.seat }
    {
        let ServerSession {
            rt: _,
            alloc: _,
            server: _,
            gate: _,
            seat,
            readers: _,
            mut workers,
        } = self;
        workers.end_all();
        seat
    }

    /// Appends the replies to reads of these slots to `out`, in their order; the reads of
    /// several slots go side by side. Refused: `NoMemory`, and then `out` is as it was, and the
    /// session is of no more use.
    pub fn read(&mut self, slots: &[u64], out: &mut Vec<u8>) -> Result<(), Refusal>
        ensures refused { FailsOnlyForMemory result }
        ensures seat { self.new.seat ≡ self.old.seat }
        ensures ok { OnOk result
            (AppendsReads (length slots.now) out.old.items out.new.items) }
        ensures err { OnErr result (out.new.items ≡ out.old.items) }
    {
        let before = out.len();
        let read = read_beside(
            self.alloc,
            self.server,
            self.gate,
            &mut self.workers,
            &mut self.readers,
            slots,
            out,
        );
        if read.is_err() {
            out.truncate(before);
            return Err(Refusal::NoMemory);
        }
        Ok(())
    }

    /// The answer to a request that is no read. Refused as the request is; after `NoMemory` the
    /// session is of no more use.
    pub fn answer(&mut self, request: &Request) -> Result<Response, Refusal>
        ensures made { IfOk result (λ r.
            MakesMore self.old.seat self.new.seat (change_told (response_of r))) }
        ensures err { OnErr result (MakesMore self.old.seat self.new.seat []) }
        ensures replied { IfOk result (λ r. Answers self.old.seat self.new.seat
            (Ok request.now ∷ []) [] (response_of r ∷ [])) }
        ensures refused { IfErr result
            (AnswersRefusal self.old.seat self.new.seat (Ok request.now)) }
    {
        match request {
            Request::Event(event) => self.event(event),
            Request::Look(look) => self.look(look),
        }
    }

    fn look(&mut self, look: &Look) -> Result<Response, Refusal>
        ensures made { MakesMore self.old.seat self.new.seat [] }
        ensures none { IfOk result (λ r. change_told (response_of r) ≡ []) }
        ensures replied { IfOk result (λ r. Answers self.old.seat self.new.seat
            (Ok (asked.Look look.now) ∷ []) [] (response_of r ∷ [])) }
        ensures refused { IfErr result
            (AnswersRefusal self.old.seat self.new.seat (Ok (asked.Look look.now))) }
    {
        changes_are_counted();
        match look {
            Look::Find { dir, name } => {
                let node = self.seat.find(self.rt, self.server, *dir, name)?;
                Ok(Response::Found { node })
            }
            Look::Entry { node } => {
                let listing = self.seat.listing(self.rt, self.server, *node)?;
                Ok(Response::Listed {
                    node: *node,
                    listing,
                })
            }
            Look::Fetch { predicate } => {
                let found = self.seat.fetch(self.rt, self.server, predicate)?;
                Ok(Response::Fetched {
                    at: found.at,
                    result: found.entries,
                })
            }
            Look::Rebuilt { slot } => self.rebuilt(*slot),
        }
    }

    fn event(&mut self, event: &Event) -> Result<Response, Refusal>
        ensures made { IfOk result (λ r.
            MakesMore self.old.seat self.new.seat (change_told (response_of r))) }
        ensures err { OnErr result (MakesMore self.old.seat self.new.seat []) }
        ensures replied { IfOk result (λ r. Answers self.old.seat self.new.seat
            (Ok (asked.Event event.now) ∷ []) [] (response_of r ∷ [])) }
        ensures refused { IfErr result
            (AnswersRefusal self.old.seat self.new.seat (Ok (asked.Event event.now))) }
    {
        match event {
            Event::Change(change) => self.change(change),
            Event::Open {
                predicate,
                port,
                backlog,
                moved,
            } => {
                let options = OpenOptions::without_values(*port, *backlog, *moved);
                self.open(predicate, &options)
            }
            Event::OpenBy { predicate, options } => self.open(predicate, options),
            Event::HangUp(slot) => self.hang_up(*slot),
            Event::Close(slot) => self.close(*slot),
            Event::Finish(slot) => self.finish(*slot),
            // A `read` goes with its batch, and no line asks for the other two.
            Event::Take(_) | Event::Put(_) | Event::Notice(_) => Err(Refusal::BadLine),
        }
    }

    // The reply tells the change that the seat made.
    fn change(&mut self, change: &Change) -> Result<Response, Refusal>
        ensures made { IfOk result (λ r.
            MakesMore self.old.seat self.new.seat (change_told (response_of r))) }
        ensures err { OnErr result (MakesMore self.old.seat self.new.seat []) }
        ensures replied { IfOk result (λ r. Answers self.old.seat self.new.seat
            (Ok (asked.Event (events.Change change.now)) ∷ []) [] (response_of r ∷ [])) }
        ensures refused { IfErr result (AnswersRefusal self.old.seat self.new.seat
            (Ok (asked.Event (events.Change change.now)))) }
    {
        let applied = self.seat.apply(self.rt, self.server, change)?;
        let reply = Reply::Changed(applied);
        Ok(Response::Reply { slot: 0, reply })
    }
}
