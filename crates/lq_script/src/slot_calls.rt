//! The replies to lines that name a slot, or open one.
ghost use Rattle.std.specs.Prelude.{◌≡◌, [], IfOk};
ghost use Rattle.lq_server.specs.Made.{MakesMore};
ghost use Rattle.lq_script_desk.specs.Answer.{response_of};
ghost use Rattle.lq_script.specs.Changes.{change_told};

use crate::gate::Gate;
use crate::reader_table::slot_of;
use crate::server_session::ServerSession;
use lq_predicate::Predicate;
use lq_script_desk::{Reply, Response};
use lq_server::{Named, OpenOptions, OwnReader};
use lq_value::{Entry, Refusal};
use std::alloc::Global;
use std::sync::Wait;
use std::thread::Threads;

impl<
    's,
    E: 's,
    N: Named + Send + Sync + 's,
    R: Threads + Wait + Sync,
    G: Gate + Sync + 's,
> ServerSession<'s, E, N, R, G> {
    pub(crate) fn open(
        &mut self,
        predicate: &Predicate,
        options: &OpenOptions,
    ) -> Result<Response, Refusal>
        ensures made { MakesMore self.old.seat self.new.seat [] }
        ensures none { IfOk result (λ r. change_told (response_of r) ≡ []) }
    {
        let reader = self.seat.open_by(self.rt, self.server, predicate, options)?;
        let opened = opened(self.alloc, &reader);
        self.readers.put(reader);
        opened
    }

    pub(crate) fn hang_up(&mut self, slot: u64) -> Result<Response, Refusal>
        ensures seat { self.new.seat ≡ self.old.seat }
        ensures none { IfOk result (λ r. change_told (response_of r) ≡ []) }
    {
        self.readers.reader(slot_of(slot)?)?.hang_up(self.server);
        let reply = Reply::Asked;
        Ok(Response::Reply { slot, reply })
    }

    pub(crate) fn close(&mut self, slot: u64) -> Result<Response, Refusal>
        ensures seat { self.new.seat ≡ self.old.seat }
        ensures none { IfOk result (λ r. change_told (response_of r) ≡ []) }
    {
        let change = self
            .readers
            .reader(slot_of(slot)?)?
            .close(self.rt, self.server)?;
        let reply = Reply::Shut(change);
        Ok(Response::Reply { slot, reply })
    }

    pub(crate) fn finish(&mut self, slot: u64) -> Result<Response, Refusal>
        ensures seat { self.new.seat ≡ self.old.seat }
        ensures none { IfOk result (λ r. change_told (response_of r) ≡ []) }
    {
        let index = slot_of(slot)?;
        match self.readers.take(index)?.finish(self.rt, self.server) {
            Ok(()) => {
                self.workers.end(index)?;
                Ok(Response::Reply {
                    slot,
                    reply: Reply::Finished,
                })
            }
            Err((reader, refusal)) => {
                self.readers.put(reader);
                Err(refusal)
            }
        }
    }

    // The result that was rebuilt from what a slot's reader has read.
    pub(crate) fn rebuilt(&mut self, slot: u64) -> Result<Response, Refusal>
        ensures seat { self.new.seat ≡ self.old.seat }
        ensures none { IfOk result (λ r. change_told (response_of r) ≡ []) }
    {
        let reader = self.readers.reader(slot_of(slot)?)?.reader();
        Ok(Response::Rebuilt {
            change: reader.last_change(),
            result: copied(self.alloc, reader.result())?,
            settled: reader.is_settled(),
        })
    }
}

// The reply to an opening, with the result then. Refused: `NoMemory`.
fn opened<N: Named>(alloc: Global, reader: &OwnReader<N>) -> Result<Response, Refusal>
    ensures none { IfOk result (λ r. change_told (response_of r) ≡ []) }
{
    let reader = reader.reader();
    let slot = reader.slot();
    let reply = Reply::Opened {
        slot,
        at: reader.last_change(),
        result: copied(alloc, reader.result())?,
    };
    Ok(Response::Reply { slot, reply })
}

// A copy of the entries. Refused: `NoMemory`.
fn copied(alloc: Global, entries: &[Entry]) -> Result<Vec<Entry>, Refusal> {
    let mut copy = Vec::with_capacity(alloc, entries.len())?;
    for entry in entries {
        copy.push(Entry {
            dir: entry.dir,
            name: entry.name.copy(alloc)?,
            node: entry.node,
        })?;
    }
    Ok(copy)
}
