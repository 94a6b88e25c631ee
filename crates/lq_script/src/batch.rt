//! Reads of several slots, side by side. Contracts say only that they fail for memory alone, and
//! that no reply to them reports a change.
ghost use Rattle.std.specs.Prelude.{◌≡◌, [], length, IfOk, OnOk, OnErr};
ghost use Rattle.std.specs.Thread.{IsSend};
ghost use Rattle.lq_value.specs.Refusal.{FailsOnlyForMemory};
ghost use Rattle.lq_script_desk.specs.Answer.{response_of};
ghost use mathlib.Core.List.{IsPrefix};
ghost use Rattle.lq_script.specs.Changes.{change_told};
ghost use Rattle.lq_script.specs.Progress.{AppendsReads};

use crate::gate::Gate;
use crate::reader_table::ReaderTable;
use crate::tasks::Task;
use crate::workers::Workers;
use lq_desk_sub::SlotIndex;
use lq_script_desk::{Reply, Response, put_reply};
use lq_server::{Named, OwnReader, Read, Server, servers_may_be_shared};
use lq_value::Refusal;
use std::alloc::Global;
use std::mem;
use std::sync::Wait;
use std::thread::Threads;

/// The task of one slot in a batch: its reads, and the answers to those that were carried out.
#[derive(Drop)]
pub struct ReadTask<'a, N: Named, G> {
    server: &'a Server<N>,
    gate: &'a G,
    reader: OwnReader<N>,
    slot: SlotIndex,
    reads: usize,
    answers: Vec<Read>,
    answered: usize,
}

impl<'a, N: Named, G: Gate> Task for ReadTask<'a, N, G> {
    fn slot(&self) -> SlotIndex {
        self.slot
    }

    // Each read in order. It ends before the reads do where memory was wanting.
    fn run<R: Wait>(&mut self, rt: &R) {
        for _ in 0..self.reads {
            self.gate.pass(rt, self.slot.number());
            let Ok(answer) = self.reader.read(rt, self.server) else {
                return;
            };
            if self.answers.push(answer).is_err() {
                return;
            }
        }
    }
}

impl<'a, N: Named, G> ReadTask<'a, N, G> {
    // The reply to the next of its reads. Refused: `NoMemory` where that read was not carried out.
    fn next(&mut self) -> Result<Response, Refusal>
        ensures refused { FailsOnlyForMemory result }
        ensures none { IfOk result (λ r. change_told (response_of r) ≡ []) }
    {
        let answered = self.answered;
        let Some(place) = self.answers.get_mut(answered) else {
            return Err(Refusal::NoMemory);
        };
        let answer = mem::replace(place, Read::Ended);
        self.answered = answered + 1;
        Ok(Response::Reply {
            slot: self.slot.number(),
            reply: Reply::Took(answer),
        })
    }
}

/// Appends the replies to reads of these slots to `out`, in their order.
///
/// The reads of a slot that has a reader are carried out in order, and beside those of each other
/// slot (`Workers::do_all`); a read of another slot is refused `NotOpen`. Refused: `NoMemory`, and
/// then a part of the replies may have been appended to `out`, and readers may be lost.
pub fn read_beside<
    's,
    N: Named + Send + Sync + 's,
    E: 's,
    G: Gate + Sync + 's,
    R: Threads + Wait + Sync,
>(
    alloc: Global,
    server: &'s Server<N>,
    gate: &'s G,
    workers: &mut Workers<'s, E, R, ReadTask<'s, N, G>>,
    readers: &mut ReaderTable<N>,
    slots: &[u64],
    out: &mut Vec<u8>,
) -> Result<(), Refusal>
    ensures refused { FailsOnlyForMemory result }
    ensures ok { OnOk result (AppendsReads (length slots.now) out.old.items out.new.items) }
    ensures err { OnErr result (IsPrefix out.old.items out.new.items) }
{
    let batch = batch_of(alloc, server, gate, readers, slots)?;
    // For the proof: what these reads hold may cross threads.
    servers_may_be_shared::<N>();
    sends::<OwnReader<N>>();
    sends::<Read>();
    let mut batch = workers.do_all(batch)?;
    let put = put_replies(&mut batch, slots, out);
    put_back(batch, readers);
    put
}

// Puts the readers of a batch back in their places.
fn put_back<N: Named, G>(batch: Vec<ReadTask<'_, N, G>>, readers: &mut ReaderTable<N>) {
    for reads in batch {
        readers.put(reads.reader);
    }
}

// The bound, as a fact.
fn sends<T: Send>()
    ensures { IsSend T.row }
{}

// Appends the reply to each read to `out`.
fn put_replies<N: Named, G>(
    batch: &mut [ReadTask<'_, N, G>],
    slots: &[u64],
    out: &mut Vec<u8>,
) -> Result<(), Refusal>
    ensures refused { FailsOnlyForMemory result }
    ensures ok { OnOk result (AppendsReads (length slots.now) out.old.items out.new.items) }
    ensures err { OnErr result (IsPrefix out.old.items out.new.items) }
{
    for slot in slots {
        let response = read_in(batch, *slot)?;
        put_reply(out, &response)?;
    }
    Ok(())
}

// The reply to the next read of a slot. Refused: `NoMemory` where that read was not carried out.
fn read_in<N: Named, G>(batch: &mut [ReadTask<'_, N, G>], slot: u64) -> Result<Response, Refusal>
    ensures refused { FailsOnlyForMemory result }
    ensures none { IfOk result (λ r. change_told (response_of r) ≡ []) }
{
    match reads_at(batch, slot) {
        Some(reads) => reads.next(),
        None => Ok(Response::Refused(Refusal::NotOpen)),
    }
}

// The reads of a slot.
fn reads_at<'t, 'a, N: Named, G>(
    batch: &'t mut [ReadTask<'a, N, G>],
    slot: u64,
) -> Option<&'t mut ReadTask<'a, N, G>> {
    for reads in batch {
        if reads.slot.number() == slot {
            return Some(reads);
        }
    }
    None
}

// The reads of each slot that is named and has a reader, which is taken out of its place.
fn batch_of<'a, N: Named, G: Gate>(
    alloc: Global,
    server: &'a Server<N>,
    gate: &'a G,
    readers: &mut ReaderTable<N>,
    slots: &[u64],
) -> Result<Vec<ReadTask<'a, N, G>>, Refusal>
    ensures refused { FailsOnlyForMemory result }
{
    let mut batch = Vec::new(alloc);
    for number in slots {
        let Some(slot) = SlotIndex::of(*number) else {
            continue;
        };
        let Ok(reader) = readers.take(slot) else {
            continue;
        };
        let reads = count_of(slots, *number);
        batch.push(ReadTask {
            server,
            gate,
            reader,
            slot,
            reads,
            answers: Vec::with_capacity(alloc, reads)?,
            answered: 0,
        })?;
    }
    Ok(batch)
}

// How many of these reads are of a slot.
fn count_of(slots: &[u64], slot: u64) -> usize {
    let mut count: usize = 0;
    for other in slots {
        if *other == slot {
            count = count.saturating_add(1);
        }
    }
    count
}
