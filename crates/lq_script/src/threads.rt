//! Carries out a whole script by threads: it makes the server and its threads, and ends both.
ghost use Rattle.std.specs.Prelude.{◌≡◌, ◌⊎◌, [], ◌∷◌, IfErr, false, true};
ghost use Rattle.lq_board.specs.Author.{leader, with_roll};
ghost use Rattle.lq_board.specs.Token.{counted_board};
ghost use Rattle.lq_volume.specs.State.{empty_state};
ghost use Rattle.lq_script_lines.specs.Outcome.{log_of_reader};
ghost use Rattle.lq_script.specs.Changes.{TellsAllChanges};
ghost use Rattle.lq_script.specs.Progress.{TellsMade, TellsRetired};

use crate::gate::Gate;
use crate::input_lines::Lines;
use crate::reader_table::ReaderTable;
use crate::runner::Runner;
use crate::server_session::ServerSession;
use crate::tasks::Task;
use crate::workers::Workers;
use lq_script_lines::{RunFault, Sink, Source, out_of_memory};
use lq_server::{Base, Named, OwnSeat, Retired, Seat, Server};
use lq_value::Refusal;
use lq_volume::{MAX_CHANGES, Volume};
use std::alloc::Global;
use std::marker::Brand;
use std::sync::Wait;
use std::thread;
use std::thread::{Scope, Threads};

/// Carries out a script, its reads in threads.
///
/// It writes a reply to each line that isn't empty: to all lines if it succeeds, after `Read` and
/// `Limit` to those that LF ended, otherwise to the first ones; a writer that fails may leave some
/// replies out. A change, a look at the volume and a line without a request have the reply that
/// `run` writes. Only tests show how reads and other lines of slots are answered. The server makes
/// just the changes that the answered lines ask for and the volume accepts. If memory runs out or
/// the writer fails, it may also have made the change of the next line.
pub fn run_threads<T: Threads + Wait + Sync, R: Source, W: Sink, G: Gate + Sync>(
    rt: &T,
    alloc: Global,
    reader: &mut R,
    writer: &mut W,
    gate: &G,
) -> Result<(), RunFault>
    requires reader_works { R.failed reader.old ≡ false }
    requires writer_works { W.failed writer.old ≡ false }
    requires writer_moves { W.stalled writer.old ≡ false }

    // The server made no change but the script's. Each line that was read has its reply, but for a
    // rest after a fault: that of `run` to a change, to a look at the volume, and to a line without
    // a request.
    ensures changes { TellsAllChanges result
        (log_of_reader (R.left reader.old) (R.left reader.new) (R.failed reader.new))
        (W.written writer.old) (W.written writer.new) }

    // A fault of the writer has its cause there.
    ensures cause { IfErr result (λ e. e ≡ RunFault.Write →
        (W.failed writer.new ≡ true) ⊎ (W.stalled writer.new ≡ true)) }
{
    let Ok(base) = Base::new(alloc, Volume::new(alloc, MAX_CHANGES)) else {
        return Err(out_of_memory(writer));
    };
    serve::<Brand, T, R, W, G>(rt, alloc, base, reader, writer, gate).ran
}

// How a run ended, and what its server left.
#[derive(Drop)]
struct RetiredRun {
    ran: Result<(), RunFault>,
    retired: Retired,
}

// Carries out a script at a counted server over a base. No seat but the script's makes changes.
fn serve<N: Named + Send + Sync, T: Threads + Wait + Sync, R: Source, W: Sink, G: Gate + Sync>(
    rt: &T,
    alloc: Global,
    base: Base,
    reader: &mut R,
    writer: &mut W,
    gate: &G,
) -> RetiredRun
    requires base { (N.board ≡ counted_board base.board) × (base.volume ≡ N.start) }
    requires start { N.start ≡ empty_state 1000000000000 }
    ensures changes { TellsRetired N.start result.retired.volume result.retired.changes
        result.ran
        (log_of_reader (R.left reader.old) (R.left reader.new) (R.failed reader.new))
        (W.written writer.old) (W.written writer.new) }
    ensures cause { IfErr result.ran (λ e. e ≡ RunFault.Write →
        (W.failed writer.new ≡ true) ⊎ (W.stalled writer.new ≡ true)) }
{
    let (server, mut head): (Server<N>, Seat) = Server::counted(base);
    // No seat was made for the leading seat before, so this one isn't refused.
    let Ok(seat) = OwnSeat::new(rt, &server, &mut head) else {
        unreachable!()
    };
    let (ran, seat) = serve_over(rt, alloc, &server, seat, reader, writer, gate);
    let retired = seat.retire(rt, server, head);
    RetiredRun { ran, retired }
}

// Carries out a script at a server. Each of its threads has ended when it answers.
fn serve_over<N: Named + Send + Sync, T: Threads + Wait + Sync, R: Source, W: Sink, G: Gate + Sync>(
    rt: &T,
    alloc: Global,
    server: &Server<N>,
    seat: OwnSeat<N>,
    reader: &mut R,
    writer: &mut W,
    gate: &G,
) -> (Result<(), RunFault>, OwnSeat<N>)
    ensures made { TellsMade result.0
        (log_of_reader (R.left reader.old) (R.left reader.new) (R.failed reader.new))
        seat result.1 (W.written writer.old) (W.written writer.new) }
    ensures cause { IfErr result.0 (λ e. e ≡ RunFault.Write →
        (W.failed writer.new ≡ true) ⊎ (W.stalled writer.new ≡ true)) }
{
    let ended = serve_within(rt, alloc, server, seat, reader, writer, gate);
    // The loans of the reader and the writer end.
    let EndedRun {
        ran,
        seat,
        reader,
        writer,
    } = ended;
    let _ = reader;
    let _ = writer;
    (ran, seat)
}

// What a run reads, and what it writes.
#[derive(Drop)]
struct Streams<'w, R, W> {
    reader: &'w mut R,
    writer: &'w mut W,
}

// How a run ended, with its seat, its reader and its writer.
#[derive(Drop)]
struct EndedRun<'w, N: Named, R, W> {
    ran: Result<(), RunFault>,
    seat: OwnSeat<N>,
    reader: &'w mut R,
    writer: &'w mut W,
}

// Carries out a script at a server, in a scope of its own.
fn serve_within<
    'w,
    N: Named + Send + Sync,
    T: Threads + Wait + Sync,
    R: Source,
    W: Sink,
    G: Gate + Sync,
>(
    rt: &T,
    alloc: Global,
    server: &Server<N>,
    seat: OwnSeat<N>,
    reader: &'w mut R,
    writer: &'w mut W,
    gate: &G,
) -> EndedRun<'w, N, R, W>
    ensures same { result.writer.ghost_name ≡ writer.entry.ghost_name }
    ensures same_reader { result.reader.ghost_name ≡ reader.entry.ghost_name }
    ensures made { TellsMade result.ran
        (log_of_reader (R.left reader.old) (R.left result.reader.now)
        (R.failed result.reader.now))
        seat result.seat (W.written writer.old) (W.written result.writer.now) }
    ensures cause { IfErr result.ran (λ e. e ≡ RunFault.Write →
        (W.failed result.writer.now ≡ true) ⊎ (W.stalled result.writer.now ≡ true)) }
{
    let streams = Streams { reader, writer };
    thread::scope(thread::scope_env(), rt, move |scope| {
        serve_in(rt, alloc, scope, server, seat, gate, streams)
    })
}

// Carries out a script at a server, with threads of this scope.
fn serve_in<
    's,
    'w,
    E: 's,
    N: Named + Send + Sync + 's,
    T: Threads + Wait + Sync,
    R: Source,
    W: Sink,
    G: Gate + Sync + 's,
>(
    rt: &'s T,
    alloc: Global,
    scope: &'s Scope<'s, E>,
    server: &'s Server<N>,
    seat: OwnSeat<N>,
    gate: &'s G,
    streams: Streams<'w, R, W>,
) -> EndedRun<'w, N, R, W>
    ensures same { result.writer.ghost_name ≡ streams.entry.writer.ghost_name }
    ensures same_reader { result.reader.ghost_name ≡ streams.entry.reader.ghost_name }
    ensures made { TellsMade result.ran
        (log_of_reader (R.left streams.entry.reader.now) (R.left result.reader.now)
        (R.failed result.reader.now))
        seat result.seat
        (W.written streams.entry.writer.now) (W.written result.writer.now) }
    ensures cause { IfErr result.ran (λ e. e ≡ RunFault.Write →
        (W.failed result.writer.now ≡ true) ⊎ (W.stalled result.writer.now ≡ true)) }
{
    let Streams { reader, writer } = streams;
    let Ok((readers, workers)) = readers_and_workers(rt, alloc, scope) else {
        let ran = Err(out_of_memory(writer));
        return EndedRun {
            ran,
            seat,
            reader,
            writer,
        };
    };
    let session = ServerSession::new(rt, alloc, seat, server, gate, readers, workers);
    let mut runner = Runner::new(alloc, session, writer);
    let ran = carry_all(rt, alloc, reader, &mut runner);
    let (seat, writer) = runner.end();
    EndedRun {
        ran,
        seat,
        reader,
        writer,
    }
}

// What a run's reads need: no slot has a reader yet, or a thread. None where memory is wanting.
fn readers_and_workers<'s, E: 's, N: Named, R: Wait, T: Task + Drop>(
    rt: &'s R,
    alloc: Global,
    scope: &'s Scope<'s, E>,
) -> Result<(ReaderTable<N>, Workers<'s, E, R, T>), Refusal> {
    let readers = ReaderTable::new(alloc)?;
    Ok((readers, Workers::new(rt, alloc, scope)?))
}

// Carries out all lines of a reader.
fn carry_all<
    's,
    'w,
    E: 's,
    N: Named + Send + Sync + 's,
    T: Threads + Wait + Sync,
    R: Source,
    W: Sink,
    G: Gate + Sync + 's,
>(
    rt: &T,
    alloc: Global,
    reader: &mut R,
    runner: &mut Runner<'s, 'w, E, N, T, G, W>,
) -> Result<(), RunFault>
    requires empty { runner.old.output.replies.items ≡ [] }
    requires no_reads { runner.old.slots.items ≡ [] }
    ensures same { runner.new.output.writer.ghost_name ≡ runner.old.output.writer.ghost_name }
    ensures made { TellsMade result
        (log_of_reader (R.left reader.old) (R.left reader.new) (R.failed reader.new))
        runner.old.session.seat runner.new.session.seat
        (W.written runner.old.output.writer.now) (W.written runner.new.output.writer.now) }
    ensures cause { IfErr result (λ e. e ≡ RunFault.Write →
        (W.failed runner.new.output.writer.now ≡ true)
        ⊎ (W.stalled runner.new.output.writer.now ≡ true)) }
{
    let mut lines = Lines::new(alloc);
    for _ in rt.forever() {
        let goes = lines.read(reader);
        if let Err(fault) = runner.answer_lines(lines.given()) {
            return Err(runner.output.close(fault));
        }
        match goes {
            Ok(true) => {}
            Ok(false) => return runner.output.flush(),
            Err(fault) => return Err(runner.output.close(fault)),
        }
    }
    unreachable!()
}
