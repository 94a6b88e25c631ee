//! Carries out what the program's arguments ask for, and answers the exit status.
ghost use Rattle.std.specs.Prelude.{◌≡◌, false};
ghost use Rattle.lq_script_lines.specs.Outcome.{log_of_reader, log_of_writer};
ghost use Rattle.lq_script.specs.Outcome.{IsOutcome, transcript_of};
ghost use Rattle.lq_script_lines.specs.Words.{texts_of};

use crate::commands::{check_formula, report_fault, report_usage, run_script};
use crate::gate::OpenGate;
use crate::threads::run_threads;
use lq_script_lines::{RunFault, Sink, Source, Subcommand, WordsFault, subcommand_of};
use std::alloc::Global;
use std::sync::Wait;
use std::thread::Threads;

/// Does what the program's arguments, `words`, ask for, and answers the exit status.
///
/// `run` carries out the reader's script by `run`, `threads` by `run_threads` with an open gate, as
/// that ensures. `check FORMULA` writes its canonical text and LF; a formula
/// that begins with `-` has to follow `--`. Status 0: done. 1: a `RunFault`, a writer's fault in
/// `check`, or no memory, with one line on `faults`. 2: a refused formula, with `lq: BadQuery at P`
/// there, or other arguments, with `lq: usage`. A fault there is ignored. It may wait, so what is
/// promised holds once it returns. No clause here says when it reads: a `Source` may be read at any
/// moment. It's proved of `run` (`waits`), and that the word `run` calls it rests on the body here.
pub fn program<T: Threads + Wait + Sync, R: Source, W: Sink, F: Sink>(
    rt: &T,
    alloc: Global,
    words: &[String],
    reader: &mut R,
    writer: &mut W,
    faults: &mut F,
) -> u8
    requires reader_works { R.failed reader.old ≡ false }
    requires writer_works { W.failed writer.old ≡ false }
    requires writer_moves { W.stalled writer.old ≡ false }
    ensures outcome { IsOutcome (texts_of words.now) result (transcript_of
        reader.old reader.new writer.old writer.new faults.old faults.new
        (log_of_reader (R.left reader.old) (R.left reader.new) (R.failed reader.new))
        (log_of_writer (W.written writer.old) (W.written writer.new)
        (W.failed writer.new) (W.stalled writer.new) (W.flushed writer.new))
        (log_of_writer (F.written faults.old) (F.written faults.new)
        (F.failed faults.new) (F.stalled faults.new) (F.flushed faults.new))) }
{
    match subcommand_of(alloc, words) {
        Ok(Subcommand::Run) => run_script(alloc, reader, writer, faults),
        Ok(Subcommand::Threads) => match run_threads(rt, alloc, reader, writer, &OpenGate) {
            Ok(()) => 0,
            Err(fault) => report_fault(fault, faults),
        },
        Ok(Subcommand::Check(formula)) => check_formula(alloc, formula, writer, faults),
        Err(WordsFault::NoMemory) => report_fault(RunFault::Memory, faults),
        Err(WordsFault::Usage) => report_usage(faults),
    }
}
