//! What `run` and `check` do, and what is written to standard error.
ghost use Rattle.std.specs.Prelude.{◌≡◌, ◌⊎◌, ◌≤◌, ℕ, List, false, true, IfErr, IfOk, OnErr, OnOk};
ghost use Rattle.std.specs.Io.KnownBytes.{Appends};
ghost use Rattle.std.specs.String.{string_bytes};
ghost use Rattle.lq_predicate.specs.Faults.{IsFaulty};
ghost use Rattle.lq_script_lines.specs.Output.{Answered, Stopped};
ghost use Rattle.lq_value.specs.declared.refusal.Refusal.TheVariants.{BadQuery};
ghost use Rattle.lq_script.specs.Check.{IsCanonicalOf};
ghost use Rattle.lq_script_desk.specs.Script.{script_session, world_rules};
ghost use Rattle.lq_script.specs.Written.{IsRunFault, Prints, PrintsFront, WritesOrFails, WritesFront};
ghost use Rattle.lq_script.specs.Written.{fault_line, line_with, refusal_line, usage_line};

use crate::canonical_text::check;
use lq_script_desk::run;
use lq_script_lines::{Failed, RunFault, Sink, Source, write_all};
use lq_value::Refusal;
use std::alloc::{AllocError, Global};

/// Carries out the reader's script by one thread, and answers the exit status.
pub(crate) fn run_script<R: Source, W: Sink, F: Sink>(
    alloc: Global,
    reader: &mut R,
    writer: &mut W,
    faults: &mut F,
) -> u8
    requires reader_works { R.failed reader.old ≡ false }
    requires writer_works { W.failed writer.old ≡ false }
    requires writer_moves { W.stalled writer.old ≡ false }
    ensures status { result ≤ 1 }

    // 0: the whole script was carried out.
    ensures done { result ≡ 0 → Answered world_rules script_session
        (R.left reader.old) (R.left reader.new) (W.written writer.old) (W.written writer.new) }
    ensures flushed { result ≡ 0 → W.flushed writer.new ≡ true }
    ensures quiet { result ≡ 0 → faults.new ≡ faults.old }

    // 1: what was written is a prefix of that, and a fault is written.
    ensures stopped { result ≡ 1 → Stopped world_rules script_session
        (R.left reader.old) (R.left reader.new) (W.written writer.old) (W.written writer.new) }
    ensures fault { result ≡ 1 → (fault : RunFault)
        × (WritesOrFails (fault_line fault) (F.written faults.old) (F.written faults.new)
        (F.failed faults.new) (F.stalled faults.new)
        × IsRunFault fault (R.left reader.old) (R.left reader.new) (R.failed reader.new)
        (W.written writer.old) (W.written writer.new)
        (W.failed writer.new) (W.stalled writer.new)) }
{
    match run(alloc, reader, writer) {
        Ok(()) => 0,
        Err(fault) => report_fault(fault, faults),
    }
}

/// Prints a formula's canonical text and LF, and answers the exit status.
pub(crate) fn check_formula<W: Sink, F: Sink>(
    alloc: Global,
    formula: &str,
    writer: &mut W,
    faults: &mut F,
) -> u8
    ensures status { result ≤ 2 }
    ensures done { result ≡ 0 → Prints formula.now (W.written writer.old) (W.written writer.new) }
    ensures flushed { result ≡ 0 → W.flushed writer.new ≡ true }
    ensures quiet { result ≡ 0 → faults.new ≡ faults.old }
    ensures stopped { result ≡ 1 → (writer.new ≡ writer.old)
        ⊎ PrintsFront formula.now (W.written writer.old) (W.written writer.new) }
    ensures fault { result ≡ 1 →
        (WritesOrFails (fault_line RunFault.Memory) (F.written faults.old) (F.written faults.new)
        (F.failed faults.new) (F.stalled faults.new) × (writer.new ≡ writer.old))
        ⊎ (WritesOrFails (fault_line RunFault.Write) (F.written faults.old) (F.written faults.new)
        (F.failed faults.new) (F.stalled faults.new)
        × ((W.failed writer.new ≡ true) ⊎ (W.stalled writer.new ≡ true))) }
    ensures refused { result ≡ 2 → (place : ℕ) × (IsFaulty formula.now place
        × WritesOrFails (refusal_line place) (F.written faults.old) (F.written faults.new)
        (F.failed faults.new) (F.stalled faults.new)) }
    ensures writes_nothing { result ≡ 2 → writer.new ≡ writer.old }
{
    match line_for(alloc, formula) {
        Ok(line) => match write_line(line.as_str(), writer) {
            Ok(()) => 0,
            Err(Failed) => report_fault(RunFault::Write, faults),
        },
        Err(Refusal::BadQuery { place }) => report_refusal(alloc, place, faults),
        // Every other refusal is `NoMemory`.
        Err(_) => report_fault(RunFault::Memory, faults),
    }
}

// The canonical text of a formula, and LF.
fn line_for(alloc: Global, formula: &str) -> Result<String, Refusal>
    ensures value { IfOk result (λ line. (text : List ℕ)
        × (IsCanonicalOf formula.now text × (string_bytes line ≡ line_with text))) }
    ensures fault { IfErr result
        (λ e. (place : ℕ) → e ≡ BadQuery place → IsFaulty formula.now place) }
{
    let mut line = check(alloc, formula)?;
    line.push('\n')?;
    Ok(line)
}

// Writes a line and flushes.
fn write_line<W: Sink>(line: &str, writer: &mut W) -> Result<(), Failed>
    ensures ok { OnOk result (Appends (W.written writer.old) (W.written writer.new) line.now) }
    ensures flushed { OnOk result (W.flushed writer.new ≡ true) }
    ensures err { OnErr result
        (WritesFront line.now (W.written writer.old) (W.written writer.new)) }
    ensures fails { OnErr result ((W.failed writer.new ≡ true) ⊎ (W.stalled writer.new ≡ true)) }
{
    write_all(writer, line.as_bytes())?;
    writer.flush()
}

// Writes that a formula has its leftmost fault at this place, and answers the exit status.
fn report_refusal<F: Sink>(alloc: Global, place: u64, faults: &mut F) -> u8
    ensures status { (result ≡ 1) ⊎ (result ≡ 2) }
    ensures reported { result ≡ 2 →
        WritesOrFails (refusal_line place) (F.written faults.old) (F.written faults.new)
        (F.failed faults.new) (F.stalled faults.new) }
    ensures memory { result ≡ 1 →
        WritesOrFails (fault_line RunFault.Memory) (F.written faults.old) (F.written faults.new)
        (F.failed faults.new) (F.stalled faults.new) }
{
    match format!(in alloc; "lq: BadQuery at {place}\n") {
        Ok(line) => {
            report(line.as_str(), faults);
            2
        }
        Err(AllocError) => report_fault(RunFault::Memory, faults),
    }
}

/// Writes that the arguments ask for nothing, and answers the exit status.
pub(crate) fn report_usage<F: Sink>(faults: &mut F) -> u8
    ensures status { result ≡ 2 }
    ensures reported { WritesOrFails usage_line (F.written faults.old) (F.written faults.new)
        (F.failed faults.new) (F.stalled faults.new) }
{
    report("lq: usage\n", faults);
    2
}

/// Writes a fault, and answers its exit status.
pub(crate) fn report_fault<F: Sink>(fault: RunFault, faults: &mut F) -> u8
    ensures status { result ≡ 1 }
    ensures reported { WritesOrFails (fault_line fault) (F.written faults.old)
        (F.written faults.new)
        (F.failed faults.new) (F.stalled faults.new) }
{
    report(line_of(fault), faults);
    1
}

// Writes a line to standard error, and ignores a fault there.
fn report<F: Sink>(line: &str, faults: &mut F)
    ensures { WritesOrFails line.now (F.written faults.old) (F.written faults.new)
        (F.failed faults.new) (F.stalled faults.new) }
{
    let _ = write_all(faults, line.as_bytes());
}

// A fault's line on standard error.
fn line_of(fault: RunFault) -> &'static str
    ensures { result.now ≡ fault_line fault }
{
    match fault {
        RunFault::Read => "lq: read fault\n",
        RunFault::Write => "lq: write fault\n",
        RunFault::Limit => "lq: input too long\n",
        RunFault::Memory => "lq: no memory\n",
        RunFault::Thread => "lq: no thread\n",
    }
}
