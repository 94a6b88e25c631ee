//! Writes all waiting bytes to a sink, which may take a part of them at each call.
ghost use Rattle.std.specs.Prelude.{◌≡◌, ◌⊎◌, ℕ, [], take, true, IfErr, OnOk, OnErr};
ghost use Rattle.std.specs.Io.KnownBytes.{Appends, Keeps};
ghost use Rattle.lq_script_lines.specs.Calls.{EndsInFlush, EndsInWrite, OnlyWrites};

use crate::devices::{Failed, Sink};
use crate::run_fault::RunFault;

/// Writes the waiting replies. Afterwards none waits, even after a fault.
pub fn write_replies<W: Sink>(out: &mut Vec<u8>, writer: &mut W) -> Result<(), RunFault>
    ensures ok { OnOk result
        (Appends (W.written writer.old) (W.written writer.new) out.old.items) }
    ensures empty { out.new.items ≡ [] }
    ensures works { OnOk result ((W.failed writer.new ≡ W.failed writer.old)
        × (W.stalled writer.new ≡ W.stalled writer.old)) }
    ensures err { OnErr result ((n : ℕ)
        × Appends (W.written writer.old) (W.written writer.new) (take n out.old.items)) }
    ensures fault { IfErr result (λ e. e ≡ RunFault.Write) }
    ensures cause { OnErr result ((W.failed writer.new ≡ true) ⊎ (W.stalled writer.new ≡ true)) }
    ensures writes { OnOk result (OnlyWrites (W.calls writer.old) (W.calls writer.new)) }
    ensures ends { OnErr result (EndsInWrite (W.calls writer.old) (W.calls writer.new)) }
{
    let written = write_all(writer, out);
    out.clear();
    match written {
        Ok(()) => Ok(()),
        Err(Failed) => Err(RunFault::Write),
    }
}

/// Writes the waiting replies, and flushes once, after another fault. A fault of this flush is
/// ignored, since the other one comes first.
pub fn write_and_flush<W: Sink>(out: &mut Vec<u8>, writer: &mut W) -> Result<(), RunFault>
    ensures ok { OnOk result
        (Appends (W.written writer.old) (W.written writer.new) out.old.items) }
    ensures empty { out.new.items ≡ [] }
    ensures flushed { OnOk result ((W.flushed writer.new ≡ true) ⊎ (W.failed writer.new ≡ true)) }
    ensures stalls { OnOk result (W.stalled writer.new ≡ W.stalled writer.old) }
    ensures stays { (W.failed writer.old ≡ true) ⊎ (W.stalled writer.old ≡ true)
        → (W.failed writer.new ≡ true) ⊎ (W.stalled writer.new ≡ true) }
    ensures err { OnErr result ((n : ℕ)
        × Appends (W.written writer.old) (W.written writer.new) (take n out.old.items)) }
    ensures fault { IfErr result (λ e. e ≡ RunFault.Write) }
    ensures cause { OnErr result ((W.failed writer.new ≡ true) ⊎ (W.stalled writer.new ≡ true)) }
    ensures flushes { OnOk result (EndsInFlush (W.calls writer.old) (W.calls writer.new)) }
    ensures ends { OnErr result (EndsInWrite (W.calls writer.old) (W.calls writer.new)) }
{
    write_replies(out, writer)?;
    match writer.flush() {
        Ok(()) | Err(Failed) => Ok(()),
    }
}

/// Writes all bytes. On an error a prefix of them was written.
pub fn write_all<W: Sink>(writer: &mut W, bytes: &[u8]) -> Result<(), Failed>
    ensures ok { OnOk result (Appends (W.written writer.old) (W.written writer.new) bytes.now) }
    ensures err { OnErr result ((n : ℕ)
        × Appends (W.written writer.old) (W.written writer.new) (take n bytes.now)) }
    ensures works { OnOk result ((W.failed writer.new ≡ W.failed writer.old)
        × (W.stalled writer.new ≡ W.stalled writer.old)) }
    ensures fails { OnErr result
        ((W.failed writer.new ≡ true) ⊎ (W.stalled writer.new ≡ true)) }
    ensures writes { OnOk result (OnlyWrites (W.calls writer.old) (W.calls writer.new)) }
    ensures ends { OnErr result (EndsInWrite (W.calls writer.old) (W.calls writer.new)) }
{
    let mut at = 0;
    while at < bytes.len() {
        match writer.write(&bytes[at..]) {
            Ok(0) => return Err(Failed),
            Ok(n) => at += n,
            Err(e) => return Err(e),
        }
    }
    Ok(())
}

/// The fault of a run that can't begin because memory ran out. It flushes the writer once, as after
/// any other fault.
pub fn out_of_memory<W: Sink>(writer: &mut W) -> RunFault
    ensures fault { result ≡ RunFault.Memory }
    ensures bytes { Keeps (W.written writer.old) (W.written writer.new) }
    ensures stalls { W.stalled writer.new ≡ W.stalled writer.old }
    ensures flushed { (W.flushed writer.new ≡ true) ⊎ (W.failed writer.new ≡ true) }
    ensures flushes { EndsInFlush (W.calls writer.old) (W.calls writer.new) }
{
    match writer.flush() {
        Ok(()) | Err(Failed) => RunFault::Memory,
    }
}
