//! A run over a script: each line is answered before the next read.
ghost use Rattle.std.specs.Prelude.{◌≡◌, ◌⊎◌, [], true, false, OnOk, OnErr, IsErrOf};
ghost use Rattle.lq_script_lines.specs.Calls.{CallsOf, OnlyWrites};
ghost use Rattle.lq_script_lines.specs.Faults.{is_write as is_write_fault};
ghost use Rattle.lq_script_lines.specs.Outcome.{IsRunOutcome, MayReadAfterReplies, log_of_reader, log_of_writer};
ghost use Rattle.lq_script_lines.specs.Output.{Halted};
ghost use Rattle.lq_script_lines.specs.Progress.{Goes, HaltsIn, Leaves, MeetsLimit};

use crate::devices::{Client, Sink};
use crate::input_pieces::{finish, take_piece};
use crate::intake::Intake;
use crate::responder::Responder;
use crate::run_fault::RunFault;
use crate::writing::{write_and_flush, write_replies};
use std::alloc::Global;

/// The number of bytes that one read asks for.
pub const BLOCK: usize = 65536;

/// Takes a piece of the input. After a fault that isn't the writer's, writes the waiting replies
/// and flushes once.
fn take_block<S: Responder, W: Sink>(
    intake: &mut Intake,
    piece: &[u8],
    responder: &mut S,
    out: &mut Vec<u8>,
    writer: &mut W,
) -> Result<(), RunFault>
    ensures ok { OnOk result (Goes S.rules piece.now
        (W.written writer.old) (S.state responder.old) intake.old out.old.items
        (W.written writer.new) (S.state responder.new) intake.new out.new.items) }
    ensures works { OnOk result ((W.failed writer.new ≡ W.failed writer.old)
        × (W.stalled writer.new ≡ W.stalled writer.old)) }
    ensures err { OnErr result (Leaves S.rules piece.now
        (W.written writer.old) (S.state responder.old) intake.old out.old.items
        (W.written writer.new) out.new.items) }
    ensures limit { IsErrOf result RunFault.Limit → MeetsLimit S.rules piece.now
        (W.written writer.old) (S.state responder.old) intake.old out.old.items
        (W.written writer.new) (S.state responder.new) intake.new [] }
    ensures memory { IsErrOf result RunFault.Memory → HaltsIn S.rules piece.now
        (W.written writer.old) (S.state responder.old) intake.old out.old.items
        (W.written writer.new) [] }
    ensures memory_works { IsErrOf result RunFault.Memory →
        W.stalled writer.new ≡ W.stalled writer.old }
    ensures flushed { OnErr result ((result ≡ Err RunFault.Write)
        ⊎ ((W.flushed writer.new ≡ true) ⊎ (W.failed writer.new ≡ true))) }
    ensures not_read { IsErrOf result RunFault.Read → ⊥ }
    ensures not_thread { IsErrOf result RunFault.Thread → ⊥ }
    ensures cause { IsErrOf result RunFault.Write →
        (W.failed writer.new ≡ true) ⊎ (W.stalled writer.new ≡ true) }
    ensures calls { OnOk result (OnlyWrites (W.calls writer.old) (W.calls writer.new)) }
    ensures calls_err { OnErr result (CallsOf result (W.calls writer.old) (W.calls writer.new)) }
{
    match take_piece(intake, piece, responder, out, writer) {
        Ok(()) => Ok(()),
        Err(fault) => {
            if is_write(fault) {
                return Err(RunFault::Write);
            }
            write_and_flush(out, writer)?;
            Err(fault)
        }
    }
}

// Whether a fault is the writer's.
fn is_write(fault: RunFault) -> bool
    ensures { result ≡ is_write_fault fault }
{
    match fault {
        RunFault::Write => true,
        RunFault::Read | RunFault::Limit | RunFault::Memory | RunFault::Thread => false,
    }
}

/// Reads a script to the end of its input, and writes the reply to each line.
///
/// At each read of the device the writer has exactly the replies to the lines that LF ended by
/// then: a reader that may be read at just these moments will do (`waits`). The writer is flushed
/// once at the end, also after `Read`, `Limit` and `Memory`, and not called again after a write
/// that failed (`calls`). Refused: `Read` and `Write` where that device failed, `Write` also where
/// the writer took none of the bytes given, `Limit` where a byte follows 10,000,000 lines or
/// 1,073,741,824 bytes, `Memory`. After `Read` and `Limit` exactly the lines that LF ended are
/// answered, after `Memory` the lines before one that isn't, and after `Write` a prefix of the
/// replies is written.
pub fn run_lines<R: Client<W>, W: Sink, S: Responder>(
    alloc: Global,
    reader: &mut R,
    writer: &mut W,
    responder: &mut S,
) -> Result<(), RunFault>
    requires reader_works { R.failed reader.old ≡ false }
    requires writer_works { W.failed writer.old ≡ false }
    requires writer_moves { W.stalled writer.old ≡ false }
    requires waits { MayReadAfterReplies S.rules (S.state responder.old) R.left W.written
        R.may_read reader.old writer.old }
    ensures outcome { IsRunOutcome S.rules (S.state responder.old) result
        (log_of_reader (R.left reader.old) (R.left reader.new) (R.failed reader.new))
        (log_of_writer (W.written writer.old) (W.written writer.new)
        (W.failed writer.new) (W.stalled writer.new) (W.flushed writer.new)) }

    // It has begun: where memory ran out, a line that was read has no reply.
    ensures begun { IsErrOf result RunFault.Memory → Halted S.rules (S.state responder.old)
        (R.left reader.old) (R.left reader.new) (W.written writer.old) (W.written writer.new) }

    // Which writes and flushes it asked for.
    ensures calls { CallsOf result (W.calls writer.old) (W.calls writer.new) }
{
    let mut block = [0u8; BLOCK];
    let mut intake = Intake::new(alloc);
    let mut out = Vec::new(alloc);
    loop {
        write_replies(&mut out, writer)?;
        let Ok(count) = reader.receive(writer, &mut block) else {
            write_and_flush(&mut out, writer)?;
            return Err(RunFault::Read);
        };
        if count == 0 {
            return finish(&intake, responder, &mut out, writer);
        }
        take_block(&mut intake, &block[..count], responder, &mut out, writer)?;
    }
}
