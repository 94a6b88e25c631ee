//! A piece of an input, and the replies to each line that ends in it.
ghost use Rattle.std.specs.Prelude.{◌≡◌, ◌+◌, ◌++◌, ◌⊎◌, ◌<◌, ◌≤◌, ℕ, List, [], ◌∷◌, length, take, drop, true, IfErr, IfNone, IfSome, OnOk, OnErr, IsErrOf};
ghost use Rattle.lq_script_lines.specs.Calls.{CallsOf, WritesOf};
ghost use Rattle.lq_script_lines.specs.Lines.{IsUnbroken, LinesEnd, LinesGrow, ended_lines};
ghost use Rattle.lq_script_lines.specs.Progress.{Completes, Goes, HaltsAtEnd, Leaves, LeavesAtEnd, TakesPiece, standing_of};

use crate::devices::{Failed, Sink};
use crate::intake::{Intake, LF, MAX_BYTES, MAX_LINES};
use crate::responder::Responder;
use crate::run_fault::RunFault;
use crate::writing::{write_and_flush, write_replies};
use memchr::memchr;

/// Replies are written once they have this many bytes.
pub const GATHERED: usize = 65536;

/// Answers the line that these bytes and an LF end, and writes the replies if many wait.
fn end_line<S: Responder, W: Sink>(
    intake: &mut Intake,
    run: &[u8],
    responder: &mut S,
    out: &mut Vec<u8>,
    writer: &mut W,
) -> Result<(), RunFault>
    requires lines { intake.old.lines < MAX_LINES }
    requires bytes { intake.old.bytes + length run.now < MAX_BYTES }
    requires unbroken { IsUnbroken run.now }
    ensures ok { OnOk result (Goes S.rules (run.now ++ LF ∷ [])
        (W.written writer.old) (S.state responder.old) intake.old out.old.items
        (W.written writer.new) (S.state responder.new) intake.new out.new.items) }
    ensures works { OnOk result ((W.failed writer.new ≡ W.failed writer.old)
        × (W.stalled writer.new ≡ W.stalled writer.old)) }
    ensures err { OnErr result ((rest : List ℕ) → Leaves S.rules (run.now ++ LF ∷ rest)
        (W.written writer.old) (S.state responder.old) intake.old out.old.items
        (W.written writer.new) out.new.items) }
    ensures fault { IfErr result (λ e. (e ≡ RunFault.Write) ⊎ (e ≡ RunFault.Memory)) }
    ensures memory { IsErrOf result RunFault.Memory →
        (writer.new ≡ writer.old) × (out.new.items ≡ out.old.items) }
    ensures cause { IsErrOf result RunFault.Write →
        (W.failed writer.new ≡ true) ⊎ (W.stalled writer.new ≡ true) }
    ensures calls { WritesOf result (W.calls writer.old) (W.calls writer.new) }
{
    intake.end_line(run, responder, out)?;
    if out.len() < GATHERED {
        return Ok(());
    }
    write_replies(out, writer)
}

/// Takes a piece of the input and answers each line that ends in it.
pub fn take_piece<S: Responder, W: Sink>(
    intake: &mut Intake,
    piece: &[u8],
    responder: &mut S,
    out: &mut Vec<u8>,
    writer: &mut W,
) -> Result<(), RunFault>
    ensures taken { TakesPiece S.rules piece.now result
        (standing_of (W.written writer.old) (W.failed writer.old) (W.stalled writer.old)
        (S.state responder.old) intake.old out.old.items)
        (standing_of (W.written writer.new) (W.failed writer.new) (W.stalled writer.new)
        (S.state responder.new) intake.new out.new.items) }
    ensures calls { WritesOf result (W.calls writer.old) (W.calls writer.new) }
{
    let mut at = 0;
    while at < piece.len() {
        let room = intake.room();
        if room == 0 {
            return Err(RunFault::Limit);
        }
        let run = run_at(piece, at, room);
        at += run.len();
        if at < piece.len() && run.len() < room {
            end_line(intake, run, responder, out, writer)?;
            at += 1;
        } else {
            intake.keep(run)?;
        }
    }
    Ok(())
}

/// The bytes from an index to the next LF, at most this many.
pub fn run_at(piece: &[u8], at: usize, most: usize) -> &[u8]
    requires at { at < length piece.now }
    requires some { 0 < most }
    ensures run { take at piece.now ++ result.now ≡ take (at + length result.now) piece.now }
    ensures bound { at + length result.now ≤ length piece.now }
    ensures most { length result.now ≤ most }
    ensures unbroken { IsUnbroken result.now }
    ensures stops { at + length result.now < length piece.now → length result.now < most
        → take at piece.now ++ (result.now ++ LF ∷ [])
        ≡ take (at + length result.now + 1) piece.now }
{
    let (_, rest) = piece.split_at(at);
    let count = memchr(LF, rest).unwrap_or(rest.len());
    let (run, _) = rest.split_at(count.min(most));
    run
}

/// The place of the first LF, which ends the first line.
pub fn first_lf(text: &[u8]) -> Option<usize>
    ensures within { IfSome result (λ count. count < length text.now) }
    ensures some { IfSome result (λ count. ended_lines text.now
        ≡ take count text.now ∷ ended_lines (drop (count + 1) text.now)) }
    ensures none { IfNone result (ended_lines text.now ≡ []) }
{
    memchr(LF, text)
}

/// Answers the last line, if it has no LF, and flushes once.
pub(crate) fn finish<S: Responder, W: Sink>(
    intake: &Intake,
    responder: &mut S,
    out: &mut Vec<u8>,
    writer: &mut W,
) -> Result<(), RunFault>
    ensures ok { OnOk result (Completes S.rules (W.written writer.old) (S.state responder.old)
        intake.now out.old.items (W.written writer.new)) }
    ensures works { OnOk result ((W.failed writer.new ≡ W.failed writer.old)
        × (W.stalled writer.new ≡ W.stalled writer.old)) }
    ensures err { OnErr result (LeavesAtEnd S.rules (W.written writer.old) (S.state responder.old)
        intake.now out.old.items (W.written writer.new)) }
    ensures flushed { OnOk result (W.flushed writer.new ≡ true) }
    ensures fault { IfErr result (λ e. (e ≡ RunFault.Write) ⊎ (e ≡ RunFault.Memory)) }
    ensures cause { IsErrOf result RunFault.Write →
        (W.failed writer.new ≡ true) ⊎ (W.stalled writer.new ≡ true) }
    ensures memory { IsErrOf result RunFault.Memory → HaltsAtEnd S.rules (W.written writer.old)
        (S.state responder.old) intake.now out.old.items (W.written writer.new) }
    ensures memory_works { IsErrOf result RunFault.Memory →
        W.stalled writer.new ≡ W.stalled writer.old }
    ensures memory_flushed { IsErrOf result RunFault.Memory →
        (W.flushed writer.new ≡ true) ⊎ (W.failed writer.new ≡ true) }
    ensures calls { CallsOf result (W.calls writer.old) (W.calls writer.new) }
{
    if intake.answer(responder, out).is_err() {
        write_and_flush(out, writer)?;
        return Err(RunFault::Memory);
    }
    write_replies(out, writer)?;
    match writer.flush() {
        Ok(()) => Ok(()),
        Err(Failed) => Err(RunFault::Write),
    }
}

/// An LF ends the line in progress, and other bytes are added to it. At the end of an input the
/// line in progress is the last line, unless it is empty.
pub fn lines_grow()
    ensures grow { LinesGrow }
    ensures end { LinesEnd }
{}
