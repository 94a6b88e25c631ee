//! Carries out a whole script by one thread, over a volume with the root alone.
ghost use Rattle.std.specs.Prelude.{◌≡◌, false};
ghost use Rattle.lq_script_lines.specs.Calls.{CallsOf};
ghost use Rattle.lq_script_lines.specs.Outcome.{IsRunOutcome, MayReadAfterReplies, log_of_reader, log_of_writer};
ghost use Rattle.lq_script_desk.specs.Script.{script_session, world_rules};
ghost use Rattle.lq_script_desk.specs.History.{TellsReaders};

use crate::laws::scripts_tell_readers;
use crate::session::Session;
use lq_desk::Desk;
use lq_desk_sub::SlotTable;
use lq_script_lines::{Client, RunFault, Sink, out_of_memory, run_lines};
use lq_volume::{MAX_CHANGES, Volume};
use std::alloc::Global;

/// Carries out a script: reads lines to the end of the input, and writes a reply to each.
///
/// At each read of the device the writer has exactly the replies to the lines that LF ended by
/// then: a reader that may be read at just these moments will do (`waits`). The writer is flushed
/// once, as the last call, also after `Read`, `Limit` and `Memory`. Refused: `Read` and `Write`
/// where that device failed, `Write` also where the writer took none of the bytes given, `Limit`
/// where a byte follows 10,000,000 lines or 1,073,741,824 bytes, `Memory`, also where the run can't
/// begin. After `Read` and `Limit` exactly the lines that LF ended are answered, after `Memory` the
/// lines before one that isn't, or none where the run can't begin, and after `Write` a prefix of
/// the replies is written. The formats and limits are our own.
///
/// ```rattle
/// use lq_script::{Host, run};
///
/// let script = "{\"do\":\"create\",\"name\":\"a\",\"size\":200}\n";
/// let mut reader = Host::new(script.as_bytes());
/// let mut writer = Host::new(Vec::new(alloc));
/// assert!(rt; run(alloc, &mut reader, &mut writer) == Ok(()));
/// let output = writer.into_device();
/// assert!(rt; output.as_slice() == "{\"change\":1,\"node\":2}\n".as_bytes());
/// ```
pub fn run<R: Client<W>, W: Sink>(
    alloc: Global,
    reader: &mut R,
    writer: &mut W,
) -> Result<(), RunFault>
    requires reader_works { R.failed reader.old ≡ false }
    requires writer_works { W.failed writer.old ≡ false }
    requires writer_moves { W.stalled writer.old ≡ false }
    requires waits { MayReadAfterReplies world_rules script_session R.left W.written
        R.may_read reader.old writer.old }
    ensures outcome { IsRunOutcome world_rules script_session result
        (log_of_reader (R.left reader.old) (R.left reader.new) (R.failed reader.new))
        (log_of_writer (W.written writer.old) (W.written writer.new)
        (W.failed writer.new) (W.stalled writer.new) (W.flushed writer.new)) }
    ensures calls { CallsOf result (W.calls writer.old) (W.calls writer.new) }

    // The headline, from bytes to bytes.
    ensures readers { TellsReaders result
        (log_of_reader (R.left reader.old) (R.left reader.new) (R.failed reader.new))
        (log_of_writer (W.written writer.old) (W.written writer.new)
        (W.failed writer.new) (W.stalled writer.new) (W.flushed writer.new)) }
{
    // For what it proves: a script tells its readers what the headline says.
    scripts_tell_readers();
    let Ok(desk) = Desk::new(alloc, Volume::new(alloc, MAX_CHANGES)) else {
        return Err(out_of_memory(writer));
    };
    let Ok(rebuilds) = SlotTable::new(alloc) else {
        return Err(out_of_memory(writer));
    };
    let mut session = Session::new(alloc, desk, rebuilds);
    run_lines(alloc, reader, writer, &mut session)
}
