//! Replies that wait, until they are many or their caller wants them written.
ghost use Rattle.std.specs.Prelude.{◌≡◌, ◌⊎◌, [], ◌++◌, IfErr, OnErr, OnOk, true};
ghost use Rattle.lq_script_desk.specs.Answer.{response_of};
ghost use Rattle.lq_script_desk.specs.Reply.{reply_text};
ghost use Rattle.lq_script_desk.specs.Writes.{ClosesRun, HasTaken, PutsText};

use crate::reply_text::put_reply;
use crate::response::Response;
use lq_script_lines::{Failed, GATHERED, RunFault, Sink, write_replies};
use std::alloc::Global;

/// The replies that wait, and the writer that they are for.
#[derive(Drop)]
pub struct Output<'w, W> {
    /// The writer.
    pub writer: &'w mut W,
    /// The texts of the replies that wait.
    pub replies: Vec<u8>,
}

impl<'w, W: Sink> Output<'w, W> {
    /// No reply waits for this writer.
    pub fn new(alloc: Global, writer: &'w mut W) -> Output<'w, W>
        ensures same { result.writer.ghost_name ≡ writer.entry.ghost_name }
        ensures writer { result.writer.now ≡ writer.old }
        ensures empty { result.replies.items ≡ [] }
    {
        Output {
            writer,
            replies: Vec::new(alloc),
        }
    }

    /// Its writer. Replies that wait are lost.
    pub fn into_writer(self) -> &'w mut W
        ensures same { result.ghost_name ≡ self.entry.writer.ghost_name }
        ensures writer { result.now ≡ self.entry.writer.now }
    {
        let Output { writer, replies: _ } = self;
        writer
    }

    /// Puts a reply after those that wait, and writes them where they are many.
    ///
    /// Refused: `Write` where the writer failed or took none of the bytes given, `Memory`.
    pub fn put(&mut self, response: &Response) -> Result<(), RunFault>
        ensures same { self.new.writer.ghost_name ≡ self.old.writer.ghost_name }
        ensures cause { IfErr result (λ e. e ≡ RunFault.Write →
            (W.failed self.new.writer.now ≡ true) ⊎ (W.stalled self.new.writer.now ≡ true)) }
        ensures put { PutsText result (W.written self.old.writer.now) self.old.replies.items
            (W.written self.new.writer.now) self.new.replies.items
            (reply_text (response_of response.now)) }
    {
        if put_whole(&mut self.replies, response).is_err() {
            return Err(RunFault::Memory);
        }
        if self.replies.len() < GATHERED {
            return Ok(());
        }
        self.write_replies()
    }

    /// Writes the replies that wait; then none waits. Refused: `Write`.
    pub fn write_replies(&mut self) -> Result<(), RunFault>
        ensures same { self.new.writer.ghost_name ≡ self.old.writer.ghost_name }
        ensures cause { IfErr result (λ e. e ≡ RunFault.Write →
            (W.failed self.new.writer.now ≡ true) ⊎ (W.stalled self.new.writer.now ≡ true)) }
        ensures put { PutsText result (W.written self.old.writer.now) self.old.replies.items
            (W.written self.new.writer.now) self.new.replies.items
            [] }
        ensures empty { self.new.replies.items ≡ [] }
        ensures fault { IfErr result (λ e. e ≡ RunFault.Write) }
    {
        write_replies(&mut self.replies, self.writer)
    }

    /// Flushes the writer. Refused: `Write`.
    pub fn flush(&mut self) -> Result<(), RunFault>
        ensures same { self.new.writer.ghost_name ≡ self.old.writer.ghost_name }
        ensures cause { IfErr result (λ e. e ≡ RunFault.Write →
            (W.failed self.new.writer.now ≡ true) ⊎ (W.stalled self.new.writer.now ≡ true)) }
        ensures replies { self.new.replies.items ≡ self.old.replies.items }
        ensures bytes { HasTaken (W.written self.old.writer.now) (W.written self.new.writer.now)
            [] [] }
        ensures fault { IfErr result (λ e. e ≡ RunFault.Write) }
    {
        match self.writer.flush() {
            Ok(()) => Ok(()),
            Err(Failed) => Err(RunFault::Write),
        }
    }

    /// The answer of a run that met this fault. Unless it was the writer's, the waiting replies are
    /// written first, where a fault of the writer is then the answer, and the writer is flushed.
    pub fn close(&mut self, fault: RunFault) -> RunFault
        ensures same { self.new.writer.ghost_name ≡ self.old.writer.ghost_name }
        ensures cause { (fault ≡ RunFault.Write → (W.failed self.old.writer.now ≡ true)
            ⊎ (W.stalled self.old.writer.now ≡ true))
            → result ≡ RunFault.Write → (W.failed self.new.writer.now ≡ true)
            ⊎ (W.stalled self.new.writer.now ≡ true) }
        ensures closed { ClosesRun fault result (W.written self.old.writer.now)
            self.old.replies.items (W.written self.new.writer.now) }
    {
        if let RunFault::Write = fault {
            return fault;
        }
        if let Err(of_write) = self.write_replies() {
            return of_write;
        }
        let _ = self.flush();
        fault
    }
}

// Appends the text of a response to `out`. Where memory is wanting, `out` is then as it was.
fn put_whole(out: &mut Vec<u8>, response: &Response) -> Result<(), RunFault>
    ensures ok { OnOk result (out.new.items
        ≡ out.old.items ++ reply_text (response_of response.now)) }
    ensures err { OnErr result (out.new.items ≡ out.old.items) }
{
    let before = out.len();
    if put_reply(out, response).is_err() {
        out.truncate(before);
        return Err(RunFault::Memory);
    }
    Ok(())
}
