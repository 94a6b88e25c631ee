//! The part of an input that has come so far: the line in progress, and the counts that the limits
//! are on.
ghost use Rattle.std.specs.Prelude.{◌≡◌, ◌+◌, ◌++◌, ◌<◌, ◌≤◌, ℕ, List, [], ◌∷◌, length, false, true, IfErr, IsOk, OnOk, OnErr};
ghost use Rattle.lq_script_lines.specs.Lines.{IsUnbroken, given_line, line_of, reply_to, state_after, unended_line, without_cr};
ghost use Rattle.lq_script_lines.specs.Output.{IsWithinInput};
ghost use Rattle.lq_script_lines.specs.Progress.{HasCome, IsKeptLine};

use crate::responder::Responder;
use crate::run_fault::RunFault;
use std::alloc::Global;

/// The most bytes of a line, without its LF.
pub const MAX_LINE: usize = 65536;

/// The most lines of an input.
pub const MAX_LINES: u64 = 10000000;

/// The most bytes of an input.
pub const MAX_BYTES: u64 = 1073741824;

/// What ends a line.
pub const LF: u8 = 10;

const CR: u8 = 13;

/// The state of an input that has come so far.
#[derive(Drop)]
pub struct Intake {
    /// The bytes of the line in progress, if it isn't too long.
    pub line: Vec<u8>,
    /// Whether the line in progress is too long.
    pub long: bool,
    /// The number of lines that ended.
    pub lines: u64,
    /// The number of bytes that came.
    pub bytes: u64,
}

impl Intake {
    /// The state before any input.
    pub fn new(alloc: Global) -> Self
        ensures { HasCome [] result }
    {
        Intake {
            line: Vec::new(alloc),
            long: false,
            lines: 0,
            bytes: 0,
        }
    }

    /// How many bytes may come: 0 after 10,000,000 lines or 1,073,741,824 bytes.
    pub fn room(&self) -> usize
        ensures some { 0 < result
            → (self.now.lines < MAX_LINES) × (self.now.bytes + result ≡ MAX_BYTES) }

        // Without room one byte more is too much.
        ensures none { result ≡ 0 → (given : List ℕ) → HasCome given self.now
            → (next : ℕ) → ¬ IsWithinInput (given ++ next ∷ []) }
    {
        if self.lines >= MAX_LINES || self.bytes >= MAX_BYTES {
            return 0;
        }
        (MAX_BYTES - self.bytes) as usize
    }

    /// Appends the reply to the line in progress to `out`.
    ///
    /// Refused: `Memory`; `out` is then unchanged.
    pub fn answer<S: Responder>(&self, responder: &mut S, out: &mut Vec<u8>) -> Result<(), RunFault>
        ensures ok { OnOk result ((bytes : List ℕ)
            → IsKeptLine bytes self.now.long self.now.line.items
            → out.new.items ≡ out.old.items
            ++ reply_to S.rules (S.state responder.old) (line_of bytes)) }
        ensures after { OnOk result ((bytes : List ℕ)
            → IsKeptLine bytes self.now.long self.now.line.items
            → S.state responder.new ≡ state_after S.rules (S.state responder.old) (line_of bytes)) }
        ensures err { OnErr result (out.new.items ≡ out.old.items) }
        ensures memory { IfErr result (λ e. e ≡ RunFault.Memory) }

        // An empty line has no reply and takes no memory.
        ensures empty { self.now.long ≡ false → self.now.line.items ≡ [] → IsOk result }
    {
        if !self.long {
            return answer_line(&self.line, responder, out);
        }
        let before = out.len();
        if responder.respond_long(out).is_err() {
            out.truncate(before);
            return Err(RunFault::Memory);
        }
        Ok(())
    }

    /// Adds bytes without LF to the line in progress. A line that is too long takes no memory.
    ///
    /// Refused: `Memory`.
    pub fn keep(&mut self, run: &[u8]) -> Result<(), RunFault>
        requires lines { self.old.lines < MAX_LINES }
        requires bytes { self.old.bytes + length run.now ≤ MAX_BYTES }
        requires unbroken { IsUnbroken run.now }
        ensures come { OnOk result ((given : List ℕ) → HasCome given self.old
            → HasCome (given ++ run.now) self.new) }
        ensures memory { IfErr result (λ e. e ≡ RunFault.Memory) }
    {
        self.add_to_line(run)
    }

    /// Ends the line in progress, after these last bytes of it and an LF, and appends its reply to
    /// `out`.
    ///
    /// Refused: `Memory`; `out` is then unchanged.
    pub fn end_line<S: Responder>(
        &mut self,
        run: &[u8],
        responder: &mut S,
        out: &mut Vec<u8>,
    ) -> Result<(), RunFault>
        requires lines { self.old.lines < MAX_LINES }
        requires bytes { self.old.bytes + length run.now < MAX_BYTES }
        requires unbroken { IsUnbroken run.now }
        ensures come { OnOk result ((given : List ℕ) → HasCome given self.old
            → HasCome (given ++ (run.now ++ LF ∷ [])) self.new) }
        ensures ok { OnOk result ((given : List ℕ) → HasCome given self.old
            → out.new.items ≡ out.old.items
            ++ reply_to S.rules (S.state responder.old) (line_of (unended_line given ++ run.now))) }
        ensures after { OnOk result ((given : List ℕ) → HasCome given self.old
            → S.state responder.new
            ≡ state_after S.rules (S.state responder.old)
            (line_of (unended_line given ++ run.now))) }
        ensures err { OnErr result (out.new.items ≡ out.old.items) }
        ensures memory { IfErr result (λ e. e ≡ RunFault.Memory) }
    {
        self.answer_with(run, responder, out)?;
        self.line.clear();
        self.long = false;
        self.lines += 1;
        self.bytes += 1;
        Ok(())
    }

    // Appends the reply to the line in progress to `out`, after these last bytes of it.
    //
    // A line that is whole in `bytes` is answered from there, without a copy. Refused: `Memory`;
    // `out` is then unchanged.
    fn answer_with<S: Responder>(
        &mut self,
        bytes: &[u8],
        responder: &mut S,
        out: &mut Vec<u8>,
    ) -> Result<(), RunFault>
        requires { self.old.bytes + length bytes.now ≤ MAX_BYTES }
        ensures ok { OnOk result ((before : List ℕ)
            → IsKeptLine before self.old.long self.old.line.items
            → out.new.items ≡ out.old.items
            ++ reply_to S.rules (S.state responder.old) (line_of (before ++ bytes.now))) }
        ensures after { OnOk result ((before : List ℕ)
            → IsKeptLine before self.old.long self.old.line.items
            → S.state responder.new
            ≡ state_after S.rules (S.state responder.old) (line_of (before ++ bytes.now))) }
        ensures err { OnErr result (out.new.items ≡ out.old.items) }
        ensures memory { IfErr result (λ e. e ≡ RunFault.Memory) }
        ensures lines { self.new.lines ≡ self.old.lines }
        ensures bytes { OnOk result (self.new.bytes ≡ self.old.bytes + length bytes.now) }
    {
        if self.long || !self.line.is_empty() || bytes.len() > MAX_LINE {
            self.add_to_line(bytes)?;
            return self.answer(responder, out);
        }
        answer_line(bytes, responder, out)?;
        self.bytes += bytes.len() as u64;
        Ok(())
    }

    // Adds bytes to the line in progress.
    fn add_to_line(&mut self, bytes: &[u8]) -> Result<(), RunFault>
        requires { self.old.bytes + length bytes.now ≤ MAX_BYTES }
        ensures ok { OnOk result ((before : List ℕ)
            → IsKeptLine before self.old.long self.old.line.items
            → IsKeptLine (before ++ bytes.now) self.new.long self.new.line.items) }
        ensures memory { IfErr result (λ e. e ≡ RunFault.Memory) }
        ensures lines { self.new.lines ≡ self.old.lines }
        ensures bytes { OnOk result (self.new.bytes ≡ self.old.bytes + length bytes.now) }
    {
        if self.long || self.line.len() + bytes.len() > MAX_LINE {
            self.long = true;
        } else if self.line.extend_from_slice(bytes).is_err() {
            return Err(RunFault::Memory);
        }
        self.bytes += bytes.len() as u64;
        Ok(())
    }
}

/// Appends the reply to a line that isn't too long to `out`. An empty line has none.
fn answer_line<S: Responder>(
    line: &[u8],
    responder: &mut S,
    out: &mut Vec<u8>,
) -> Result<(), RunFault>
    ensures ok { OnOk result (out.new.items ≡ out.old.items
        ++ reply_to S.rules (S.state responder.old) (given_line (without_cr line.now))) }
    ensures after { OnOk result (S.state responder.new
        ≡ state_after S.rules (S.state responder.old) (given_line (without_cr line.now))) }
    ensures err { OnErr result (out.new.items ≡ out.old.items) }
    ensures memory { IfErr result (λ e. e ≡ RunFault.Memory) }
    ensures empty { line.now ≡ [] → IsOk result }
{
    let given = cut_cr(line);
    if given.is_empty() {
        return Ok(());
    }
    let before = out.len();
    if responder.respond(given, out).is_err() {
        out.truncate(before);
        return Err(RunFault::Memory);
    }
    Ok(())
}

/// The line without a single CR at its end.
pub fn cut_cr(line: &[u8]) -> &[u8]
    ensures { result.now ≡ without_cr line.now }
{
    let count = line.len();
    if count > 0 && line[count - 1] == CR {
        &line[..count - 1]
    } else {
        line
    }
}
