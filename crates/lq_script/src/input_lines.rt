//! The whole lines of an input, a piece at a time.
ghost use Rattle.std.specs.Prelude.{◌≡◌, ◌≢◌, ◌++◌, ℕ, List, [], IfErr, IsErrOf, OnOk, ◌⊎◌};
ghost use Rattle.lq_script_lines.specs.Progress.{HasCome};
ghost use Rattle.lq_script.specs.Input.{HandsEnded, HandsPart, PassesIn, ReadsOn};

use lq_script_lines::{BLOCK, Intake, Responder, RunFault, Source, lines_grow, run_at};
use lq_value::Refusal;
use std::alloc::Global;

/// Cuts each piece of the input into the lines that end in it.
#[derive(Drop)]
pub struct Lines {
    pub(crate) intake: Intake,
    pub(crate) given: Vec<u8>,
}

impl Lines {
    /// Nothing was read.
    pub fn new(alloc: Global) -> Lines
        ensures { HasCome [] result.intake }
    {
        Lines {
            intake: Intake::new(alloc),
            given: Vec::new(alloc),
        }
    }

    /// Reads once, and answers whether the input may go on.
    ///
    /// Refused: `Read` where the reader failed, `Limit` where a byte follows 10,000,000 lines or
    /// 1,073,741,824 bytes, `Memory`; the lines that ended before that are given all the same.
    pub fn read<R: Source>(&mut self, reader: &mut R) -> Result<bool, RunFault>
        ensures fault { IfErr result (λ e. e ≢ RunFault.Write) }
        ensures reads { (given : List ℕ) → HasCome given self.old.intake
            → ReadsOn result given (R.left reader.old) (R.left reader.new) (R.failed reader.new)
            self.new.intake self.new.given.items }
    {
        self.given.clear();
        let mut block = [0u8; BLOCK];
        let Ok(count) = reader.read(&mut block) else {
            return Err(RunFault::Read);
        };
        if count == 0 {
            self.intake.answer(&mut Echo, &mut self.given)?;
            // For the proof: which line is the last one of an input.
            lines_grow();
            return Ok(false);
        }
        self.take(&block[..count])?;
        Ok(true)
    }

    /// The lines that ended in the latest read, each with LF, without the empty ones. LF alone
    /// stands for a line that was too long.
    pub fn given(&self) -> &[u8]
        ensures { result.now ≡ self.now.given.items }
    {
        &self.given
    }

    // Takes a piece of the input, and hands on the lines that end in it.
    fn take(&mut self, piece: &[u8]) -> Result<(), RunFault>
        ensures come { OnOk result ((given : List ℕ) → HasCome given self.old.intake
            → HasCome (given ++ piece.now) self.new.intake) }
        ensures hands { OnOk result ((given : List ℕ) → HasCome given self.old.intake
            → HandsEnded given (given ++ piece.now) self.old.given.items self.new.given.items) }
        ensures limit { IsErrOf result RunFault.Limit → (given : List ℕ)
            → HasCome given self.old.intake
            → PassesIn given piece.now self.old.given.items self.new.given.items }
        ensures memory { IsErrOf result RunFault.Memory → (given : List ℕ)
            → HasCome given self.old.intake
            → HandsPart given piece.now self.old.given.items self.new.given.items }
        ensures fault { IfErr result (λ e. (e ≡ RunFault.Limit) ⊎ (e ≡ RunFault.Memory)) }
    {
        // For the proof: which lines end in the piece.
        lines_grow();
        let mut at = 0;
        while at < piece.len() {
            let room = self.intake.room();
            if room == 0 {
                return Err(RunFault::Limit);
            }
            let run = run_at(piece, at, room);
            at += run.len();
            if at < piece.len() && run.len() < room {
                self.intake.end_line(run, &mut Echo, &mut self.given)?;
                at += 1;
            } else {
                self.intake.keep(run)?;
            }
        }
        Ok(())
    }
}

/// Answers each line with the line itself and LF, and a line that is too long with LF alone.
#[derive(Drop)]
struct Echo;

impl Responder for Echo {
    ghost use Rattle.std.specs.Prelude.{ℕ, [], ◌∷◌, ◌++◌};

    ghost State = { ℕ };

    ghost state = { λ _. 0 };

    ghost rules = { record {
      reply = λ _ line. line ++ 10 ∷ [];
      after = λ state _. state;
      long = 10 ∷ [];
    } };

    fn respond(&mut self, line: &[u8], out: &mut Vec<u8>) -> Result<(), Refusal> {
        out.extend_from_slice(line)?;
        out.push(b'\n')?;
        Ok(())
    }

    fn respond_long(&self, out: &mut Vec<u8>) -> Result<(), Refusal> {
        out.push(b'\n')?;
        Ok(())
    }
}
