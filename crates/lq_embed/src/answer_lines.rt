//! Answers a script's lines, for a caller who mixes them with typed calls; the reply is the text
//! that is kept.
ghost use Rattle.std.specs.Prelude.{◌≡◌, IfErr, OnOk};
ghost use Rattle.lq_value.specs.declared.refusal.Refusal.TheVariants.{NoMemory};
ghost use Rattle.lq_script_lines.specs.Lines.{line_of, reply_to, state_after};
ghost use Rattle.lq_script_desk.specs.Script.{world_rules};
ghost use Rattle.lq_script_desk.specs.History.{request_of};
ghost use Rattle.lq_script_desk.specs.Turned.{TurnedByLine};
ghost use Rattle.lq_embed.specs.SessionState.{holds, with_session, with_text};

use crate::embedded::Embedded;
use lq_script_lines::{MAX_LINE, Responder, cut_cr};
use lq_value::Refusal;

impl Embedded {
    /// Answers a line of a script, without its LF, as `run` answers it: the text of the reply is
    /// kept. An empty line has none.
    ///
    /// Refused: `NoMemory`. No clause says then what the text is, or whether the line's event was
    /// carried out; where it was, a rebuilt result that lacks what it read is dropped.
    pub fn answer(&mut self, line: &[u8]) -> Result<(), Refusal>
        ensures text { OnOk result ((holds self.new).text
            ≡ reply_to world_rules (holds self.old).session (line_of line.now)) }
        ensures after { OnOk result ((holds self.new).session
            ≡ state_after world_rules (holds self.old).session (line_of line.now)) }
        ensures memory { IfErr result (λ e. e ≡ NoMemory) }
        ensures turned { TurnedByLine (holds self.old).session (holds self.new).session
            result (request_of (line_of line.now)) }
        ensures beside { holds self.new
            ≡ with_text (with_session (holds self.old) (holds self.new).session)
            (holds self.new).text }
    {
        self.text.clear();
        if line.len() > MAX_LINE {
            return self.session.respond_long(&mut self.text);
        }
        let line = cut_cr(line);
        if line.is_empty() {
            return Ok(());
        }
        self.session.respond(line, &mut self.text)
    }

    /// The text of the last line's reply, or of a path. It takes no memory.
    pub fn text(&self) -> &[u8]
        ensures { result.now ≡ (holds self.now).text }
    {
        &self.text
    }
}
