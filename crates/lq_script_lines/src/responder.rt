//! The responder to a script's lines, as a trait: this crate reads lines, and what answers them is
//! above.
ghost use Rattle.std.specs.Prelude.{◌≡◌, ◌++◌, IfErr, OnOk, OnErr};
ghost use mathlib.Core.List.{IsPrefix};
ghost use Rattle.lq_script_lines.specs.Lines.{Rules};

use lq_value::Refusal;

/// A responder to lines, one after another.
///
/// It gets lines without their LF and CR. It gets no empty line, and no bytes of a line that is too
/// long.
pub trait Responder {
    /// The state that the replies depend on.
    ghost State: { Type 0 };

    /// The state after the lines so far.
    ghost state: { Self → State };

    /// The reply to each line in each state, and the state after it.
    ghost rules: { Rules State };

    /// Appends the reply to this line to `out`, and moves on to the state after it.
    ///
    /// Refused: `NoMemory`; a part of the reply may be appended to `out` then.
    fn respond(&mut self, line: &[u8], out: &mut Vec<u8>) -> Result<(), Refusal>
        ensures ok { OnOk result (out.new.items
            ≡ out.old.items ++ rules.reply (state self.old) line.now) }
        ensures after { OnOk result (state self.new ≡ rules.after (state self.old) line.now) }
        ensures err { OnErr result (IsPrefix out.old.items out.new.items) }
        ensures memory { IfErr result (λ e. e ≡ Refusal.NoMemory) };

    /// Appends the reply to a line that is too long to `out`. The state stays the same.
    ///
    /// Refused: `NoMemory`; a part of the reply may be appended to `out` then.
    fn respond_long(&self, out: &mut Vec<u8>) -> Result<(), Refusal>
        ensures ok { OnOk result (out.new.items ≡ out.old.items ++ rules.long) }
        ensures err { OnErr result (IsPrefix out.old.items out.new.items) }
        ensures memory { IfErr result (λ e. e ≡ Refusal.NoMemory) };
}
