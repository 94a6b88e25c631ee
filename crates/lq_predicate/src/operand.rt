//! A text on the stack, read as a pattern once, before an operator needs it.
ghost use Rattle.std.specs.Prelude.{◌≡◌, IfOk, IfSome};
ghost use Rattle.std.specs.Option.{option_copied};
ghost use Rattle.lq_value.specs.Refusal.{FailsOnlyForMemory};

use lq_predicate_formula::patterns_are_good;
use lq_value::{Pattern, Refusal, Text};
use std::alloc::Global;
use std::marker::Model;

/// A text that waits for its operator, with the pattern that it writes, if it writes one. With the
/// pattern at hand, testing whether an operator fits takes no memory.
///
/// Contracts see it as the text's bytes.
#[derive(Drop)]
pub struct Operand {
    text: Text,
    pattern: Option<Pattern>,
}

impl Model for Operand {
    ghost use Rattle.std.specs.Prelude.{◌≡◌, ℕ, List, IfSome};
    ghost use Rattle.lq_predicate_formula.specs.Limits.{IsGoodPattern};
    ghost use Rattle.lq_predicate.specs.Operand.{pattern_in};

    ghost Value = { List ℕ };

    ghost view = { λ operand. operand.text };

    ghost invariant = { λ operand. (operand.pattern ≡ pattern_in operand.text)
        × IfSome operand.pattern IsGoodPattern };
}

impl Operand {
    ghost use Rattle.lq_predicate_formula.specs.Limits.{IsGoodPattern};
    ghost use Rattle.lq_predicate.specs.Operand.{pattern_in};

    /// The operand with this text. Refused: `NoMemory`.
    pub fn read(alloc: Global, text: &str) -> Result<Operand, Refusal>
        ensures refused { FailsOnlyForMemory result }
        ensures value { IfOk result (λ operand. operand ≡ text.now) }
    {
        patterns_are_good();
        let pattern = match Pattern::read(alloc, text) {
            Ok(pattern) => Some(pattern),
            Err(Refusal::NoMemory) => return Err(Refusal::NoMemory),
            Err(_) => None,
        };
        Ok(Operand {
            text: Text::new(String::from_str(alloc, text)?),
            pattern,
        })
    }

    /// The text. It takes no memory.
    pub fn as_str(&self) -> &str
        ensures { result.now ≡ self.now }
    {
        self.text.as_str()
    }

    /// The pattern that the text writes, if it writes one. It takes no memory.
    pub fn pattern(&self) -> Option<&Pattern>
        ensures value { option_copied result ≡ pattern_in self.now }
        ensures good { IfSome result (λ pattern. IsGoodPattern pattern.now) }
    {
        self.pattern.as_ref()
    }
}
