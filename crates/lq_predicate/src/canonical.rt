//! Writes a predicate as its canonical text, which reads as the same predicate.
ghost use Rattle.std.specs.Prelude.{◌≡◌, IfOk, IsTrue};
ghost use Rattle.std.specs.String.{string_bytes};
ghost use Rattle.lq_value.specs.Refusal.{FailsOnlyForMemory};
ghost use Rattle.lq_predicate_formula.specs.Canonical.{canonical};
ghost use Rattle.lq_predicate_formula.specs.Faults.{Reads};
ghost use Rattle.lq_predicate_formula.specs.PredicateLimits.{is_predicate};

use crate::predicate::Predicate;
use lq_predicate_formula::canonical_is_read;
use lq_value::Refusal;
use std::alloc::Global;

/// The canonical text of a predicate.
///
/// Each comparison, `And` and `Or` stands in parentheses and each literal between `"` marks. White
/// space occurs only inside names and literals. The text has at most 4,096 bytes, by the limits of
/// a predicate, and `read` gives the same predicate for it. Refused: `NoMemory`.
pub fn write(alloc: Global, predicate: &Predicate) -> Result<String, Refusal>
    ensures valid { IsTrue (is_predicate predicate.now) }
    ensures value { IfOk result (λ text. string_bytes text ≡ canonical predicate.now) }
    ensures reads { IfOk result (λ text. Reads (string_bytes text) predicate.now) }
    ensures refused { FailsOnlyForMemory result }
{
    canonical_is_read();
    let mut out = String::new(alloc);
    predicate.tree().put(&mut out)?;
    Ok(out)
}
