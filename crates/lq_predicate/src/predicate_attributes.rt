//! The attributes of a predicate: their names, and whether it needs one.
ghost use Rattle.std.specs.Prelude.{◌≡◌, IfOk};
ghost use Rattle.lq_value.specs.Refusal.{FailsOnlyForMemory};
ghost use Rattle.lq_predicate_formula.specs.Names.{names_of};
ghost use Rattle.lq_predicate_formula.specs.Needs.{needs_attribute};

use crate::predicate::Predicate;
use lq_value::{AttrName, Refusal};
use std::alloc::Global;

/// The names of the attributes that the predicate compares: each once, in the order of first use
/// from the left. Refused: `NoMemory`.
pub fn names(alloc: Global, predicate: &Predicate) -> Result<Vec<AttrName>, Refusal>
    ensures refused { FailsOnlyForMemory result }
    ensures value { IfOk result (λ names. names.items ≡ names_of predicate.now) }
{
    let mut names = Vec::new(alloc);
    predicate.tree().add_names(alloc, &mut names)?;
    Ok(names)
}

/// Whether the predicate needs an attribute other than `name`, `size` and `last_modified`: if so,
/// it doesn't hold for a row that has none (`bare_rows_fail`). It takes no memory.
///
/// A comparison needs its attribute. An `And` needs one where one of its parts does, an `Or` where
/// all of them do, and a `Not` never does. Where the answer is false, the predicate may or may not
/// hold for these rows.
pub fn needs_attribute(predicate: &Predicate) -> bool
    ensures { result ≡ needs_attribute predicate.now }
{
    predicate.tree().needs_attribute()
}
