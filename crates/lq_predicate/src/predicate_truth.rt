//! Evaluates a predicate on a row.
ghost use Rattle.std.specs.Prelude.{◌≡◌};
ghost use Rattle.lq_predicate_formula.specs.Truth.{truth};

use crate::predicate::Predicate;
use lq_predicate_formula::Row;

/// Whether the row matches the predicate. It takes no memory.
///
/// A comparison of an attribute that the row lacks is false, also with `Ne`, as in BQuery.
pub fn holds<R: Row>(predicate: &Predicate, row: &R) -> bool
    ensures { result ≡ truth predicate.now (R.looks row.now) }
{
    predicate.tree().is_true_of(row)
}
