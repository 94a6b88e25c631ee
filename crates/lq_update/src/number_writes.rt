//! Finds writes that stay on one side of all numbers of a query: they have no message, and the
//! query isn't asked.
ghost use Rattle.std.specs.Prelude.{◌≡◌, ℕ, true, false, []};
ghost use Rattle.lq_predicate.specs.Query.{Query};
ghost use Rattle.lq_predicate.specs.Spans.{spans_of};
ghost use Rattle.lq_update.specs.declared.open_options.Flags.{Flags};
ghost use Rattle.lq_update.specs.Updates.{step_of};

use crate::difference::changes_touch_few;
use lq_predicate::{Spans, truth_stays_beside_spans};
use lq_volume::Planned;

/// True only where `step_planned` gives no message of a planned change for a query of these spans
/// without messages of values.
///
/// As the code says, it is true of a write whose old and new size are below all numbers that the
/// query compares sizes with, or above all, and likewise for the times. It reads the predicate's
/// `Spans`, not the predicate. It takes no memory.
#[inline(always)]
pub fn writes_cross_no_number(spans: &Spans, planned: &Planned<'_>) -> bool
    ensures { (q : Query) → (flags : Flags) → (seq : ℕ) → result ≡ true → flags.values ≡ false
        → spans.now ≡ spans_of q
        → step_of q flags planned.now.before planned.now.change seq ≡ [] }
{
    truth_stays_beside_spans();
    changes_touch_few();
    // For its clauses `lawful` and `volume`.
    let _ = planned.applied();
    let Some(numbers) = planned.written() else {
        return false;
    };
    spans.is_beside_sizes(numbers.old_size, numbers.new_size)
        && spans.is_beside_times(numbers.old_time, numbers.new_time)
}
