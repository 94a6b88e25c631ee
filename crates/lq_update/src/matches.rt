//! Asks a query of a planned change's own entry before and after it, so that no caller asks twice.
ghost use Rattle.std.specs.Prelude.{◌≡◌, ℕ, [], false};
ghost use Rattle.std.specs.Option.{option_copied};
ghost use Rattle.lq_volume.specs.State.{record_at};
ghost use Rattle.lq_volume.specs.Change.{after, node_of};
ghost use Rattle.lq_update.specs.Options.{no_values};
ghost use Rattle.lq_update.specs.Touched.{is_match};
ghost use Rattle.lq_update.specs.Updates.{step_of};

use crate::laws::quiet_changes_keep_matches;
use lq_predicate::{Predicate, holds};
use lq_volume::{EntryRow, Planned};

/// A query that was asked of a planned change: whether it matches the entry of the change's own
/// node before the change, and after it.
///
/// `matches_of` and `matches_once` ask it.
#[derive(Clone, Copy)]
pub struct Matches<'s, 'a> {
    /// The query.
    pub predicate: &'s Predicate,
    /// The change, with what it touches.
    pub planned: &'s Planned<'a>,
    /// Whether the query matches the entry as it is before the change.
    pub matched_before: bool,
    /// Whether the query matches the entry as it is after the change.
    pub matches_after: bool,
    ghost asked_before: { matched_before ≡ is_match predicate.now (record_at planned.now.before
        (node_of planned.now.before planned.now.change)) },
    ghost asked_after: { matches_after ≡ is_match predicate.now (record_at
        (after planned.now.before planned.now.change)
        (node_of planned.now.before planned.now.change)) },
}

/// Asks a query of the entry of a planned change's own node, before the change and after it.
///
/// As the code says, it reads only the entries in the plan. It takes no memory.
#[inline(always)]
pub fn matches_of<'s, 'a>(predicate: &'s Predicate, planned: &'s Planned<'a>) -> Matches<'s, 'a>
    ensures query { result.predicate.now ≡ predicate.now }
    ensures plan { result.planned.now ≡ planned.entry.now }
{
    Matches {
        predicate,
        planned,
        matched_before: is_matched(predicate, planned.entry_before()),
        matches_after: is_matched(predicate, planned.entry_after()),
    }
}

/// Asks a query of the entry of a planned change's own node, once for before the change and after
/// it.
///
/// The change has no message for the query, beside those of values. It takes no memory.
#[inline(always)]
pub fn matches_once<'s, 'a>(predicate: &'s Predicate, planned: &'s Planned<'a>) -> Matches<'s, 'a>
    requires quiet { (seq : ℕ) → step_of predicate.now (no_values false)
        planned.now.before planned.now.change seq ≡ [] }
    ensures query { result.predicate.now ≡ predicate.now }
    ensures plan { result.planned.now ≡ planned.entry.now }
{
    quiet_changes_keep_matches();
    // For its clauses `lawful` and `volume`.
    let _ = planned.applied();
    let matches = is_matched(predicate, planned.entry_before());
    Matches {
        predicate,
        planned,
        matched_before: matches,
        matches_after: matches,
    }
}

// Whether the query matches an entry, if there is one.
#[inline(always)]
fn is_matched(predicate: &Predicate, row: Option<&EntryRow<'_>>) -> bool
    ensures { result ≡ is_match predicate.now (option_copied row.entry) }
{
    match row {
        None => false,
        Some(row) => holds(predicate, row),
    }
}
