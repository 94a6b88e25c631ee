//! What a change takes from a query's result and brings into it at its own node.
ghost use Rattle.std.specs.Prelude.{◌≡◌, ℕ, ◌&&◌, false, [], IfOk, is_some};
ghost use Rattle.std.specs.Option.{option_copied};
ghost use Rattle.lq_value.specs.Refusal.{FailsOnlyForMemory};
ghost use Rattle.lq_volume.specs.Change.{after, node_of};
ghost use Rattle.lq_volume.specs.Laws.{ChangesKeepTrees, ClobberedGo, UntouchedStay};
ghost use Rattle.lq_update.specs.Touched.{entry_at, left_at};
ghost use Rattle.lq_update.specs.Updates.{step_of};
ghost use Rattle.lq_update.specs.Values.{value_written};

use crate::matches::Matches;
use crate::open_options::Flags;
use crate::values::writes_value;
use lq_value::{Entry, Refusal};
use lq_volume::{EntryRow, accepted_changes_keep_trees, clobbered_nodes_go, untouched_nodes_stay};
use std::alloc::Global;

impl<'s, 'a> Matches<'s, 'a> {
    /// Whether the change may have messages for the query with these flags: if false, `put_step`
    /// puts none.
    ///
    /// As the code says, it reads only the entries in the plan. It takes no memory.
    #[inline(always)]
    pub fn may_have_messages(&self, flags: Flags) -> bool
        ensures { (seq : ℕ) → result ≡ false → step_of self.now.predicate.now flags
            self.now.planned.now.before self.now.planned.now.change seq ≡ [] }
    {
        changes_touch_few();
        // For its clauses `lawful` and `volume`.
        let _ = self.planned.applied();
        if self.matched_before != self.matches_after || self.planned.clobbered().is_some() {
            return true;
        }
        if !self.matched_before {
            return false;
        }
        if flags.values && self.tells_value() {
            return true;
        }
        let (left, came) = self.difference();
        left.is_some() || came.is_some()
    }

    // Whether the change writes a value of an entry that matches before and after.
    #[inline(always)]
    pub(crate) fn tells_value(&self) -> bool
        ensures { result ≡ self.now.matched_before && self.now.matches_after
            && is_some (value_written self.now.planned.now.change) }
    {
        self.matched_before && self.matches_after && writes_value(self.planned.change())
    }

    // What left the result at the change's own node, and what came into it there: nothing where the
    // entry matches before and after, at one place.
    #[inline(always)]
    pub(crate) fn difference(&self) -> (Option<&'s EntryRow<'a>>, Option<&'s EntryRow<'a>>)
        ensures removed { entry_at
            (node_of self.now.planned.now.before self.now.planned.now.change)
            (option_copied result.0) ≡ left_at self.now.predicate.now self.now.planned.now.before
            (after self.now.planned.now.before self.now.planned.now.change)
            (node_of self.now.planned.now.before self.now.planned.now.change) }
        ensures created { entry_at
            (node_of self.now.planned.now.before self.now.planned.now.change)
            (option_copied result.1) ≡ left_at self.now.predicate.now
            (after self.now.planned.now.before self.now.planned.now.change)
            self.now.planned.now.before
            (node_of self.now.planned.now.before self.now.planned.now.change) }
    {
        let old = if self.matched_before {
            self.planned.entry_before()
        } else {
            None
        };
        let new = if self.matches_after {
            self.planned.entry_after()
        } else {
            None
        };
        match (old, new) {
            (Some(left), Some(came)) if left.shares_place(came) => (None, None),
            (old, new) => (old, new),
        }
    }
}

// A change keeps the tree, and alters at most its own node and the one that it removes.
pub(crate) fn changes_touch_few()
    ensures trees { ChangesKeepTrees }
    ensures stay { UntouchedStay }
    ensures go { ClobberedGo }
{
    accepted_changes_keep_trees();
    untouched_nodes_stay();
    clobbered_nodes_go();
}

// The entry at a node, from a view of it.
pub(crate) fn copied(
    alloc: Global,
    view: Option<&EntryRow<'_>>,
    node: u64,
) -> Result<Option<Entry>, Refusal>
    ensures refused { FailsOnlyForMemory result }
    ensures value { IfOk result (λ entry. entry ≡ entry_at node (option_copied view.entry)) }
{
    match view {
        None => Ok(None),
        Some(view) => Ok(Some(view.entry(alloc, node)?)),
    }
}
