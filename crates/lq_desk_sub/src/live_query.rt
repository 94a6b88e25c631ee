//! The query of a subscription, with its names and number spans, which are looked up once.
ghost use Rattle.std.specs.Prelude.{◌≡◌, ◌<◌, ℕ, List, [], true, false, not, IfNone, IfOk, IfSome};
ghost use Rattle.lq_value.specs.Refusal.{FailsOnlyForMemory};
ghost use Rattle.lq_predicate.specs.Names.{names_of};
ghost use Rattle.lq_predicate.specs.Needs.{needs_attribute};
ghost use Rattle.lq_volume.specs.State.{record_at};
ghost use Rattle.lq_volume.specs.Change.{after, node_of};
ghost use Rattle.lq_update.specs.declared.open_options.Flags.{Flags};
ghost use Rattle.lq_update.specs.Touched.{is_match};
ghost use Rattle.lq_update.specs.Updates.{step_of};
ghost use Rattle.lq_desk_sub.specs.Passing.{HasEndings, are_written, ending_of, is_name_among, passes_over};

use crate::laws::passed_changes_tell_nothing;
use lq_predicate::{Predicate, Spans, names, needs_attribute};
use lq_update::{Flags, matches_of, matches_once, writes_cross_no_number};
use lq_value::{AttrName, Refusal, same_text};
use lq_volume::{Change, Planned};
use std::alloc::Global;
use std::marker::Model;

/// The query of a subscription, with the names in it and the spans of its numbers, which say of
/// many changes that they have no message.
#[derive(Drop)]
pub struct LiveQuery {
    predicate: Predicate,
    names: Vec<AttrName>,
    // A word with a bit for the ending of each name: a name whose bit is clear is none of them.
    endings: u64,
    // Whether a write alters what one of the query's names shows.
    sees_writes: bool,
    // The spans of the numbers that the query compares sizes and times with.
    spans: Spans,
}

impl Model for LiveQuery {
    ghost use Rattle.std.specs.Prelude.{◌≡◌};
    ghost use Rattle.lq_predicate.specs.Query.{Query};
    ghost use Rattle.lq_predicate.specs.Names.{names_of};
    ghost use Rattle.lq_predicate.specs.Spans.{spans_of};
    ghost use Rattle.lq_predicate.specs.QueryCode.{coded_query};
    ghost use Rattle.lq_desk_sub.specs.Passing.{HasEndings, are_written};

    ghost Value = { Query };

    ghost coded = { coded_query };

    ghost view = { λ q. q.predicate };

    ghost invariant = { λ q. (q.names.items ≡ names_of q.predicate)
        × HasEndings (names_of q.predicate) q.endings
        × (q.sees_writes ≡ are_written (names_of q.predicate))
        × (q.spans ≡ spans_of q.predicate) };
}

impl LiveQuery {
    /// A copy of a predicate, with its names and spans, which are looked up once here. Refused:
    /// `NoMemory`.
    pub fn new(alloc: Global, predicate: &Predicate) -> Result<LiveQuery, Refusal>
        ensures refused { FailsOnlyForMemory result }
        ensures value { IfOk result (λ query. query ≡ predicate.now) }
    {
        let names = names(alloc, predicate)?;
        let endings = endings_of(&names);
        let sees_writes = are_written(&names);
        Ok(LiveQuery {
            predicate: predicate.copy()?,
            names,
            endings,
            sees_writes,
            spans: Spans::new(predicate),
        })
    }

    /// The predicate.
    #[inline(always)]
    pub fn predicate(&self) -> &Predicate
        ensures { result.now ≡ self.now }
    {
        &self.predicate
    }

    /// Whether a write alters what one of the query's names shows.
    #[inline(always)]
    pub fn sees_writes(&self) -> bool
        ensures { result ≡ are_written (names_of self.now) }
    {
        self.sees_writes
    }

    /// Whether the query may match an entry without attributes, as each creation makes one.
    pub fn sees_creates(&self) -> bool
        ensures { result ≡ not (needs_attribute self.now) }
    {
        !needs_attribute(&self.predicate)
    }

    /// Whether one of the query's names may have an ending: `false` if none of them has it.
    #[inline(always)]
    pub fn may_name(&self, ending: usize) -> bool
        requires { ending < 64 }
        ensures { (name : List ℕ) → ending_of name ≡ ending → result ≡ false
            → is_name_among (names_of self.now) name ≡ false }
    {
        (self.endings >> ending) & 1 == 1
    }

    /// Whether the query matches the entry of a change's own node before the change, and after it,
    /// if the change may have messages for the query with these flags. It takes no memory.
    #[inline(always)]
    pub fn matches_around(&self, planned: &Planned<'_>, flags: Flags) -> Option<(bool, bool)>
        ensures none { (seq : ℕ) → IfNone result (step_of self.now flags
            planned.now.before planned.now.change seq ≡ []) }
        ensures before { IfSome result (λ asked. asked.0 ≡ is_match self.now
            (record_at planned.now.before (node_of planned.now.before planned.now.change))) }
        ensures after { IfSome result (λ asked. asked.1 ≡ is_match self.now
            (record_at (after planned.now.before planned.now.change)
            (node_of planned.now.before planned.now.change))) }
    {
        let matches = if self.shows_nothing(planned) {
            if !flags.values {
                return None;
            }
            matches_once(&self.predicate, planned)
        } else {
            matches_of(&self.predicate, planned)
        };
        if matches.may_have_messages(flags) {
            Some((matches.matched_before, matches.matches_after))
        } else {
            None
        }
    }

    // Whether a change has no message for the query, beside those of values, by the names and the
    // numbers that it alters.
    #[inline(always)]
    fn shows_nothing(&self, planned: &Planned<'_>) -> bool
        ensures { (flags : Flags) → (seq : ℕ) → result ≡ true → flags.values ≡ false
            → step_of self.now flags planned.now.before planned.now.change seq ≡ [] }
    {
        passed_changes_tell_nothing();
        // For its clauses `lawful` and `volume`.
        let _ = planned.applied();
        self.looks_elsewhere(planned.change()) || writes_cross_no_number(&self.spans, planned)
    }

    // Whether a change has no message for the query, by the names that it alters.
    #[inline(always)]
    fn looks_elsewhere(&self, change: &Change) -> bool
        ensures { result ≡ passes_over (names_of self.now) change.now }
    {
        match change {
            Change::Create { .. } | Change::Remove { .. } | Change::Move { .. } => false,
            Change::Write { .. } => !self.sees_writes,
            Change::SetAttr { attr, .. } | Change::RemoveAttr { attr, .. } => {
                !self.sees(attr.as_str())
            }
        }
    }

    // Whether a name is one of the query's. Most that aren't have another ending.
    #[inline(always)]
    fn sees(&self, name: &str) -> bool
        ensures { result ≡ is_name_among (names_of self.now) name.now }
    {
        self.may_name(ending_of(name)) && is_among(&self.names, name)
    }
}

// A word with a bit for the ending of each of these names.
fn endings_of(names: &[AttrName]) -> u64
    ensures { HasEndings names.now result }
{
    let mut endings = 0;
    for name in names {
        endings |= 1 << ending_of(name.as_str());
    }
    endings
}

/// The lowest six bits of a name's last byte.
#[inline(always)]
pub(crate) fn ending_of(name: &str) -> usize
    ensures value { result ≡ ending_of name.now }
    ensures few { result < 64 }
{
    match name.as_bytes().last() {
        None => 0,
        Some(byte) => (*byte % 64) as usize,
    }
}

// Whether a write alters what an entry shows under one of these names.
fn are_written(names: &[AttrName]) -> bool
    ensures { result ≡ are_written names.now }
{
    is_among(names, "size") || is_among(names, "last_modified")
}

// Whether a name is one of these.
#[inline(never)]
fn is_among(names: &[AttrName], name: &str) -> bool
    ensures { result ≡ is_name_among names.now name.now }
{
    names.iter().any(|other| same_text(name, other.as_str()))
}
