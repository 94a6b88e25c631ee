//! The messages of one change, by the node that it touches.
ghost use Rattle.std.specs.Prelude.{◌≡◌, [], ◌∷◌, ◌+◌, ◌<◌, ◌≤◌, ◌^◌, ◌++◌, IfOk, OnOk, OnErr, vec_len};
ghost use Rattle.std.specs.Option.{option_copied};
ghost use Rattle.std.specs.VecDeque.{deque_len, deque_capacity};
ghost use Rattle.lq_value.specs.Refusal.{FailsOnlyForMemory};
ghost use Rattle.lq_volume.specs.Change.{after, node_of, IsLawful};
ghost use Rattle.lq_volume.specs.Result.{entry_if, entry_of};
ghost use Rattle.lq_update.specs.Diff.{diff};
ghost use Rattle.lq_update.specs.Options.{no_values};
ghost use Rattle.lq_update.specs.Updates.{numbered, step_of};
ghost use Rattle.lq_update.specs.Values.{values_told};
ghost use Rattle.lq_update.specs.Touched.{entry_at, left_at};

use crate::difference::{changes_touch_few, copied};
use crate::matches::{Matches, matches_of};
use crate::message::{Message, Opcode};
use crate::message_list::{join, message, put_all};
use crate::open_options::Flags;
use crate::values::written_attribute;
use lq_predicate::{Predicate, holds};
use lq_value::{Entry, Refusal};
use lq_volume::{Applied, Change, EntryRow, Planned, Volume};
use std::alloc::Global;
use std::collections::VecDeque;

/// The most messages of one change for one query.
pub const MAX_STEP: usize = 3;

/// The messages of an accepted change for a query, by the match step of Practical File System
/// Design.
///
/// First the removed entries by rising node, then the moved, then the created ones. With `moved`,
/// one moved message replaces a removed and a created one of the same node; else there is none.
/// `change` is the number of this change, `seq` counts from `first_seq`, and `last` is true on the
/// final message. Refused: `NoMemory`. It changes nothing. `step_by` also gives messages of values.
pub fn step(
    alloc: Global,
    predicate: &Predicate,
    before: &Volume,
    change: &Change,
    first_seq: u64,
    moved: bool,
) -> Result<Vec<Message>, Refusal>
    requires lawful { IsLawful before.now change.now }
    requires room { first_seq + 2 < 2 ^ 64 }
    ensures refused { FailsOnlyForMemory result }
    ensures messages { IfOk result (λ messages. messages.items
        ≡ step_of predicate.now (no_values moved) before.now change.now first_seq) }
    ensures few { IfOk result (λ messages. vec_len messages ≤ 3) }
{
    step_by(
        alloc,
        predicate,
        before,
        change,
        first_seq,
        Flags::without_values(moved),
    )
}

/// The messages of an accepted change for a query with these flags.
///
/// They are those of `step` with `flags.moved`. With `flags.values`, a write, or setting or
/// removing an attribute, also gives one message `ValueChanged` of an entry that is in the result
/// before and after it; then it is the only one. Refused: `NoMemory`. It changes nothing. For a
/// planned change call `step_planned`, which doesn't check the change again.
pub fn step_by(
    alloc: Global,
    predicate: &Predicate,
    before: &Volume,
    change: &Change,
    first_seq: u64,
    flags: Flags,
) -> Result<Vec<Message>, Refusal>
    requires lawful { IsLawful before.now change.now }
    requires room { first_seq + 2 < 2 ^ 64 }
    ensures refused { FailsOnlyForMemory result }
    ensures messages { IfOk result (λ messages. messages.items
        ≡ step_of predicate.now flags before.now change.now first_seq) }
    ensures few { IfOk result (λ messages. vec_len messages ≤ 3) }
{
    let planned = before.plan(change)?;
    step_planned(alloc, predicate, &planned, first_seq, flags)
}

/// The messages of a planned change for a query, as `step_by` gives them for the plan's volume and
/// change.
///
/// As the code says, it reads only the entries in the plan, and takes memory only for its
/// messages, room for three at once. Refused: `NoMemory`. It changes nothing. To put them into a
/// queue that has room for them, call `Matches::put_step`.
pub fn step_planned(
    alloc: Global,
    predicate: &Predicate,
    planned: &Planned<'_>,
    first_seq: u64,
    flags: Flags,
) -> Result<Vec<Message>, Refusal>
    requires room { first_seq + 2 < 2 ^ 64 }
    ensures refused { FailsOnlyForMemory result }
    ensures messages { IfOk result (λ messages. messages.items
        ≡ step_of predicate.now flags planned.now.before planned.now.change first_seq) }
    ensures few { IfOk result (λ messages. vec_len messages ≤ 3) }
{
    let mut messages = VecDeque::with_capacity(alloc, MAX_STEP)?;
    let matches = matches_of(predicate, planned);
    matches.put_step(alloc, first_seq, flags, &mut messages)?;
    Ok(messages.into_vec())
}

impl<'s, 'a> Matches<'s, 'a> {
    /// Puts the messages of the change for the query behind those in a queue with room for three
    /// more.
    ///
    /// They are those of `step_planned`. Where there mostly is none, ask `may_have_messages` first.
    /// As the code says, it takes memory for names alone. Refused: `NoMemory`; then the queue stays
    /// as it was.
    #[inline(always)]
    pub fn put_step(
        &self,
        alloc: Global,
        first_seq: u64,
        flags: Flags,
        messages: &mut VecDeque<Message>,
    ) -> Result<(), Refusal>
        requires numbers { first_seq + 2 < 2 ^ 64 }
        requires room { deque_len messages.old + 3 ≤ deque_capacity messages.old }
        ensures refused { FailsOnlyForMemory result }
        ensures ok { OnOk result (messages.new.items ≡ messages.old.items ++ step_of
            self.now.predicate.now flags self.now.planned.now.before self.now.planned.now.change
            first_seq) }
        ensures err { OnErr result (messages.new.items ≡ messages.old.items) }
        ensures few { deque_len messages.new ≤ deque_len messages.old + 3 }
        ensures capacity { deque_capacity messages.new ≡ deque_capacity messages.old }
    {
        changes_touch_few();
        let (left, came) = self.difference();
        let made = self.planned.applied();
        match (left, came, self.planned.clobbered()) {
            (Some(left), None, None) => {
                put_one(alloc, messages, Opcode::Removed, left, made, first_seq)
            }
            (None, Some(came), None) => {
                put_one(alloc, messages, Opcode::Created, came, made, first_seq)
            }
            (None, None, None) => {
                if flags.values {
                    self.put_value(alloc, first_seq, messages)
                } else {
                    Ok(())
                }
            }
            _ => self.put_joined(alloc, left, came, first_seq, flags.moved, messages),
        }
    }

    // Puts the message of the value that the change writes, if the entry matches before and after.
    #[inline(never)]
    fn put_value(
        &self,
        alloc: Global,
        seq: u64,
        messages: &mut VecDeque<Message>,
    ) -> Result<(), Refusal>
        requires { deque_len messages.old < deque_capacity messages.old }
        ensures refused { FailsOnlyForMemory result }
        ensures ok { OnOk result (messages.new.items ≡ messages.old.items ++ numbered seq
            (self.now.planned.now.before.number + 1) (values_told self.now.predicate.now
            self.now.planned.now.before self.now.planned.now.change)) }
        ensures err { OnErr result (messages.new.items ≡ messages.old.items) }
        ensures few { deque_len messages.new ≤ deque_len messages.old + 1 }
        ensures capacity { deque_capacity messages.new ≡ deque_capacity messages.old }
    {
        if !self.tells_value() {
            return Ok(());
        }
        let Some(view) = self.planned.entry_after() else {
            return Ok(());
        };
        let attribute = written_attribute(alloc, self.planned.change())?;
        let op = Opcode::ValueChanged { attribute };
        put_one(alloc, messages, op, view, self.planned.applied(), seq)
    }

    // Puts the messages for what left and came at the change's own node, joined with those for the
    // node that the change removes, if any.
    #[inline(never)]
    fn put_joined(
        &self,
        alloc: Global,
        left: Option<&EntryRow<'_>>,
        came: Option<&EntryRow<'_>>,
        first_seq: u64,
        moved: bool,
        messages: &mut VecDeque<Message>,
    ) -> Result<(), Refusal>
        requires numbers { first_seq + 2 < 2 ^ 64 }
        requires room { deque_len messages.old + 3 ≤ deque_capacity messages.old }
        requires removed { entry_at (node_of self.now.planned.now.before
            self.now.planned.now.change) (option_copied left)
            ≡ left_at self.now.predicate.now self.now.planned.now.before
            (after self.now.planned.now.before self.now.planned.now.change)
            (node_of self.now.planned.now.before self.now.planned.now.change) }
        requires created { entry_at (node_of self.now.planned.now.before
            self.now.planned.now.change) (option_copied came)
            ≡ left_at self.now.predicate.now
            (after self.now.planned.now.before self.now.planned.now.change)
            self.now.planned.now.before
            (node_of self.now.planned.now.before self.now.planned.now.change) }
        ensures refused { FailsOnlyForMemory result }
        ensures ok { OnOk result (messages.new.items ≡ messages.old.items ++ numbered first_seq
            (self.now.planned.now.before.number + 1) (diff self.now.predicate.now moved
            self.now.planned.now.before
            (after self.now.planned.now.before self.now.planned.now.change))) }
        ensures err { OnErr result (messages.new.items ≡ messages.old.items) }
        ensures few { deque_len messages.new ≤ deque_len messages.old + 3 }
        ensures capacity { deque_capacity messages.new ≡ deque_capacity messages.old }
    {
        changes_touch_few();
        let made = self.planned.applied();
        let left = copied(alloc, left, made.node)?;
        let came = copied(alloc, came, made.node)?;
        let (removed, last) = join(moved, left, came);
        let (low, high) = match self.planned.clobbered() {
            None => (removed, None),
            Some((node, view)) => {
                let gone = gone_of(alloc, self.predicate, view, node)?;
                if node < made.node {
                    (gone, removed)
                } else {
                    (removed, gone)
                }
            }
        };
        put_all(messages, low, high, last, made.change, first_seq);
        Ok(())
    }
}

// Puts the only message of a change, for the change's own node.
#[inline(always)]
fn put_one(
    alloc: Global,
    messages: &mut VecDeque<Message>,
    op: Opcode,
    view: &EntryRow<'_>,
    made: Applied,
    seq: u64,
) -> Result<(), Refusal>
    requires { deque_len messages.old < deque_capacity messages.old }
    ensures refused { FailsOnlyForMemory result }
    ensures ok { OnOk result (messages.new.items ≡ messages.old.items
        ++ numbered seq made.change ((op, entry_of (made.node, view.now)) ∷ [])) }
    ensures err { OnErr result (messages.new.items ≡ messages.old.items) }
    ensures few { deque_len messages.new ≤ deque_len messages.old + 1 }
    ensures capacity { deque_capacity messages.new ≡ deque_capacity messages.old }
{
    let entry = view.entry(alloc, made.node)?;
    messages.push_back_reserved(message(op, entry, made.change, seq, true));
    Ok(())
}

// The entry of the node that a change removes, if it matched.
#[inline(always)]
fn gone_of(
    alloc: Global,
    predicate: &Predicate,
    view: &EntryRow<'_>,
    node: u64,
) -> Result<Option<Entry>, Refusal>
    ensures refused { FailsOnlyForMemory result }
    ensures value { IfOk result (λ gone. gone ≡ entry_if predicate.now (node, view.now)) }
{
    if holds(predicate, view) {
        Ok(Some(view.entry(alloc, node)?))
    } else {
        Ok(None)
    }
}
