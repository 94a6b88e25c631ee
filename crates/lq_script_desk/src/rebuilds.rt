//! Keeps the result of each slot, rebuilt from what was read from it, so that a script can compare
//! it with a fetch.
ghost use Rattle.std.specs.Prelude.{◌≡◌, true, IfErr, OnOk, OnErr};
ghost use Rattle.std.specs.Option.{option_map};
ghost use Rattle.lq_value.specs.declared.refusal.Refusal.TheVariants.{NoMemory};
ghost use Rattle.lq_desk.specs.Reply.{answer_of};
ghost use Rattle.lq_script_desk.specs.Folds.{ResultRises, after_message, fold_at, folds_after, is_folded, with_fold};
ghost use Rattle.lq_script_desk.specs.Turned.{Follow, folded_slot};

use lq_desk::{Read, Reply};
use lq_desk_sub::{SlotIndex, SlotTable};
use lq_update::{IndexedRebuild, Message};
use lq_value::Refusal;
use std::alloc::Global;

/// Updates the results by the reply to an event of a slot: starts one for an opening, folds an
/// update that was read into it, and drops it when the slot is freed.
///
/// Refused: `NoMemory`, for an opening or an update; the results are then unchanged.
pub fn fold_reply(
    alloc: Global,
    rebuilds: &mut SlotTable<IndexedRebuild>,
    slot: u64,
    reply: &Reply,
) -> Result<(), Refusal>
    requires rises { ResultRises (answer_of reply.now) }
    ensures ok { OnOk result (rebuilds.new
        ≡ folds_after slot (answer_of reply.now) rebuilds.old) }
    ensures err { OnErr result (rebuilds.new ≡ rebuilds.old) }
    ensures memory { IfErr result (λ e. e ≡ NoMemory) }
    ensures folded { OnErr result (is_folded (answer_of reply.now) ≡ true) }
{
    match reply {
        Reply::Opened {
            slot: opened,
            at,
            result: entries,
        } => {
            let rebuild = IndexedRebuild::new(alloc, *at, entries)?;
            put(rebuilds, *opened, Some(rebuild));
            Ok(())
        }
        Reply::Took(Read::Update(message)) => fold_message_at(rebuilds, slot, message),
        Reply::Finished => {
            put(rebuilds, slot, None);
            Ok(())
        }
        Reply::Changed(_)
        | Reply::Moved(_)
        | Reply::Took(Read::Fin(_) | Read::Empty | Read::Ended)
        | Reply::Asked
        | Reply::Noticed(_)
        | Reply::Shut(_)
        | Reply::Refused(_) => Ok(()),
    }
}

/// Updates the results by the reply to an event of a slot, as `fold_reply` does. Where memory runs
/// out, the slot whose result is to be updated has none afterwards.
pub fn follow(alloc: Global, rebuilds: &mut SlotTable<IndexedRebuild>, slot: u64, reply: &Reply)
    requires rises { ResultRises (answer_of reply.now) }
    ensures { Follow slot (answer_of reply.now) rebuilds.old rebuilds.new }
{
    if fold_reply(alloc, rebuilds, slot, reply).is_err() {
        put(rebuilds, folded_slot(slot, reply), None);
    }
}

// The slot whose result a reply updates: the one that it opened, else the event's own.
pub(crate) fn folded_slot(slot: u64, reply: &Reply) -> u64
    ensures { result ≡ folded_slot slot (answer_of reply.now) }
{
    match reply {
        Reply::Opened { slot: opened, .. } => *opened,
        _ => slot,
    }
}

/// Puts a slot's result into the table, or removes it.
pub fn put(rebuilds: &mut SlotTable<IndexedRebuild>, slot: u64, rebuild: Option<IndexedRebuild>)
    ensures { rebuilds.new ≡ with_fold rebuilds.old slot rebuild }
{
    // A call for what it proves: a table has 64 slots, so no number above them names one.
    let _ = rebuilds.taken();
    let Some(slot) = SlotIndex::of(slot) else {
        return;
    };
    match rebuild {
        Some(rebuild) => rebuilds.insert(slot, rebuild),
        None => {
            let _ = rebuilds.remove(slot);
        }
    }
}

// Folds a message into the rebuilt result of a slot.
#[tactic(auto, using(crate::proofs::EventLemmas::set_same))]
fn fold_message_at(
    rebuilds: &mut SlotTable<IndexedRebuild>,
    slot: u64,
    message: &Message,
) -> Result<(), Refusal>
    ensures ok { OnOk result (rebuilds.new ≡ with_fold rebuilds.old slot
        (option_map (after_message message.now) (fold_at rebuilds.old slot))) }
    ensures err { OnErr result (rebuilds.new ≡ rebuilds.old) }
    ensures memory { IfErr result (λ e. e ≡ NoMemory) }
{
    // A call for what it proves, as in `put`.
    let _ = rebuilds.taken();
    let Some(slot) = SlotIndex::of(slot) else {
        return Ok(());
    };
    match rebuilds.get_mut(slot) {
        Some(rebuild) => fold_message(rebuild, message),
        None => Ok(()),
    }
}

// Folds a message into a result. One that isn't the next or doesn't fit is ignored.
fn fold_message(rebuild: &mut IndexedRebuild, message: &Message) -> Result<(), Refusal>
    ensures ok { OnOk result (rebuild.new ≡ after_message message.now rebuild.old) }
    ensures err { OnErr result (rebuild.new ≡ rebuild.old) }
    ensures memory { IfErr result (λ e. e ≡ NoMemory) }
{
    match rebuild.apply(message) {
        Err(Refusal::NoMemory) => Err(Refusal::NoMemory),
        Ok(()) | Err(_) => Ok(()),
    }
}

/// The rebuilt result of a slot; `None` if the slot has none.
pub fn rebuild_at(rebuilds: &SlotTable<IndexedRebuild>, slot: u64) -> Option<&IndexedRebuild>
    ensures { option_map (λ r. r.now) result ≡ fold_at rebuilds.now slot }
{
    // A call for what it proves, as in `put`.
    let _ = rebuilds.taken();
    rebuilds.get(SlotIndex::of(slot)?)
}
