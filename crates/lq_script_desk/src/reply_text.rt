//! Writes the text of a reply by pieces, as serde_json would write its value.
#![tactic(auto, using(crate::proofs::Joining::joined), unfolding(json::specs::Print::escape_byte))]

ghost use Rattle.std.specs.Prelude.{◌≡◌, ◌++◌, codes, OnOk, OnErr, map, false};
ghost use Rattle.serde_json.specs.View.{items_of};
ghost use Rattle.serde_json.specs.Written.{compact_text, items_text, comma_if};
ghost use Rattle.lq_value.specs.Refusal.{FailsOnlyForMemory};
ghost use Rattle.lq_script_desk.specs.Front.{AppendsTo};
ghost use Rattle.lq_desk.specs.Reply.{answer_of};
ghost use Rattle.lq_script_desk.specs.Answer.{response_of};
ghost use Rattle.lq_script_desk.specs.Response.{Answers};
ghost use mathlib.Core.List.{IsPrefix};
ghost use Rattle.lq_script_desk.specs.Reply.{applied_data, entry_data, fetched_data, found_data, opened_data, place_of, rebuilt_data, refusal_data, reply_text, shut_data, slot_data};

use crate::listing::put_listing;
use crate::message_text::put_read;
use crate::pieces::{put_bytes, put_truth, put_unsigned};
use crate::quoted_text::put_text;
use crate::response::Response;
use lq_desk::Reply;
use lq_value::{Entry, Refusal};
use lq_volume::Applied;
use std::alloc::AllocError;

/// Appends the text of a response and LF to `out`. Refused: `NoMemory`.
pub fn put_reply(out: &mut Vec<u8>, response: &Response) -> Result<(), Refusal>
    ensures refused { FailsOnlyForMemory result }
    ensures ok { OnOk result (out.new.items
        ≡ out.old.items ++ reply_text (response_of response.now)) }
    ensures err { OnErr result (IsPrefix out.old.items out.new.items) }
{
    match response {
        Response::Reply { slot, reply } => return put_event_reply(out, *slot, reply),
        Response::Refused(refusal) => put_refusal(out, *refusal)?,
        Response::Found { node } => put_found(out, *node)?,
        Response::Listed { node, listing } => put_listing(out, *node, listing)?,
        Response::Fetched {
            at,
            result: entries,
        } => put_fetched(out, *at, entries)?,
        Response::Rebuilt {
            change,
            result: entries,
            settled,
        } => put_rebuilt(out, *change, entries, *settled)?,
    }
    put_bytes(out, b"\n")?;
    Ok(())
}

/// Appends the text of the reply to an event of this slot, and LF, to `out`. The slot is 0 where
/// the event names none.
///
/// It writes the text of `Response::Reply` without moving the reply into a `Response`.
/// Refused: `NoMemory`.
pub fn put_event_reply(out: &mut Vec<u8>, slot: u64, reply: &Reply) -> Result<(), Refusal>
    ensures refused { FailsOnlyForMemory result }
    ensures ok { OnOk result (out.new.items
        ≡ out.old.items ++ reply_text (Answers slot (answer_of reply.now))) }
    ensures err { OnErr result (IsPrefix out.old.items out.new.items) }
{
    match reply {
        Reply::Changed(applied) => put_applied(out, applied)?,
        Reply::Opened {
            slot: opened,
            at,
            result: entries,
        } => put_opened(out, *opened, *at, entries)?,
        Reply::Took(read) => put_read(out, read)?,
        Reply::Shut(change) => put_shut(out, *change, slot)?,
        Reply::Asked | Reply::Finished | Reply::Moved(_) | Reply::Noticed(_) => {
            put_slot(out, slot)?
        }
        Reply::Refused(refusal) => put_refusal(out, *refusal)?,
    }
    put_bytes(out, b"\n")?;
    Ok(())
}

fn put_found(out: &mut Vec<u8>, node: u64) -> Result<(), AllocError>
    ensures ok { OnOk result (out.new.items ≡ out.old.items ++ compact_text (found_data node)) }
    ensures front { AppendsTo out.new.items out.old.items }
{
    put_unsigned(out, b"{\"node\":", node)?;
    put_bytes(out, b"}")
}

fn put_fetched(out: &mut Vec<u8>, at: u64, entries: &[Entry]) -> Result<(), AllocError>
    ensures ok { OnOk result (out.new.items
        ≡ out.old.items ++ compact_text (fetched_data at entries.now)) }
    ensures front { AppendsTo out.new.items out.old.items }
{
    put_unsigned(out, b"{\"at\":", at)?;
    put_entries(out, b",\"result\":[", entries)?;
    put_bytes(out, b"}")
}

fn put_rebuilt(
    out: &mut Vec<u8>,
    change: u64,
    entries: &[Entry],
    settled: bool,
) -> Result<(), AllocError>
    ensures ok { OnOk result (out.new.items
        ≡ out.old.items ++ compact_text (rebuilt_data change entries.now settled)) }
    ensures front { AppendsTo out.new.items out.old.items }
{
    put_unsigned(out, b"{\"change\":", change)?;
    put_entries(out, b",\"result\":[", entries)?;
    put_truth(out, b",\"settled\":", settled)?;
    put_bytes(out, b"}")?;
    Ok(())
}

fn put_applied(out: &mut Vec<u8>, applied: &Applied) -> Result<(), AllocError>
    ensures ok { OnOk result (out.new.items
        ≡ out.old.items ++ compact_text (applied_data applied.now)) }
    ensures front { AppendsTo out.new.items out.old.items }
{
    put_unsigned(out, b"{\"change\":", applied.change)?;
    put_unsigned(out, b",\"node\":", applied.node)?;
    put_bytes(out, b"}")
}

fn put_opened(out: &mut Vec<u8>, slot: u64, at: u64, entries: &[Entry]) -> Result<(), AllocError>
    ensures ok { OnOk result (out.new.items
        ≡ out.old.items ++ compact_text (opened_data slot at entries.now)) }
    ensures front { AppendsTo out.new.items out.old.items }
{
    put_unsigned(out, b"{\"at\":", at)?;
    put_entries(out, b",\"result\":[", entries)?;
    put_unsigned(out, b",\"slot\":", slot)?;
    put_bytes(out, b"}")?;
    Ok(())
}

fn put_shut(out: &mut Vec<u8>, change: u64, slot: u64) -> Result<(), AllocError>
    ensures ok { OnOk result
        (out.new.items ≡ out.old.items ++ compact_text (shut_data change slot)) }
    ensures front { AppendsTo out.new.items out.old.items }
{
    put_unsigned(out, b"{\"change\":", change)?;
    put_unsigned(out, b",\"slot\":", slot)?;
    put_bytes(out, b"}")
}

fn put_slot(out: &mut Vec<u8>, slot: u64) -> Result<(), AllocError>
    ensures ok { OnOk result (out.new.items ≡ out.old.items ++ compact_text (slot_data slot)) }
    ensures front { AppendsTo out.new.items out.old.items }
{
    put_unsigned(out, b"{\"slot\":", slot)?;
    put_bytes(out, b"}")
}

fn put_refusal(out: &mut Vec<u8>, refusal: Refusal) -> Result<(), AllocError>
    ensures ok { OnOk result
        (out.new.items ≡ out.old.items ++ compact_text (refusal_data refusal)) }
    ensures front { AppendsTo out.new.items out.old.items }
{
    put_unsigned(out, b"{\"code\":", refusal.code())?;
    put_text(out, b",\"error\":", refusal.name())?;
    match place_of(refusal) {
        None => put_bytes(out, b"}")?,
        Some(place) => {
            put_unsigned(out, b",\"place\":", place)?;
            put_bytes(out, b"}")?
        }
    }
    Ok(())
}

fn place_of(refusal: Refusal) -> Option<u64>
    ensures { result ≡ place_of refusal }
{
    match refusal {
        Refusal::BadQuery { place } => Some(place),
        _ => None,
    }
}

// Appends the entries, and the closing bracket of their list.
fn put_entries(out: &mut Vec<u8>, before: &[u8], entries: &[Entry]) -> Result<(), AllocError>
    ensures ok { OnOk result (out.new.items ≡ out.old.items
        ++ (before.now ++ items_text false (items_of (map entry_data entries.now)))) }
    ensures front { AppendsTo out.new.items out.old.items }
{
    put_bytes(out, before)?;
    let mut later = false;
    for entry in entries {
        put_entry(out, later, entry)?;
        later = true;
    }
    put_bytes(out, b"]")
}

// Appends an entry, after a comma if it isn't the first.
fn put_entry(out: &mut Vec<u8>, later: bool, entry: &Entry) -> Result<(), AllocError>
    ensures ok { OnOk result (out.new.items
        ≡ out.old.items ++ (comma_if later ++ compact_text (entry_data entry.now))) }
    ensures front { AppendsTo out.new.items out.old.items }
{
    put_unsigned(out, before_dir(later), entry.dir)?;
    put_text(out, b",\"name\":", entry.name.as_str())?;
    put_unsigned(out, b",\"node\":", entry.node)?;
    put_bytes(out, b"}")?;
    Ok(())
}

fn before_dir(later: bool) -> &'static [u8]
    ensures { result.now ≡ comma_if later ++ codes "{\"dir\":" }
{
    if later { b",{\"dir\":" } else { b"{\"dir\":" }
}
