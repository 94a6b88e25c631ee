//! The plain way to a reply: its JSON value, and then the text of that.
ghost use Rattle.std.specs.Prelude.{◌≡◌, ◌++◌, IfOk, OnOk, OnErr, string_bytes};
ghost use Rattle.serde_json.specs.View.{view, members_view};
ghost use Rattle.serde_json.specs.Data.{object, no_members};
ghost use Rattle.lq_value.specs.Refusal.{FailsOnlyForMemory};
ghost use Rattle.lq_desk.specs.Reply.{answer_of, answer_of_read};
ghost use Rattle.lq_volume.specs.Lookup.{listed};
ghost use Rattle.lq_script_desk.specs.Answer.{response_of};
ghost use mathlib.Core.List.{IsPrefix};
ghost use Rattle.lq_script_desk.specs.Reply.{answer_data, listing_data, message_data, place_of, refusal_data, reply_text, response_data};

use crate::members::{put_attrs, put_count, put_entry, put_result, put_step, put_word};
use lq_desk::{Read, Reply};
use lq_script_desk::Response;
use lq_update::{Cause, Message, Opcode};
use lq_value::{Kind, Refusal};
use lq_volume::Listing;
use serde_json::{Map, Value, put};
use std::alloc::{AllocError, Global};

/// Appends the text of a response and LF to `out`. Refused: `NoMemory`.
pub fn put_plainly(alloc: Global, out: &mut Vec<u8>, response: &Response) -> Result<(), Refusal>
    ensures refused { FailsOnlyForMemory result }
    ensures ok { OnOk result (out.new.items
        ≡ out.old.items ++ reply_text (response_of response.now)) }
    ensures err { OnErr result (IsPrefix out.old.items out.new.items) }
{
    let text = line_of(alloc, response)?;
    out.extend_from_slice(text.as_bytes())?;
    Ok(())
}

fn line_of(alloc: Global, response: &Response) -> Result<String, AllocError>
    ensures { IfOk result (λ s. string_bytes s ≡ reply_text (response_of response.now)) }
{
    let value = response_value(alloc, response)?;
    let mut text = value.to_string(alloc)?;
    text.push('\n')?;
    Ok(text)
}

fn response_value(alloc: Global, response: &Response) -> Result<Value, AllocError>
    ensures { IfOk result (λ v. view v ≡ response_data (response_of response.now)) }
{
    let mut map = Map::new(alloc);
    put_response(alloc, &mut map, response)?;
    Ok(Value::Object(map))
}

// Puts all of a response where nothing is.
fn put_response(
    alloc: Global,
    members: &mut Map<String, Value>,
    response: &Response,
) -> Result<(), AllocError>
    requires { members_view members.old.entries ≡ no_members }
    ensures { OnOk result (object (members_view members.new.entries)
        ≡ response_data (response_of response.now)) }
{
    match response {
        Response::Reply { slot, reply } => put_reply(alloc, members, *slot, reply),
        Response::Refused(refusal) => put_refusal(alloc, members, *refusal),
        Response::Found { node } => put_count(alloc, members, "node", *node),
        Response::Listed { node, listing } => put_listing(alloc, members, *node, listing),
        Response::Fetched {
            at,
            result: entries,
        } => {
            put_count(alloc, members, "at", *at)?;
            put_result(alloc, members, entries)
        }
        Response::Rebuilt {
            change,
            result: entries,
            settled,
        } => {
            put_count(alloc, members, "change", *change)?;
            put_result(alloc, members, entries)?;
            put(members, alloc, "settled", Value::from(*settled))
        }
    }
}

// Puts all of a reply to an event of this slot where nothing is.
fn put_reply(
    alloc: Global,
    members: &mut Map<String, Value>,
    slot: u64,
    reply: &Reply,
) -> Result<(), AllocError>
    requires { members_view members.old.entries ≡ no_members }
    ensures { OnOk result (object (members_view members.new.entries)
        ≡ answer_data slot (answer_of reply.now)) }
{
    match reply {
        Reply::Changed(applied) => {
            put_count(alloc, members, "change", applied.change)?;
            put_count(alloc, members, "node", applied.node)
        }
        Reply::Opened {
            slot: opened,
            at,
            result: entries,
        } => {
            put_count(alloc, members, "at", *at)?;
            put_result(alloc, members, entries)?;
            put_count(alloc, members, "slot", *opened)
        }
        Reply::Took(read) => put_read(alloc, members, slot, read),
        Reply::Shut(change) => {
            put_count(alloc, members, "change", *change)?;
            put_count(alloc, members, "slot", slot)
        }
        Reply::Asked | Reply::Finished | Reply::Moved(_) | Reply::Noticed(_) => {
            put_count(alloc, members, "slot", slot)
        }
        Reply::Refused(refusal) => put_refusal(alloc, members, *refusal),
    }
}

// Puts all that a read gives where nothing is.
fn put_read(
    alloc: Global,
    members: &mut Map<String, Value>,
    slot: u64,
    read: &Read,
) -> Result<(), AllocError>
    requires { members_view members.old.entries ≡ no_members }
    ensures { OnOk result (object (members_view members.new.entries)
        ≡ answer_data slot (answer_of_read read.now)) }
{
    let _ = slot;
    match read {
        Read::Update(message) => put_message(alloc, members, message),
        Read::Fin(mark) => {
            put_step(alloc, members, mark.change, mark.seq, "END")?;
            match mark.cause {
                Cause::Closed => put_word(alloc, members, "cause", "closed"),
                Cause::HungUp => put_word(alloc, members, "cause", "hung_up"),
                Cause::Overrun => put_word(alloc, members, "cause", "overrun"),
            }
        }
        Read::Empty => put_word(alloc, members, "what", "EMPTY"),
        Read::Ended => put_word(alloc, members, "what", "ENDED"),
    }
}

// Puts all of a message where nothing is.
fn put_message(
    alloc: Global,
    members: &mut Map<String, Value>,
    message: &Message,
) -> Result<(), AllocError>
    requires { members_view members.old.entries ≡ no_members }
    ensures { OnOk result (object (members_view members.new.entries)
        ≡ message_data message.now) }
{
    put_entry(
        alloc,
        members,
        message.dir,
        message.name.as_str(),
        message.node,
    )?;
    put_step(
        alloc,
        members,
        message.change,
        message.seq,
        "B_QUERY_UPDATE",
    )?;
    put(members, alloc, "last", Value::from(message.last))?;
    match &message.op {
        Opcode::Created => put_word(alloc, members, "op", "B_ENTRY_CREATED"),
        Opcode::Removed => put_word(alloc, members, "op", "B_ENTRY_REMOVED"),
        Opcode::Moved {
            from_dir,
            from_name,
        } => {
            put_word(alloc, members, "op", "B_ENTRY_MOVED")?;
            put_count(alloc, members, "from_dir", *from_dir)?;
            put_word(alloc, members, "from_name", from_name.as_str())
        }
        Opcode::ValueChanged { attribute: None } => {
            put_word(alloc, members, "op", "B_STAT_CHANGED")
        }
        Opcode::ValueChanged {
            attribute: Some(attribute),
        } => {
            put_word(alloc, members, "op", "B_ATTR_CHANGED")?;
            put_word(alloc, members, "attr", attribute.as_str())
        }
    }
}

// Puts all of a refusal where nothing is.
fn put_refusal(
    alloc: Global,
    members: &mut Map<String, Value>,
    refusal: Refusal,
) -> Result<(), AllocError>
    requires { members_view members.old.entries ≡ no_members }
    ensures { OnOk result (object (members_view members.new.entries) ≡ refusal_data refusal) }
{
    put_count(alloc, members, "code", refusal.code())?;
    put_word(alloc, members, "error", refusal.name())?;
    match place_of(refusal) {
        None => Ok(()),
        Some(place) => put_count(alloc, members, "place", place),
    }
}

fn place_of(refusal: Refusal) -> Option<u64>
    ensures { result ≡ place_of refusal }
{
    match refusal {
        Refusal::BadQuery { place } => Some(place),
        _ => None,
    }
}

// Puts all that is listed of a node where nothing is.
fn put_listing(
    alloc: Global,
    members: &mut Map<String, Value>,
    node: u64,
    listing: &Listing,
) -> Result<(), AllocError>
    requires { members_view members.old.entries ≡ no_members }
    ensures { OnOk result (object (members_view members.new.entries)
        ≡ listing_data node (listed listing.now)) }
{
    put_entry(alloc, members, listing.dir, listing.name.as_str(), node)?;
    put_count(alloc, members, "size", listing.size)?;
    put(members, alloc, "time", Value::from(listing.time))?;
    put_attrs(alloc, members, &listing.attrs)?;
    match listing.kind {
        Kind::File => put_word(alloc, members, "kind", "file"),
        Kind::Folder => put_word(alloc, members, "kind", "folder"),
    }
}
