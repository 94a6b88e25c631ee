//! Each kind of response by pieces, as the plain way writes it.
use crate::displays::REFUSALS;
use crate::plain_reply::put_plainly;
use lq_desk::{Read, Reply};
use lq_script_desk::{Response, put_event_reply, put_reply};
use lq_update::{Cause, Mark, Message, Opcode};
use lq_value::{AttrName, Entry, Kind, Name, Refusal, Value};
use lq_volume::{Applied, Listing};
use std::alloc::Global;
use std::test::Fail;

// A quote, a backslash, control characters with a short escape and without, and more bytes.
const NAME: &str = "a\"b\\c\u{1}\t\n\u{1f}\u{7f}é€𝄞";

// folder, name, node
const ENTRIES: [(u64, &str, u64); 3] = [(1, NAME, 2), (u64::MAX, "plain", 30), (2, "\n", 4)];

fn entries(alloc: Global, rows: &[(u64, &str, u64)]) -> Result<Vec<Entry>, Refusal> {
    let mut entries = Vec::new(alloc);
    for (dir, name, node) in rows {
        let name = Name::read(alloc, name)?;
        entries.push(Entry {
            dir: *dir,
            name,
            node: *node,
        })?;
    }
    Ok(entries)
}

// Whether a response by pieces, after bytes that stood before, equals the one in the plain way, and
// so does the reply to an event that is written without a response.
fn is_alike(alloc: Global, response: &Response) -> Result<bool, Refusal> {
    let mut plain = Vec::from_slice(alloc, b"before")?;
    put_plainly(alloc, &mut plain, response)?;
    let mut pieces = Vec::from_slice(alloc, b"before")?;
    put_reply(&mut pieces, response)?;
    if pieces.as_slice() != plain.as_slice() {
        return Ok(false);
    }
    let Response::Reply { slot, reply } = response else {
        return Ok(true);
    };
    let mut event = Vec::from_slice(alloc, b"before")?;
    put_event_reply(&mut event, *slot, reply)?;
    Ok(event.as_slice() == plain.as_slice())
}

// Fails by the name of the row where the two ways differ.
fn test(alloc: Global, row: &'static str, response: Response) -> Result<(), Fail> {
    if is_alike(alloc, &response)? {
        Ok(())
    } else {
        Err(Fail::from(row))
    }
}

fn test_reply(alloc: Global, row: &'static str, reply: Reply) -> Result<(), Fail> {
    test(alloc, row, Response::Reply { slot: 64, reply })
}

fn test_message(alloc: Global, row: &'static str, last: bool, op: Opcode) -> Result<(), Fail> {
    let message = Message {
        seq: 5,
        change: 6,
        last,
        op,
        dir: 7,
        name: Name::read(alloc, NAME)?,
        node: 8,
    };
    test_reply(alloc, row, Reply::Took(Read::Update(message)))
}

fn test_mark(alloc: Global, row: &'static str, cause: Cause) -> Result<(), Fail> {
    let mark = Mark {
        seq: 9,
        change: 10,
        cause,
    };
    test_reply(alloc, row, Reply::Took(Read::Fin(mark)))
}

// The replies to reads of a slot.
fn test_reads(alloc: Global) -> Result<(), Fail> {
    test_message(alloc, "created", true, Opcode::Created)?;
    test_message(alloc, "removed", false, Opcode::Removed)?;
    let from_name = Name::read(alloc, "from\u{8}\u{c}\r")?;
    let moved = Opcode::Moved {
        from_dir: 11,
        from_name,
    };
    test_message(alloc, "moved", true, moved)?;
    let written = Opcode::ValueChanged { attribute: None };
    test_message(alloc, "written", true, written)?;
    let set = Opcode::ValueChanged {
        attribute: Some(AttrName::read(alloc, "st\u{e4}tus\"")?),
    };
    test_message(alloc, "attribute", true, set)?;
    test_mark(alloc, "closed", Cause::Closed)?;
    test_mark(alloc, "hung up", Cause::HungUp)?;
    test_mark(alloc, "overrun", Cause::Overrun)?;
    test_reply(alloc, "empty", Reply::Took(Read::Empty))?;
    test_reply(alloc, "ended", Reply::Took(Read::Ended))
}

// The other replies to events.
fn test_replies(alloc: Global) -> Result<(), Fail> {
    let opened = Reply::Opened {
        slot: 1,
        at: 13,
        result: entries(alloc, &ENTRIES)?,
    };
    test_reply(alloc, "opened", opened)?;
    let applied = Applied { change: 1, node: 2 };
    test_reply(alloc, "changed", Reply::Changed(applied))?;
    test_reply(alloc, "shut", Reply::Shut(14))?;
    test_reply(alloc, "asked", Reply::Asked)?;
    test_reply(alloc, "finished", Reply::Finished)?;
    test_reply(alloc, "moved out", Reply::Moved(true))?;
    test_reply(alloc, "noticed", Reply::Noticed(false))
}

// An attribute of each type.
fn attrs(alloc: Global) -> Result<Vec<(AttrName, Value)>, Refusal> {
    let mut attrs = Vec::new(alloc);
    attrs.push((AttrName::read(alloc, NAME)?, Value::text(alloc, NAME)?))?;
    attrs.push((AttrName::read(alloc, "b")?, Value::Int32(i32::MIN)))?;
    attrs.push((AttrName::read(alloc, "c")?, Value::Int64(i64::MIN)))?;
    attrs.push((AttrName::read(alloc, "d")?, Value::UInt32(u32::MAX)))?;
    attrs.push((AttrName::read(alloc, "e")?, Value::UInt64(u64::MAX)))?;
    Ok(attrs)
}

fn test_listed(
    alloc: Global,
    row: &'static str,
    kind: Kind,
    time: i64,
    attrs: Vec<(AttrName, Value)>,
) -> Result<(), Fail> {
    let listing = Listing {
        dir: 1,
        name: Name::read(alloc, NAME)?,
        kind,
        size: 15,
        time,
        attrs,
    };
    test(alloc, row, Response::Listed { node: 16, listing })
}

// These entries, fetched and rebuilt.
fn test_results(alloc: Global, at: u64, rows: &[(u64, &str, u64)]) -> Result<(), Fail> {
    let result = entries(alloc, rows)?;
    test(alloc, "fetched", Response::Fetched { at, result })?;
    let rebuilt = Response::Rebuilt {
        change: at,
        result: entries(alloc, rows)?,
        settled: at > 0,
    };
    test(alloc, "rebuilt", rebuilt)
}

#[test]
fn pieces_are_the_text_of_the_value(rt: HostRuntime) -> Result<(), Fail> {
    let alloc = rt.alloc();
    test_reads(alloc)?;
    test_replies(alloc)?;
    test(alloc, "found", Response::Found { node: 17 })?;
    test_listed(alloc, "file", Kind::File, -1, attrs(alloc)?)?;
    test_listed(alloc, "folder", Kind::Folder, 0, Vec::new(alloc))?;
    test_results(alloc, 19, &ENTRIES)?;
    test_results(alloc, 0, &[])?;
    for (refusal, _, _) in &REFUSALS {
        test_reply(alloc, refusal.name(), Reply::Refused(*refusal))?;
        test(alloc, refusal.name(), Response::Refused(*refusal))?;
    }
    Ok(())
}
