//! Writes the text of a read from a subscription: a message, the mark, or that there is none.
#![tactic(auto, using(crate::proofs::Joining::joined), unfolding(json::specs::Print::escape_byte))]

ghost use Rattle.std.specs.Prelude.{◌≡◌, ℕ, ◌++◌, codes, OnOk, true};
ghost use Rattle.serde_json.specs.Data.{boolean};
ghost use Rattle.serde_json.specs.Written.{compact_text, members_text};
ghost use Rattle.lq_script_desk.specs.Front.{AppendsTo};
ghost use Rattle.lq_desk.specs.Reply.{answer_of_read};
ghost use Rattle.lq_script_desk.specs.Reply.{answer_data, attr_changed_data, cause_name, mark_data, message_data, moved_data, numbered_members, opcode_name, placed_data, told_members, word};

use crate::pieces::{put_bytes, put_unsigned};
use crate::quoted_text::put_text;
use lq_desk::Read;
use lq_update::{Cause, Mark, Message, Opcode};
use lq_value::{AttrName, Name};
use std::alloc::AllocError;

/// Appends the result of a take from a slot to `out`; the text doesn't depend on the slot.
///
/// An error says that memory ran out: `out` then keeps what it had, maybe followed by a part of the
/// text.
pub fn put_read(out: &mut Vec<u8>, read: &Read) -> Result<(), AllocError>
    ensures ok { OnOk result ((slot : ℕ) → out.new.items
        ≡ out.old.items ++ compact_text (answer_data slot (answer_of_read read.now))) }
    ensures front { AppendsTo out.new.items out.old.items }
{
    match read {
        Read::Update(message) => put_message(out, message),
        Read::Fin(mark) => put_mark(out, mark),
        Read::Empty => put_bytes(out, b"{\"what\":\"EMPTY\"}"),
        Read::Ended => put_bytes(out, b"{\"what\":\"ENDED\"}"),
    }
}

fn put_mark(out: &mut Vec<u8>, mark: &Mark) -> Result<(), AllocError>
    ensures ok { OnOk result (out.new.items ≡ out.old.items ++ compact_text (mark_data mark.now)) }
    ensures front { AppendsTo out.new.items out.old.items }
{
    put_text(out, b"{\"cause\":", cause_name(mark.cause))?;
    put_unsigned(out, b",\"change\":", mark.change)?;
    put_unsigned(out, b",\"seq\":", mark.seq)?;
    put_bytes(out, b",\"what\":\"END\"}")
}

fn cause_name(cause: Cause) -> &'static str
    ensures { result.now ≡ cause_name cause }
{
    match cause {
        Cause::Closed => "closed",
        Cause::HungUp => "hung_up",
        Cause::Overrun => "overrun",
    }
}

fn put_message(out: &mut Vec<u8>, message: &Message) -> Result<(), AllocError>
    ensures ok { OnOk result (out.new.items
        ≡ out.old.items ++ compact_text (message_data message.now)) }
    ensures front { AppendsTo out.new.items out.old.items }
{
    match &message.op {
        Opcode::Moved {
            from_dir,
            from_name,
        } => put_moved(out, message, *from_dir, from_name),
        Opcode::ValueChanged {
            attribute: Some(attribute),
        } => put_attr_changed(out, message, attribute),
        Opcode::Created | Opcode::Removed | Opcode::ValueChanged { attribute: None } => {
            put_placed(out, message)
        }
    }
}

// Appends a message with one place.
fn put_placed(out: &mut Vec<u8>, message: &Message) -> Result<(), AllocError>
    ensures ok { OnOk result
        (out.new.items ≡ out.old.items ++ compact_text (placed_data message.now)) }
    ensures front { AppendsTo out.new.items out.old.items }
{
    put_unsigned(out, b"{\"change\":", message.change)?;
    put_unsigned(out, b",\"dir\":", message.dir)?;
    put_told(out, message)
}

// Appends a message with two places.
fn put_moved(
    out: &mut Vec<u8>,
    message: &Message,
    from_dir: u64,
    from_name: &Name,
) -> Result<(), AllocError>
    ensures ok { OnOk result (out.new.items
        ≡ out.old.items ++ compact_text (moved_data message.now from_dir from_name.now)) }
    ensures front { AppendsTo out.new.items out.old.items }
{
    put_unsigned(out, b"{\"change\":", message.change)?;
    put_unsigned(out, b",\"dir\":", message.dir)?;
    put_unsigned(out, b",\"from_dir\":", from_dir)?;
    put_text(out, b",\"from_name\":", from_name.as_str())?;
    put_told(out, message)
}

// Appends a message of an attribute.
fn put_attr_changed(
    out: &mut Vec<u8>,
    message: &Message,
    attribute: &AttrName,
) -> Result<(), AllocError>
    ensures ok { OnOk result (out.new.items
        ≡ out.old.items ++ compact_text (attr_changed_data message.now attribute.now)) }
    ensures front { AppendsTo out.new.items out.old.items }
{
    put_text(out, b"{\"attr\":", attribute.as_str())?;
    put_unsigned(out, b",\"change\":", message.change)?;
    put_unsigned(out, b",\"dir\":", message.dir)?;
    put_told(out, message)
}

fn put_told(out: &mut Vec<u8>, message: &Message) -> Result<(), AllocError>
    ensures ok { OnOk result (out.new.items
        ≡ out.old.items ++ members_text true (told_members message.now)) }
    ensures front { AppendsTo out.new.items out.old.items }
{
    put_text(out, before_name(message.last), message.name.as_str())?;
    put_unsigned(out, b",\"node\":", message.node)?;
    put_numbered(out, &message.op, message.seq)?;
    Ok(())
}

// The member `last` and the key of the next member.
fn before_name(last: bool) -> &'static [u8]
    ensures { result.now
        ≡ codes ",\"last\":" ++ (compact_text (boolean last) ++ codes ",\"name\":") }
{
    if last {
        b",\"last\":true,\"name\":"
    } else {
        b",\"last\":false,\"name\":"
    }
}

fn put_numbered(out: &mut Vec<u8>, op: &Opcode, seq: u64) -> Result<(), AllocError>
    ensures ok { OnOk result (out.new.items
        ≡ out.old.items ++ members_text true (numbered_members op.now seq)) }
    ensures front { AppendsTo out.new.items out.old.items }
{
    put_unsigned(out, before_seq(op), seq)?;
    put_bytes(out, b",\"what\":\"B_QUERY_UPDATE\"}")
}

// The member of the opcode and the key of the next member.
fn before_seq(op: &Opcode) -> &'static [u8]
    ensures { result.now
        ≡ codes ",\"op\":" ++ (compact_text (word (opcode_name op.now)) ++ codes ",\"seq\":") }
{
    match op {
        Opcode::Created => b",\"op\":\"B_ENTRY_CREATED\",\"seq\":",
        Opcode::Removed => b",\"op\":\"B_ENTRY_REMOVED\",\"seq\":",
        Opcode::Moved { .. } => b",\"op\":\"B_ENTRY_MOVED\",\"seq\":",
        Opcode::ValueChanged { attribute: None } => b",\"op\":\"B_STAT_CHANGED\",\"seq\":",
        Opcode::ValueChanged { attribute: Some(_) } => b",\"op\":\"B_ATTR_CHANGED\",\"seq\":",
    }
}
