//! Puts together the messages of one change: for the entries that left, and for one that came or
//! moved.
ghost use Rattle.std.specs.Prelude.{◌≡◌, ◌+◌, ◌<◌, ◌≤◌, ◌^◌, ◌++◌, map, true, false};
ghost use Rattle.std.specs.Option.{option_to_list};
ghost use Rattle.std.specs.VecDeque.{deque_len, deque_capacity};
ghost use Rattle.lq_update.specs.declared.message.Opcode.TheVariants.{Removed, Moved};
ghost use Rattle.lq_update.specs.Updates.{numbered};
ghost use Rattle.lq_update.specs.Touched.{told_first, told_last};

use crate::message::{Message, Opcode};
use lq_value::Entry;
use std::collections::VecDeque;

// The messages for the node: its removed entry, and what follows all removed entries.
pub(crate) fn join(
    moved: bool,
    left: Option<Entry>,
    came: Option<Entry>,
) -> (Option<Entry>, Option<(Opcode, Entry)>)
    ensures removed { result.0 ≡ told_first moved left came }
    ensures last { result.1 ≡ told_last moved left came }
{
    match (left, came) {
        (left, None) => (left, None),
        (None, Some(to)) => (None, Some((Opcode::Created, to))),
        (Some(from), Some(to)) => {
            if moved {
                (None, Some((moved_from(from), to)))
            } else {
                (Some(from), Some((Opcode::Created, to)))
            }
        }
    }
}

fn moved_from(from: Entry) -> Opcode
    ensures { result ≡ Moved from.dir from.name }
{
    let Entry { dir, name, .. } = from;
    Opcode::Moved {
        from_dir: dir,
        from_name: name,
    }
}

// Puts the messages of at most two entries that left, and of at most one that came or moved.
#[inline(always)]
pub(crate) fn put_all(
    messages: &mut VecDeque<Message>,
    first: Option<Entry>,
    second: Option<Entry>,
    last: Option<(Opcode, Entry)>,
    change: u64,
    seq: u64,
)
    requires numbers { seq + 2 < 2 ^ 64 }
    requires room { deque_len messages.old + 3 ≤ deque_capacity messages.old }
    ensures items { messages.new.items ≡ messages.old.items ++ numbered seq change
        (map (λ e. (Removed, e)) (option_to_list first ++ option_to_list second)
        ++ option_to_list last) }
    ensures few { deque_len messages.new ≤ deque_len messages.old + 3 }
    ensures capacity { deque_capacity messages.new ≡ deque_capacity messages.old }
{
    match (first, second) {
        (Some(low), Some(high)) => {
            messages.push_back_reserved(message(Opcode::Removed, low, change, seq, false));
            put_rest(messages, Some(high), last, change, seq + 1);
        }
        (None, entry) | (entry, None) => put_rest(messages, entry, last, change, seq),
    }
}

// Puts the message of the entry that left, if any, and of the one that came or moved, if any: the
// last messages of their change.
#[inline(always)]
fn put_rest(
    messages: &mut VecDeque<Message>,
    entry: Option<Entry>,
    last: Option<(Opcode, Entry)>,
    change: u64,
    seq: u64,
)
    requires numbers { seq + 1 < 2 ^ 64 }
    requires room { deque_len messages.old + 2 ≤ deque_capacity messages.old }
    ensures items { messages.new.items ≡ messages.old.items ++ numbered seq change
        (map (λ e. (Removed, e)) (option_to_list entry) ++ option_to_list last) }
    ensures few { deque_len messages.new ≤ deque_len messages.old + 2 }
    ensures capacity { deque_capacity messages.new ≡ deque_capacity messages.old }
{
    match entry {
        None => put_last(messages, last, change, seq),
        Some(entry) => {
            let is_last = last.is_none();
            messages.push_back_reserved(message(Opcode::Removed, entry, change, seq, is_last));
            put_last(messages, last, change, seq + 1);
        }
    }
}

// Puts the message of an entry that came or moved, if any: the last one of its change.
#[inline(always)]
fn put_last(messages: &mut VecDeque<Message>, last: Option<(Opcode, Entry)>, change: u64, seq: u64)
    requires { deque_len messages.old < deque_capacity messages.old }
    ensures items { messages.new.items
        ≡ messages.old.items ++ numbered seq change (option_to_list last) }
    ensures few { deque_len messages.new ≤ deque_len messages.old + 1 }
    ensures capacity { deque_capacity messages.new ≡ deque_capacity messages.old }
{
    if let Some((op, entry)) = last {
        messages.push_back_reserved(message(op, entry, change, seq, true));
    }
}

// A message of an entry.
pub(crate) fn message(op: Opcode, entry: Entry, change: u64, seq: u64, last: bool) -> Message
    ensures { result ≡ record {
      seq = seq;
      change = change;
      last = last;
      op = op;
      dir = entry.dir;
      name = entry.name;
      node = entry.node;
    } }
{
    let Entry { dir, name, node } = entry;
    Message {
        seq,
        change,
        last,
        op,
        dir,
        name,
        node,
    }
}
