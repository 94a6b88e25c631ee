//! Reads and ends live queries by typed calls, and writes messages in C's layout.
ghost use Rattle.std.specs.Prelude.{◌≡◌, length};
ghost use Rattle.lq_desk.specs.Reply.{answer_of};
ghost use Rattle.lq_desk_world.specs.declared.event.Event.TheVariants.{Close, Finish, HangUp, Take};
ghost use Rattle.lq_embed.specs.Calls.{Acts, Ends, ReadsSlot, TellsSlots, forgotten};
ghost use Rattle.lq_embed.specs.Outs.{attr_of_op, change_after, from_dir_of, from_name_of, mark_after, message_after, number_of_op, read_after, text_put};
ghost use Rattle.lq_embed.specs.SessionState.{holds};
ghost use Rattle.lq_embed.specs.Status.{read_status, status_of};

use crate::embedded::Embedded;
use crate::numbers::{EMPTY, ENDED, status};
use crate::out_structs::{MessageOut, put_text};
use lq_desk::{Event, Read, Reply};
use lq_update::{Cause, Mark, Message, Opcode};

impl Embedded {
    /// Takes the oldest parcel from a slot's port, after the turn's notice and puts. It never
    /// answers `NoMemory`: where memory runs out for the slot's rebuilt result, the slot is left
    /// without one.
    ///
    /// Only a message or the mark is written. Where there is nothing to read it answers `EMPTY`,
    /// and `ENDED` where the mark was read before. Refused: `NotOpen` where the slot is free.
    pub fn read(&mut self, slot: u64, out: &mut MessageOut) -> u32
        ensures { ReadsSlot (holds self.old) (holds self.new) (Take slot) result out.old out.new }
    {
        taken(&self.session.turn(&Event::Take(slot)), out)
    }

    /// Asks for the end of a slot's subscription. It takes no memory.
    ///
    /// Refused: `NotOpen` where the slot is free.
    pub fn hang_up(&mut self, slot: u64) -> u32
        ensures { Acts (holds self.old) (holds self.new) (HangUp slot) result }
    {
        acted(&self.session.turn(&Event::HangUp(slot)))
    }

    /// Ends a slot's subscription, and writes the last change that its messages cover. It takes no
    /// memory.
    ///
    /// Refused: `NotOpen` where the slot is free, or its subscription has ended.
    pub fn close(&mut self, slot: u64, change: &mut u64) -> u32
        ensures { Ends (holds self.old) (holds self.new) (Close slot) result change.old change.new }
    {
        ended(&self.session.turn(&Event::Close(slot)), change)
    }

    /// Frees a slot whose mark was read. It takes no memory.
    ///
    /// Refused: `NotOpen` where the slot is free, `StillOpen` where the mark wasn't read.
    pub fn finish(&mut self, slot: u64) -> u32
        ensures { Acts (holds self.old) (holds self.new) (Finish slot) result }
    {
        acted(&self.session.turn(&Event::Finish(slot)))
    }

    /// Which slots have something to read: a word with a bit for each slot, for slot k the one at
    /// k - 1. A bit is set just where `read` would write a message or the mark. It takes no memory.
    pub fn ready(&self) -> u64
        ensures { TellsSlots (holds self.now) result }
    {
        self.session.ready()
    }

    /// Leaves a slot without its rebuilt result. It takes no memory.
    pub fn forget(&mut self, slot: u64)
        ensures { holds self.new ≡ forgotten (holds self.old) slot }
    {
        self.session.forget(slot);
    }
}

// Writes what was taken, and answers the status.
pub(crate) fn taken(reply: &Reply, out: &mut MessageOut) -> u32
    ensures status { result ≡ read_status (answer_of reply.now) }
    ensures out { out.new ≡ read_after (answer_of reply.now) out.old }
{
    match reply {
        Reply::Took(Read::Update(message)) => put_message(message, out),
        Reply::Took(Read::Fin(mark)) => put_mark(mark, out),
        Reply::Took(Read::Empty) => return EMPTY,
        Reply::Took(Read::Ended) => return ENDED,
        Reply::Refused(refusal) => return status(*refusal),
        _ => {}
    }
    0
}

// Writes a message.
fn put_message(message: &Message, out: &mut MessageOut)
    ensures { out.new ≡ message_after message.now out.old }
{
    out.seq = message.seq;
    out.change = message.change;
    out.dir = message.dir;
    out.node = message.node;
    out.what = 1;
    out.cause = 0;
    out.last = message.last;
    out.name_size = put_text(&mut out.name, message.name.as_str().as_bytes());
    put_opcode(&message.op, out);
}

// Writes what a message says of its entry.
fn put_opcode(op: &Opcode, out: &mut MessageOut)
    ensures { out.new ≡ record out.old {
      op = number_of_op op.now;
      from_dir = from_dir_of op.now;
      from_name_size = length (from_name_of op.now);
      from_name = text_put (from_name_of op.now) out.old.from_name;
      attr_size = length (attr_of_op op.now);
      attr = text_put (attr_of_op op.now) out.old.attr;
    } }
{
    match op {
        Opcode::Created => put_op(1, 0, b"", b"", out),
        Opcode::Removed => put_op(2, 0, b"", b"", out),
        Opcode::Moved {
            from_dir,
            from_name,
        } => put_op(3, *from_dir, from_name.as_str().as_bytes(), b"", out),
        Opcode::ValueChanged { attribute: None } => put_op(4, 0, b"", b"", out),
        Opcode::ValueChanged {
            attribute: Some(attribute),
        } => put_op(5, 0, b"", attribute.as_str().as_bytes(), out),
    }
}

// Writes an opcode's number, its old place and its attribute.
fn put_op(op: u32, from_dir: u64, from_name: &[u8], attr: &[u8], out: &mut MessageOut)
    ensures { out.new ≡ record out.old {
      op = op;
      from_dir = from_dir;
      from_name_size = length from_name.now;
      from_name = text_put from_name.now out.old.from_name;
      attr_size = length attr.now;
      attr = text_put attr.now out.old.attr;
    } }
{
    out.op = op;
    out.from_dir = from_dir;
    out.from_name_size = put_text(&mut out.from_name, from_name);
    out.attr_size = put_text(&mut out.attr, attr);
}

// Writes the mark of a subscription.
fn put_mark(mark: &Mark, out: &mut MessageOut)
    ensures { out.new ≡ mark_after mark.now out.old }
{
    out.seq = mark.seq;
    out.change = mark.change;
    out.dir = 0;
    out.node = 0;
    out.what = 2;
    out.cause = match mark.cause {
        Cause::Closed => 1,
        Cause::HungUp => 2,
        Cause::Overrun => 3,
    };
    out.last = false;
    out.name_size = put_text(&mut out.name, b"");
    put_op(0, 0, b"", b"", out);
}

// Writes the last change of a subscription that was ended, and answers the status.
fn ended(reply: &Reply, change: &mut u64) -> u32
    ensures status { result ≡ status_of (answer_of reply.now) }
    ensures change { change.new ≡ change_after (answer_of reply.now) change.old }
{
    if let Reply::Shut(covered) = reply {
        *change = *covered;
    }
    acted(reply)
}

// The status of an act.
pub(crate) fn acted(reply: &Reply) -> u32
    ensures { result ≡ status_of (answer_of reply.now) }
{
    match reply {
        Reply::Refused(refusal) => status(*refusal),
        _ => 0,
    }
}
