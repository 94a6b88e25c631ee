//! Builds queries by pushes in postfix order, for a caller without formulas.
ghost use Rattle.std.specs.Prelude.{◌≡◌};
ghost use Rattle.lq_predicate.specs.Stack.{only_part};
ghost use Rattle.lq_predicate.specs.Stacked.{new_stack};
ghost use Rattle.lq_embed.specs.Calls.{Fetches, Pushes};
ghost use Rattle.lq_embed.specs.Pushed.{PutsOn, push_outcome};
ghost use Rattle.lq_embed.specs.Requests.{fetch_pushed, stack_left};
ghost use Rattle.lq_embed.specs.SessionState.{holds, with_pushed};

use crate::embedded::Embedded;
use crate::numbers::op_numbered;
use crate::out_structs::FetchedOut;
use lq_predicate::Stack;
use lq_script_request::Look;
use lq_value::Refusal;

/// What is pushed.
#[derive(Drop)]
pub enum Push<'a> {
    /// The attribute with this name.
    Attr(&'a [u8]),
    /// The value with this text.
    Text(&'a [u8]),
    /// The value with a number's decimal text.
    Int32(i32),
    /// As `Int32`.
    Int64(i64),
    /// As `Int32`.
    UInt32(u32),
    /// As `Int32`.
    UInt64(u64),
    /// The operator with this number, from 1: it replaces the items on top by the predicate that it
    /// makes of them.
    Op(u32),
}

impl Embedded {
    /// Makes a push.
    ///
    /// Refused, the first that fits: `NotUtf8` for a name or a text, `BadLine` where no operator
    /// has the number, `BadQuery` where the push doesn't fit, as by the calls of `Stack`;
    /// `NoMemory`. A refused push leaves the stack.
    pub fn push(&mut self, push: Push<'_>) -> u32
        ensures { Pushes (holds self.old) (holds self.new)
            (push_outcome push.entry (holds self.old).pushed) result }
    {
        match put_on(&mut self.stack, push) {
            Ok(()) => 0,
            Err(refusal) => self.refused(refusal),
        }
    }

    /// Empties the stack. It takes no memory.
    pub fn clear_pushed(&mut self)
        ensures { holds self.new ≡ with_pushed (holds self.old) new_stack }
    {
        self.stack = Stack::new(self.alloc);
    }

    /// Fetches the entries that match the predicate that is the stack's only item, which is taken
    /// off also for want of memory.
    ///
    /// Refused: `BadQuery` where the stack holds anything else, `NoMemory`.
    pub fn fetch_pushed(&mut self, out: &mut FetchedOut) -> u32
        ensures { Fetches (holds self.old) (holds self.new)
            (stack_left (holds self.old).pushed (only_part (holds self.old).pushed.items))
            (fetch_pushed (holds self.old).pushed.pushes
            (only_part (holds self.old).pushed.items)) result out.old out.new }
    {
        match self.stack.finish() {
            Err(refusal) => self.refused(refusal),
            Ok(predicate) => {
                let response = self.session.look(&Look::Fetch { predicate });
                self.fetched(response, out)
            }
        }
    }
}

// Makes a push to a stack.
fn put_on(stack: &mut Stack, push: Push<'_>) -> Result<(), Refusal>
    ensures { PutsOn stack.old stack.new (push_outcome push.entry stack.old) result }
{
    match push {
        Push::Attr(name) => match str::from_utf8(name) {
            Ok(name) => stack.push_attr(name),
            Err(_) => Err(Refusal::NotUtf8),
        },
        Push::Text(text) => match str::from_utf8(text) {
            Ok(text) => stack.push_text(text),
            Err(_) => Err(Refusal::NotUtf8),
        },
        Push::Int32(value) => stack.push_int32(value),
        Push::Int64(value) => stack.push_int64(value),
        Push::UInt32(value) => stack.push_uint32(value),
        Push::UInt64(value) => stack.push_uint64(value),
        Push::Op(number) => match op_numbered(number) {
            Some(op) => stack.push_op(op),
            None => Err(Refusal::BadLine),
        },
    }
}
