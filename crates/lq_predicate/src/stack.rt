//! Builds predicates from pushes in postfix order.
ghost use Rattle.std.specs.Prelude.{◌≡◌, ◌∷◌, ◌+◌, ◌<◌, ◌^◌, Some, None, IfOk, IfErr, OnOk, OnErr};
ghost use Rattle.std.specs.Fmt.{decimal, signed_decimal};
ghost use Rattle.lq_value.specs.Refusal.{FailsOnlyForMemory, IsRefusedBy};
ghost use Rattle.lq_predicate.specs.Stacked.{Stacked, new_stack};
ghost use Rattle.lq_predicate.specs.Stack.{pushed, attr_pushed, text_pushed, only_part, refusal_at};

mod operators;

use crate::operand::Operand;
use crate::predicate::Predicate;
use crate::stack_item::StackItem;
use itoa::Buffer;
use lq_value::{AttrName, MAX_VALUE_TEXT, Refusal};
use std::alloc::Global;
use std::marker::Model;

/// A stack that takes attributes, values and operators in postfix order, as BQuery does, and gives
/// a predicate.
///
/// Contracts see it as its items, the top first, and the number of pushes accepted since it was
/// new.
///
/// ```rattle
/// use lq_predicate::{Stack, StackOp, write};
///
/// let mut stack = Stack::new(alloc);
/// stack.push_attr("size")?;
/// stack.push_uint32(100)?;
/// stack.push_op(StackOp::Gt)?;
/// let predicate = stack.finish()?;
/// assert!(rt; write(alloc, &predicate)?.as_str() == r#"(size>"100")"#);
/// ```
#[derive(Drop)]
pub struct Stack {
    items: Vec<StackItem>,
    pushes: u64,
}

impl Model for Stack {
    ghost use Rattle.std.specs.Prelude.{reverse};
    ghost use Rattle.lq_predicate.specs.Stacked.{Stacked, coded_stacked};

    ghost Value = { Stacked };

    ghost coded = { coded_stacked };

    ghost view = { λ stack. record { items = reverse stack.items.items; pushes = stack.pushes } };
}

impl Stack {
    /// An empty stack. It takes no memory.
    pub fn new(alloc: Global) -> Stack
        ensures { result ≡ new_stack }
    {
        Stack {
            items: Vec::new(alloc),
            pushes: 0,
        }
    }

    /// Pushes the attribute with this name.
    ///
    /// Refused, the first that fits: `BadQuery` where the name is empty, has more than 255 bytes or
    /// has a NUL, or no further push can be counted; `NoMemory`. The place of `BadQuery` is the
    /// number of pushes accepted since the stack was new. A refused call changes nothing.
    pub fn push_attr(&mut self, name: &str) -> Result<(), Refusal>
        ensures ok { OnOk result (attr_pushed name.now self.old ≡ Some self.new) }

        // Refused exactly where it doesn't fit; the stack is then unchanged.
        ensures refused { IsRefusedBy result
            (refusal_at self.old.pushes (attr_pushed name.now self.old)) }
        ensures err { OnErr result (self.new ≡ self.old) }
    {
        if self.pushes == u64::MAX {
            return Err(self.misfit());
        }
        match AttrName::read(*self.items.allocator(), name) {
            Ok(name) => self.push(StackItem::Attr(name)),
            Err(Refusal::NoMemory) => Err(Refusal::NoMemory),
            Err(_) => Err(self.misfit()),
        }
    }

    /// Pushes the value with this text.
    ///
    /// Refused, the first that fits: `BadQuery` where the text has more than 4,096 bytes, or no
    /// further push can be counted, with its place as in `push_attr`; `NoMemory`. A refused call
    /// changes nothing.
    pub fn push_text(&mut self, text: &str) -> Result<(), Refusal>
        ensures ok { OnOk result (text_pushed text.now self.old ≡ Some self.new) }

        // Refused exactly where it doesn't fit; the stack is then unchanged.
        ensures refused { IsRefusedBy result
            (refusal_at self.old.pushes (text_pushed text.now self.old)) }
        ensures err { OnErr result (self.new ≡ self.old) }
    {
        if self.pushes == u64::MAX || text.len() > MAX_VALUE_TEXT {
            return Err(self.misfit());
        }
        let operand = Operand::read(*self.items.allocator(), text)?;
        self.push(StackItem::Value(operand))
    }

    /// Pushes the decimal text of a number. Refused as `push_text`.
    pub fn push_int32(&mut self, value: i32) -> Result<(), Refusal>
        ensures ok { OnOk result (text_pushed (signed_decimal value) self.old ≡ Some self.new) }

        // Refused exactly where it doesn't fit; the stack is then unchanged.
        ensures refused { IsRefusedBy result
            (refusal_at self.old.pushes (text_pushed (signed_decimal value) self.old)) }
        ensures err { OnErr result (self.new ≡ self.old) }
    {
        self.push_int64(i64::from(value))
    }

    /// Pushes the decimal text of a number. Refused as `push_text`.
    pub fn push_int64(&mut self, value: i64) -> Result<(), Refusal>
        ensures ok { OnOk result (text_pushed (signed_decimal value) self.old ≡ Some self.new) }

        // Refused exactly where it doesn't fit; the stack is then unchanged.
        ensures refused { IsRefusedBy result
            (refusal_at self.old.pushes (text_pushed (signed_decimal value) self.old)) }
        ensures err { OnErr result (self.new ≡ self.old) }
    {
        let mut signed = Buffer::new();
        self.push_text(signed.format(value))
    }

    /// Pushes the decimal text of a number. Refused as `push_text`.
    pub fn push_uint32(&mut self, value: u32) -> Result<(), Refusal>
        ensures ok { OnOk result (text_pushed (decimal value) self.old ≡ Some self.new) }

        // Refused exactly where it doesn't fit; the stack is then unchanged.
        ensures refused { IsRefusedBy result
            (refusal_at self.old.pushes (text_pushed (decimal value) self.old)) }
        ensures err { OnErr result (self.new ≡ self.old) }
    {
        self.push_uint64(u64::from(value))
    }

    /// Pushes the decimal text of a number. Refused as `push_text`.
    pub fn push_uint64(&mut self, value: u64) -> Result<(), Refusal>
        ensures ok { OnOk result (text_pushed (decimal value) self.old ≡ Some self.new) }

        // Refused exactly where it doesn't fit; the stack is then unchanged.
        ensures refused { IsRefusedBy result
            (refusal_at self.old.pushes (text_pushed (decimal value) self.old)) }
        ensures err { OnErr result (self.new ≡ self.old) }
    {
        let mut unsigned = Buffer::new();
        self.push_text(unsigned.format(value))
    }

    /// Takes the predicate that is the stack's only item; the stack is then as new. It takes no
    /// memory.
    ///
    /// Refused: `BadQuery` where the stack holds anything else, with its place as in `push_attr`. A
    /// refused call changes nothing.
    pub fn finish(&mut self) -> Result<Predicate, Refusal>
        ensures value { IfOk result (λ predicate. only_part self.old.items ≡ Some predicate) }
        ensures ok { OnOk result (self.new ≡ new_stack) }

        // Refused exactly where it doesn't fit; the stack is then unchanged.
        ensures refused { IfErr result
            (λ e. refusal_at self.old.pushes (only_part self.old.items) ≡ Some e) }
        ensures err { OnErr result (self.new ≡ self.old) }
    {
        if self.items.len() != 1 {
            return Err(self.misfit());
        }
        match self.items.take_last() {
            StackItem::Part(predicate) => {
                self.pushes = 0;
                Ok(predicate)
            }
            item => {
                self.items.push_reserved(item);
                Err(self.misfit())
            }
        }
    }

    // The refusal of a push that doesn't fit.
    fn misfit(&self) -> Refusal
        ensures { Some result ≡ refusal_at {A = Stacked} self.now.pushes None }
    {
        Refusal::BadQuery { place: self.pushes }
    }

    // Adds an item.
    fn push(&mut self, item: StackItem) -> Result<(), Refusal>
        requires { self.old.pushes + 1 < 2 ^ 64 }
        ensures ok { OnOk result (pushed self.old (item ∷ self.old.items) ≡ Some self.new) }
        ensures refused { FailsOnlyForMemory result }
        ensures err { OnErr result (self.new ≡ self.old) }
    {
        self.items.push(item)?;
        self.pushes += 1;
        Ok(())
    }
}
