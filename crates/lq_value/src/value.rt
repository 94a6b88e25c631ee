//! What an attribute holds: a text or a number, with its type.
ghost use Rattle.std.specs.Prelude.{◌≡◌, IfOk};
ghost use Rattle.lq_value.specs.Refusal.{FailsOnlyForMemory, IsRefusedBy};
ghost use Rattle.lq_value.specs.PlainValue.{held_in, plain_value_of};
ghost use Rattle.lq_value.specs.Value.{text_refusal, shown_by};

use crate::refusal::Refusal;
use crate::value_text::ValueText;
use crate::view::View;
use std::alloc::Global;
use std::fmt;

/// The value of an attribute: a text of at most 4,096 bytes, or a whole number of one of four
/// types.
///
/// The types are among the attribute types of Be's `TypeConstants.h`.
#[derive(Drop)]
pub enum Value {
    Text(ValueText),
    Int32(i32),
    Int64(i64),
    UInt32(u32),
    UInt64(u64),
}

impl fmt::Debug for Value {
    fn fmt<W: fmt::Write>(&self, f: &mut fmt::Formatter<W>) -> fmt::Result {
        fmt::Debug::fmt(&self.view(), f)
    }
}

impl Value {
    /// The value that is this text.
    ///
    /// Refused, the first that fits: `TooLong` above 4,096 bytes, `NoMemory`. The limit is our own.
    pub fn text(alloc: Global, text: &str) -> Result<Value, Refusal>
        ensures refused { IsRefusedBy result (text_refusal text.now) }
        ensures value { IfOk result (λ value. value ≡ Value.Text text.now) }
    {
        Ok(Value::Text(ValueText::read(alloc, text)?))
    }

    /// The value as a borrowed view of the same type. It takes no memory.
    pub fn view(&self) -> View<'_>
        ensures shown { shown_by result ≡ self.now }
        ensures held { plain_value_of result ≡ held_in self.now }
    {
        match self {
            Value::Text(text) => View::Text(text.as_str()),
            Value::Int32(value) => View::Int32(*value),
            Value::Int64(value) => View::Int64(*value),
            Value::UInt32(value) => View::UInt32(*value),
            Value::UInt64(value) => View::UInt64(*value),
        }
    }

    /// A copy of the value. Refused: `NoMemory`, as the code says for a text only.
    pub fn copy(&self, alloc: Global) -> Result<Value, Refusal>
        ensures refused { FailsOnlyForMemory result }
        ensures value { IfOk result (λ value. value ≡ self.now) }
    {
        match self {
            Value::Text(text) => Ok(Value::Text(text.copy(alloc)?)),
            Value::Int32(value) => Ok(Value::Int32(*value)),
            Value::Int64(value) => Ok(Value::Int64(*value)),
            Value::UInt32(value) => Ok(Value::UInt32(*value)),
            Value::UInt64(value) => Ok(Value::UInt64(*value)),
        }
    }
}
