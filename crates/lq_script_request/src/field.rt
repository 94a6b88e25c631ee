//! The value of a member, as far as a line's fields go: of an array or an object only the kind is
//! kept.
ghost use Rattle.std.specs.Prelude.{◌≡◌, Some, is_none, option_and_then, option_map};
ghost use Rattle.serde_json.specs.Find.{as_bool, as_i64, as_number, as_str, as_u64};
ghost use Rattle.serde_json.specs.View.{view};
ghost use Rattle.lq_script_request.specs.Shown.{data_in, json_outline};

use serde_json::{Number, Value};

/// The field of a key.
#[derive(Clone, Copy)]
pub enum Field<'a> {
    /// No member has the key.
    Absent,
    Null,
    True,
    False,
    /// A whole number from 0 up, of a plain line.
    Whole(u64),
    /// Any other number.
    Number(Number),
    Text(&'a str),
    /// An array, without its items.
    Array,
    /// An object, without its members.
    Object,
}

impl<'a> Field<'a> {
    /// Whether no member has the key.
    #[inline(always)]
    pub fn is_absent(self) -> bool
        ensures { result ≡ is_none (data_in self.entry) }
    {
        match self {
            Field::Absent => true,
            _ => false,
        }
    }

    /// The text; `None` where the field is no text.
    #[inline(always)]
    pub fn text(self) -> Option<&'a str>
        ensures { option_map (λ text. text.now) result
            ≡ option_and_then as_str (data_in self.entry) }
    {
        match self {
            Field::Text(text) => Some(text),
            _ => None,
        }
    }

    /// The truth value; `None` where the field is none.
    #[inline(always)]
    pub fn truth(self) -> Option<bool>
        ensures { result ≡ option_and_then as_bool (data_in self.entry) }
    {
        match self {
            Field::True => Some(true),
            Field::False => Some(false),
            _ => None,
        }
    }

    /// The whole number from 0 up; `None` where the field is no such number.
    #[inline(always)]
    pub fn number(self) -> Option<u64>
        ensures { result
            ≡ option_and_then as_u64 (option_and_then as_number (data_in self.entry)) }
    {
        match self {
            Field::Whole(number) => Some(number),
            Field::Number(number) => number.as_u64(),
            _ => None,
        }
    }

    /// The whole number of 64 bits with a sign; `None` where the field is no such number.
    #[inline(always)]
    pub fn signed(self) -> Option<i64>
        ensures { result
            ≡ option_and_then as_i64 (option_and_then as_number (data_in self.entry)) }
    {
        match self {
            Field::Whole(number) => {
                if number > 9223372036854775807 {
                    return None;
                }
                Some(number as i64)
            }
            Field::Number(number) => number.as_i64(),
            _ => None,
        }
    }
}

// The field of a member with this value.
pub(crate) fn field_of(value: &Value) -> Field<'_>
    ensures { data_in result ≡ Some (json_outline (view value.now)) }
{
    match value {
        Value::Null => Field::Null,
        Value::Bool(true) => Field::True,
        Value::Bool(false) => Field::False,
        Value::Number(number) => Field::Number(*number),
        Value::String(text) => Field::Text(text.as_str()),
        Value::Array(_) => Field::Array,
        Value::Object(_) => Field::Object,
    }
}
