//! A text that contracts see as its bytes.
ghost use Rattle.std.specs.Prelude.{◌≡◌, IfOk, length};
ghost use Rattle.std.specs.Str.{bytes_eq};
ghost use Rattle.lq_value.specs.Refusal.{FailsOnlyForMemory};
ghost use Rattle.lq_value.specs.Number.{decimal_number};

use crate::digits::number_of_bytes;
use crate::refusal::Refusal;
use std::alloc::Global;
use std::fmt;
use std::marker::Model;

/// A text of UTF-8. It is made from a `String` and gives it back without taking memory.
///
/// A contract sees it as its bytes.
#[derive(Drop)]
pub struct Text {
    text: String,
    // The whole number that the text writes, which is kept because it is compared often.
    number: Option<i128>,
}

impl fmt::Debug for Text {
    fn fmt<W: fmt::Write>(&self, f: &mut fmt::Formatter<W>) -> fmt::Result {
        fmt::Debug::fmt(&self.as_str(), f)
    }
}

impl Model for Text {
    ghost use Rattle.std.specs.Prelude.{◌≡◌, ℕ, List};
    ghost use Rattle.std.specs.String.{string_bytes};
    ghost use Rattle.lq_value.specs.Number.{decimal_number};

    ghost Value = { List ℕ };

    ghost view = { λ text. string_bytes text.text };

    ghost invariant = { λ text. text.number ≡ decimal_number (string_bytes text.text) };
}

impl Text {
    ghost use Rattle.std.specs.String.{string_bytes};

    /// The text with these bytes. It takes no memory.
    pub fn new(text: String) -> Text
        ensures { result ≡ string_bytes text }
    {
        let number = number_of_bytes(text.as_bytes());
        Text { text, number }
    }

    /// The bytes as a `str`. It takes no memory.
    pub fn as_str(&self) -> &str
        ensures { result.now ≡ self.now }
    {
        self.text.as_str()
    }

    /// The `String` that the text was made from. It takes no memory.
    pub fn into_string(self) -> String
        ensures { string_bytes result ≡ self }
    {
        let Text { text, number: _ } = self;
        text
    }

    /// A copy of the text. Refused: `NoMemory`.
    pub fn copy(&self, alloc: Global) -> Result<Text, Refusal>
        ensures refused { FailsOnlyForMemory result }
        ensures value { IfOk result (λ text. text ≡ self.now) }
    {
        Ok(Text {
            text: String::from_str(alloc, self.text.as_str())?,
            number: self.number,
        })
    }

    /// The whole number that the text writes, if it writes one: an optional `-` and 1 to 20 decimal
    /// digits. It takes no memory.
    pub fn number(&self) -> Option<i128>
        ensures { result ≡ decimal_number self.now }
    {
        self.number
    }
}

/// Whether two texts are the same. It takes no memory.
///
/// The lengths, the first bytes and the last bytes are compared first. Most texts that differ do so
/// there: long names that begin with the same word, for example, in their last byte.
pub fn same_text(one: &str, other: &str) -> bool
    ensures { result ≡ bytes_eq one.now other.now }
{
    if one.len() != other.len() {
        return false;
    }
    if one.len() < 8 {
        return same_bytes(one.as_bytes(), other.as_bytes());
    }
    match (one.as_bytes().first(), other.as_bytes().first()) {
        (Some(a), Some(b)) if *a != *b => return false,
        _ => {}
    }
    match (one.as_bytes().last(), other.as_bytes().last()) {
        (Some(a), Some(b)) if *a != *b => false,
        _ => one == other,
    }
}

// Whether two byte slices of one length are the same, byte by byte. This is the fastest way for a
// few bytes.
fn same_bytes(one: &[u8], other: &[u8]) -> bool
    requires { length one.now ≡ length other.now }
    ensures { result ≡ bytes_eq one.now other.now }
{
    for place in 0..one.len() {
        if one[place] != other[place] {
            return false;
        }
    }
    true
}
