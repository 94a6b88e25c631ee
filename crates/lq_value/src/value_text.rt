//! The text of an attribute's value, which has at most 4,096 bytes.
ghost use Rattle.std.specs.Prelude.{◌≡◌, ◌≤◌, IfOk, length};
ghost use Rattle.lq_value.specs.Refusal.{FailsOnlyForMemory, IsRefusedBy};
ghost use Rattle.lq_value.specs.Value.{text_refusal};

use crate::limits::MAX_VALUE_TEXT;
use crate::refusal::Refusal;
use crate::small_text::SmallText;
use std::alloc::Global;
use std::fmt;
use std::marker::Model;

/// The text of a value: at most 4,096 bytes of UTF-8.
///
/// A contract sees it as its bytes.
pub struct ValueText {
    text: SmallText,
}

impl Drop for ValueText {
    fn drop(self) {
        let ValueText { text: _ } = self;
    }
}

impl fmt::Debug for ValueText {
    fn fmt<W: fmt::Write>(&self, f: &mut fmt::Formatter<W>) -> fmt::Result {
        fmt::Debug::fmt(&self.as_str(), f)
    }
}

impl Model for ValueText {
    ghost use Rattle.std.specs.Prelude.{ℕ, List, length, ◌≤◌};

    ghost Value = { List ℕ };

    ghost view = { λ value. value.text };

    ghost invariant = { λ value. length value.text ≤ 4096 };
}

impl ValueText {
    /// The value's text with these bytes.
    ///
    /// Refused, the first that fits: `TooLong` above 4,096 bytes, `NoMemory`. The limit is our own.
    pub fn read(alloc: Global, text: &str) -> Result<ValueText, Refusal>
        ensures refused { IsRefusedBy result (text_refusal text.now) }
        ensures value { IfOk result (λ value. value ≡ text.now) }
    {
        if text.len() > MAX_VALUE_TEXT {
            return Err(Refusal::TooLong);
        }
        Ok(ValueText {
            text: SmallText::new(alloc, text)?,
        })
    }

    /// The text, of at most 4,096 bytes. It takes no memory.
    pub fn as_str(&self) -> &str
        ensures value { result.now ≡ self.now }
        ensures short { length self.now ≤ 4096 }
    {
        self.text.as_str()
    }

    /// A copy of the text. Refused: `NoMemory`.
    pub fn copy(&self, alloc: Global) -> Result<ValueText, Refusal>
        ensures refused { FailsOnlyForMemory result }
        ensures value { IfOk result (λ value. value ≡ self.now) }
    {
        Ok(ValueText {
            text: SmallText::new(alloc, self.text.as_str())?,
        })
    }
}
