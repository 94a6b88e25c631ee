//! A text that takes no memory of its own where it is short.
ghost use Rattle.std.specs.Prelude.{◌≡◌, IfOk};
ghost use Rattle.lq_value.specs.Refusal.{FailsOnlyForMemory};

use crate::refusal::Refusal;
use crate::short_text::ShortText;
use std::alloc::Global;
use std::marker::Model;

/// The longest text that is stored inline, in bytes. A `String` takes as much space there.
const MAX_SHORT_TEXT: usize = 30;

/// A text of UTF-8. Up to 30 bytes are stored inline and take no memory of their own.
///
/// A contract sees it as its bytes.
#[derive(Drop)]
pub(crate) struct SmallText {
    kept: Kept,
}

#[derive(Drop)]
pub(crate) enum Kept {
    Here(ShortText<MAX_SHORT_TEXT>),
    Apart(String),
}

impl Model for SmallText {
    ghost use Rattle.std.specs.Prelude.{ℕ, List};
    ghost use Rattle.lq_value.specs.Kept.{small_bytes};

    ghost Value = { List ℕ };

    ghost view = { λ small. small_bytes small.kept };
}

impl SmallText {
    /// The text with these bytes. Refused: `NoMemory`.
    pub fn new(alloc: Global, text: &str) -> Result<SmallText, Refusal>
        ensures refused { FailsOnlyForMemory result }
        ensures value { IfOk result (λ small. small ≡ text.now) }
    {
        let kept = match ShortText::new(text) {
            Some(short) => Kept::Here(short),
            None => Kept::Apart(String::from_str(alloc, text)?),
        };
        Ok(SmallText { kept })
    }

    /// The bytes as a `str`. It takes no memory.
    pub fn as_str(&self) -> &str
        ensures { result.now ≡ self.now }
    {
        match &self.kept {
            Kept::Here(text) => text.as_str(),
            Kept::Apart(text) => text.as_str(),
        }
    }
}
