//! What the reader of lines keeps from line to line, to save memory and time.
ghost use Rattle.std.specs.Prelude.{◌≡◌, Some, None, IfOk, IfSome, IsTrue, if◌then◌else◌};
ghost use Rattle.lq_value.specs.declared.refusal.Refusal.TheVariants.{BadName};
ghost use Rattle.lq_value.specs.Name.{is_attr_name};
ghost use Rattle.lq_value.specs.Refusal.{FailsOnlyForMemory, IsRefusedBy};

use lq_value::{AttrName, Refusal, same_text};
use std::alloc::Global;

/// The number of attribute names that are kept.
const RECENT: usize = 16;

/// Memory for reading lines. One scratch reused from line to line saves memory and changes no
/// answer.
#[derive(Drop)]
pub struct Scratch {
    pub(crate) attrs: RecentAttrs,
}

impl Scratch {
    /// An empty scratch. It takes no memory.
    pub fn new(alloc: Global) -> Scratch {
        Scratch {
            attrs: RecentAttrs::new(alloc),
        }
    }
}

/// The attribute names that requests used last: a name that is read again shares its text.
#[derive(Drop)]
pub struct RecentAttrs {
    names: Vec<AttrName>,
    // The index for the next name, once all indices are used.
    oldest: usize,
}

impl RecentAttrs {
    /// No name. It takes no memory.
    pub fn new(alloc: Global) -> RecentAttrs {
        RecentAttrs {
            names: Vec::new(alloc),
            oldest: 0,
        }
    }

    // The attribute's name with this text, as `AttrName::read` reads it.
    pub(crate) fn read(&mut self, alloc: Global, text: &str) -> Result<AttrName, Refusal>
        ensures refused { IsRefusedBy result
            (if is_attr_name text.now then None else Some BadName) }
        ensures value { IfOk result (λ name. name ≡ text.now) }
    {
        if let Some(name) = self.known(text) {
            return name.copy(alloc);
        }
        let name = AttrName::read(alloc, text)?;
        self.keep(name.copy(alloc)?)?;
        Ok(name)
    }

    // The name with this text, if it is kept.
    fn known(&self, text: &str) -> Option<&AttrName>
        ensures text { IfSome result (λ name. name.now ≡ text.now) }
        ensures valid { IfSome result (λ name. IsTrue (is_attr_name text.now)) }
    {
        for name in &self.names {
            if same_text(name.as_str(), text) {
                return Some(name);
            }
        }
        None
    }

    // Keeps a name, in place of the oldest one if there is no room. Refused: `NoMemory`.
    fn keep(&mut self, name: AttrName) -> Result<(), Refusal>
        ensures refused { FailsOnlyForMemory result }
    {
        if self.names.len() < RECENT {
            self.names.push(name)?;
            return Ok(());
        }
        if let Some(kept) = self.names.get_mut(self.oldest) {
            *kept = name;
        }
        self.oldest = if self.oldest < RECENT - 1 {
            self.oldest + 1
        } else {
            0
        };
        Ok(())
    }
}
