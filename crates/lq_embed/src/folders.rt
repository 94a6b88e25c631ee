//! Lists a folder's entries, and makes a node's path the text.
ghost use Rattle.std.specs.Prelude.{◌≡◌, ◌++◌, ◌∷◌, IfOk, OnOk};
ghost use Rattle.lq_value.specs.Refusal.{FailsOnlyForMemory};
ghost use Rattle.lq_embed.specs.Folders.{Lists, Paths, path_text};
ghost use Rattle.lq_embed.specs.SessionState.{holds};

use crate::embedded::Embedded;
use crate::numbers::status;
use lq_value::{Name, Refusal};
use std::alloc::Global;

/// What separates the names of a path.
pub(crate) const SLASH: u8 = b'/';

impl Embedded {
    /// The entries in a folder by rising name, which are then to be given; writes how many they
    /// are.
    ///
    /// Refused, the first that fits: `NoNode` where there is no node `dir`, `NotFolder` where `dir`
    /// is a file, `NoMemory`.
    pub fn children(&mut self, dir: u64, count: &mut usize) -> u32
        ensures { Lists (holds self.old) (holds self.new) dir result count.old count.new }
    {
        match self.session.volume().children(dir) {
            Err(refusal) => status(refusal),
            Ok(entries) => {
                *count = entries.len();
                self.entries = entries.into_iter();
                0
            }
        }
    }

    /// Makes a node's path the text, and writes its size in bytes. The path has the names from the
    /// root down, each after a `/`; the path of the root is `/`.
    ///
    /// Refused: `NoNode` where there is no such node, `NoMemory`.
    pub fn path(&mut self, node: u64, size: &mut usize) -> u32
        ensures { Paths (holds self.old) (holds self.new) node result size.old size.new }
    {
        let names = match self.session.volume().path(node) {
            Err(refusal) => return status(refusal),
            Ok(names) => names,
        };
        let Ok(text) = text_of(self.alloc, &names) else {
            return status(Refusal::NoMemory);
        };
        *size = text.len();
        self.text = text;
        0
    }
}

// The text of a path.
fn text_of(alloc: Global, names: &[Name]) -> Result<Vec<u8>, Refusal>
    ensures refused { FailsOnlyForMemory result }
    ensures value { IfOk result (λ text. text.items ≡ path_text names.now) }
{
    let mut text = Vec::new(alloc);
    if names.is_empty() {
        text.push(SLASH)?;
        return Ok(text);
    }
    for name in names {
        append_name(&mut text, name)?;
    }
    Ok(text)
}

// Appends a name, with `/` before it.
fn append_name(text: &mut Vec<u8>, name: &Name) -> Result<(), Refusal>
    ensures refused { FailsOnlyForMemory result }
    ensures ok { OnOk result (text.new.items ≡ text.old.items ++ (47 ∷ name.now)) }
{
    text.push(SLASH)?;
    text.extend_from_slice(name.as_str().as_bytes())?;
    Ok(())
}
