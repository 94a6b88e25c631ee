//! Names of entries, compared by bytes and hashed for the index of folders.
ghost use Rattle.std.specs.Prelude.{◌≡◌, refl, Some, None, IfOk, IsTrue, nat_eq, if◌then◌else◌};
ghost use Rattle.std.specs.Cmp.Lexicographic.{pointwise, slice_cmp, nat_list_eq_equiv, nat_list_cmp_total, texts_po, texts_ties};
ghost use Rattle.std.specs.Cmp.{partial_equiv_from_equiv};
ghost use Rattle.std.specs.Ordering.{nat_cmp};
ghost use Rattle.lq_value.specs.declared.refusal.Refusal.TheVariants.{BadName};
ghost use Rattle.lq_value.specs.Refusal.{FailsOnlyForMemory, IsRefusedBy};
ghost use Rattle.lq_value.specs.Name.{is_name, is_name_byte};
ghost use Rattle.lq_value.specs.NameHash.{hash_of};
ghost use Rattle.std.specs.List.{list_all};

use crate::limits::MAX_NAME;
use crate::name_text::NameText;
use crate::refusal::Refusal;
use crate::short_text::ShortText;
use crate::small_text::SmallText;
use crate::text::same_text;
use std::alloc::Global;
use std::cmp::Ordering;
use std::fmt;
use std::marker::Model;
use std::sync::Arc;

/// The modulus of a hash before the next byte is added, which keeps 55 bits.
const KEPT: u64 = 1 << 55;

/// The name of an entry: 1 to 255 bytes of UTF-8 without `/` and NUL, and neither `.` nor `..`.
///
/// A contract sees a name as its bytes, and names are ordered by their bytes. A name of up to 14
/// bytes holds them itself. A longer name and its copies share one text, which is freed with the
/// last of them.
pub struct Name {
    text: NameText,
}

impl Drop for Name {
    fn drop(self) {
        let Name { text: _ } = self;
    }
}

impl fmt::Debug for Name {
    fn fmt<W: fmt::Write>(&self, f: &mut fmt::Formatter<W>) -> fmt::Result {
        fmt::Debug::fmt(&self.as_str(), f)
    }
}

impl Model for Name {
    ghost use Rattle.std.specs.Prelude.{ℕ, List, IsTrue};
    ghost use Rattle.lq_value.specs.Name.{is_name, name_text_bytes};

    ghost Value = { List ℕ };

    ghost view = { λ name. name_text_bytes name.text };

    ghost invariant = { λ name. IsTrue (is_name (name_text_bytes name.text)) };
}

impl Name {
    /// The name with this text.
    ///
    /// Refused, the first that fits: `BadName` where the text isn't a name, `NoMemory`. The limits
    /// are our own.
    pub fn read(alloc: Global, text: &str) -> Result<Name, Refusal>
        ensures refused { IsRefusedBy result (if is_name text.now then None else Some BadName) }
        ensures value { IfOk result (λ name. name ≡ text.now) }
    {
        if !is_name_text(text) {
            return Err(Refusal::BadName);
        }
        let text = match ShortText::new(text) {
            Some(short) => NameText::Short(short),
            None => NameText::Shared(Arc::new(alloc, SmallText::new(alloc, text)?)?),
        };
        Ok(Name { text })
    }

    /// The text of the name. It takes no memory.
    pub fn as_str(&self) -> &str
        ensures value { result.now ≡ self.now }
        ensures valid { IsTrue (is_name self.now) }
    {
        match &self.text {
            NameText::Short(text) => text.as_str(),
            NameText::Shared(text) => text.as_str(),
        }
    }

    /// A hash of the name: names with the same text have the same. No clause says that others
    /// differ. It takes no memory.
    pub fn hash(&self) -> u64
        ensures { result ≡ hash_of self.now }
    {
        hash_of_bytes(self.as_str().as_bytes())
    }

    /// Another name with the same text. Refused: `NoMemory`.
    ///
    /// As the code says, it takes no memory: up to 14 bytes are copied, and a longer text is shared
    /// unless 2^63 - 1 names share it already.
    pub fn copy(&self, alloc: Global) -> Result<Name, Refusal>
        ensures refused { FailsOnlyForMemory result }
        ensures value { IfOk result (λ name. name ≡ self.now) }
    {
        let text = match &self.text {
            NameText::Short(text) => NameText::Short(text.copy()),
            NameText::Shared(text) => match text.clone() {
                Ok(text) => NameText::Shared(text),
                Err(_) => return Name::read(alloc, self.as_str()),
            },
        };
        Ok(Name { text })
    }
}

impl PartialEq for Name {
    ghost eq = { pointwise nat_eq };

    ghost laws = { partial_equiv_from_equiv nat_list_eq_equiv };

    fn eq(&self, other: &Name) -> bool {
        same_text(self.as_str(), other.as_str())
    }
}

impl Eq for Name {
    ghost laws = { nat_list_eq_equiv };
}

impl PartialOrd for Name {
    ghost partial_cmp = { λ x y. Some (slice_cmp nat_cmp x y) };

    ghost laws = { texts_po };

    fn partial_cmp(&self, other: &Name) -> Option<Ordering> {
        Some(self.cmp(other))
    }
}

impl Ord for Name {
    ghost cmp = { slice_cmp nat_cmp };

    ghost total = { nat_list_cmp_total };

    ghost matches_partial_cmp = { λ x y. refl };

    ghost matches_eq = { texts_ties };

    fn cmp(&self, other: &Name) -> Ordering {
        self.as_str().cmp(other.as_str())
    }
}

fn is_name_text(text: &str) -> bool
    ensures { result ≡ is_name text.now }
{
    if text.is_empty() || text.len() > MAX_NAME {
        return false;
    }
    if text == "." || text == ".." {
        return false;
    }
    has_name_bytes(text.as_bytes())
}

// The hash of a text.
fn hash_of_bytes(bytes: &[u8]) -> u64
    ensures { result ≡ hash_of bytes.now }
{
    let mut hash = 0;
    for byte in bytes {
        hash = hash % KEPT * 257 + *byte as u64;
    }
    hash
}

// Whether no byte is `/` or NUL.
fn has_name_bytes(bytes: &[u8]) -> bool
    ensures { result ≡ list_all is_name_byte bytes.now }
{
    bytes.iter().all(|b| *b != 47 && *b != 0)
}
