//! Names of attributes, each with the field that it means.
ghost use Rattle.std.specs.Prelude.{◌≡◌, ◌==◌, not, Some, None, IfOk, IsTrue, nat_eq, if◌then◌else◌};
ghost use Rattle.std.proofs.Common.{rules};
ghost use Rattle.std.specs.Cmp.{partial_equiv_from_equiv};
ghost use Rattle.std.specs.Cmp.Rules.{hashing};
ghost use Rattle.std.specs.Hash as fed;
ghost use Rattle.std.specs.Cmp.Lexicographic.{pointwise, nat_list_eq_equiv};
ghost use Rattle.std.specs.List.{list_all};
ghost use Rattle.lq_value.specs.declared.refusal.Refusal.TheVariants.{BadName};
ghost use Rattle.lq_value.specs.Refusal.{FailsOnlyForMemory, IsRefusedBy};
ghost use Rattle.lq_value.specs.Name.{is_attr_name};
ghost use Rattle.lq_value.specs.Field.{field_of};

use crate::attr_field::Field;
use crate::limits::MAX_ATTR_NAME;
use crate::refusal::Refusal;
use crate::small_text::SmallText;
use crate::text::same_text;
use std::alloc::Global;
use std::fmt;
use std::hash::{Hash, Hasher};
use std::marker::Model;
use std::sync::Arc;

/// The name of an attribute: 1 to 255 bytes of UTF-8 without NUL.
///
/// A contract sees it as its bytes. A name and its copies share one text, which is freed with the
/// last of them. Beside the text stands the field that it means, so that no later look-up compares
/// texts for it.
pub struct AttrName {
    shared: Arc<FieldName>,
}

/// The text of an attribute's name and the field that it means. A contract sees it as its bytes.
#[derive(Drop)]
struct FieldName {
    text: SmallText,
    field: Field,
}

impl Drop for AttrName {
    fn drop(self) {
        let AttrName { shared: _ } = self;
    }
}

impl fmt::Debug for AttrName {
    fn fmt<W: fmt::Write>(&self, f: &mut fmt::Formatter<W>) -> fmt::Result {
        fmt::Debug::fmt(&self.as_str(), f)
    }
}

impl Model for AttrName {
    ghost use Rattle.std.specs.Prelude.{ℕ, List};
    ghost use Rattle.std.specs.Arc.{arc_value};

    ghost Value = { List ℕ };

    ghost view = { λ name. arc_value name.shared };
}

impl Model for FieldName {
    ghost use Rattle.std.specs.Prelude.{◌≡◌, ℕ, List, IsTrue};
    ghost use Rattle.lq_value.specs.Field.{field_of};
    ghost use Rattle.lq_value.specs.Name.{is_attr_name};

    ghost Value = { List ℕ };

    ghost view = { λ known. known.text };

    ghost invariant = { λ known.
        IsTrue (is_attr_name known.text) × (known.field ≡ field_of known.text) };
}

impl AttrName {
    /// The attribute's name with this text.
    ///
    /// Refused, the first that fits: `BadName` where the text isn't the name of an attribute,
    /// `NoMemory`. The limits are our own.
    pub fn read(alloc: Global, text: &str) -> Result<AttrName, Refusal>
        ensures refused { IsRefusedBy result
            (if is_attr_name text.now then None else Some BadName) }
        ensures value { IfOk result (λ name. name ≡ text.now) }
    {
        if !is_attr_name_text(text) {
            return Err(Refusal::BadName);
        }
        let known = FieldName {
            text: SmallText::new(alloc, text)?,
            field: field_of_text(text),
        };
        Ok(AttrName {
            shared: Arc::new(alloc, known)?,
        })
    }

    /// The text of the name. It takes no memory.
    pub fn as_str(&self) -> &str
        ensures value { result.now ≡ self.now }
        ensures valid { IsTrue (is_attr_name self.now) }
    {
        self.shared.text.as_str()
    }

    /// The field of an entry that the name stands for, or `Attribute`. It takes no memory.
    pub fn field(&self) -> Field
        ensures { result ≡ field_of self.now }
    {
        self.shared.field
    }

    /// Another name with the same text. Refused: `NoMemory`.
    ///
    /// As the code says, it shares this one's text and takes no memory, unless 2^63 - 1 names share
    /// that already.
    pub fn copy(&self, alloc: Global) -> Result<AttrName, Refusal>
        ensures refused { FailsOnlyForMemory result }
        ensures value { IfOk result (λ name. name ≡ self.now) }
        ensures valid { IfOk result (λ name. IsTrue (is_attr_name name)) }
    {
        let text = self.as_str();
        match self.shared.clone() {
            Ok(shared) => Ok(AttrName { shared }),
            Err(_) => AttrName::read(alloc, text),
        }
    }
}

// Names are equal where their texts are.
impl PartialEq for AttrName {
    ghost eq = { pointwise nat_eq };

    ghost laws = { partial_equiv_from_equiv nat_list_eq_equiv };

    fn eq(&self, other: &AttrName) -> bool {
        same_text(self.as_str(), other.as_str())
    }
}

impl Eq for AttrName {
    ghost laws = { nat_list_eq_equiv };
}

impl Hash for AttrName {
    ghost hash_input = { λ name. fed.str name };

    ghost respects_eq = { Prim.search (hashing, rules) };

    fn hash<H: Hasher>(&self, state: &mut H) {
        self.as_str().hash(state);
    }
}

fn field_of_text(text: &str) -> Field
    ensures { result ≡ field_of text.now }
{
    match text {
        "name" => Field::Name,
        "size" => Field::Size,
        "last_modified" => Field::LastModified,
        _ => Field::Attribute,
    }
}

fn is_attr_name_text(text: &str) -> bool
    ensures { result ≡ is_attr_name text.now }
{
    if text.is_empty() || text.len() > MAX_ATTR_NAME {
        return false;
    }
    has_no_nul(text.as_bytes())
}

fn has_no_nul(bytes: &[u8]) -> bool
    ensures { result ≡ list_all (λ b. not (b == 0)) bytes.now }
{
    bytes.iter().all(|b| *b != 0)
}
