//! What a pattern is made of: plain characters, any one character, any run, and sets.
ghost use Rattle.std.specs.Prelude.{◌≡◌, ◌++◌, ◌∷◌, [], IfOk};
ghost use Rattle.lq_value_pattern.specs.Element.{is_list_empty};

use std::alloc::{AllocError, Global};
use std::marker::Model;

/// One item of a set: one character, or a range of characters that includes both ends.
#[derive(Clone, Copy, PartialEq, Eq)]
pub enum Item {
    One(char),
    Range(char, char),
}

/// The items of a set, in the order of its source.
///
/// A contract sees them as a list.
#[derive(Drop)]
pub struct Items {
    items: Vec<Item>,
}

impl Model for Items {
    ghost use Rattle.std.specs.Prelude.{List};
    ghost use Rattle.lq_value_pattern.specs.declared.element.Item.{Item};

    ghost Value = { List Item };

    ghost view = { λ set. set.items.items };
}

impl Items {
    /// A list of no items. It takes no memory.
    pub(crate) fn new(alloc: Global) -> Items
        ensures { result ≡ [] }
    {
        Items {
            items: Vec::new(alloc),
        }
    }

    /// Whether there is no item. It takes no memory.
    pub(crate) fn is_empty(&self) -> bool
        ensures { result ≡ is_list_empty self.now }
    {
        self.items.is_empty()
    }

    /// The items in their order. It takes no memory.
    pub fn as_slice(&self) -> &[Item]
        ensures { result.now ≡ self.now }
    {
        self.items.as_slice()
    }

    /// Adds an item after the others. It fails only for want of memory.
    pub(crate) fn push(&mut self, item: Item) -> Result<(), AllocError>
        ensures { IfOk result (λ _. self.new ≡ self.old ++ item ∷ []) }
    {
        self.items.push(item)?;
        Ok(())
    }

    /// A copy of the items. It fails only for want of memory.
    pub(crate) fn copy(&self, alloc: Global) -> Result<Items, AllocError>
        ensures { IfOk result (λ items. items ≡ self.now) }
    {
        Ok(Items {
            items: Vec::from_slice(alloc, self.items.as_slice())?,
        })
    }
}

/// One element of a pattern. Each variant says which part of a text it fits.
#[derive(Drop)]
pub enum Element {
    /// Any run of characters, which may be empty.
    Star,
    /// Any one character.
    Any,
    /// This character.
    Plain(char),
    /// One character that an item includes, or, where the set is negated, that no item includes.
    Set { negated: bool, items: Items },
}

impl Element {
    /// A copy of the element. It fails only for want of memory.
    pub(crate) fn copy(&self, alloc: Global) -> Result<Element, AllocError>
        ensures { IfOk result (λ element. element ≡ self.now) }
    {
        match self {
            Element::Star => Ok(Element::Star),
            Element::Any => Ok(Element::Any),
            Element::Plain(c) => Ok(Element::Plain(*c)),
            Element::Set { negated, items } => Ok(Element::Set {
                negated: *negated,
                items: items.copy(alloc)?,
            }),
        }
    }
}
