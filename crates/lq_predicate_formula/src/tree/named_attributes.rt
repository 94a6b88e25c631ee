//! The attributes of a tree's query: their names, and whether it needs one.
ghost use Rattle.std.specs.Prelude.{◌≡◌, IfOk};
ghost use Rattle.lq_value.specs.Refusal.{FailsOnlyForMemory};
ghost use Rattle.lq_predicate_formula.specs.Names.{attributes, each_once, is_among};
ghost use Rattle.lq_predicate_formula.specs.Needs.{needs_attribute};

use crate::tree::{Tree, TreeNode};
use lq_value::{AttrName, Field, Refusal};
use std::alloc::Global;

impl Tree {
    /// Adds the names of the attributes that the query compares and that are not in the list yet,
    /// in the order of first use from the left. Refused: `NoMemory`; the list may then have some of
    /// them.
    pub fn add_names(&self, alloc: Global, names: &mut Vec<AttrName>) -> Result<(), Refusal>
        ensures refused { FailsOnlyForMemory result }
        ensures value { IfOk result
            (λ _. names.new.items ≡ each_once names.old.items (attributes self.now)) }
    {
        match &self.node {
            TreeNode::Compare(attr, _, _) => {
                if !is_among(names.as_slice(), attr) {
                    names.push(attr.copy(alloc)?)?;
                }
            }
            TreeNode::Not(part) => part.add_names(alloc, names)?,
            TreeNode::And(parts) | TreeNode::Or(parts) => {
                for part in parts {
                    part.add_names(alloc, names)?;
                }
            }
        }
        Ok(())
    }

    /// Whether the query needs an attribute other than `name`, `size` and `last_modified`: if so,
    /// it is false of each row that has none (`bare_rows_fail`). It takes no memory.
    pub fn needs_attribute(&self) -> bool
        ensures { result ≡ needs_attribute self.now }
    {
        match &self.node {
            TreeNode::Compare(attr, _, _) => match attr.field() {
                Field::Name | Field::Size | Field::LastModified => false,
                Field::Attribute => true,
            },
            TreeNode::Not(_) => false,
            TreeNode::And(parts) => {
                for part in parts {
                    if part.needs_attribute() {
                        return true;
                    }
                }
                false
            }
            TreeNode::Or(parts) => {
                for part in parts {
                    if !part.needs_attribute() {
                        return false;
                    }
                }
                true
            }
        }
    }
}

fn is_among(names: &[AttrName], name: &AttrName) -> bool
    ensures { result ≡ is_among names.now name.now }
{
    names.iter().any(|other| other.as_str() == name.as_str())
}
