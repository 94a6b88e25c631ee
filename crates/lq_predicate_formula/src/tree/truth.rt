//! Whether a tree's query is true of a row.
ghost use Rattle.std.specs.Prelude.{◌≡◌, IsTrue};
ghost use Rattle.lq_predicate_formula.specs.PredicateLimits.{is_formed};
ghost use Rattle.lq_predicate_formula.specs.Truth.{truth};

use crate::row::Row;
use crate::tree::{Tree, TreeNode};
use lq_value::compare;

impl Tree {
    /// Whether the query is true of the row. It takes no memory.
    ///
    /// A comparison of an attribute that the row lacks is false, also with `Ne`, as in BQuery.
    pub fn is_true_of<R: Row>(&self, row: &R) -> bool
        requires { IsTrue (is_formed self.now) }
        ensures { result ≡ truth self.now (R.looks row.now) }
    {
        match &self.node {
            TreeNode::Compare(attr, op, literal) => match row.look(attr) {
                None => false,
                Some(view) => compare(view, *op, literal),
            },
            TreeNode::Not(part) => !part.is_true_of(row),
            TreeNode::And(parts) => {
                for part in parts {
                    if !part.is_true_of(row) {
                        return false;
                    }
                }
                true
            }
            TreeNode::Or(parts) => {
                for part in parts {
                    if part.is_true_of(row) {
                        return true;
                    }
                }
                false
            }
        }
    }
}
