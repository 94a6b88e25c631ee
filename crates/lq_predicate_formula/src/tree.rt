//! A formula's query as a tree, whether it is within the limits of a predicate or not.
ghost use Rattle.std.specs.Prelude.{◌≡◌, ◌≤◌, IfOk, nat_le};
ghost use Rattle.lq_value.specs.Refusal.{FailsOnlyForMemory};
ghost use Rattle.lq_predicate_formula.specs.Canonical.{comparisons, depth};
ghost use Rattle.lq_predicate_formula.specs.Machine.{negate};
ghost use Rattle.lq_predicate_formula.specs.Query.{Compare, both_of, either_of};

mod compared_numbers;
mod named_attributes;
mod query_text;
mod truth;

use lq_value::{AttrName, Literal, Op, Refusal};
use std::alloc::{AllocError, Global};
use std::marker::Model;

/// A query of any depth and size: a comparison, or the `Not`, `And` or `Or` of other queries.
///
/// Contracts see it as a `Query`.
#[cycle(tree)]
#[derive(Drop)]
pub struct Tree {
    node: TreeNode,
}

#[cycle(tree)]
#[derive(Drop)]
enum TreeNode {
    Compare(AttrName, Op, Literal),
    Not(Box<Tree>),
    And(Vec<Tree>),
    Or(Vec<Tree>),
}

impl Model for Tree {
    ghost use Rattle.lq_predicate_formula.specs.Query.{Query};
    ghost use Rattle.lq_predicate_formula.specs.Canonical.{depth};
    ghost use Rattle.lq_predicate_formula.specs.QueryCode.{coded_query};

    ghost Value = { Query };

    ghost coded = { coded_query };

    ghost use Rattle.lq_predicate_formula.specs.Tree.{tree_query};

    ghost view = { λ t. tree_query t.node };

    ghost size = { depth };

    ghost use Rattle.lq_predicate_formula.specs.TreeFalls.{deep_le-depth};

    ghost size_decreases = { λ t h. deep_le-depth t.node };
}

impl Tree {
    /// The comparison of an attribute with a literal. It takes no memory.
    pub fn compare(attr: AttrName, op: Op, literal: Literal) -> Tree
        ensures { result ≡ Compare attr op literal }
    {
        Tree {
            node: TreeNode::Compare(attr, op, literal),
        }
    }

    /// The only part, or the `And` of several parts. It takes no memory.
    pub fn both(mut parts: Vec<Tree>) -> Tree
        ensures { result ≡ both_of parts.items }
    {
        if parts.len() == 1
            && let Some(only) = parts.pop()
        {
            return only;
        }
        Tree {
            node: TreeNode::And(parts),
        }
    }

    /// The only part, or the `Or` of several parts. It takes no memory.
    pub fn either(mut parts: Vec<Tree>) -> Tree
        ensures { result ≡ either_of parts.items }
    {
        if parts.len() == 1
            && let Some(only) = parts.pop()
        {
            return only;
        }
        Tree {
            node: TreeNode::Or(parts),
        }
    }

    /// The tree with this many `Not` around it, which take memory.
    pub fn negated(self, alloc: Global, bangs: usize) -> Result<Tree, AllocError>
        ensures { IfOk result (λ tree. tree ≡ negate bangs self) }
    {
        let mut whole = self;
        let mut left = bangs;
        while left > 0 {
            whole = Tree {
                node: TreeNode::Not(Box::new(alloc, whole)?),
            };
            left -= 1;
        }
        Ok(whole)
    }

    /// A copy of the tree. Refused: `NoMemory`.
    #[cycle(copy)]
    pub fn copy(&self, alloc: Global) -> Result<Tree, Refusal>
        ensures refused { FailsOnlyForMemory result }
        ensures value { IfOk result (λ copy. copy ≡ self.now) }
    {
        let node = match &self.node {
            TreeNode::Compare(attr, op, literal) => {
                TreeNode::Compare(attr.copy(alloc)?, *op, literal.copy(alloc)?)
            }
            TreeNode::Not(part) => TreeNode::Not(Box::new(alloc, part.copy(alloc)?)?),
            TreeNode::And(parts) => TreeNode::And(copy_parts(alloc, parts.as_slice())?),
            TreeNode::Or(parts) => TreeNode::Or(copy_parts(alloc, parts.as_slice())?),
        };
        Ok(Tree { node })
    }

    // Whether the tree's depth is at most this.
    pub(crate) fn is_shallow(&self, most: usize) -> bool
        ensures { result ≡ nat_le (depth self.now) most }
    {
        if most == 0 {
            return false;
        }
        match &self.node {
            TreeNode::Compare(_, _, _) => true,
            TreeNode::Not(part) => part.is_shallow(most - 1),
            TreeNode::And(parts) | TreeNode::Or(parts) => {
                for part in parts {
                    if !part.is_shallow(most - 1) {
                        return false;
                    }
                }
                true
            }
        }
    }

    // How many comparisons it has.
    pub(crate) fn comparisons(&self) -> u64
        requires { comparisons self.now ≤ 256 }
        ensures { result ≡ comparisons self.now }
    {
        match &self.node {
            TreeNode::Compare(_, _, _) => 1,
            TreeNode::Not(part) => part.comparisons(),
            TreeNode::And(parts) | TreeNode::Or(parts) => {
                let mut count = 0;
                for part in parts {
                    count += part.comparisons();
                }
                count
            }
        }
    }
}

#[cycle(copy)]
fn copy_parts(alloc: Global, parts: &[Tree]) -> Result<Vec<Tree>, Refusal>
    ensures refused { FailsOnlyForMemory result }
    ensures value { IfOk result (λ copies. copies.items ≡ parts.now) }
{
    let mut copies = Vec::new(alloc);
    for part in parts {
        copies.push(part.copy(alloc)?)?;
    }
    Ok(copies)
}
