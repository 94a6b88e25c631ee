//! Builds the tree of what is read. It fails only for lack of memory where the formula reads.
ghost use Rattle.std.specs.Prelude.{◌≡◌};

use crate::builder::Builder;
use crate::stop::Stop;
use lq_predicate_formula::{Tree, read_literal, read_name};
use lq_value::{AttrName, Op};
use std::alloc::{AllocError, Global};
use std::marker::Model;
use std::mem;

// Some trees, in order; none of them takes no memory.
#[derive(Default, Drop)]
pub(crate) struct TreeParts {
    trees: Option<Vec<Tree>>,
}

impl Model for TreeParts {
    ghost use Rattle.std.specs.Prelude.{List};
    ghost use Rattle.std.specs.Coded.{coded_list};
    ghost use Rattle.lq_predicate_formula.specs.Query.{Query};
    ghost use Rattle.lq_predicate_formula.specs.QueryCode.{coded_query};
    ghost use Rattle.lq_predicate.specs.TreeParts.{trees_in};

    ghost Value = { List Query };

    ghost coded = { coded_list coded_query };

    ghost view = { λ parts. trees_in parts.trees };
}

#[derive(Drop)]
pub(crate) struct Trees {
    pub(crate) alloc: Global,
}

impl Trees {
    // The trees as a list.
    fn list(&self, parts: TreeParts) -> Vec<Tree>
        ensures { result.items ≡ parts }
    {
        match parts.trees {
            Some(trees) => trees,
            None => Vec::new(self.alloc),
        }
    }
}

impl Builder for Trees {
    type Name = AttrName;

    type Part = Tree;

    type Parts = TreeParts;

    type Error = AllocError;

    ghost named = { λ name. name };

    ghost part = { λ q. q };

    ghost parts = { λ qs. qs };

    fn name(&self, raw: &str) -> Result<AttrName, Stop<Option<u64>, AllocError>> {
        match read_name(self.alloc, raw) {
            Ok(name) => Ok(name),
            Err(_) => Err(Stop::Failed(AllocError)),
        }
    }

    fn comparison(
        &self,
        attr: AttrName,
        op: Op,
        raw: &str,
    ) -> Result<Tree, Stop<Option<u64>, AllocError>> {
        match read_literal(self.alloc, op, raw) {
            Ok(literal) => Ok(Tree::compare(attr, op, literal)),
            Err(_) => Err(Stop::Failed(AllocError)),
        }
    }

    fn no_parts() -> TreeParts {
        TreeParts { trees: None }
    }

    fn push(&self, to: &mut TreeParts, new: Tree) -> Result<(), AllocError> {
        let mut trees = self.list(mem::replace(to, TreeParts { trees: None }));
        trees.push(new)?;
        to.trees = Some(trees);
        Ok(())
    }

    fn both(&self, all: TreeParts) -> Result<Tree, AllocError> {
        Ok(Tree::both(self.list(all)))
    }

    fn either(&self, before: TreeParts, last: Tree) -> Result<Tree, AllocError> {
        let Some(mut trees) = before.trees else {
            return Ok(last);
        };
        trees.push(last)?;
        Ok(Tree::either(trees))
    }

    fn negated(&self, inner: Tree, bangs: usize) -> Result<Tree, AllocError> {
        inner.negated(self.alloc, bangs)
    }
}
