//! Tests whether a query made of others is within the limits of a predicate.
ghost use Rattle.std.specs.Prelude.{◌≡◌, ◌≤◌, ◌∷◌, []};
ghost use Rattle.lq_predicate_formula.specs.Canonical.{comparisons};
ghost use Rattle.lq_predicate_formula.specs.Query.{And, Not, Or, queries};
ghost use Rattle.lq_predicate_formula.specs.PredicateLimits.{is_within};

use crate::size::pair_size;
use crate::tree::Tree;
use lq_value::{MAX_COMPARISONS, MAX_DEPTH, MAX_FORMULA};

/// Whether `Not` of a tree is within the limits of a predicate. It takes no memory.
pub fn fits_not(tree: &Tree) -> bool
    requires { comparisons tree.now ≤ 256 }
    ensures { result ≡ is_within (Not tree.now) }
{
    tree.is_shallow(MAX_DEPTH - 1) && tree.size() < MAX_FORMULA
}

/// Whether two trees, joined by `And` or by `Or`, are within the limits of a predicate. It takes no
/// memory.
#[tactic(auto, using(crate::proofs::TreeSizeLemmas::two_sizes))]
pub fn fit_joined(lower: &Tree, upper: &Tree) -> bool
    requires lower { comparisons lower.now ≤ 256 }
    requires upper { comparisons upper.now ≤ 256 }
    ensures and { result ≡ is_within (And (queries (lower.now ∷ upper.now ∷ []))) }
    ensures or { result ≡ is_within (Or (queries (lower.now ∷ upper.now ∷ []))) }
{
    let shallow = lower.is_shallow(MAX_DEPTH - 1) && upper.is_shallow(MAX_DEPTH - 1);
    let few = lower.comparisons() + upper.comparisons() <= MAX_COMPARISONS;
    shallow && few && pair_size(lower.size(), upper.size()) <= MAX_FORMULA
}
