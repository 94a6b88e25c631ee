//! Predicates: queries that keep the limits of a formula, so that each has a text that reads as it.
ghost use Rattle.std.specs.Prelude.{◌≡◌, ◌≤◌, ◌↔◌, ◌∷◌, [], IfOk, IfSome, IsSome, OnErr, IsTrue};
ghost use Rattle.lq_value.specs.Refusal.{FailsOnlyForMemory};
ghost use Rattle.lq_value.specs.Compare.{suits};

use crate::literal_source::has_source;
use lq_predicate_formula::{Tree, comparison_size, fit_joined, fits_not};
use lq_value::{AttrName, Literal, MAX_FORMULA, Op, Refusal};
use std::alloc::Global;
use std::marker::Model;

/// A condition on the attributes of an entry, as in BQuery: a comparison, or the `Not`, `And` or
/// `Or` of other conditions.
///
/// Each literal suits its operator, and each list has at least two parts. A comparison has depth 1,
/// any other predicate 1 more than its deepest part; the depth is at most 64. A predicate has at
/// most 256 comparisons. Its canonical text has at most 4,096 bytes and reads as this predicate.
/// Contracts see it as a `Query`.
///
/// ```rattle
/// use lq_predicate::{read, write};
///
/// let large = read(alloc, "size > 100")?;
/// let text = read(alloc, "name = *.txt")?;
/// let Some(both) = large.both(&text)? else {
///     return Err(Fail::from("more than a predicate's limits"));
/// };
/// assert!(rt; write(alloc, &both)?.as_str() == r#"((size>"100")&&(name=="*.txt"))"#);
/// ```
pub struct Predicate {
    tree: Tree,
    alloc: Global,
}

impl Drop for Predicate {
    fn drop(self) {
        let Predicate { tree: _, alloc: _ } = self;
    }
}

impl Model for Predicate {
    ghost use Rattle.std.specs.Prelude.{IsTrue};
    ghost use Rattle.lq_predicate_formula.specs.Query.{Query};
    ghost use Rattle.lq_predicate_formula.specs.QueryCode.{coded_query};
    ghost use Rattle.lq_predicate_formula.specs.Limits.{IsProper};
    ghost use Rattle.lq_predicate_formula.specs.PredicateLimits.{is_predicate};

    ghost Value = { Query };

    ghost coded = { coded_query };

    ghost view = { λ p. p.tree };

    ghost invariant = { λ p. IsTrue (is_predicate p.tree) × IsProper p.tree };
}

impl Predicate {
    ghost use Rattle.lq_predicate_formula.specs.Query.{And, Compare, Not, Or, queries};
    ghost use Rattle.lq_predicate_formula.specs.Canonical.{comparisons};
    ghost use Rattle.lq_predicate_formula.specs.Limits.{IsProper};
    ghost use Rattle.lq_predicate_formula.specs.PredicateLimits.{if_within, is_formed, is_predicate, is_within};
    ghost use Rattle.lq_predicate.specs.Comparison.{IsGoodComparison};

    /// The comparison of an attribute with a literal. It takes no memory.
    ///
    /// `None`, the first that fits: where the literal doesn't suit the operator
    /// (`Literal::suits`), where no text writes its pattern (one with a set that has no item or a
    /// range that falls), and where the canonical text would have more than 4,096 bytes.
    pub fn compare(alloc: Global, attr: AttrName, op: Op, literal: Literal) -> Option<Predicate>
        ensures some { IfSome result (λ made. made ≡ Compare attr op literal) }

        // Made exactly where it is a predicate.
        ensures made { IsSome result ↔ IsGoodComparison attr op literal }
    {
        if !literal.suits(op) || !has_source(&literal) {
            return None;
        }
        if comparison_size(&attr, op, &literal) > MAX_FORMULA {
            return None;
        }
        // Its contract says that an attribute's name is one.
        let _ = attr.as_str();
        Some(Predicate::comparison(alloc, attr, op, literal))
    }

    /// A copy of this predicate. Refused: `NoMemory`.
    pub fn copy(&self) -> Result<Predicate, Refusal>
        ensures refused { FailsOnlyForMemory result }
        ensures value { IfOk result (λ copy. copy ≡ self.now) }
    {
        let tree = self.tree.copy(self.alloc)?;
        Ok(Predicate {
            tree,
            alloc: self.alloc,
        })
    }

    /// The predicate that holds exactly where this one doesn't, as BQuery's `Not`.
    ///
    /// `None`, without taking memory, where it would exceed a limit: its depth and its text are 1
    /// greater. Refused otherwise: `NoMemory`.
    pub fn not(&self) -> Result<Option<Predicate>, Refusal>
        ensures value { IfOk result (λ made. made ≡ if_within (Not self.now)) }
        ensures refused { FailsOnlyForMemory result }
        ensures err { OnErr result (IsTrue (is_within (Not self.now))) }
    {
        let tree = self.tree();
        if !fits_not(tree) {
            return Ok(None);
        }
        let negated = tree.copy(self.alloc)?.negated(self.alloc, 1)?;
        Ok(Some(Predicate::of(self.alloc, negated)))
    }

    /// The predicate that holds where both this one and the other hold, as BQuery's `And`. This one
    /// is its first part.
    ///
    /// `None`, without taking memory, where it would exceed a limit. Refused otherwise: `NoMemory`.
    pub fn both(&self, other: &Predicate) -> Result<Option<Predicate>, Refusal>
        ensures value { IfOk result
            (λ made. made ≡ if_within (And (queries (self.now ∷ other.now ∷ [])))) }
        ensures refused { FailsOnlyForMemory result }
        ensures err { OnErr result
            (IsTrue (is_within (And (queries (self.now ∷ other.now ∷ []))))) }
    {
        if !fit_joined(self.tree(), other.tree()) {
            return Ok(None);
        }
        let parts = self.both_copies(other)?;
        Ok(Some(Predicate::of(self.alloc, Tree::both(parts))))
    }

    /// The predicate that holds where this one or the other holds, as BQuery's `Or`. This one is
    /// its first part.
    ///
    /// `None`, without taking memory, where it would exceed a limit. Refused otherwise: `NoMemory`.
    pub fn either(&self, other: &Predicate) -> Result<Option<Predicate>, Refusal>
        ensures value { IfOk result
            (λ made. made ≡ if_within (Or (queries (self.now ∷ other.now ∷ [])))) }
        ensures refused { FailsOnlyForMemory result }
        ensures err { OnErr result
            (IsTrue (is_within (Or (queries (self.now ∷ other.now ∷ []))))) }
    {
        if !fit_joined(self.tree(), other.tree()) {
            return Ok(None);
        }
        let parts = self.both_copies(other)?;
        Ok(Some(Predicate::of(self.alloc, Tree::either(parts))))
    }

    // The trees of both predicates, in a list.
    fn both_copies(&self, other: &Predicate) -> Result<Vec<Tree>, Refusal>
        ensures refused { FailsOnlyForMemory result }
        ensures value { IfOk result (λ parts. parts.items ≡ self.now ∷ other.now ∷ []) }
    {
        let mut parts = Vec::new(self.alloc);
        parts.push(self.tree.copy(self.alloc)?)?;
        parts.push(other.tree.copy(self.alloc)?)?;
        Ok(parts)
    }

    // The comparison of an attribute with a literal, which is a predicate.
    pub(crate) fn comparison(alloc: Global, attr: AttrName, op: Op, literal: Literal) -> Predicate
        requires suits { IsTrue (suits literal op) }
        requires within { IsTrue (is_within (Compare attr op literal)) }
        requires proper { IsProper (Compare attr op literal) }
        ensures { result ≡ Compare attr op literal }
    {
        Predicate::of(alloc, Tree::compare(attr, op, literal))
    }

    // The predicate with this tree, which is within the limits.
    pub(crate) fn of(alloc: Global, tree: Tree) -> Predicate
        requires valid { IsTrue (is_predicate tree) }
        requires proper { IsProper tree }
        ensures { result ≡ tree }
    {
        Predicate { tree, alloc }
    }

    // The predicate's tree, which is within the limits.
    pub(crate) fn tree(&self) -> &Tree
        ensures value { result.now ≡ self.now }
        ensures valid { IsTrue (is_predicate self.now) }
        ensures formed { IsTrue (is_formed self.now) }
        ensures few { comparisons self.now ≤ 256 }
        ensures proper { IsProper self.now }
    {
        &self.tree
    }
}
