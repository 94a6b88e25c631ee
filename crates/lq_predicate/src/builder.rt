//! What the machine builds while it reads: the tree of a formula's query, or only the query's size.
ghost use Rattle.std.specs.Prelude.{◌≡◌, ◌++◌, ◌∷◌, [], IfOk, List, None, ℕ};
ghost use Rattle.lq_predicate_formula.specs.Literals.{literal_fault, literal_of, name_of};
ghost use Rattle.lq_predicate_formula.specs.Machine.{negate};
ghost use Rattle.lq_predicate_formula.specs.Query.{Compare, Query, both_of, either_of};
ghost use Rattle.lq_predicate.specs.Made.{IsMadeOf};

use crate::stop::Stop;
use lq_value::Op;

pub(crate) trait Builder {
    type Name: Drop;

    type Part: Drop;

    type Parts: Default + Drop;

    type Error: Drop;

    // What is built of an attribute's name, of a query, and of the parts of an `&&` or a `||`.
    ghost named: { List ℕ → Self.Name };

    ghost part: { Query → Self.Part };

    ghost parts: { List Query → Self.Parts };

    // The fault of a literal is the offset in its raw text, if it is a pattern.
    fn name(&self, raw: &str) -> Result<Self::Name, Stop<Option<u64>, Self::Error>>
        ensures { IsMadeOf (λ name n. n ≡ named name) (name_of raw.now) None result };

    fn comparison(
        &self,
        attr: Self::Name,
        op: Op,
        raw: &str,
    ) -> Result<Self::Part, Stop<Option<u64>, Self::Error>>
        ensures { (name : List ℕ) → attr ≡ named name
            → IsMadeOf (λ literal p. p ≡ part (Compare name op literal)) (literal_of op raw.now)
            (literal_fault op raw.now) result };

    fn no_parts() -> Self::Parts
        ensures { result ≡ parts [] };

    // Adds a part.
    fn push(&self, to: &mut Self::Parts, new: Self::Part) -> Result<(), Self::Error>
        ensures { (qs : List Query) (q : Query) → to.old ≡ parts qs → new ≡ part q
            → IfOk result (λ _. to.new ≡ parts (qs ++ q ∷ [])) };

    fn both(&self, all: Self::Parts) -> Result<Self::Part, Self::Error>
        ensures { (qs : List Query) → all ≡ parts qs
            → IfOk result (λ p. p ≡ part (both_of qs)) };

    // The parts and a last one, which has its own form where it is the only part.
    fn either(&self, before: Self::Parts, last: Self::Part) -> Result<Self::Part, Self::Error>
        ensures { (qs : List Query) (q : Query) → before ≡ parts qs → last ≡ part q
            → IfOk result (λ p. p ≡ part (either_of (qs ++ q ∷ []))) };

    // With this many `!` before it.
    fn negated(&self, inner: Self::Part, bangs: usize) -> Result<Self::Part, Self::Error>
        ensures { (q : Query) → inner ≡ part q
            → IfOk result (λ p. p ≡ part (negate bangs q)) };
}
