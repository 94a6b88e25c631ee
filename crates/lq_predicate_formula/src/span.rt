//! The least and the greatest number that a query compares an attribute with: a change of the
//! attribute that stays beside both leaves the query's truth as it was.
ghost use Rattle.std.specs.Prelude.{◌≡◌, ◌∷◌, []};
ghost use Rattle.lq_predicate_formula.specs.Span.{is_outside, no_span, widened};

/// The least and the greatest of a set of numbers.
#[derive(Clone, Copy)]
pub struct Span {
    least: i128,
    greatest: i128,
}

impl Span {
    // The span of no number.
    pub(crate) fn new() -> Span
        ensures { result ≡ no_span }
    {
        Span {
            least: i128::MAX,
            greatest: i128::MIN,
        }
    }

    // Adds a number.
    pub(crate) fn add(&mut self, number: i128)
        ensures { self.new ≡ widened self.old (number ∷ []) }
    {
        self.least = self.least.min(number);
        self.greatest = self.greatest.max(number);
    }

    /// Whether two numbers are both below the span, or both above it.
    pub fn is_beside(&self, from: i128, to: i128) -> bool
        ensures { result ≡ is_outside self.now from to }
    {
        (from < self.least && to < self.least) || (self.greatest < from && self.greatest < to)
    }
}
