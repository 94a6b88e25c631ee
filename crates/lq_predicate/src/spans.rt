//! The numbers that a predicate compares sizes and times with.
ghost use Rattle.std.specs.Prelude.{◌≡◌, pos};
ghost use Rattle.lq_predicate_formula.specs.Span.{is_outside};
ghost use Rattle.lq_predicate.specs.Spans.{spans_of};

use crate::predicate::Predicate;
use lq_predicate_formula::Span;

/// Two spans: of the numbers that a predicate compares `size` with, and of those for
/// `last_modified`.
#[derive(Clone, Copy)]
pub struct Spans {
    sizes: Span,
    times: Span,
}

impl Spans {
    /// The spans of a predicate. It takes no memory.
    pub fn new(predicate: &Predicate) -> Spans
        ensures { result ≡ spans_of predicate.now }
    {
        let tree = predicate.tree();
        Spans {
            sizes: tree.span("size"),
            times: tree.span("last_modified"),
        }
    }

    /// Whether two sizes are both below all numbers that the predicate compares sizes with, or both
    /// above them.
    pub fn is_beside_sizes(&self, from: u64, to: u64) -> bool
        ensures { result ≡ is_outside self.now.sizes (pos from) (pos to) }
    {
        self.sizes.is_beside(from as i128, to as i128)
    }

    /// Whether two times are both below all numbers that the predicate compares `last_modified`
    /// with, or both above them.
    pub fn is_beside_times(&self, from: i64, to: i64) -> bool
        ensures { result ≡ is_outside self.now.times from to }
    {
        self.times.is_beside(from as i128, to as i128)
    }
}
