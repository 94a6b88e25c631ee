//! The numbers that a tree's query compares an attribute with.
ghost use Rattle.std.specs.Prelude.{◌≡◌};
ghost use Rattle.lq_predicate_formula.specs.Span.{numbers_of, span_of, widened};

use crate::span::Span;
use crate::tree::{Tree, TreeNode};
use lq_value::same_text;

impl Tree {
    /// The least and the greatest number that the query compares this attribute with. It takes no
    /// memory.
    pub fn span(&self, attr: &str) -> Span
        ensures { result ≡ span_of attr.now self.now }
    {
        let mut span = Span::new();
        self.add_numbers(attr, &mut span);
        span
    }

    // Adds the numbers that the query compares an attribute with to a span.
    fn add_numbers(&self, attr: &str, span: &mut Span)
        ensures { span.new ≡ widened span.old (numbers_of attr.now self.now) }
    {
        match &self.node {
            TreeNode::Compare(compared, _, literal) => {
                if same_text(compared.as_str(), attr)
                    && let Some(number) = literal.number()
                {
                    span.add(number);
                }
            }
            TreeNode::Not(part) => part.add_numbers(attr, span),
            TreeNode::And(parts) | TreeNode::Or(parts) => {
                for part in parts {
                    part.add_numbers(attr, span);
                }
            }
        }
    }
}
