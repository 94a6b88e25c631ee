//! The canonical text of a tree's query, and how long it is.
ghost use Rattle.std.specs.Prelude.{◌≡◌, ◌++◌, ◌∷◌, [], IfOk, length};
ghost use Rattle.std.specs.String.{string_bytes};
ghost use Rattle.lq_value.specs.Refusal.{FailsOnlyForMemory};
ghost use Rattle.lq_predicate_formula.specs.Canonical.{canonical, parts_written};
ghost use Rattle.lq_predicate_formula.specs.Capped.{capped};
ghost use Rattle.lq_predicate_formula.specs.Query.{queries};

use crate::text_sink::{Counter, TextSink};
use crate::tree::{Tree, TreeNode};
use crate::write_comparison::put_comparison;
use lq_value::Refusal;

impl Tree {
    // How many bytes the canonical text has, or the greatest usize where there are more.
    pub(crate) fn size(&self) -> usize
        ensures { result ≡ capped (length (canonical self.now)) }
    {
        let mut counter = Counter { size: 0 };
        let Ok(()) = self.put_in(&mut counter);
        counter.size
    }

    /// Appends the canonical text to a buffer. Refused: `NoMemory`; the buffer may then have a part
    /// of the text.
    pub fn put(&self, out: &mut String) -> Result<(), Refusal>
        ensures refused { FailsOnlyForMemory result }
        ensures value { IfOk result
            (λ _. string_bytes out.new ≡ string_bytes out.old ++ canonical self.now) }
    {
        self.put_in(out)?;
        Ok(())
    }

    #[cycle(put)]
    fn put_in<S: TextSink>(&self, out: &mut S) -> Result<(), S::Error>
        ensures { IfOk result (λ _. S.seen out.new
            ≡ S.after (S.seen out.old) (canonical self.now)) }
    {
        match &self.node {
            TreeNode::Compare(attr, op, literal) => put_comparison(attr, *op, literal, out),
            TreeNode::Not(part) => {
                out.push_str("!")?;
                part.put_in(out)
            }
            TreeNode::And(parts) => put_parts(parts.as_slice(), "&&", out),
            TreeNode::Or(parts) => put_parts(parts.as_slice(), "||", out),
        }
    }
}

// Appends the parts in parentheses, with a separator between them.
#[cycle(put)]
fn put_parts<S: TextSink>(parts: &[Tree], separator: &str, out: &mut S) -> Result<(), S::Error>
    ensures { IfOk result (λ _. S.seen out.new ≡ S.after (S.seen out.old)
        (40 ∷ parts_written separator.now (queries parts.now) (41 ∷ []))) }
{
    out.push_str("(")?;
    if let Some((first, others)) = parts.split_first() {
        first.put_in(out)?;
        for part in others {
            out.push_str(separator)?;
            part.put_in(out)?;
        }
    }
    out.push_str(")")?;
    Ok(())
}
