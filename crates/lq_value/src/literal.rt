//! Literals, and the comparison of an attribute with one.
ghost use Rattle.std.specs.Prelude.{◌≡◌, IfOk, IsTrue};
ghost use Rattle.lq_value.specs.Refusal.{FailsOnlyForMemory};
ghost use Rattle.lq_value.specs.PlainValue.{plain_value_of};
ghost use Rattle.lq_value.specs.Compare.{compares, compares_number, compares_text, literal_number, suits};

use crate::op::Op;
use crate::pattern::Pattern;
use crate::refusal::Refusal;
use crate::text::Text;
use crate::view::View;
use std::alloc::Global;

/// What an attribute is compared with: a pattern for `Eq` and `Ne`, a plain text for the operators
/// of order.
#[derive(Drop)]
pub enum Literal {
    Pattern(Pattern),
    Plain(Text),
}

impl Literal {
    /// Whether the operator takes a literal of this kind. It takes no memory.
    pub fn suits(&self, op: Op) -> bool
        ensures { result ≡ suits self.now op }
    {
        match (self, op) {
            (Literal::Pattern(_), Op::Eq | Op::Ne) => true,
            (Literal::Plain(_), Op::Lt | Op::Le | Op::Gt | Op::Ge) => true,
            _ => false,
        }
    }

    /// The whole number that the literal writes, if it writes one. It takes no memory.
    pub fn number(&self) -> Option<i128>
        ensures { result ≡ literal_number self.now }
    {
        match self {
            Literal::Pattern(pattern) => pattern.number(),
            Literal::Plain(text) => text.number(),
        }
    }

    /// A copy of the literal. Refused: `NoMemory`.
    pub fn copy(&self, alloc: Global) -> Result<Literal, Refusal>
        ensures refused { FailsOnlyForMemory result }
        ensures value { IfOk result (λ literal. literal ≡ self.now) }
    {
        match self {
            Literal::Pattern(pattern) => Ok(Literal::Pattern(pattern.copy(alloc)?)),
            Literal::Plain(text) => Ok(Literal::Plain(text.copy(alloc)?)),
        }
    }
}

/// Compares the value of an attribute with a literal that suits the operator.
///
/// For a text, `Eq` is true where the pattern fits the whole text, and `Ne` where it doesn't. The
/// operators of order compare bytes. Numbers are compared as whole numbers; where the literal
/// writes no number, the answer is false, for `Ne` too. It takes no memory. The operators are
/// BQuery's.
#[inline(always)]
pub fn compare(view: View<'_>, op: Op, literal: &Literal) -> bool
    requires { IsTrue (suits literal.now op) }
    ensures { result ≡ compares (plain_value_of view.entry) op literal.now }
{
    match view {
        View::Text(text) => compare_text(text, op, literal),
        View::Int32(value) => compare_number(value as i128, op, literal),
        View::Int64(value) => compare_number(value as i128, op, literal),
        View::UInt32(value) => compare_number(value as i128, op, literal),
        View::UInt64(value) => compare_number(value as i128, op, literal),
    }
}

fn compare_number(value: i128, op: Op, literal: &Literal) -> bool
    ensures { result ≡ compares_number value op (literal_number literal.now) }
{
    match literal.number() {
        None => false,
        Some(number) => op.accepts(value.cmp(&number)),
    }
}

fn compare_text(text: &str, op: Op, literal: &Literal) -> bool
    requires { IsTrue (suits literal.now op) }
    ensures { result ≡ compares_text text.now op literal.now }
{
    match literal {
        Literal::Pattern(pattern) => match op {
            Op::Eq => pattern.matches(text),
            Op::Ne => !pattern.matches(text),
            _ => false,
        },
        Literal::Plain(plain) => op.accepts(text.cmp(plain.as_str())),
    }
}
