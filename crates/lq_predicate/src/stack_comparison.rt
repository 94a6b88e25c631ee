//! The comparisons that a stack's operators make.
ghost use Rattle.std.specs.Prelude.{◌≡◌, ◌++◌, ℕ, List, IfOk, OnErr, IsSome, IsTrue, option_and_then};
ghost use Rattle.std.specs.Str.{chars};
ghost use Rattle.lq_value.specs.Refusal.{FailsOnlyForMemory};
ghost use Rattle.lq_value.specs.Compare.{suits};
ghost use Rattle.lq_value.specs.Pattern.{plain_elements, star_if};
ghost use Rattle.lq_value.specs.Element.{Element};
ghost use Rattle.lq_value.specs.declared.op.Op.TheVariants as op;
ghost use Rattle.lq_value.specs.declared.literal.Literal.TheVariants as literal;
ghost use Rattle.lq_predicate_formula.specs.Query.{Compare};
ghost use Rattle.lq_predicate_formula.specs.PredicateLimits.{if_within};
ghost use Rattle.lq_predicate.specs.Operand.{pattern_in};
ghost use Rattle.lq_predicate.specs.Stack.{compared, compared_if, starred};

use crate::operand::Operand;
use crate::predicate::Predicate;
use crate::stack_fitting::{fits_pattern, fits_plain, fits_starred};
use crate::stack_op::StackOp;
use lq_value::{AttrName, Element, Literal, Op, Pattern, Refusal, Text};
use std::alloc::Global;

// The comparison of an attribute with a text by an operator, where it is within the limits.
pub(crate) fn compared(
    alloc: Global,
    op: StackOp,
    attr: &AttrName,
    text: &Operand,
) -> Result<Option<Predicate>, Refusal>
    ensures value { IfOk result
        (λ made. made ≡ option_and_then if_within (compared op attr.now text.now)) }
    ensures refused { FailsOnlyForMemory result }
    ensures err { OnErr result
        (IsSome (option_and_then if_within (compared op attr.now text.now))) }
{
    match op {
        StackOp::Eq => matched(alloc, Op::Eq, attr, text),
        StackOp::Ne => matched(alloc, Op::Ne, attr, text),
        StackOp::Gt => ordered(alloc, Op::Gt, attr, text.as_str()),
        StackOp::Ge => ordered(alloc, Op::Ge, attr, text.as_str()),
        StackOp::Lt => ordered(alloc, Op::Lt, attr, text.as_str()),
        StackOp::Le => ordered(alloc, Op::Le, attr, text.as_str()),
        StackOp::Contains => found(alloc, attr, true, text.as_str(), true),
        StackOp::BeginsWith => found(alloc, attr, false, text.as_str(), true),
        StackOp::EndsWith => found(alloc, attr, true, text.as_str(), false),
        StackOp::And | StackOp::Or | StackOp::Not => Ok(None),
    }
}

// The comparison with the pattern that the text writes.
fn matched(
    alloc: Global,
    op: Op,
    attr: &AttrName,
    text: &Operand,
) -> Result<Option<Predicate>, Refusal>
    requires { (elements : List Element) → IsTrue (suits (literal.Pattern elements) op) }
    ensures value { IfOk result
        (λ made. made ≡ option_and_then if_within (compared_if op attr.now (pattern_in text.now))) }
    ensures refused { FailsOnlyForMemory result }
    ensures err { OnErr result
        (IsSome (option_and_then if_within (compared_if op attr.now (pattern_in text.now)))) }
{
    let Some(pattern) = text.pattern() else {
        return Ok(None);
    };
    if !fits_pattern(attr, op, pattern) {
        return Ok(None);
    }
    let literal = Literal::Pattern(pattern.copy(alloc)?);
    Ok(Some(Predicate::comparison(alloc, attr.copy(alloc)?, op, literal)))
}

// The comparison with the text as it stands.
fn ordered(alloc: Global, op: Op, attr: &AttrName, text: &str) -> Result<Option<Predicate>, Refusal>
    requires { (bytes : List ℕ) → IsTrue (suits (literal.Plain bytes) op) }
    ensures value { IfOk result
        (λ made. made ≡ if_within (Compare attr.now op (literal.Plain text.now))) }
    ensures refused { FailsOnlyForMemory result }
    ensures err { OnErr result
        (IsSome (if_within (Compare attr.now op (literal.Plain text.now)))) }
{
    if !fits_plain(attr, op, text) {
        return Ok(None);
    }
    let literal = Literal::Plain(Text::new(String::from_str(alloc, text)?));
    Ok(Some(Predicate::comparison(alloc, attr.copy(alloc)?, op, literal)))
}

// The comparison with a pattern that finds the text's characters.
fn found(
    alloc: Global,
    attr: &AttrName,
    before: bool,
    text: &str,
    behind: bool,
) -> Result<Option<Predicate>, Refusal>
    ensures value { IfOk result (λ made. made
        ≡ if_within (Compare attr.now op.Eq (literal.Pattern (starred before text.now behind)))) }
    ensures refused { FailsOnlyForMemory result }
    ensures err { OnErr result (IsSome
        (if_within (Compare attr.now op.Eq (literal.Pattern (starred before text.now behind))))) }
{
    if !fits_starred(attr, before, text, behind) {
        return Ok(None);
    }
    let literal = Literal::Pattern(starred(alloc, before, text, behind)?);
    Ok(Some(Predicate::comparison(alloc, attr.copy(alloc)?, Op::Eq, literal)))
}

// The characters of a text as plain ones, with a star before them, after them or both.
fn starred(alloc: Global, before: bool, text: &str, behind: bool) -> Result<Pattern, Refusal>
    ensures refused { FailsOnlyForMemory result }
    ensures value { IfOk result (λ pattern. pattern ≡ starred before text.now behind) }
{
    let mut elements = Vec::new(alloc);
    push_star_if(before, &mut elements)?;
    push_plain(text, &mut elements)?;
    push_star_if(behind, &mut elements)?;
    Pattern::of(alloc, elements)
}

fn push_star_if(wanted: bool, elements: &mut Vec<Element>) -> Result<(), Refusal>
    ensures refused { FailsOnlyForMemory result }
    ensures value { IfOk result (λ _. elements.new.items ≡ elements.old.items ++ star_if wanted) }
{
    if wanted {
        elements.push(Element::Star)?;
    }
    Ok(())
}

fn push_plain(text: &str, elements: &mut Vec<Element>) -> Result<(), Refusal>
    ensures refused { FailsOnlyForMemory result }
    ensures value { IfOk result
        (λ _. elements.new.items ≡ elements.old.items ++ plain_elements (chars text.now)) }
{
    for c in text.chars() {
        elements.push(Element::Plain(c))?;
    }
    Ok(())
}
