//! Finds the parameters of a formula, `$1` to `$256`, each with the operator before it: a value's
//! literal depends on that.
ghost use Rattle.std.specs.Prelude.{◌≡◌, ◌≤◌, IfErr, IfOk, length};
ghost use Rattle.lq_predicate_formula.specs.TokenView.{placed_of, token_of};
ghost use Rattle.lq_embed.specs.Parameters.{fault_of, number_named, operator_of, parameter_at};
ghost use Rattle.lq_embed.specs.ParameterList.{EndsAt, HasParameters, IsNotCut};

use lq_predicate_formula::{Cursor, Placed, Token, next_token, one_token_list};
use lq_value::{Op, Refusal, number_of_bytes};
use std::alloc::Global;

/// The most values that can be bound.
pub(crate) const MAX_VALUES: usize = 256;

/// A parameter of a formula: the offset of its first byte and of the byte after its last, the
/// number of its value from 1, and the operator before it.
#[derive(Clone, Copy, Drop)]
pub(crate) struct Parameter {
    pub offset: usize,
    pub end: usize,
    pub number: usize,
    pub op: Op,
}

/// The parameters of a formula, from the left.
///
/// Refused, the first that fits: `BadQuery` at the first token that is in no formula; `NoMemory`.
pub(crate) fn read_parameters(alloc: Global, formula: &str) -> Result<Vec<Parameter>, Refusal>
    requires { length formula.now ≤ 4096 }
    ensures ok { IfOk result (λ parameters. HasParameters formula.now parameters.items) }
    ensures err { IfErr result (IsNotCut formula.now) }
{
    // For the proof: there are tokens after the first fault.
    one_token_list();
    let mut parameters = Vec::new(alloc);
    let mut before = None;
    let mut cursor = Cursor {
        offset: 0,
        rest: formula,
    };
    while let Some((placed, after)) = next_token(cursor) {
        if let Some(offset) = fault_of(formula.len(), &placed) {
            return Err(Refusal::BadQuery {
                place: offset as u64,
            });
        }
        if let Some(parameter) = parameter_at(before, &placed, after.offset) {
            parameters.push(parameter)?;
        }
        before = operator_of(&placed.token);
        cursor = after;
    }
    Ok(parameters)
}

// The offset of the fault where a token is in no formula of this size.
fn fault_of(size: usize, placed: &Placed<'_>) -> Option<usize>
    ensures { result ≡ fault_of size placed.now.offset (token_of placed.now.token) }
{
    match placed.token {
        Token::Lone => Some(placed.offset),
        Token::Cut => Some(size),
        _ => None,
    }
}

// The operator that a token is.
fn operator_of(token: &Token<'_>) -> Option<Op>
    ensures { result ≡ operator_of (token_of token.now) }
{
    match token {
        Token::Is(op) => Some(*op),
        _ => None,
    }
}

// The parameter that a token is, which ends before this offset.
fn parameter_at(before: Option<Op>, placed: &Placed<'_>, end: usize) -> Option<Parameter>
    requires { EndsAt (placed_of placed.now) end }
    ensures { result ≡ parameter_at before (placed_of placed.now) }
{
    let op = before?;
    if placed.raw_offset != placed.offset {
        return None;
    }
    let Token::Word(raw) = placed.token else {
        return None;
    };
    Some(Parameter {
        offset: placed.offset,
        end,
        number: number_named(raw.as_bytes())?,
        op,
    })
}

// The number that a raw text names: `$`, and 1 to 256 in decimal with no 0 before it.
fn number_named(raw: &[u8]) -> Option<usize>
    ensures { result ≡ number_named raw.now }
{
    let (first, digits) = raw.split_first()?;
    if *first != b'$' || *digits.first()? == b'0' {
        return None;
    }
    match number_of_bytes(digits)? {
        number @ 1..=256 => Some(number as usize),
        _ => None,
    }
}
