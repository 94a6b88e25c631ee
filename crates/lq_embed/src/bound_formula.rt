//! Puts bound values in place of a formula's parameters, so that no value changes how the rest
//! reads.
ghost use Rattle.std.specs.Prelude.{◌≡◌, ◌++◌, ◌+◌, ◌≤◌, ◌^◌, ◌<◌, IfErr, IfOk, OnOk, Ok, Err, length};
ghost use Rattle.lq_value.specs.Refusal.{FailsOnlyForMemory};
ghost use Rattle.lq_embed.specs.BoundFormula.{Binds, between, first_missing, first_unused, has_parameter, literal_at, replaced_from};

use crate::parameters::{Parameter, read_parameters};
use crate::quoting::put_literal;
use lq_predicate_formula::one_token_list;
use lq_value::{MAX_FORMULA, Refusal, Value};
use std::alloc::Global;

/// Why values can't be put in place of a formula's parameters.
#[derive(Clone, Copy, Drop)]
pub(crate) enum Unbound {
    /// A refusal of the formula, or `NoMemory`.
    Refused(Refusal),
    /// No value was bound for the parameter with this number.
    NoValue(usize),
    /// No parameter of the formula has the number of this value.
    UnusedValue(usize),
}

/// A formula with its values in place: each parameter is replaced by the literal of its value.
///
/// Refused, the first that fits: `NotUtf8`; `BadQuery` above 4,096 bytes, and at the first token
/// that is in no formula; `NoValue` for the leftmost parameter without a value; `UnusedValue` for
/// the first value without a parameter; `NoMemory`.
pub(crate) fn bind(alloc: Global, formula: &[u8], values: &[Value]) -> Result<Vec<u8>, Unbound>
    ensures ok { IfOk result (λ text. Binds values.now formula.now (Ok text.items)) }
    ensures err { IfErr result (λ e. Binds values.now formula.now (Err e)) }
{
    // For the proof: a formula that is refused early has tokens too.
    one_token_list();
    let Ok(text) = str::from_utf8(formula) else {
        return Err(Unbound::Refused(Refusal::NotUtf8));
    };
    if text.len() > MAX_FORMULA {
        return Err(Unbound::Refused(Refusal::BadQuery { place: 4096 }));
    }
    let parameters = match read_parameters(alloc, text) {
        Ok(parameters) => parameters,
        Err(refusal) => return Err(Unbound::Refused(refusal)),
    };
    if let Some(number) = first_missing(values.len(), &parameters) {
        return Err(Unbound::NoValue(number));
    }
    if let Some(number) = first_unused(&parameters, values) {
        return Err(Unbound::UnusedValue(number));
    }
    match replace(alloc, text.as_bytes(), &parameters, values) {
        Ok(text) => Ok(text),
        Err(refusal) => Err(Unbound::Refused(refusal)),
    }
}

// The number of the leftmost parameter that has none of this many values.
fn first_missing(count: usize, parameters: &[Parameter]) -> Option<usize>
    ensures { result ≡ first_missing count parameters.now }
{
    for parameter in parameters {
        if parameter.number > count {
            return Some(parameter.number);
        }
    }
    None
}

// The number of the first value that no parameter has.
fn first_unused(parameters: &[Parameter], values: &[Value]) -> Option<usize>
    ensures { result ≡ first_unused parameters.now 1 values.now }
{
    for index in 0..values.len() {
        if !has_parameter(parameters, index + 1) {
            return Some(index + 1);
        }
    }
    None
}

fn has_parameter(parameters: &[Parameter], number: usize) -> bool
    ensures { result ≡ has_parameter parameters.now number }
{
    parameters
        .iter()
        .any(|parameter| parameter.number == number)
}

// The formula where each of these parameters is replaced by the literal of its value.
fn replace(
    alloc: Global,
    formula: &[u8],
    parameters: &[Parameter],
    values: &[Value],
) -> Result<Vec<u8>, Refusal>
    ensures refused { FailsOnlyForMemory result }
    ensures value { IfOk result (λ text.
        text.items ≡ replaced_from values.now formula.now 0 parameters.now) }
{
    let mut text = Vec::new(alloc);
    let mut at = 0;
    for parameter in parameters {
        text.extend_from_slice(between(formula, at, parameter.offset))?;
        put_value(parameter, values, &mut text)?;
        at = parameter.end;
    }
    text.extend_from_slice(between(formula, at, formula.len()))?;
    Ok(text)
}

// The bytes of a text from one offset up to another, as far as there are any.
fn between(bytes: &[u8], from: usize, to: usize) -> &[u8]
    ensures { result.now ≡ between bytes.now from to }
{
    let (_, rest) = bytes.split_at(from.min(bytes.len()));
    let (front, _) = rest.split_at(to.saturating_sub(from).min(rest.len()));
    front
}

// Appends the literal of the value that a parameter stands for, if there is one.
fn put_value(parameter: &Parameter, values: &[Value], text: &mut Vec<u8>) -> Result<(), Refusal>
    ensures refused { FailsOnlyForMemory result }
    ensures value { OnOk result (text.new.items
        ≡ text.old.items ++ literal_at values.now parameter.now) }
{
    match values.get(parameter.number.saturating_sub(1)) {
        Some(value) => put_literal(parameter.op, value, text),
        None => Ok(()),
    }
}
