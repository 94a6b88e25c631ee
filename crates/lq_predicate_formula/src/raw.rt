//! Names of attributes and literals, from their raw texts.
ghost use Rattle.std.specs.Prelude.{◌≡◌, ◌∷◌, ◌<◌, ◌≤◌, [], Some, IfOk, IfSome, IfNone, MatchOption, drop, is_some, false, true, length};
ghost use Rattle.std.specs.String.{string_bytes};
ghost use Rattle.lq_value.specs.Compare.{takes_pattern as patterned};
ghost use Rattle.lq_value.specs.Refusal.{FailsOnlyForMemory, IsRefusedBy};
ghost use Rattle.lq_predicate_formula.specs.Limits.{IsGoodBehind};
ghost use Rattle.lq_predicate_formula.specs.Literals.{has_no_nul, literal_of, literal_refusal, name_of, name_refusal, unescaped};

use crate::laws::patterns_are_good;
use lq_value::{AttrName, Literal, MAX_ATTR_NAME, Op, Pattern, Refusal, Text};
use std::alloc::Global;

/// Whether a raw text is an attribute's name: after dropping each `\` before a character, it has 1
/// to 255 bytes and no NUL. It takes no memory. The limits are our own.
pub fn is_name(raw: &str) -> bool
    ensures { result ≡ is_some (name_of raw.now) }
{
    match count_unescaped(raw.as_bytes()) {
        None => false,
        Some(count) => count > 0 && count <= MAX_ATTR_NAME,
    }
}

/// The attribute's name in a raw text, without the `\` before each escaped character.
///
/// Refused, the first that fits: `BadName` where the raw text is no such name, `NoMemory`.
pub fn read_name(alloc: Global, raw: &str) -> Result<AttrName, Refusal>
    ensures refused { IsRefusedBy result (name_refusal raw.now) }
    ensures value { IfOk result (λ name. name_of raw.now ≡ Some name) }
{
    if !is_name(raw) {
        return Err(Refusal::BadName);
    }
    let name = unescape(alloc, raw)?;
    AttrName::read(alloc, name.as_str())
}

/// The literal that a raw text writes after an operator: after `Eq` and `Ne` a pattern, else the
/// text without the `\` before each escaped character.
///
/// Refused, the first that fits: `BadQuery` with the byte offset in the raw text of the pattern's
/// leftmost fault, `NoMemory`. The literal suits the operator, and its canonical text is a source
/// of it.
pub fn read_literal(alloc: Global, op: Op, raw: &str) -> Result<Literal, Refusal>
    ensures refused { IsRefusedBy result (literal_refusal op raw.now) }
    ensures value { IfOk result (λ literal. literal_of op raw.now ≡ Some literal) }
    ensures good { IfOk result (λ literal. IsGoodBehind op literal) }
{
    if takes_pattern(op) {
        patterns_are_good();
        Ok(Literal::Pattern(Pattern::read(alloc, raw)?))
    } else {
        Ok(Literal::Plain(Text::new(unescape(alloc, raw)?)))
    }
}

pub(crate) fn takes_pattern(op: Op) -> bool
    ensures { result ≡ patterned op }
{
    match op {
        Op::Eq | Op::Ne => true,
        Op::Lt | Op::Le | Op::Gt | Op::Ge => false,
    }
}

// The number of bytes without the `\` before each escaped byte; none where one of them is NUL.
pub(crate) fn count_unescaped(bytes: &[u8]) -> Option<usize>
    ensures none { IfNone result (has_no_nul (unescaped false bytes.now) ≡ false) }
    ensures some { IfSome result (λ n. n ≡ length (unescaped false bytes.now)) }
    ensures nul { IfSome result (λ n. has_no_nul (unescaped false bytes.now) ≡ true) }
{
    let mut count = 0;
    let mut at = 0;
    while let Some((byte, next)) = next_unescaped(bytes, at) {
        if byte == 0 {
            return None;
        }
        count += 1;
        at = next;
    }
    Some(count)
}

// The next byte that isn't a `\` before another byte, and the offset after it.
pub(crate) fn next_unescaped(bytes: &[u8], at: usize) -> Option<(u8, usize)>
    requires { at ≤ length bytes.now }
    ensures value { MatchOption result (unescaped false (drop at bytes.now) ≡ [])
        (λ r. unescaped false (drop at bytes.now) ≡ r.0 ∷ unescaped false (drop r.1 bytes.now)) }
    ensures bound { IfSome result (λ r. (at < r.1) × (r.1 ≤ length bytes.now)) }
{
    if at == bytes.len() {
        return None;
    }
    let byte = bytes[at];
    if byte != b'\\' {
        return Some((byte, at + 1));
    }
    if bytes.len() - at < 2 {
        return None;
    }
    Some((bytes[at + 1], at + 2))
}

// The text without the `\` before each escaped character.
fn unescape(alloc: Global, raw: &str) -> Result<String, Refusal>
    ensures refused { FailsOnlyForMemory result }
    ensures value { IfOk result (λ text. string_bytes text ≡ unescaped false raw.now) }
{
    let mut text = String::new(alloc);
    let mut escaped = false;
    for c in raw.chars() {
        if escaped {
            text.push(c)?;
            escaped = false;
        } else if c == '\\' {
            escaped = true;
        } else {
            text.push(c)?;
        }
    }
    Ok(text)
}
