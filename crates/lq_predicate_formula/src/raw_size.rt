//! The size in canonical text of names and literals, from their raw texts: a formula's size and
//! faults are found before its query takes memory.
ghost use Rattle.std.specs.Prelude.{◌≡◌, ◌∷◌, ℕ, List, [], None, Some, IfErr, IfOk, false, length, option_map};
ghost use Rattle.std.specs.List.{list_all};
ghost use Rattle.lq_predicate_formula.specs.Canonical.{canonical, is_bare_byte, quoted};
ghost use Rattle.lq_predicate_formula.specs.Capped.{capped};
ghost use Rattle.lq_predicate_formula.specs.Literals.{literal_fault, literal_of, name_of, unescaped};
ghost use Rattle.lq_predicate_formula.specs.Query.{Compare};
ghost use Rattle.lq_predicate_formula.specs.Sizes.{literal_bytes, name_bytes};
ghost use Rattle.lq_value.specs.declared.literal.Literal.{Literal};

use crate::raw::{count_unescaped, next_unescaped, takes_pattern};
use crate::source_size::source_size;
use crate::write_comparison::{is_bare_byte, op_text};
use lq_value::{MAX_ATTR_NAME, Op};

/// The number of bytes in canonical text of the attribute's name in a raw text; the greatest usize
/// stands for more. `None` where the raw text is no such name. It takes no memory.
pub fn raw_name_size(raw: &str) -> Option<usize>
    ensures { result ≡ option_map name_bytes (name_of raw.now) }
{
    let bytes = raw.as_bytes();
    let count = count_unescaped(bytes)?;
    if count == 0 || count > MAX_ATTR_NAME {
        return None;
    }
    if is_unescaped_bare(bytes) {
        Some(count)
    } else {
        Some(unescaped_size(bytes).saturating_add(2))
    }
}

/// The number of bytes, between its marks in canonical text, of the literal that a raw text writes
/// after an operator; the greatest usize stands for more.
///
/// Refused with the byte offset in the raw text of the pattern's leftmost fault. It takes no
/// memory.
pub fn raw_literal_size(op: Op, raw: &str) -> Result<usize, u64>
    ensures ok { IfOk result (λ n. option_map literal_bytes (literal_of op raw.now) ≡ Some n) }
    ensures fine { IfOk result (λ _. literal_fault op raw.now ≡ None) }
    ensures err { IfErr result (λ k. literal_fault op raw.now ≡ Some k) }
    ensures none { IfErr result (λ _. literal_of op raw.now ≡ None) }
{
    if takes_pattern(op) {
        source_size(raw)
    } else {
        Ok(unescaped_size(raw.as_bytes()))
    }
}

/// The size of a comparison, from the sizes of its attribute's name and of its literal as the calls
/// above count them: it adds the operator, the parentheses and the literal's marks. It takes no
/// memory.
pub fn joined_size(attr: usize, op: Op, literal: usize) -> usize
    ensures { (name : List ℕ) (l : Literal) → attr ≡ name_bytes name → literal ≡ literal_bytes l
        → result ≡ capped (length (canonical (Compare name op l))) }
{
    attr.saturating_add(op_text(op).len())
        .saturating_add(literal)
        .saturating_add(4)
}

// Whether each byte may stand without marks, after dropping each `\` before an escaped byte.
fn is_unescaped_bare(bytes: &[u8]) -> bool
    ensures { result ≡ list_all is_bare_byte (unescaped false bytes.now) }
{
    let mut at = 0;
    while let Some((byte, next)) = next_unescaped(bytes, at) {
        if !is_bare_byte(byte) {
            return false;
        }
        at = next;
    }
    true
}

// The size of the quoted text, after dropping each `\` before an escaped byte.
fn unescaped_size(bytes: &[u8]) -> usize
    ensures { result ≡ capped (length (quoted (unescaped false bytes.now))) }
{
    let mut size: usize = 0;
    let mut at = 0;
    while let Some((byte, next)) = next_unescaped(bytes, at) {
        size = size.saturating_add(quoted_byte_size(byte));
        at = next;
    }
    size
}

fn quoted_byte_size(byte: u8) -> usize
    ensures { result ≡ length (quoted (byte ∷ [])) }
{
    if byte == b'\\' || byte == b'"' { 2 } else { 1 }
}
