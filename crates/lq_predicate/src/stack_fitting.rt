//! Tests whether a comparison is within the limits of a predicate, before memory is taken.
ghost use Rattle.std.specs.Prelude.{◌≡◌, length};
ghost use Rattle.std.specs.Str.{encode_utf8_all};
ghost use Rattle.lq_value.specs.declared.op.Op.TheVariants as op;
ghost use Rattle.lq_value.specs.declared.literal.Literal.TheVariants as literal;
ghost use Rattle.lq_predicate_formula.specs.Canonical.{pattern_text};
ghost use Rattle.lq_predicate_formula.specs.Capped.{capped};
ghost use Rattle.lq_predicate_formula.specs.Query.{Compare};
ghost use Rattle.lq_predicate_formula.specs.PredicateLimits.{is_within};
ghost use Rattle.lq_predicate.specs.Stack.{star_count, starred};

use lq_predicate_formula::{characters_size, comparison_size_with, pattern_size, plain_size};
use lq_value::{AttrName, MAX_FORMULA, Op, Pattern};

// Whether a comparison with this text is within the limits.
pub(crate) fn fits_plain(attr: &AttrName, op: Op, text: &str) -> bool
    ensures { result ≡ is_within (Compare attr.now op (literal.Plain text.now)) }
{
    comparison_size_with(attr, op, plain_size(text)) <= MAX_FORMULA
}

// Whether a comparison with this pattern is within the limits.
pub(crate) fn fits_pattern(attr: &AttrName, op: Op, pattern: &Pattern) -> bool
    ensures { result ≡ is_within (Compare attr.now op (literal.Pattern pattern.now)) }
{
    comparison_size_with(attr, op, pattern_size(pattern)) <= MAX_FORMULA
}

// Whether `Eq` with the characters of a text, and a star before them, after them or both, is
// within the limits.
pub(crate) fn fits_starred(attr: &AttrName, before: bool, text: &str, behind: bool) -> bool
    ensures { result
        ≡ is_within (Compare attr.now op.Eq (literal.Pattern (starred before text.now behind))) }
{
    comparison_size_with(attr, Op::Eq, starred_size(before, text, behind)) <= MAX_FORMULA
}

// The pattern with the characters of a text and a star before them, after them or both.
#[tactic(auto, using(crate::proofs::StarredLemmas::starred_length))]
fn starred_size(before: bool, text: &str, behind: bool) -> usize
    ensures { result
        ≡ capped (length (encode_utf8_all (pattern_text (starred before text.now behind)))) }
{
    characters_size(text)
        .saturating_add(star_size(before))
        .saturating_add(star_size(behind))
}

fn star_size(wanted: bool) -> usize
    ensures { result ≡ star_count wanted }
{
    if wanted { 1 } else { 0 }
}
