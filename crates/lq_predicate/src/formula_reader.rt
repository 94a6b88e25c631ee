//! Reads a formula twice: its faults and its size without memory, then its query's tree.
ghost use Rattle.std.specs.Prelude.{◌≤◌, List, IfOk, IfErr, IsTrue, OnOk, length};
ghost use Rattle.std.specs.Str.{IsUtf8};
ghost use Rattle.lq_predicate_formula.specs.Faults.{Reads};
ghost use Rattle.lq_predicate_formula.specs.Limits.{IsProper};
ghost use Rattle.lq_predicate_formula.specs.PredicateLimits.{is_predicate};
ghost use Rattle.lq_predicate_formula.specs.Query.{Query};
ghost use Rattle.lq_predicate_formula.specs.Tokens.{HasTokens, Placed as TokenAt, bare};
ghost use Rattle.lq_predicate_formula.specs.Words.{WordsAre};
ghost use Rattle.lq_predicate.specs.Building.{IsWholeOf};
ghost use Rattle.lq_predicate.specs.Refusals.{IsFaultOf, IsRefusalOf};

use crate::machine::new_frames;
use crate::predicate::Predicate;
use crate::read_whole::read_text;
use crate::sizes::Sizes;
use crate::stop::Stop;
use crate::trees::Trees;
use lq_predicate_formula::{Tree, one_reading, read_is_good};
use lq_value::{MAX_DEPTH, MAX_FORMULA, Refusal};
use std::alloc::{AllocError, Global};

/// The predicate that a formula writes, with BQuery's operators.
///
/// A formula has at most 4,096 bytes, nests at most 64 deep and has at most 256 comparisons. Its
/// predicate's depth is at most 64, and its canonical text has at most 4,096 bytes. A pattern
/// follows `=`, `==` and `!=`; a plain text follows the operators of order. Refused: `BadQuery`
/// with the byte offset of the leftmost fault; `NoMemory`, only where there is no fault.
pub fn read(alloc: Global, formula: &str) -> Result<Predicate, Refusal>
    ensures reads { IfOk result (λ p. Reads formula.now p) }

    // Its leftmost fault is refused, or it reads and memory is wanting.
    ensures fails { IfErr result (IsRefusalOf formula.now) }
{
    let tree = read_tree(alloc, formula)?;
    Ok(Predicate::of(alloc, tree))
}

// The query that a formula writes, as a tree within the limits of a predicate.
fn read_tree(alloc: Global, formula: &str) -> Result<Tree, Refusal>
    ensures reads { IfOk result (λ tree. Reads formula.now tree) }
    ensures valid { IfOk result (λ tree. IsTrue (is_predicate tree)) }
    ensures proper { IfOk result IsProper }

    // Its leftmost fault is refused, or it reads and memory is wanting.
    ensures fails { IfErr result (IsRefusalOf formula.now) }
{
    one_reading();
    read_is_good();
    if let Some(offset) = fault_offset(formula) {
        return Err(Refusal::BadQuery { place: offset });
    }
    // The formula has no fault, so only memory can be wanting.
    match build_tree(alloc, formula) {
        Ok(tree) => Ok(tree),
        Err(_) => Err(Refusal::NoMemory),
    }
}

// The query of a formula that isn't too long, as a tree. It stands apart, since its frames take
// time that a formula with a fault doesn't need.
#[inline(never)]
fn build_tree(alloc: Global, formula: &str) -> Result<Tree, Stop<u64, AllocError>>
    requires short { length formula.now ≤ 4096 }
    ensures whole { IsWholeOf (λ (q : Query). q) formula.now result }
    ensures texts { OnOk result
        ((ts : List TokenAt) × HasTokens 0 formula.now ts × WordsAre IsUtf8 (bare ts)) }
{
    let mut frames = new_frames::<Trees>();
    read_text(&Trees { alloc }, &mut frames, formula)
}

// The byte offset of a formula's leftmost fault; none where the formula reads as a query. It takes
// no memory.
fn fault_offset(formula: &str) -> Option<u64>
    ensures { IsFaultOf formula.now result }
{
    if formula.len() > MAX_FORMULA {
        return Some(MAX_FORMULA as u64);
    }
    let mut frames = new_frames::<Sizes>();
    let whole = match read_text(&Sizes, &mut frames, formula) {
        Ok(size) => size,
        Err(Stop::Fault(offset)) => return Some(offset),
    };
    if whole.depth > MAX_DEPTH || whole.bytes > MAX_FORMULA {
        return Some(formula.len() as u64);
    }
    None
}
