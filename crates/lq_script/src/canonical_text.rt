//! The canonical text of a formula, for `lq check` and for callers of the library.
ghost use Rattle.std.specs.Prelude.{IfOk, IfErr};
ghost use Rattle.std.specs.String.{string_bytes};
ghost use Rattle.lq_predicate.specs.Refusals.{IsRefusalOf};
ghost use Rattle.lq_script.specs.Check.{IsCanonicalOf};

use lq_predicate::{read, write};
use lq_value::Refusal;
use std::alloc::Global;

/// The canonical text of a formula, as `lq check` prints it.
///
/// Refused, the first that fits: `BadQuery` with the byte offset of the formula's leftmost fault,
/// `NoMemory`.
pub fn check(alloc: Global, text: &str) -> Result<String, Refusal>
    ensures value { IfOk result (λ written. IsCanonicalOf text.now (string_bytes written)) }

    // Its leftmost fault is refused, or it reads and memory is wanting.
    ensures fails { IfErr result (IsRefusalOf text.now) }
{
    let predicate = read(alloc, text)?;
    Ok(write(alloc, &predicate)?)
}
