//! What a change tells of a value that it writes, where its entry stays in the result.
ghost use Rattle.std.specs.Prelude.{◌≡◌, ◌≢◌, None, Some, IfOk, is_some};
ghost use Rattle.lq_value.specs.Refusal.{FailsOnlyForMemory};
ghost use Rattle.lq_update.specs.Values.{value_written};

use lq_value::{AttrName, Refusal};
use lq_volume::Change;
use std::alloc::Global;

// Whether the change writes a value: the size and time of a file, or an attribute.
#[inline(always)]
pub(crate) fn writes_value(change: &Change) -> bool
    ensures { result ≡ is_some (value_written change.now) }
{
    match change {
        Change::Write { .. } | Change::SetAttr { .. } | Change::RemoveAttr { .. } => true,
        Change::Create { .. } | Change::Remove { .. } | Change::Move { .. } => false,
    }
}

// The attribute that the change sets or removes, copied; none where it writes the size and time.
#[inline(always)]
pub(crate) fn written_attribute(alloc: Global, change: &Change) -> Result<Option<AttrName>, Refusal>
    requires { value_written change.now ≢ None }
    ensures refused { FailsOnlyForMemory result }
    ensures value { IfOk result (λ attribute. value_written change.now ≡ Some attribute) }
{
    match change {
        Change::SetAttr { attr, .. } | Change::RemoveAttr { attr, .. } => {
            Ok(Some(attr.copy(alloc)?))
        }
        _ => Ok(None),
    }
}
