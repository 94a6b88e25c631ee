//! Taking a parcel, and folding a message.
ghost use Rattle.std.specs.Prelude.{◌≡◌, IfOk, OnOk, OnErr, Some, None, IsSome, true};
ghost use Rattle.lq_value.specs.Refusal.{FailsOnlyForMemory, first_refusal};
ghost use Rattle.lq_update.specs.Fold.{fold_refusals, folding_after};
ghost use Rattle.lq_port.specs.End.{IsTake};
ghost use Rattle.lq_server_slots.specs.Rule.{MayFollow};

use crate::delivery::Delivery;
use lq_desk_sub::Read;
use lq_port::PortOut;
use lq_update::{Message, Rebuild};
use lq_value::Refusal;
use std::sync::Wait;

/// Folds a message, or keeps it in hand where memory runs out. No other message is in hand.
#[inline(always)]
pub(crate) fn keep(
    rebuild: &mut Rebuild,
    hand: &mut Option<Message>,
    message: Message,
) -> Result<Read, Refusal>
    requires fits { first_refusal (fold_refusals rebuild.old message) ≡ None }
    requires free { hand.old ≡ None }
    ensures refused { FailsOnlyForMemory result }
    ensures ok { OnOk result
        ((rebuild.new ≡ folding_after rebuild.old message) × (hand.new ≡ None)) }
    ensures err { OnErr result ((rebuild.new ≡ rebuild.old) × (hand.new ≡ Some message)) }
    ensures read { IfOk result (λ r. r ≡ Read.Update message) }
{
    match rebuild.apply(&message) {
        Ok(()) => Ok(Read::Update(message)),
        Err(refusal) => {
            *hand = Some(message);
            Err(refusal)
        }
    }
}

/// The next parcel, with or without waiting for it. Where the other end is gone and nothing is
/// left, a call that waits does so for ever.
pub(crate) fn take_one<R: Wait>(
    output: &mut PortOut<Delivery>,
    rt: &R,
    waits: bool,
) -> Option<Delivery>
    ensures take { IsTake MayFollow output.old result output.new }
    ensures waits { waits ≡ true → IsSome result }
{
    if !waits {
        return output.take(rt);
    }
    let Some(item) = output.take_waiting(rt) else {
        wait_for_ever(rt)
    };
    Some(item)
}

// Waits for ever.
fn wait_for_ever<R: Wait>(rt: &R) -> ! {
    for _ in rt.forever() {}
    unreachable!()
}
