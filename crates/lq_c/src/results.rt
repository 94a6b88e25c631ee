//! The entries of a handle's latest result.
ghost use Rattle.lq_c.specs.Held.{held_state};
ghost use Rattle.lq_c.specs.Numbers.{GivesNext, TakesOf, is_latest};

use crate::handle::Lq;
use crate::handle_numbers::{MISUSE, is_latest};
use lq_embed::RowOut;

/// No entry is left.
const NO_ENTRY: u32 = 4;

/// As `Embedded::take_entries`, and writes how many there were: 0, or 40 where `number` isn't
/// `made`, the number of the latest result.
#[unsafe(no_mangle)]
pub extern "C" fn lqp_take(
    handle: &mut Lq,
    made: u64,
    number: u64,
    out: &mut [RowOut],
    got: &mut usize,
) -> u32
    ensures { TakesOf (is_latest made number) (held_state handle.old) (held_state handle.new) result
        out.old out.new got.old got.new }
{
    if !is_latest(made, number) {
        return MISUSE;
    }
    *got = handle.served_mut().embedded.take_entries(out);
    0
}

/// As `Embedded::next_entry`: 0, 4 where no entry is left, or 40 as `lqp_take`.
#[unsafe(no_mangle)]
pub extern "C" fn lqp_next(handle: &mut Lq, made: u64, number: u64, out: &mut RowOut) -> u32
    ensures { GivesNext (is_latest made number) (held_state handle.old) (held_state handle.new)
        result out.old out.new }
{
    if !is_latest(made, number) {
        return MISUSE;
    }
    if handle.served_mut().embedded.next_entry(out) {
        0
    } else {
        NO_ENTRY
    }
}
