//! Opens, reads and ends live queries for C; each opening counts as a new result.
ghost use Rattle.std.specs.Prelude.{◌≡◌};
ghost use Rattle.lq_desk_world.specs.declared.event.Event.TheVariants.{Close, Finish, HangUp, Take};
ghost use Rattle.lq_embed.specs.Calls.{Acts, Ends, ReadsSlot, TellsSlots};
ghost use Rattle.lq_embed.specs.Opening.{OpensBy, asked_options};
ghost use Rattle.lq_embed.specs.Requests.{open_request};
ghost use Rattle.lq_embed.specs.Reads.{Drops, ReadsMany};
ghost use Rattle.lq_c.specs.Held.{held_state};
ghost use Rattle.lq_c.specs.Numbers.{made_after, shown_after};

use crate::handle::Lq;
use crate::handle_numbers::number_result;
use crate::outs::OpeningResult;
use lq_embed::{MessageOut, OpenOptions};

/// As `Embedded::open_by`, whose status it answers; `made` counts its result.
#[unsafe(no_mangle)]
pub extern "C" fn lqp_open(
    handle: &mut Lq,
    made: &mut u64,
    formula: &[u8],
    options: &OpenOptions,
    out: &mut OpeningResult,
) -> u32
    ensures opens { OpensBy (held_state handle.old) (held_state handle.new)
        (held_state handle.old).pushed options.now
        (open_request formula.now (asked_options options.now)) result out.old.opening
        out.new.opening }
    ensures made { made.new ≡ made_after result made.old }
    ensures number { out.new.result ≡ shown_after result made.old out.old.result }
{
    let embedded = &mut handle.served_mut().embedded;
    let status = embedded.open_by(formula, options, &mut out.opening);
    number_result(made, status, &mut out.result);
    status
}

/// As `Embedded::read`, whose status it answers.
#[unsafe(no_mangle)]
pub extern "C" fn lqp_read(handle: &mut Lq, slot: u64, out: &mut MessageOut) -> u32
    ensures { ReadsSlot (held_state handle.old) (held_state handle.new) (Take slot) result
        out.old out.new }
{
    handle.served_mut().embedded.read(slot, out)
}

/// As `Embedded::read_many`, whose status it answers.
#[unsafe(no_mangle)]
pub extern "C" fn lqp_read_many(
    handle: &mut Lq,
    slot: u64,
    out: &mut [MessageOut],
    got: &mut usize,
) -> u32
    ensures { ReadsMany (held_state handle.old) (held_state handle.new) slot result out.old out.new
        got.old got.new }
{
    handle.served_mut().embedded.read_many(slot, out, got)
}

/// As `Embedded::hang_up`, whose status it answers.
#[unsafe(no_mangle)]
pub extern "C" fn lqp_hang_up(handle: &mut Lq, slot: u64) -> u32
    ensures { Acts (held_state handle.old) (held_state handle.new) (HangUp slot) result }
{
    handle.served_mut().embedded.hang_up(slot)
}

/// As `Embedded::close`, whose status it answers.
#[unsafe(no_mangle)]
pub extern "C" fn lqp_close(handle: &mut Lq, slot: u64, change: &mut u64) -> u32
    ensures { Ends (held_state handle.old) (held_state handle.new) (Close slot) result change.old
        change.new }
{
    handle.served_mut().embedded.close(slot, change)
}

/// As `Embedded::finish`, whose status it answers.
#[unsafe(no_mangle)]
pub extern "C" fn lqp_finish(handle: &mut Lq, slot: u64) -> u32
    ensures { Acts (held_state handle.old) (held_state handle.new) (Finish slot) result }
{
    handle.served_mut().embedded.finish(slot)
}

/// As `Embedded::drop_slot`, whose status it answers.
#[unsafe(no_mangle)]
pub extern "C" fn lqp_drop(handle: &mut Lq, slot: u64) -> u32
    ensures { Drops (held_state handle.old) (held_state handle.new) slot result }
{
    handle.served_mut().embedded.drop_slot(slot)
}

/// As `Embedded::ready`.
#[unsafe(no_mangle)]
pub extern "C" fn lqp_ready(handle: &mut Lq) -> u64
    ensures ready { TellsSlots (held_state handle.old) result }
    ensures stays { held_state handle.new ≡ held_state handle.old }
{
    handle.served_mut().embedded.ready()
}
