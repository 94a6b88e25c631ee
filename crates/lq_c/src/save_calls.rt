//! What a save asks for C: a volume's numbers and the nodes of its entries. And a copy of a volume.
ghost use Rattle.std.specs.Prelude.{◌≡◌, Ok};
ghost use Rattle.lq_embed.specs.Saves.{TellsNodes, numbers_of};
ghost use Rattle.lq_embed.specs.SessionState.{state_over, volume_in};
ghost use Rattle.lq_embed.specs.Outcome.{Gives};
ghost use Rattle.lq_c.specs.Held.{held_state};

use crate::handle::Lq;
use lq_embed::NumbersOut;

/// As `Embedded::numbers`.
#[unsafe(no_mangle)]
pub extern "C" fn lqp_numbers(handle: &mut Lq, out: &mut NumbersOut)
    ensures numbers { out.new ≡ numbers_of (volume_in (held_state handle.old)) }
    ensures stays { held_state handle.new ≡ held_state handle.old }
{
    handle.served_mut().embedded.numbers(out);
}

/// As `Embedded::nodes`, whose status it answers.
#[unsafe(no_mangle)]
pub extern "C" fn lqp_nodes(handle: &mut Lq, out: &mut [u64], count: &mut usize) -> u32
    ensures nodes { TellsNodes (volume_in (held_state handle.old)) out.old out.new count.old
        count.new result }
    ensures stays { held_state handle.new ≡ held_state handle.old }
{
    handle.served_mut().embedded.nodes(out, count)
}

/// As `Embedded::copy_to`, whose status it answers: `copy` is the handle of another session.
#[unsafe(no_mangle)]
pub extern "C" fn lqp_copy(handle: &mut Lq, copy: &mut Lq) -> u32
    ensures copies { Gives (Ok (state_over (volume_in (held_state handle.old))))
        (held_state copy.old) (held_state copy.new) result }
    ensures stays { held_state handle.new ≡ held_state handle.old }
{
    let from = &handle.served_mut().embedded;
    from.copy_to(&mut copy.served_mut().embedded)
}
