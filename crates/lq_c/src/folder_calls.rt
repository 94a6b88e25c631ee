//! A folder's entries and the path of a node, for C.
ghost use Rattle.std.specs.Prelude.{◌≡◌};
ghost use Rattle.lq_embed.specs.Folders.{Lists, Paths};
ghost use Rattle.lq_c.specs.Held.{held_state};
ghost use Rattle.lq_c.specs.Numbers.{made_after, shown_after};

use crate::handle::Lq;
use crate::handle_numbers::number_result;
use crate::outs::Listing;

/// As `Embedded::children`, whose status it answers; `made` counts its result.
#[unsafe(no_mangle)]
pub extern "C" fn lqp_children(handle: &mut Lq, made: &mut u64, dir: u64, out: &mut Listing) -> u32
    ensures lists { Lists (held_state handle.old) (held_state handle.new) dir result
        out.old.count out.new.count }
    ensures made { made.new ≡ made_after result made.old }
    ensures number { out.new.result ≡ shown_after result made.old out.old.result }
{
    let embedded = &mut handle.served_mut().embedded;
    let status = embedded.children(dir, &mut out.count);
    number_result(made, status, &mut out.result);
    status
}

/// As `Embedded::path`, whose status it answers.
#[unsafe(no_mangle)]
pub extern "C" fn lqp_path(handle: &mut Lq, node: u64, size: &mut usize) -> u32
    ensures { Paths (held_state handle.old) (held_state handle.new) node result size.old size.new }
{
    handle.served_mut().embedded.path(node, size)
}
