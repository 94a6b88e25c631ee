//! Attributes of an entry for C: the one at an index, or of a name.
ghost use Rattle.lq_embed.specs.Attrs.{ShowsAttr, ShowsNamed, attr_by_name, attr_by_index};
ghost use Rattle.lq_embed.specs.SessionState.{volume_in};
ghost use Rattle.lq_c.specs.Held.{held_state};

use crate::handle::Lq;
use lq_embed::AttrOut;

/// As `Embedded::attr_at`, whose status it answers.
#[unsafe(no_mangle)]
pub extern "C" fn lqp_attr_at(handle: &mut Lq, node: u64, index: usize, out: &mut AttrOut) -> u32
    ensures { ShowsAttr (held_state handle.old) (held_state handle.new)
        (attr_by_index (volume_in (held_state handle.old)) node index) result out.old out.new }
{
    handle.served_mut().embedded.attr_at(node, index, out)
}

/// As `Embedded::attr_named`, whose status it answers.
#[unsafe(no_mangle)]
pub extern "C" fn lqp_attr_named(handle: &mut Lq, node: u64, attr: &[u8], out: &mut AttrOut) -> u32
    ensures { ShowsNamed (held_state handle.old) (held_state handle.new)
        (attr_by_name (volume_in (held_state handle.old)) node attr.now) result out.old out.new }
{
    handle.served_mut().embedded.attr_named(node, attr, out)
}
