//! Each change of the volume as a call of C, with one for each type of an attribute's value.
ghost use Rattle.lq_value.specs.declared.value.Value.TheVariants.{Int32, Int64, UInt32, UInt64};
ghost use Rattle.lq_script_request.specs.Asked.{given};
ghost use Rattle.lq_script_request.specs.Request.{asks_remove, asks_write, given_number, request_for};
ghost use Rattle.lq_embed.specs.Calls.{Changes};
ghost use Rattle.lq_embed.specs.Requests.{create_request, move_request, set_request, set_text_request, unset_request};
ghost use Rattle.lq_c.specs.Held.{held_state};

use crate::handle::Lq;
use lq_embed::AppliedOut;
use lq_value::View;

/// As `Embedded::create`, whose status it answers.
#[unsafe(no_mangle)]
pub extern "C" fn lqp_create(
    handle: &mut Lq,
    dir: u64,
    name: &[u8],
    kind: u32,
    size: u64,
    time: i64,
    out: &mut AppliedOut,
) -> u32
    ensures { Changes (held_state handle.old) (held_state handle.new)
        (create_request dir name.now kind size time) result out.old out.new }
{
    handle
        .served_mut()
        .embedded
        .create(dir, name, kind, size, time, out)
}

/// As `Embedded::remove`, whose status it answers.
#[unsafe(no_mangle)]
pub extern "C" fn lqp_remove(handle: &mut Lq, node: u64, out: &mut AppliedOut) -> u32
    ensures { Changes (held_state handle.old) (held_state handle.new)
        (request_for (asks_remove node))
        result out.old out.new }
{
    handle.served_mut().embedded.remove(node, out)
}

/// As `Embedded::move_entry`, whose status it answers.
#[unsafe(no_mangle)]
pub extern "C" fn lqp_move(
    handle: &mut Lq,
    node: u64,
    dir: u64,
    name: &[u8],
    clobber: bool,
    out: &mut AppliedOut,
) -> u32
    ensures { Changes (held_state handle.old) (held_state handle.new)
        (move_request node dir name.now clobber) result out.old out.new }
{
    handle
        .served_mut()
        .embedded
        .move_entry(node, dir, name, clobber, out)
}

/// As `Embedded::write`, whose status it answers.
#[unsafe(no_mangle)]
pub extern "C" fn lqp_write(
    handle: &mut Lq,
    node: u64,
    size: u64,
    time: i64,
    out: &mut AppliedOut,
) -> u32
    ensures { Changes (held_state handle.old) (held_state handle.new)
        (request_for (asks_write node size time)) result out.old out.new }
{
    handle.served_mut().embedded.write(node, size, time, out)
}

/// As `Embedded::set_text`, whose status it answers.
#[unsafe(no_mangle)]
pub extern "C" fn lqp_set_text(
    handle: &mut Lq,
    node: u64,
    attr: &[u8],
    text: &[u8],
    out: &mut AppliedOut,
) -> u32
    ensures { Changes (held_state handle.old) (held_state handle.new)
        (set_text_request node attr.now text.now) result out.old out.new }
{
    handle.served_mut().embedded.set_text(node, attr, text, out)
}

/// As `Embedded::set_attr` with a number, whose status it answers.
#[unsafe(no_mangle)]
pub extern "C" fn lqp_set_int32(
    handle: &mut Lq,
    node: u64,
    attr: &[u8],
    value: i32,
    out: &mut AppliedOut,
) -> u32
    ensures { Changes (held_state handle.old) (held_state handle.new)
        (set_request node attr.now (given_number (Int32 value))) result out.old out.new }
{
    set_attr(handle, node, attr, View::Int32(value), out)
}

/// As `Embedded::set_attr` with a number, whose status it answers.
#[unsafe(no_mangle)]
pub extern "C" fn lqp_set_int64(
    handle: &mut Lq,
    node: u64,
    attr: &[u8],
    value: i64,
    out: &mut AppliedOut,
) -> u32
    ensures { Changes (held_state handle.old) (held_state handle.new)
        (set_request node attr.now (given_number (Int64 value))) result out.old out.new }
{
    set_attr(handle, node, attr, View::Int64(value), out)
}

/// As `Embedded::set_attr` with a number, whose status it answers.
#[unsafe(no_mangle)]
pub extern "C" fn lqp_set_uint32(
    handle: &mut Lq,
    node: u64,
    attr: &[u8],
    value: u32,
    out: &mut AppliedOut,
) -> u32
    ensures { Changes (held_state handle.old) (held_state handle.new)
        (set_request node attr.now (given_number (UInt32 value))) result out.old out.new }
{
    set_attr(handle, node, attr, View::UInt32(value), out)
}

/// As `Embedded::set_attr` with a number, whose status it answers.
#[unsafe(no_mangle)]
pub extern "C" fn lqp_set_uint64(
    handle: &mut Lq,
    node: u64,
    attr: &[u8],
    value: u64,
    out: &mut AppliedOut,
) -> u32
    ensures { Changes (held_state handle.old) (held_state handle.new)
        (set_request node attr.now (given_number (UInt64 value))) result out.old out.new }
{
    set_attr(handle, node, attr, View::UInt64(value), out)
}

/// As `Embedded::unset`, whose status it answers.
#[unsafe(no_mangle)]
pub extern "C" fn lqp_unset(handle: &mut Lq, node: u64, attr: &[u8], out: &mut AppliedOut) -> u32
    ensures { Changes (held_state handle.old) (held_state handle.new) (unset_request node attr.now)
        result out.old out.new }
{
    handle.served_mut().embedded.unset(node, attr, out)
}

// Sets an attribute to a value.
fn set_attr(handle: &mut Lq, node: u64, attr: &[u8], value: View<'_>, out: &mut AppliedOut) -> u32
    ensures { Changes (held_state handle.old) (held_state handle.new)
        (set_request node attr.now (given value.entry)) result out.old out.new }
{
    handle
        .served_mut()
        .embedded
        .set_attr(node, attr, value, out)
}
