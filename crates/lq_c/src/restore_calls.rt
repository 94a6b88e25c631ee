//! A volume that is restored for C: its numbers, then each entry after its attributes, then the
//! end, which puts the volume in place of the handle's own.
ghost use Rattle.std.specs.Prelude.{◌≡◌};
ghost use Rattle.lq_value.specs.declared.value.Value.TheVariants.{Int32, Int64, UInt32, UInt64};
ghost use Rattle.lq_script_request.specs.Asked.{given};
ghost use Rattle.lq_script_request.specs.Request.{given_number};
ghost use Rattle.lq_embed.specs.Requests.{set_request, set_text_request};
ghost use Rattle.lq_embed.specs.Restorer.{attr_outcome, begin_outcome, end_outcome, entry_outcome, without_attrs};
ghost use Rattle.lq_embed.specs.Outcome.{Gives};
ghost use Rattle.lq_c.specs.Held.{held_state, restored_in};

use crate::handle::Lq;
use lq_value::View;

/// As `Restorer::begin`, whose status it answers.
#[unsafe(no_mangle)]
pub extern "C" fn lqp_restore(handle: &mut Lq, limit: u64, changes: u64, next: u64) -> u32
    ensures begins { Gives (begin_outcome limit changes next) (restored_in handle.old)
        (restored_in handle.new) result }
    ensures stays { held_state handle.new ≡ held_state handle.old }
{
    handle.served_mut().restorer.begin(limit, changes, next)
}

/// As `Restorer::attr_text`, whose status it answers.
#[unsafe(no_mangle)]
pub extern "C" fn lqp_restore_text(handle: &mut Lq, attr: &[u8], text: &[u8]) -> u32
    ensures adds { Gives
        (attr_outcome (restored_in handle.old) (set_text_request 0 attr.now text.now))
        (restored_in handle.old) (restored_in handle.new) result }
    ensures stays { held_state handle.new ≡ held_state handle.old }
{
    handle.served_mut().restorer.attr_text(attr, text)
}

/// As `Restorer::attr` with a number, whose status it answers.
#[unsafe(no_mangle)]
pub extern "C" fn lqp_restore_int32(handle: &mut Lq, attr: &[u8], value: i32) -> u32
    ensures adds { Gives (attr_outcome (restored_in handle.old)
        (set_request 0 attr.now (given_number (Int32 value))))
        (restored_in handle.old) (restored_in handle.new) result }
    ensures stays { held_state handle.new ≡ held_state handle.old }
{
    restore_attr(handle, attr, View::Int32(value))
}

/// As `Restorer::attr` with a number, whose status it answers.
#[unsafe(no_mangle)]
pub extern "C" fn lqp_restore_int64(handle: &mut Lq, attr: &[u8], value: i64) -> u32
    ensures adds { Gives (attr_outcome (restored_in handle.old)
        (set_request 0 attr.now (given_number (Int64 value))))
        (restored_in handle.old) (restored_in handle.new) result }
    ensures stays { held_state handle.new ≡ held_state handle.old }
{
    restore_attr(handle, attr, View::Int64(value))
}

/// As `Restorer::attr` with a number, whose status it answers.
#[unsafe(no_mangle)]
pub extern "C" fn lqp_restore_uint32(handle: &mut Lq, attr: &[u8], value: u32) -> u32
    ensures adds { Gives (attr_outcome (restored_in handle.old)
        (set_request 0 attr.now (given_number (UInt32 value))))
        (restored_in handle.old) (restored_in handle.new) result }
    ensures stays { held_state handle.new ≡ held_state handle.old }
{
    restore_attr(handle, attr, View::UInt32(value))
}

/// As `Restorer::attr` with a number, whose status it answers.
#[unsafe(no_mangle)]
pub extern "C" fn lqp_restore_uint64(handle: &mut Lq, attr: &[u8], value: u64) -> u32
    ensures adds { Gives (attr_outcome (restored_in handle.old)
        (set_request 0 attr.now (given_number (UInt64 value))))
        (restored_in handle.old) (restored_in handle.new) result }
    ensures stays { held_state handle.new ≡ held_state handle.old }
{
    restore_attr(handle, attr, View::UInt64(value))
}

/// As `Restorer::entry`, whose status it answers.
#[unsafe(no_mangle)]
pub extern "C" fn lqp_restore_entry(
    handle: &mut Lq,
    node: u64,
    dir: u64,
    name: &[u8],
    kind: u32,
    size: u64,
    time: i64,
) -> u32
    ensures adds { Gives (entry_outcome (restored_in handle.old) node dir name.now kind size time)
        (without_attrs (restored_in handle.old)) (restored_in handle.new) result }
    ensures stays { held_state handle.new ≡ held_state handle.old }
{
    handle
        .served_mut()
        .restorer
        .entry(node, dir, name, kind, size, time)
}

/// As `Restorer::end`, whose status it answers: the handle's session is then the first one over
/// the volume that was restored.
#[unsafe(no_mangle)]
pub extern "C" fn lqp_restore_end(handle: &mut Lq) -> u32
    ensures { Gives (end_outcome (restored_in handle.old).state) (held_state handle.old)
        (held_state handle.new) result }
{
    let served = handle.served_mut();
    served.restorer.end(&mut served.embedded)
}

// Adds an attribute of the next entry.
fn restore_attr(handle: &mut Lq, attr: &[u8], value: View<'_>) -> u32
    ensures adds { Gives
        (attr_outcome (restored_in handle.old) (set_request 0 attr.now (given value.entry)))
        (restored_in handle.old) (restored_in handle.new) result }
    ensures stays { held_state handle.new ≡ held_state handle.old }
{
    handle.served_mut().restorer.attr(attr, value)
}
