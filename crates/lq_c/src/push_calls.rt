//! Queries by pushes in postfix order, for callers that build no formula; C's count of pushes is
//! limited here.
ghost use Rattle.std.specs.Prelude.{◌≡◌, Ok};
ghost use Rattle.lq_predicate.specs.Stack.{attr_pushed, only_part, text_pushed};
ghost use Rattle.lq_predicate.specs.Stacked.{new_stack};
ghost use Rattle.lq_embed.specs.Calls.{Fetches};
ghost use Rattle.lq_embed.specs.Numbers.{op_numbered};
ghost use Rattle.lq_embed.specs.Opening.{OpensBy, asked_options};
ghost use Rattle.lq_embed.specs.Pushed.{push_op_outcome, push_outcome};
ghost use Rattle.lq_embed.specs.Requests.{fetch_pushed, in_utf8, stack_left, open_pushed};
ghost use Rattle.lq_embed.specs.declared.pushes.Push.TheVariants.{Int32, Int64, UInt32, UInt64};
ghost use Rattle.lq_embed.specs.SessionState.{with_pushed};
ghost use Rattle.lq_c.specs.Held.{held_state};
ghost use Rattle.lq_c.specs.Numbers.{PushesIn, after_take, has_room, made_after, shown_after};

use crate::handle::Lq;
use crate::handle_numbers::{MISUSE, count_push, count_taken, has_room, number_result};
use crate::outs::{FetchedResult, OpeningResult};
use lq_embed::{OpenOptions, Push};

/// As `Embedded::push`, whose status it answers; 40 where `pushes`, the count of those that were
/// accepted, is 4,096.
#[unsafe(no_mangle)]
pub extern "C" fn lqp_push_attr(handle: &mut Lq, pushes: &mut u32, name: &[u8]) -> u32
    ensures { PushesIn (has_room pushes.old) (held_state handle.old) (held_state handle.new)
        (in_utf8 name.now (Ok (attr_pushed name.now (held_state handle.old).pushed)))
        result pushes.old pushes.new }
{
    push(handle, pushes, Push::Attr(name))
}

/// As `lqp_push_attr`.
#[unsafe(no_mangle)]
pub extern "C" fn lqp_push_text(handle: &mut Lq, pushes: &mut u32, text: &[u8]) -> u32
    ensures { PushesIn (has_room pushes.old) (held_state handle.old) (held_state handle.new)
        (in_utf8 text.now (Ok (text_pushed text.now (held_state handle.old).pushed)))
        result pushes.old pushes.new }
{
    push(handle, pushes, Push::Text(text))
}

/// As `lqp_push_attr`.
#[unsafe(no_mangle)]
pub extern "C" fn lqp_push_int32(handle: &mut Lq, pushes: &mut u32, value: i32) -> u32
    ensures { PushesIn (has_room pushes.old) (held_state handle.old) (held_state handle.new)
        (push_outcome (Int32 value) (held_state handle.old).pushed) result pushes.old
        pushes.new }
{
    push(handle, pushes, Push::Int32(value))
}

/// As `lqp_push_attr`.
#[unsafe(no_mangle)]
pub extern "C" fn lqp_push_int64(handle: &mut Lq, pushes: &mut u32, value: i64) -> u32
    ensures { PushesIn (has_room pushes.old) (held_state handle.old) (held_state handle.new)
        (push_outcome (Int64 value) (held_state handle.old).pushed) result pushes.old
        pushes.new }
{
    push(handle, pushes, Push::Int64(value))
}

/// As `lqp_push_attr`.
#[unsafe(no_mangle)]
pub extern "C" fn lqp_push_uint32(handle: &mut Lq, pushes: &mut u32, value: u32) -> u32
    ensures { PushesIn (has_room pushes.old) (held_state handle.old) (held_state handle.new)
        (push_outcome (UInt32 value) (held_state handle.old).pushed) result pushes.old
        pushes.new }
{
    push(handle, pushes, Push::UInt32(value))
}

/// As `lqp_push_attr`.
#[unsafe(no_mangle)]
pub extern "C" fn lqp_push_uint64(handle: &mut Lq, pushes: &mut u32, value: u64) -> u32
    ensures { PushesIn (has_room pushes.old) (held_state handle.old) (held_state handle.new)
        (push_outcome (UInt64 value) (held_state handle.old).pushed) result pushes.old
        pushes.new }
{
    push(handle, pushes, Push::UInt64(value))
}

/// As `lqp_push_attr`.
#[unsafe(no_mangle)]
pub extern "C" fn lqp_push_op(handle: &mut Lq, pushes: &mut u32, op: u32) -> u32
    ensures { PushesIn (has_room pushes.old) (held_state handle.old) (held_state handle.new)
        (push_op_outcome (op_numbered op) (held_state handle.old).pushed) result pushes.old
        pushes.new }
{
    push(handle, pushes, Push::Op(op))
}

// A push where there is room for it.
fn push(handle: &mut Lq, pushes: &mut u32, push: Push<'_>) -> u32
    ensures { PushesIn (has_room pushes.old) (held_state handle.old) (held_state handle.new)
        (push_outcome push.entry (held_state handle.old).pushed) result pushes.old pushes.new }
{
    if !has_room(*pushes) {
        return MISUSE;
    }
    let status = handle.served_mut().embedded.push(push);
    count_push(pushes, status);
    status
}

/// As `Embedded::clear_pushed`.
#[unsafe(no_mangle)]
pub extern "C" fn lqp_clear_pushed(handle: &mut Lq, pushes: &mut u32)
    ensures stack { held_state handle.new ≡ with_pushed (held_state handle.old) new_stack }
    ensures count { pushes.new ≡ 0 }
{
    handle.served_mut().embedded.clear_pushed();
    *pushes = 0;
}

/// As `Embedded::open_pushed_by`, whose status it answers; `made` counts its result.
#[unsafe(no_mangle)]
pub extern "C" fn lqp_open_pushed(
    handle: &mut Lq,
    made: &mut u64,
    pushes: &mut u32,
    options: &OpenOptions,
    out: &mut OpeningResult,
) -> u32
    ensures opens { OpensBy (held_state handle.old) (held_state handle.new)
        (stack_left (held_state handle.old).pushed (only_part (held_state handle.old).pushed.items))
        options.now
        (open_pushed (held_state handle.old).pushed.pushes (asked_options options.now)
        (only_part (held_state handle.old).pushed.items))
        result out.old.opening out.new.opening }
    ensures count { pushes.new ≡ after_take result pushes.old }
    ensures made { made.new ≡ made_after result made.old }
    ensures number { out.new.result ≡ shown_after result made.old out.old.result }
{
    let embedded = &mut handle.served_mut().embedded;
    let status = embedded.open_pushed_by(options, &mut out.opening);
    count_taken(pushes, status);
    number_result(made, status, &mut out.result);
    status
}

/// As `Embedded::fetch_pushed`, whose status it answers; `made` counts its result.
#[unsafe(no_mangle)]
pub extern "C" fn lqp_fetch_pushed(
    handle: &mut Lq,
    made: &mut u64,
    pushes: &mut u32,
    out: &mut FetchedResult,
) -> u32
    ensures fetches { Fetches (held_state handle.old) (held_state handle.new)
        (stack_left (held_state handle.old).pushed (only_part (held_state handle.old).pushed.items))
        (fetch_pushed (held_state handle.old).pushed.pushes
        (only_part (held_state handle.old).pushed.items)) result out.old.fetched out.new.fetched }
    ensures count { pushes.new ≡ after_take result pushes.old }
    ensures made { made.new ≡ made_after result made.old }
    ensures number { out.new.result ≡ shown_after result made.old out.old.result }
{
    let embedded = &mut handle.served_mut().embedded;
    let status = embedded.fetch_pushed(&mut out.fetched);
    count_taken(pushes, status);
    number_result(made, status, &mut out.result);
    status
}
