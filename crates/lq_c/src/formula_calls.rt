//! Values that are bound, queries of formulas with them, and texts as literals of a formula.
ghost use Rattle.std.specs.Prelude.{◌≡◌, ◌≤◌, [], Ok, length};
ghost use Rattle.lq_value.specs.declared.op.Op.TheVariants.{Eq};
ghost use Rattle.lq_value.specs.declared.value.Value.TheVariants.{Int64, UInt64};
ghost use Rattle.lq_embed.specs.Bound.{BindsValue, FetchesBound, OpensBound, bound_text};
ghost use Rattle.lq_embed.specs.Quoting.{quoted_for};
ghost use Rattle.lq_embed.specs.SessionState.{with_bound};
ghost use Rattle.lq_c.specs.Held.{held_state};
ghost use Rattle.lq_c.specs.Numbers.{made_after, shown_after};
ghost use Rattle.lq_c.specs.QuotedText.{quoted_put, quoted_size};

use crate::handle::Lq;
use crate::handle_numbers::number_result;
use crate::outs::{FetchedResult, OpeningResult};
use lq_embed::{OpenOptions, has_meaning, put_text};
use lq_value::{MAX_VALUE_TEXT, Op};

/// Writes a text to the start of `out` as a literal that means just this text after `==`, `=` and
/// `!=`, and answers the literal's size: between `"` marks, with `\` before each `*`, `?`, `[`, `\`
/// and `"`. Where there is room after it, a NUL comes there; where `out` is smaller nothing is
/// written. A text above 4,096 bytes has no such literal: the answer is 0. It takes no memory.
#[unsafe(no_mangle)]
pub extern "C" fn lqp_quote(text: &[u8], out: &mut [u8]) -> usize
    ensures size { result ≡ quoted_size text.now }
    ensures text { out.new ≡ quoted_put text.now out.old }
{
    if text.len() > MAX_VALUE_TEXT {
        return 0;
    }
    let size = quoted_size(text);
    if size <= out.len() {
        let (front, behind) = out.split_at_mut(size);
        write_quoted(text, front);
        // No text more: a NUL, where there is room.
        put_text(behind, b"");
    }
    size
}

// The size of a text as a literal after `==`.
fn quoted_size(text: &[u8]) -> usize
    requires { length text.now ≤ 4096 }
    ensures { result ≡ length (quoted_for Eq text.now) }
{
    let mut size = text.len() + 2;
    for byte in text {
        if has_meaning(Op::Eq, *byte) {
            size += 1;
        }
    }
    size
}

// Writes a text as a literal after `==` to all of `out`.
fn write_quoted(text: &[u8], out: &mut [u8])
    requires { length out.old ≡ length (quoted_for Eq text.now) }
    ensures { out.new ≡ quoted_for Eq text.now }
{
    out[0] = b'"';
    let mut at = 1;
    for byte in text {
        if has_meaning(Op::Eq, *byte) {
            out[at] = b'\\';
            at += 1;
        }
        out[at] = *byte;
        at += 1;
    }
    out[at] = b'"';
}

/// As `Embedded::bind_text`, whose status it answers.
#[unsafe(no_mangle)]
pub extern "C" fn lqp_bind_text(handle: &mut Lq, text: &[u8]) -> u32
    ensures { BindsValue (held_state handle.old) (held_state handle.new) (bound_text text.now)
        result }
{
    handle.served_mut().embedded.bind_text(text)
}

/// As `Embedded::bind_int64`, whose status it answers.
#[unsafe(no_mangle)]
pub extern "C" fn lqp_bind_int64(handle: &mut Lq, value: i64) -> u32
    ensures { BindsValue (held_state handle.old) (held_state handle.new) (Ok (Int64 value)) result }
{
    handle.served_mut().embedded.bind_int64(value)
}

/// As `Embedded::bind_uint64`, whose status it answers.
#[unsafe(no_mangle)]
pub extern "C" fn lqp_bind_uint64(handle: &mut Lq, value: u64) -> u32
    ensures { BindsValue (held_state handle.old) (held_state handle.new) (Ok (UInt64 value))
        result }
{
    handle.served_mut().embedded.bind_uint64(value)
}

/// As `Embedded::clear_bound`.
#[unsafe(no_mangle)]
pub extern "C" fn lqp_clear_bound(handle: &mut Lq)
    ensures { held_state handle.new ≡ with_bound (held_state handle.old) [] }
{
    handle.served_mut().embedded.clear_bound();
}

/// As `Embedded::open_bound`, whose status it answers; `made` counts its result.
#[unsafe(no_mangle)]
pub extern "C" fn lqp_open_bound(
    handle: &mut Lq,
    made: &mut u64,
    formula: &[u8],
    options: &OpenOptions,
    out: &mut OpeningResult,
) -> u32
    ensures opens { OpensBound (held_state handle.old) (held_state handle.new) options.now
        formula.now result out.old.opening out.new.opening }
    ensures made { made.new ≡ made_after result made.old }
    ensures number { out.new.result ≡ shown_after result made.old out.old.result }
{
    let embedded = &mut handle.served_mut().embedded;
    let status = embedded.open_bound(formula, options, &mut out.opening);
    number_result(made, status, &mut out.result);
    status
}

/// As `Embedded::fetch_bound`, whose status it answers; `made` counts its result.
#[unsafe(no_mangle)]
pub extern "C" fn lqp_fetch_bound(
    handle: &mut Lq,
    made: &mut u64,
    formula: &[u8],
    out: &mut FetchedResult,
) -> u32
    ensures fetches { FetchesBound (held_state handle.old) (held_state handle.new) formula.now
        result out.old.fetched out.new.fetched }
    ensures made { made.new ≡ made_after result made.old }
    ensures number { out.new.result ≡ shown_after result made.old out.old.result }
{
    let embedded = &mut handle.served_mut().embedded;
    let status = embedded.fetch_bound(formula, &mut out.fetched);
    number_result(made, status, &mut out.result);
    status
}
