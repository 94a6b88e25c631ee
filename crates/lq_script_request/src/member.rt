//! The parts of a plain line, each at an offset: white space, a text, a number or a truth value.
ghost use Rattle.std.specs.Prelude.{◌≡◌, ◌<◌, ◌≤◌, ◌+◌, ◌^◌, ◌++◌, IfSome, IsTrue, decimal, drop, length, slice_index};
ghost use Rattle.json.specs.Run.{is_plain};
ghost use Rattle.json.specs.Word.{is_space};
ghost use Rattle.lq_script_request.specs.Members.{IsPastSpace, IsText, IsTextEnd, IsValue};

use crate::field::Field;
use serde_json::Number;

/// The most digits of a whole number: such a number has less than 64 bits.
const QUICK_DIGITS: usize = 18;

// The byte at an offset, or 0 at the end.
#[inline(always)]
pub(crate) fn byte_at(bytes: &[u8], at: usize) -> u8
    ensures value { result ≡ slice_index bytes.now at }
    ensures within { 0 < result → at < length bytes.now }
{
    if at < bytes.len() { bytes[at] } else { 0 }
}

// The offset of the first byte from an offset on that is no white space, or the line's length.
#[inline(always)]
pub(crate) fn past_space(bytes: &[u8], from: usize) -> usize
    requires { from ≤ length bytes.now }
    ensures { IsPastSpace bytes.now from result }
{
    let mut at = from;
    'spaces: while at < bytes.len() && is_space(bytes[at]) {
        at += 1;
    }
    at
}

#[inline(always)]
fn is_space(byte: u8) -> bool
    ensures { result ≡ is_space byte }
{
    byte == b' ' || byte == b'\t' || byte == b'\n' || byte == b'\r'
}

// The value at an offset and the offset after it: a text, a whole number, `true` or `false`.
#[inline(always)]
pub(crate) fn value_at<'a>(text: &'a str, at: usize) -> Option<(Field<'a>, usize)>
    requires { at ≤ length text.now }
    ensures { IfSome result (λ r. IsValue text.now at r.0 r.1) }
{
    let bytes = text.as_bytes();
    match byte_at(bytes, at) {
        b'"' => {
            let (value, end) = text_at(text, at)?;
            Some((Field::Text(value), end))
        }
        b'-' => negative_at(bytes, at),
        b't' if begins_at(bytes, at, b"true") => Some((Field::True, at + 4)),
        b'f' if begins_at(bytes, at, b"false") => Some((Field::False, at + 5)),
        _ => {
            let (number, end) = whole_at(bytes, at)?;
            Some((Field::Whole(number), end))
        }
    }
}

// A whole number below 0, and the offset after it; `-0` is none.
#[inline(always)]
fn negative_at<'a>(bytes: &[u8], at: usize) -> Option<(Field<'a>, usize)>
    ensures { IfSome result (λ r. IsValue bytes.now at r.0 r.1) }
{
    if byte_at(bytes, at) != b'-' {
        return None;
    }
    let (number, end) = whole_at(bytes, at + 1)?;
    if number == 0 {
        return None;
    }
    Some((Field::Number(Number::from(-(number as i64))), end))
}

// The text whose first quote is at an offset, and the offset after its last. `None` where no quote
// is there, or where the text has an escape.
#[inline(always)]
pub(crate) fn text_at<'a>(text: &'a str, at: usize) -> Option<(&'a str, usize)>
    ensures { IfSome result (λ r. IsText text.now at r.0.now r.1) }
{
    let bytes = text.as_bytes();
    if byte_at(bytes, at) != b'"' {
        return None;
    }
    let end = text_end(bytes, at + 1)?;
    Some((&text[at + 1..end], end + 1))
}

// The offset of the first quote from an offset on. `None` where an escape or a control character
// comes before it.
#[inline(always)]
fn text_end(bytes: &[u8], from: usize) -> Option<usize>
    requires { from ≤ length bytes.now }
    ensures { IfSome result (λ end. IsTextEnd bytes.now from end) }
{
    let mut end = from;
    'text: while end < bytes.len() && is_plain(bytes[end]) {
        end += 1;
    }
    if byte_at(bytes, end) != b'"' {
        return None;
    }
    Some(end)
}

#[inline(always)]
fn is_plain(byte: u8) -> bool
    ensures { result ≡ is_plain byte }
{
    !(byte == b'"' || byte == b'\\' || byte < 0x20)
}

// The whole number at an offset, of 1 to 18 digits, and the offset after it. After a leading 0
// there are no more digits.
#[inline(always)]
fn whole_at(bytes: &[u8], from: usize) -> Option<(u64, usize)>
    requires { from ≤ length bytes.now }
    ensures written { IfSome result (λ r. drop from bytes.now ≡ decimal r.0 ++ drop r.1 bytes.now) }
    ensures small { IfSome result (λ r. r.0 < 10 ^ 18) }
    ensures after { IfSome result (λ r. from < r.1) }
    ensures within { IfSome result (λ r. r.1 ≤ length bytes.now) }
{
    let mut number = digit_at(bytes, from)?;
    let mut end = from + 1;
    if number == 0 {
        return Some((number, end));
    }
    'digits: while let Some(digit) = digit_at(bytes, end) {
        if end - from == QUICK_DIGITS {
            return None;
        }
        number = number * 10 + digit;
        end += 1;
    }
    Some((number, end))
}

// The value of the digit at an offset.
#[inline(always)]
fn digit_at(bytes: &[u8], at: usize) -> Option<u64>
    ensures value { IfSome result (λ n. slice_index bytes.now at ≡ 48 + n) }
    ensures small { IfSome result (λ n. n < 10) }
    ensures within { IfSome result (λ n. at < length bytes.now) }
{
    let byte = byte_at(bytes, at);
    if byte < b'0' || byte > b'9' {
        return None;
    }
    Some((byte - b'0') as u64)
}

// Whether a word begins at an offset.
#[inline(always)]
fn begins_at(bytes: &[u8], at: usize, word: &[u8]) -> bool
    requires { at ≤ length bytes.now }
    ensures text { IsTrue result → drop at bytes.now
        ≡ word.now ++ drop (at + length word.now) bytes.now }
    ensures within { IsTrue result → at + length word.now ≤ length bytes.now }
{
    bytes[at..].starts_with(word)
}
