//! Texts at the borders of what serde_json takes and of plain lines, read by it and by
//! lq_script_request.
ghost use Rattle.std.specs.Prelude.{◌<◌, length};
ghost use Rattle.lq_script_request.specs.Fields.{AreLastMembers};

use crate::patterns::next;
use lq_script_request::{Fields, Key, Scratch, request_in};
use lq_value::Refusal;
use std::alloc::{AllocError, Global};
use std::test::Fail;

// texts; scenarios/json-borders says which of them are JSON within the limits
const TEXTS: [&str; 40] = [
    // equal keys, and keys that an escape makes equal
    r#"{"size":1,"size":2}"#,
    r#"{"size":1,"node":2,"size":"x","node":3,"size":true}"#,
    r#"{"size":1,"\u0073ize":2}"#,
    r#"{"\u0073ize":2,"size":null}"#,
    r#"{"size":{"size":1},"node":{"node":2}}"#,
    // numbers
    r#"{"size":0,"node":-0}"#,
    r#"{"size":-0.0,"node":0.0}"#,
    r#"{"size":1.0,"node":1e2}"#,
    r#"{"size":18446744073709551615,"node":18446744073709551616}"#,
    r#"{"size":9223372036854775807,"node":9223372036854775808}"#,
    r#"{"size":-9223372036854775808,"node":-9223372036854775809}"#,
    r#"{"size":999999999999999999,"node":1000000000000000000}"#,
    r#"{"size":1e308,"node":1e-999}"#,
    r#"{"size":1e999}"#,
    r#"{"size":-1e999}"#,
    r#"{"size":1,"node":1e309}"#,
    r#"{"attr":[1,{"d":[1e309]}]}"#,
    r#"{"size":1e309,"size":1}"#,
    r#"{"size":01}"#,
    r#"{"size":+1}"#,
    r#"{"size":1.}"#,
    r#"{"size":.5}"#,
    r#"{"size":-}"#,
    r#"{"size":1e}"#,
    // strings
    r#"{"size":"\"\\\/\b\f\n\r\t","node":"\u00e9\u20AC"}"#,
    r#"{"size":"\ud834\udd1e","node":"é€𝄞"}"#,
    r#"{"size":"\u0000"}"#,
    r#"{"size":"\ud834"}"#,
    r#"{"size":"\udd1e\ud834"}"#,
    r#"{"size":"\x"}"#,
    "{\"size\":\"\n\"}",
    r#"{"size":"x}"#,
    // layout, other words, and what is no object
    " {\t\"size\" :\r1 , \"node\":false }\n",
    r#"{"size":1,}"#,
    r#"{"size":1}}"#,
    r#"{"size":tru}"#,
    r#"{size:1}"#,
    r#"[{"size":1}]"#,
    "null",
    "",
];

// whole numbers near which others are drawn; the last two, with e292, are near the greatest double
const WHOLES: [u64; 9] = [
    0,
    100,
    100_000_000_000_000_000,
    1_000_000_000_000_000_000,
    9_223_372_036_854_775_808,
    10_000_000_000_000_000_000,
    18_446_744_073_709_551_608,
    17_976_931_348_623_155,
    17_976_931_348_623_158,
];

// what stands before and after a whole number
const SIGNS: [&str; 2] = ["", "-"];

const ENDS: [&str; 12] = [
    "", "", "", "0", "7", ".0", ".5", "e0", "E+2", "e291", "e292", "e-340",
];

// white space, or none
const SPACES: [&str; 8] = ["", "", "", "", " ", "\t", "\r\n", "\r"];

// keys; the last two are of no plain line
const KEYS: [&str; 6] = [
    "\"size\"",
    "\"size\"",
    "\"node\"",
    "\"\"",
    "\"si\\u007ae\"",
    "\"no\nde\"",
];

// values; some are of no plain line, and some are none
const VALUES: [&str; 25] = [
    "0", "7", "-7", "00", "-0", "-", "-01", "1-", "0.0", "1.0", "1e2", "1e309", "true", "false",
    "tru", "truee", "falsE", "null", "\"\"", "\"a\"", "\"\t\"", "\"a", "\"a\"b", "[]", "\"\r\"",
];

// longer ones
const LONG_VALUES: [&str; 15] = [
    "\"é€𝄞\"",
    "123456789012345678",
    "-123456789012345678",
    "999999999999999999",
    "-999999999999999999",
    "1000000000000000000",
    "-1000000000000000000",
    "1234567890123456789",
    "9223372036854775808",
    "\"\\\"\"",
    "\"\\u00e9\"",
    "{\"size\":1}",
    "\"\0\"",
    "\"\u{7f}\"",
    "\"\u{1f}\"",
];

// what comes after a value, mostly a comma
const MARKS: [&str; 8] = [",", ",", ",", ",", ",", "}", ":", ""];

// how many random lines are read
const LINES: usize = 100_000;

// the most bytes of a line
const MAX_LINE: usize = 65_536;

// Whether both have the same field of that key, as far as its kind goes.
fn has_same(plain: &serde_json::Value, fields: &Fields<'_>, name: &str, key: Key) -> bool
    requires { AreLastMembers fields.now }
{
    let field = fields.at(key);
    match plain.get(name) {
        None => field.is_absent(),
        Some(plain) => !field.is_absent()
            && plain.as_u64() == field.number()
            && plain.as_i64() == field.signed()
            && plain.as_str() == field.text()
            && plain.as_bool() == field.truth(),
    }
}

// Whether serde_json and lq_script_request read the same fields `size` and `node`, or both refuse a
// text.
fn is_read_alike(alloc: Global, text: &str) -> bool {
    let mut value = serde_json::Value::Null;
    let mut fields = Fields::new();
    let Ok(plain) = serde_json::Value::from_str(alloc, text) else {
        return fields.read(alloc, &mut value, text).err() == Some(Refusal::NotJson);
    };
    match fields.read(alloc, &mut value, text) {
        Ok(()) => has_same(&plain, &fields, "size", Key::Size)
            && has_same(&plain, &fields, "node", Key::Node),
        Err(_) => false,
    }
}

// The text with the number that is drawn.
fn drawn_text(alloc: Global, drawn: u64) -> Result<String, AllocError> {
    let at = drawn >> 33;
    let whole = WHOLES[(at % 9) as usize].wrapping_add(at / 9 % 8);
    let sign = SIGNS[(at / 72 % 2) as usize];
    let end = ENDS[(at / 144 % 12) as usize];
    format!(in alloc; "{{\"size\":{sign}{whole}{end},\"node\":[{whole}]}}")
}

#[test]
fn a_text_is_read_as_serde_json_reads_it(rt: HostRuntime) -> Result<(), Fail> {
    for text in &TEXTS {
        if !is_read_alike(rt.alloc(), text) {
            return Err(Fail::from(*text));
        }
    }
    let mut drawn: u64 = 1;
    for _ in 0..4_000 {
        drawn = next(drawn);
        let text = drawn_text(rt.alloc(), drawn)?;
        if !is_read_alike(rt.alloc(), &text) {
            return Err(Fail::from(text));
        }
    }
    Ok(())
}

// One of the texts, by the next number that is drawn.
fn one_of(drawn: &mut u64, texts: &[&'static str]) -> &'static str
    requires { 0 < length texts.now }
{
    *drawn = next(*drawn);
    texts[(*drawn >> 33) as usize % texts.len()]
}

// Appends a member, with white space at random.
fn push_member(line: &mut String, drawn: &mut u64) -> Result<(), AllocError> {
    line.push_str(one_of(drawn, &SPACES))?;
    line.push_str(one_of(drawn, &KEYS))?;
    line.push_str(one_of(drawn, &SPACES))?;
    line.push_str(":")?;
    line.push_str(one_of(drawn, &SPACES))?;
    line.push_str(if *drawn >> 63 == 0 {
        one_of(drawn, &VALUES)
    } else {
        one_of(drawn, &LONG_VALUES)
    })?;
    line.push_str(one_of(drawn, &SPACES))
}

// A line of that many members.
fn drawn_line(alloc: Global, drawn: &mut u64, members: usize) -> Result<String, AllocError> {
    let mut line = String::from_str(alloc, one_of(drawn, &SPACES))?;
    line.push_str("{")?;
    push_member(&mut line, drawn)?;
    for _ in 1..members {
        line.push_str(one_of(drawn, &MARKS))?;
        push_member(&mut line, drawn)?;
    }
    line.push_str("}")?;
    line.push_str(one_of(drawn, &SPACES))?;
    Ok(line)
}

#[test]
fn a_line_at_the_border_of_plain_ones_is_read_alike(rt: HostRuntime) -> Result<(), Fail> {
    let mut drawn: u64 = 66;
    for turn in 0..LINES {
        let line = drawn_line(rt.alloc(), &mut drawn, 1 + turn % 3)?;
        if !is_read_alike(rt.alloc(), &line) {
            return Err(Fail::from(line));
        }
    }
    Ok(())
}

#[test]
fn a_plain_line_of_the_most_bytes_is_read_alike(rt: HostRuntime) -> Result<(), Fail> {
    let mut line = String::from_str(rt.alloc(), "{\"node\":\"")?;
    for _ in 0..MAX_LINE - 21 {
        line.push_str("x")?;
    }
    line.push_str("\",\"size\":-7}")?;
    assert_eq!(rt; line.len(), MAX_LINE);
    assert!(rt; is_read_alike(rt.alloc(), &line));
    Ok(())
}

// lines, and why they are refused: with a byte that is no UTF-8 in a line that would be plain, in
// one with an escape, and in one that is no JSON; and the last without that byte
const REFUSED: [(&[u8], Refusal); 4] = [
    (b"{\"do\":\"find\",\"name\":\"\xff\"}", Refusal::NotUtf8),
    (b"{\"do\":\"find\",\"name\":\"\\n\xff\"}", Refusal::NotUtf8),
    (b"{\"do\":\"find\",\xc3}", Refusal::NotUtf8),
    (b"{\"do\":\"find\",}", Refusal::NotJson),
];

#[test]
fn a_byte_that_is_no_utf8_comes_before_all_else(rt: HostRuntime) -> Result<(), Fail> {
    for (line, refusal) in &REFUSED {
        let mut scratch = Scratch::new(rt.alloc());
        if request_in(rt.alloc(), &mut scratch, line).err() != Some(*refusal) {
            return Err(Fail::from(refusal.name()));
        }
    }
    Ok(())
}
