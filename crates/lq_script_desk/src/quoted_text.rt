//! Writes quoted texts with JSON's escapes, a run of plain bytes at a time.
ghost use Rattle.std.specs.Prelude.{◌≡◌, ◌++◌, ◌<◌, ◌≤◌, false, OnOk, length};
ghost use Rattle.std.specs.List.{prefix_len};
ghost use Rattle.std.specs.Char.{digit_char};
ghost use Rattle.json.specs.Print.{escape_byte, escape_letter};
ghost use Rattle.serde_json.specs.Data.{string};
ghost use Rattle.serde_json.specs.Written.{compact_text};
ghost use Rattle.lq_script_desk.specs.Front.{AppendsTo};
ghost use Rattle.lq_script_desk.specs.Escaping.{needs_no_escape};

use std::alloc::AllocError;

/// Appends `before` to `out`, then `text` in quotes.
///
/// A quote, a backslash and each control character are written with their shortest escape, as `\n`
/// or `\u001f`; everything else stands unchanged. An error says that memory ran out: `out` then
/// keeps what it had, maybe followed by a part of the new text.
pub fn put_text(out: &mut Vec<u8>, before: &[u8], text: &str) -> Result<(), AllocError>
    ensures ok { OnOk result (out.new.items
        ≡ out.old.items ++ (before.now ++ compact_text (string text.now))) }
    ensures front { AppendsTo out.new.items out.old.items }
{
    out.extend_from_slice(before)?;
    out.push(b'"')?;
    let mut rest = text.as_bytes();
    loop {
        let (run, stop) = rest.split_at(plain_len(rest));
        out.extend_from_slice(run)?;
        let [byte, behind @ ..] = stop else {
            out.push(b'"')?;
            return Ok(());
        };
        put_escape(out, *byte)?;
        rest = behind;
    }
}

// The number of bytes before the first one that has an escape.
#[inline(always)]
fn plain_len(text: &[u8]) -> usize
    ensures value { result ≡ prefix_len needs_no_escape text.now }
    ensures bound { result ≤ length text.now }
{
    let mut len = 0;
    while len < text.len() && is_plain(text[len]) {
        len += 1;
    }
    len
}

#[inline(always)]
fn is_plain(byte: u8) -> bool
    ensures { result ≡ needs_no_escape byte }
{
    !(byte < 0x20 || byte == b'"' || byte == b'\\')
}

#[inline(never)]
#[tactic(auto, unfolding(json::specs::Print::escape_byte))]
fn put_escape(out: &mut Vec<u8>, byte: u8) -> Result<(), AllocError>
    requires { needs_no_escape byte ≡ false }
    ensures ok { OnOk result (out.new.items ≡ out.old.items ++ escape_byte byte) }
    ensures front { AppendsTo out.new.items out.old.items }
{
    let letter = escape_letter(byte);
    if letter == 0 {
        let digits = [hex(byte / 16), hex(byte % 16)];
        out.extend_from_slice(b"\\u00")?;
        out.extend_from_slice(&digits)?;
        return Ok(());
    }
    out.extend_from_slice(&[b'\\', letter])?;
    Ok(())
}

// The letter of the byte's short escape, or 0 if it has none.
fn escape_letter(byte: u8) -> u8
    ensures { result ≡ escape_letter byte }
{
    match byte {
        b'"' | b'\\' => byte,
        8 => b'b',
        12 => b'f',
        b'\n' => b'n',
        b'\r' => b'r',
        b'\t' => b't',
        _ => 0,
    }
}

fn hex(digit: u8) -> u8
    requires { digit < 16 }
    ensures { result ≡ digit_char digit }
{
    if digit < 10 {
        b'0' + digit
    } else {
        b'a' - 10 + digit
    }
}
