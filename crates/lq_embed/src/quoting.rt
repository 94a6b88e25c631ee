//! Writes values as literals of a formula that mean just these values.
ghost use Rattle.std.specs.Prelude.{◌≡◌, ◌++◌, OnOk};
ghost use Rattle.lq_value.specs.Refusal.{FailsOnlyForMemory};
ghost use Rattle.lq_embed.specs.Quoting.{has_meaning, literal_for, quoted_for};

use itoa::{Buffer, Integer};
use lq_value::{Op, Refusal, Value};

/// Whether a byte has a meaning of its own between the `"` marks of a literal after an operator: it
/// needs `\` before it to mean itself.
pub fn has_meaning(op: Op, byte: u8) -> bool
    ensures { result ≡ has_meaning op byte }
{
    match byte {
        b'\\' | b'"' => true,
        b'*' | b'?' | b'[' => matches!(op, Op::Eq | Op::Ne),
        _ => false,
    }
}

/// Appends a value's literal after an operator. Refused: `NoMemory`, and then no clause says what
/// was appended.
pub(crate) fn put_literal(op: Op, value: &Value, out: &mut Vec<u8>) -> Result<(), Refusal>
    ensures refused { FailsOnlyForMemory result }
    ensures value { OnOk result (out.new.items ≡ out.old.items ++ literal_for op value.now) }
{
    match value {
        Value::Text(text) => put_quoted(op, text.as_str().as_bytes(), out),
        Value::Int32(number) => put_number(*number, out),
        Value::Int64(number) => put_number(*number, out),
        Value::UInt32(number) => put_number(*number, out),
        Value::UInt64(number) => put_number(*number, out),
    }
}

// Appends a text as a literal after an operator.
fn put_quoted(op: Op, text: &[u8], out: &mut Vec<u8>) -> Result<(), Refusal>
    ensures refused { FailsOnlyForMemory result }
    ensures value { OnOk result (out.new.items ≡ out.old.items ++ quoted_for op text.now) }
{
    out.push(b'"')?;
    for byte in text {
        if has_meaning(op, *byte) {
            out.push(b'\\')?;
        }
        out.push(*byte)?;
    }
    out.push(b'"')?;
    Ok(())
}

// Appends the decimal text of a number.
fn put_number<I: Integer>(number: I, out: &mut Vec<u8>) -> Result<(), Refusal>
    ensures refused { FailsOnlyForMemory result }
    ensures value { OnOk result (out.new.items ≡ out.old.items ++ I.text number) }
{
    let mut buffer = Buffer::new();
    out.extend_from_slice(buffer.format(number).as_bytes())?;
    Ok(())
}
