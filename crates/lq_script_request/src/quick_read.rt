//! Recognises by its bytes the line that asks for a read of a slot, since programs send it most.
ghost use Rattle.std.specs.Prelude.{◌≡◌, ◌<◌, ◌+◌, IfSome};
ghost use Rattle.lq_script_request.specs.ReadLine.{read_line};

/// The bytes before the slot.
const FRONT: &str = "{\"do\":\"read\",\"slot\":";

const CLOSING: u8 = b'}';

/// The fewest bytes of such a line, with a slot of one digit.
const FEWEST: usize = 22;

/// The most bytes, with a slot of two.
const MOST: usize = 23;

/// The slot of a line that asks for a read and is written exactly as `{"do":"read","slot":7}`:
/// without spaces, and with a slot of 1 to 99 in one or two digits. `None` for any other line, even
/// one that asks the same in another way.
///
/// A program that follows a live query sends this line again and again, so this call recognises it
/// without reading JSON. It takes no memory. The form is our own.
pub fn plain_read(line: &[u8]) -> Option<u64>
    ensures line { IfSome result (λ slot. line.now ≡ read_line slot) }
    ensures small { IfSome result (λ slot. slot < 100) }
{
    if line.len() < FEWEST || line.len() > MOST {
        return None;
    }
    let rest = line.strip_prefix(FRONT.as_bytes())?;
    if rest.len() == 2 && rest[1] == CLOSING {
        return Some(leading_digit(rest[0])?);
    }
    if rest.len() == 3 && rest[2] == CLOSING {
        let tens = leading_digit(rest[0])?;
        return Some(tens * 10 + digit(rest[1])?);
    }
    None
}

// The value of a digit from 1 to 9.
fn leading_digit(byte: u8) -> Option<u64>
    ensures { IfSome result (λ n. (byte ≡ 48 + n) × (0 < n) × (n < 10)) }
{
    let number = digit(byte)?;
    if number == 0 {
        return None;
    }
    Some(number)
}

// The value of a digit.
fn digit(byte: u8) -> Option<u64>
    ensures { IfSome result (λ n. (byte ≡ 48 + n) × (n < 10)) }
{
    if byte < b'0' || byte > b'9' {
        return None;
    }
    Some((byte - b'0') as u64)
}
