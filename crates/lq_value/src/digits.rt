//! The number that decimal digits write.
ghost use Rattle.std.specs.Prelude.{◌≡◌, ◌+◌, ◌*◌, ◌-◌, ◌<◌, ◌^◌, Some, None, IfSome, if◌then◌else◌};
ghost use Rattle.std.specs.Char.{is_ascii_digit, digit_value};
ghost use Rattle.lq_value.specs.Number.{digits_number, decimal_number};

/// The most digits that a number has.
const MAX_DIGITS: usize = 20;

/// The whole number that the bytes write: an optional `-` and 1 to 20 decimal digits.
///
/// `None` where they write no number. It takes no memory. The form is our own.
pub fn number_of_bytes(bytes: &[u8]) -> Option<i128>
    ensures { result ≡ decimal_number bytes.now }
{
    match bytes.split_first() {
        Some((b'-', digits)) => Some(-(digits_of_bytes(digits)? as i128)),
        _ => Some(digits_of_bytes(bytes)? as i128),
    }
}

// The number that the bytes write, where all of them are digits.
fn digits_of_bytes(bytes: &[u8]) -> Option<u128>
    ensures value { result ≡ digits_number bytes.now }
    ensures small { IfSome result (λ n. n < 10 ^ 20) }
{
    if bytes.is_empty() || bytes.len() > MAX_DIGITS {
        return None;
    }
    let mut value: u128 = 0;
    for byte in bytes {
        value = with_digit(value, *byte as u32)?;
    }
    Some(value)
}

// The number with one more digit after it; `None` where the code isn't a digit's.
fn with_digit(value: u128, code: u32) -> Option<u128>
    requires { value < 10 ^ 20 }
    ensures { result ≡
        (if is_ascii_digit code then Some (value * 10 + digit_value code) else None) }
{
    if code < 48 || code > 57 {
        return None;
    }
    Some(value * 10 + (code - 48) as u128)
}
