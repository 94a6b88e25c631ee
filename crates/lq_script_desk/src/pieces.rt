//! Appends bytes, numbers and truth values to a buffer: the pieces that all texts of replies have.
ghost use Rattle.std.specs.Prelude.{◌≡◌, ◌++◌, OnErr, OnOk};
ghost use Rattle.serde_json.specs.Data.{number, unsigned, boolean};
ghost use Rattle.serde_json.specs.Find.{of_integer};
ghost use Rattle.serde_json.specs.Written.{compact_text};
ghost use Rattle.lq_script_desk.specs.Front.{AppendsTo};

use std::alloc::AllocError;

/// Appends `bytes` to `out`.
///
/// An error says that memory ran out: `out` is then unchanged.
#[inline(always)]
pub fn put_bytes(out: &mut Vec<u8>, bytes: &[u8]) -> Result<(), AllocError>
    ensures ok { OnOk result (out.new.items ≡ out.old.items ++ bytes.now) }
    ensures err { OnErr result (out.new.items ≡ out.old.items) }
    ensures front { AppendsTo out.new.items out.old.items }
{
    out.extend_from_slice(bytes)?;
    Ok(())
}

/// Appends `before` to `out`, then the decimal digits of `count`.
///
/// An error says that memory ran out: `out` then keeps what it had, maybe followed by `before`.
#[inline(always)]
pub fn put_unsigned(out: &mut Vec<u8>, before: &[u8], count: u64) -> Result<(), AllocError>
    ensures ok { OnOk result (out.new.items
        ≡ out.old.items ++ (before.now ++ compact_text (number (unsigned count)))) }
    ensures front { AppendsTo out.new.items out.old.items }
{
    let mut digits = itoa::Buffer::new();
    put_bytes(out, before)?;
    put_bytes(out, digits.format(count).as_bytes())
}

/// Appends `before` to `out`, then the decimal digits of `integer`, with `-` before them if it is
/// below 0.
///
/// An error says that memory ran out: `out` then keeps what it had, maybe followed by `before`.
#[inline(always)]
pub fn put_signed(out: &mut Vec<u8>, before: &[u8], integer: i64) -> Result<(), AllocError>
    ensures ok { OnOk result (out.new.items
        ≡ out.old.items ++ (before.now ++ compact_text (number (of_integer integer)))) }
    ensures front { AppendsTo out.new.items out.old.items }
{
    let mut digits = itoa::Buffer::new();
    put_bytes(out, before)?;
    put_bytes(out, digits.format(integer).as_bytes())
}

/// Appends `before` to `out`, then `true` or `false`.
///
/// An error says that memory ran out: `out` then keeps what it had, maybe followed by `before`.
#[inline(always)]
pub fn put_truth(out: &mut Vec<u8>, before: &[u8], truth: bool) -> Result<(), AllocError>
    ensures ok { OnOk result (out.new.items
        ≡ out.old.items ++ (before.now ++ compact_text (boolean truth))) }
    ensures front { AppendsTo out.new.items out.old.items }
{
    put_bytes(out, before)?;
    put_bytes(out, if truth { b"true" } else { b"false" })
}
