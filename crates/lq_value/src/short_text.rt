//! A text stored inline with its length, so that it takes no memory of its own.
ghost use Rattle.std.specs.Prelude.{◌≡◌, ◌≤◌, ◌↔◌, IfSome, IsSome, length};

use std::marker::Model;
use std::{fmt, str};

/// A text of UTF-8 of at most `ROOM` bytes, with one byte for its length.
///
/// It is stored inline in `ROOM + 1` bytes. A contract sees it as its bytes.
#[derive(Drop)]
pub struct ShortText<const ROOM: usize> {
    len: u8,
    bytes: [u8; ROOM],
}

impl<const ROOM: usize> Model for ShortText<ROOM> {
    ghost use Rattle.std.specs.Prelude.{ℕ, List, ◌≡◌, ◌≤◌, length, take, IsUtf8};

    ghost Value = { List ℕ };

    ghost view = { λ s. take s.len s.bytes };

    ghost invariant = { λ s. (s.len ≤ ROOM) × (length s.bytes ≡ ROOM)
        × ∥ IsUtf8 (take s.len s.bytes) ∥₁ };
}

impl<const ROOM: usize> ShortText<ROOM> {
    /// The text with these bytes. `None` where it is longer than `ROOM` bytes or than 255 bytes.
    pub fn new(text: &str) -> Option<ShortText<ROOM>>
        ensures value { IfSome result (λ short. short ≡ text.now) }
        ensures fits { IsSome result ↔ ((length text.now ≤ ROOM) × (length text.now ≤ 255)) }
    {
        let source = text.as_bytes();
        if source.len() > ROOM || source.len() > 255 {
            return None;
        }
        let mut bytes = [0; ROOM];
        bytes[..source.len()].copy_from_slice(source);
        Some(ShortText {
            len: source.len() as u8,
            bytes,
        })
    }

    /// The text.
    #[inline]
    pub fn as_str(&self) -> &str
        ensures { result.now ≡ self.now }
    {
        unsafe { str::from_utf8_unchecked(&self.bytes[..self.len as usize]) }
    }

    /// A copy of the text.
    #[inline]
    pub fn copy(&self) -> ShortText<ROOM>
        ensures { result ≡ self.now }
    {
        ShortText {
            len: self.len,
            bytes: self.bytes,
        }
    }
}

impl<const ROOM: usize> fmt::Debug for ShortText<ROOM> {
    fn fmt<W: fmt::Write>(&self, f: &mut fmt::Formatter<W>) -> fmt::Result {
        fmt::Debug::fmt(&self.as_str(), f)
    }
}
