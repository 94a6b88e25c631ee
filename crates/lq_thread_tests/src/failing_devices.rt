//! Devices that move few bytes a call, fail or stall, for the tests of runs.
ghost use Rattle.std.specs.Prelude.{◌≡◌, ◌<◌, false, true, None};

use lq_script::{Failed, Sink, Source};
use std::alloc::Global;

/// How devices move at most `step` bytes a call: the reader fails after `calls` calls; the writer
/// fails after `room` bytes, or, where it stalls, takes nothing more.
#[derive(Clone, Copy)]
pub struct Pace {
    pub step: usize,
    pub calls: usize,
    pub room: usize,
    pub stalls: bool,
}

/// Gives a text.
#[derive(Drop)]
pub struct Given<'a> {
    left: &'a [u8],
    pace: Pace,
    failed: bool,
}

impl<'a> Source for Given<'a> {
    ghost left = { λ _. None };

    ghost failed = { λ g. g.failed };

    fn read(&mut self, buf: &mut [u8]) -> Result<usize, Failed> {
        if self.pace.calls == 0 {
            self.failed = true;
            return Err(Failed);
        }
        self.pace.calls -= 1;
        let count = self.pace.step.min(self.left.len()).min(buf.len());
        buf[..count].copy_from_slice(&self.left[..count]);
        self.left = &self.left[count..];
        Ok(count)
    }
}

/// Takes bytes.
#[derive(Drop)]
pub struct Taken {
    pub text: Vec<u8>,
    pace: Pace,
    failed: bool,
    stalled: bool,
}

impl Sink for Taken {
    ghost written = { λ _. None };

    ghost failed = { λ t. t.failed };

    ghost stalled = { λ t. t.stalled };

    ghost flushed = { λ _. true };

    fn write(&mut self, bytes: &[u8]) -> Result<usize, Failed> {
        let count = self.pace.step.min(bytes.len()).min(self.pace.room);
        if count == 0 && self.pace.stalls {
            self.stalled = true;
            return Ok(0);
        }
        if count == 0 || self.text.extend_from_slice(&bytes[..count]).is_err() {
            self.failed = true;
            return Err(Failed);
        }
        self.pace.room -= count;
        Ok(count)
    }

    fn flush(&mut self) -> Result<(), Failed> {
        Ok(())
    }
}

/// More bytes than any test moves.
pub const FREE: usize = 10_000;

/// A reader that gives this text.
pub fn reader_of(text: &str, pace: Pace) -> Given<'_>
    ensures { result.failed ≡ false }
{
    Given {
        left: text.as_bytes(),
        pace,
        failed: false,
    }
}

/// A writer that has taken nothing.
pub fn writer_of(alloc: Global, pace: Pace) -> Taken
    ensures failed { result.failed ≡ false }
    ensures stalled { result.stalled ≡ false }
{
    Taken {
        text: Vec::new(alloc),
        pace,
        failed: false,
        stalled: false,
    }
}
