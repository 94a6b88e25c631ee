//! Devices as a caller of lq_script writes them: a `Source` and a `Sink` over a text.
ghost use Rattle.std.specs.Prelude.{◌≡◌, false, true, None};

use lq_script::{Failed, Sink, Source};
use std::alloc::Global;

/// Gives a text, at most `step` bytes a call. With `fails` it fails at the end of the text.
#[derive(Drop)]
pub struct Given<'a> {
    left: &'a [u8],
    step: usize,
    fails: bool,
    failed: bool,
}

impl<'a> Given<'a> {
    pub fn new(text: &'a str, step: usize, fails: bool) -> Given<'a>
        ensures { result.failed ≡ false }
    {
        Given {
            left: text.as_bytes(),
            step,
            fails,
            failed: false,
        }
    }
}

impl<'a> Source for Given<'a> {
    ghost left = { λ _. None };

    ghost failed = { λ g. g.failed };

    fn read(&mut self, buf: &mut [u8]) -> Result<usize, Failed> {
        if self.fails && self.left.is_empty() {
            self.failed = true;
            return Err(Failed);
        }
        let count = self.step.min(self.left.len()).min(buf.len());
        buf[..count].copy_from_slice(&self.left[..count]);
        self.left = &self.left[count..];
        Ok(count)
    }
}

/// Takes at most `step` bytes a call, and fails after `room` bytes in all.
#[derive(Drop)]
pub struct Taken {
    pub text: Vec<u8>,
    step: usize,
    room: usize,
    failed: bool,
}

impl Taken {
    pub fn new(alloc: Global, step: usize, room: usize) -> Taken
        ensures { result.failed ≡ false }
    {
        Taken {
            text: Vec::new(alloc),
            step,
            room,
            failed: false,
        }
    }
}

impl Sink for Taken {
    ghost written = { λ _. None };

    ghost failed = { λ t. t.failed };

    ghost stalled = { λ _. false };

    ghost flushed = { λ _. true };

    fn write(&mut self, bytes: &[u8]) -> Result<usize, Failed> {
        let count = bytes.len().min(self.step).min(self.room);
        if count == 0 || self.text.extend_from_slice(&bytes[..count]).is_err() {
            self.failed = true;
            return Err(Failed);
        }
        self.room -= count;
        Ok(count)
    }

    fn flush(&mut self) -> Result<(), Failed> {
        Ok(())
    }
}
