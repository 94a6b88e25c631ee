//! Devices that may fail: a source of bytes, and a sink for bytes.
ghost use Rattle.std.specs.Prelude.{◌≡◌, ◌<◌, ◌≤◌, ℕ, List, [], ◌∷◌, length, Bool, true, false, is_ok, Option, None, IfOk, OnOk, OnErr};
ghost use Rattle.std.specs.Io.KnownBytes.{Keeps, WriteAppends, ReadConsumes};
ghost use Rattle.lq_script_lines.specs.Calls.{Adds, Call, Flushed, Wrote};

use std::io::{Read, Write};

/// A device failed. The error carries no cause.
#[derive(Clone, Copy)]
pub struct Failed;

/// A device that gives bytes and may fail. Our own, as `Read` of Rust's std.
pub trait Source {
    /// The bytes that reads will still give, if they are known.
    ghost left: { Self → Option (List ℕ) };

    /// Whether the device has failed.
    ghost failed: { Self → Bool };

    /// Reads bytes into the start of `buf`, and answers their number.
    ///
    /// The number is 0 only at the end of the input, or where `buf` is empty. An error comes only
    /// where the device failed; no byte was read then.
    fn read(&mut self, buf: &mut [u8]) -> Result<usize, Failed>
        ensures bound { IfOk result (λ n. n ≤ length buf.new) }
        ensures bytes { ReadConsumes (left self.old) (left self.new) result buf.new }
        ensures works { OnOk result (failed self.new ≡ failed self.old) }
        ensures fails { OnErr result (failed self.new ≡ true) };
}

/// What a run reads: a device that gives bytes and may be read only at certain moments, as a client
/// that sends a line and waits for its reply. Each read is given the run's writer, so a client may
/// look at the replies first. A `Source` may be read at any moment.
pub trait Client<W> {
    /// The bytes that reads will still give, if they are known.
    ghost left: { Self → Option (List ℕ) };

    /// Whether the device has failed.
    ghost failed: { Self → Bool };

    /// Whether the device may be read when the writer is this one.
    ghost may_read: { Self → W → Type 0 };

    /// Reads bytes into the start of `buf`, and answers their number, as `read` of a `Source`.
    fn receive(&mut self, writer: &W, buf: &mut [u8]) -> Result<usize, Failed>
        requires waits { may_read self.old writer.now }
        ensures bound { IfOk result (λ n. n ≤ length buf.new) }
        ensures bytes { ReadConsumes (left self.old) (left self.new) result buf.new }
        ensures works { OnOk result (failed self.new ≡ failed self.old) }
        ensures fails { OnErr result (failed self.new ≡ true) };
}

impl<W, R: Source> Client<W> for R {
    ghost left = { R.left };

    ghost failed = { R.failed };

    ghost may_read = { λ _ _. Unit {0} };

    fn receive(&mut self, _writer: &W, buf: &mut [u8]) -> Result<usize, Failed> {
        self.read(buf)
    }
}

/// A device that takes bytes and may fail. Our own, as `Write` of Rust's std.
pub trait Sink {
    /// The bytes taken so far, if they are known.
    ghost written: { Self → Option (List ℕ) };

    /// Whether the device has failed.
    ghost failed: { Self → Bool };

    /// Whether the device took none of some bytes that it was given.
    ghost stalled: { Self → Bool };

    /// Whether no write came after the last flush that succeeded.
    ghost flushed: { Self → Bool };

    /// The writes and flushes so far, if they are known.
    ghost calls: { Self → Option (List Call) } = { λ _. None };

    /// Takes bytes from the start of `bytes`, and answers their number.
    ///
    /// An error comes only where the device failed; no byte was taken then.
    fn write(&mut self, bytes: &[u8]) -> Result<usize, Failed>
        ensures bound { IfOk result (λ n. n ≤ length bytes.now) }
        ensures bytes { WriteAppends (written self.old) (written self.new) result bytes.now }
        ensures works { OnOk result (failed self.new ≡ failed self.old) }
        ensures none { IfOk result (λ n. n ≡ 0 → 0 < length bytes.now → stalled self.new ≡ true) }
        ensures some { IfOk result (λ n. 0 < n → stalled self.new ≡ stalled self.old) }
        ensures fails { OnErr result (failed self.new ≡ true) }
        ensures call { Adds (calls self.old) (calls self.new) (Wrote (is_ok result) ∷ []) };

    /// Passes on the bytes taken so far. An error comes only where the device failed.
    fn flush(&mut self) -> Result<(), Failed>
        ensures bytes { Keeps (written self.old) (written self.new) }
        ensures works { OnOk result (failed self.new ≡ failed self.old) }
        ensures stalls { stalled self.new ≡ stalled self.old }
        ensures flushes { OnOk result (flushed self.new ≡ true) }
        ensures fails { OnErr result (failed self.new ≡ true) }
        ensures call { Adds (calls self.old) (calls self.new) (Flushed (is_ok result) ∷ []) };
}

/// A reader or writer of std, used as a `Source` or a `Sink`.
#[derive(Drop)]
pub struct Host<D> {
    device: D,
    failed: bool,
    stalled: bool,
    flushed: bool,
}

impl<D> Host<D> {
    /// The device wrapped, as one that hasn't failed.
    pub fn new(device: D) -> Self
        ensures works { result.failed ≡ false }
        ensures moves { result.stalled ≡ false }
        ensures device { result.device ≡ device }
    {
        Host {
            device,
            failed: false,
            stalled: false,
            flushed: false,
        }
    }

    /// Gives back the device.
    pub fn into_device(self) -> D
        ensures { result ≡ self.device }
    {
        let Host {
            device,
            failed: _,
            stalled: _,
            flushed: _,
        } = self;
        device
    }
}

impl<D: Read> Source for Host<D> {
    ghost left = { λ h. D.remaining h.device };

    ghost failed = { λ h. h.failed };

    fn read(&mut self, buf: &mut [u8]) -> Result<usize, Failed> {
        match self.device.read(buf) {
            Ok(n) => Ok(n),
            Err(_) => {
                self.failed = true;
                Err(Failed)
            }
        }
    }
}

impl<D: Write> Sink for Host<D> {
    ghost written = { λ h. D.contents h.device };

    ghost failed = { λ h. h.failed };

    ghost stalled = { λ h. h.stalled };

    ghost flushed = { λ h. h.flushed };

    fn write(&mut self, bytes: &[u8]) -> Result<usize, Failed> {
        self.flushed = false;
        match self.device.write(bytes) {
            Ok(0) => {
                self.stalled = true;
                Ok(0)
            }
            Ok(n) => Ok(n),
            Err(_) => {
                self.failed = true;
                Err(Failed)
            }
        }
    }

    fn flush(&mut self) -> Result<(), Failed> {
        match self.device.flush() {
            Ok(()) => {
                self.flushed = true;
                Ok(())
            }
            Err(_) => {
                self.failed = true;
                Err(Failed)
            }
        }
    }
}
