//! Of lq_script_lines: runs over devices that give and take little at a time, and fail.
ghost use Rattle.std.specs.Prelude.{ℕ, None};
ghost use Rattle.lq_thread_tests.specs.Echo.{echo_rules};

use lq_script_lines::{Failed, Responder, RunFault, Sink, Source, run_lines};
use lq_value::Refusal;
use std::alloc::{AllocError, Global};
use std::cell::Cell;
use std::test::Fail;

/// Answers each line with the line itself.
#[derive(Drop)]
pub struct Echo;

impl Responder for Echo {
    ghost State = { ℕ };

    ghost state = { λ _. 0 };

    ghost rules = { echo_rules };

    fn respond(&mut self, line: &[u8], out: &mut Vec<u8>) -> Result<(), Refusal> {
        out.extend_from_slice(line)?;
        out.push(b'\n')?;
        Ok(())
    }

    fn respond_long(&self, _out: &mut Vec<u8>) -> Result<(), Refusal> {
        Ok(())
    }
}

/// A reader that gives `step` bytes at a time, and at its end may fail.
///
/// Each read puts two digits after `calls`: how many bytes the writer had taken.
#[derive(Drop)]
struct Slow<'a> {
    left: &'a [u8],
    step: usize,
    fails: bool,
    failed: bool,
    calls: &'a Cell<u64>,
}

impl<'a> Source for Slow<'a> {
    ghost left = { λ _. None };

    ghost failed = { λ s. s.failed };

    fn read(&mut self, buf: &mut [u8]) -> Result<usize, Failed> {
        let calls = self.calls.get();
        self.calls
            .set(calls.wrapping_mul(100).wrapping_add(calls % 100));
        if self.fails && self.left.is_empty() {
            self.failed = true;
            return Err(Failed);
        }
        let count = self.step.min(self.left.len()).min(buf.len());
        buf[..count].copy_from_slice(&self.left[..count]);
        self.left = &self.left[count..];
        Ok(count)
    }
}

/// A writer that takes `step` bytes at a time and `room` in all, and then fails, at a flush too.
///
/// Each write adds to the last two digits of `calls`, and a flush puts 99 after them.
#[derive(Drop)]
struct Narrow<'a> {
    text: Vec<u8>,
    step: usize,
    room: usize,
    failed: bool,
    stalled: bool,
    flushed: bool,
    calls: &'a Cell<u64>,
}

impl<'a> Sink for Narrow<'a> {
    ghost written = { λ _. None };

    ghost failed = { λ n. n.failed };

    ghost stalled = { λ n. n.stalled };

    ghost flushed = { λ n. n.flushed };

    fn write(&mut self, bytes: &[u8]) -> Result<usize, Failed> {
        let count = bytes.len().min(self.step).min(self.room);
        if self.room == 0 || self.text.extend_from_slice(&bytes[..count]).is_err() {
            self.failed = true;
            return Err(Failed);
        }
        self.room -= count;
        self.calls.set(self.calls.get().wrapping_add(count as u64));
        self.stalled = self.stalled || count == 0;
        Ok(count)
    }

    fn flush(&mut self) -> Result<(), Failed> {
        if self.room == 0 {
            self.failed = true;
            return Err(Failed);
        }
        self.flushed = true;
        self.calls
            .set(self.calls.get().wrapping_mul(100).wrapping_add(99));
        Ok(())
    }
}

/// A run: its input, bytes a read, whether the reader fails at its end, bytes a write, bytes in
/// all; the answer, what is written, and the digits of its calls: of each read that comes after the
/// first write, of the end, of the flush.
type Run = (
    &'static str,
    usize,
    bool,
    usize,
    usize,
    Result<(), RunFault>,
    &'static str,
    u64,
);

const READ: Result<(), RunFault> = Err(RunFault::Read);

const WRITE: Result<(), RunFault> = Err(RunFault::Write);

const RUNS: [Run; 10] = [
    ("", 9, false, 99, 99, Ok(()), "", 99),
    ("\r\n\n", 9, false, 99, 99, Ok(()), "", 99),
    // the reads end after `ab LF cd`, `LF LF e LF f`, `ghi LF` and the end
    (
        "ab\ncd\n\ne\nfghi\n",
        5,
        false,
        99,
        99,
        Ok(()),
        "ab\ncd\ne\nfghi\n",
        3_08_13_13_99,
    ),
    // the last line is answered after the last read
    ("ab\ncd\r", 2, false, 1, 99, Ok(()), "ab\ncd\n", 3_03_06_99),
    ("ab\ncd", 4, true, 99, 99, READ, "ab\n", 3_03_03_99),
    ("", 4, true, 99, 99, READ, "", 99),
    ("ab\ncd\n", 99, false, 99, 5, WRITE, "ab\ncd", 5),
    ("ab\ncd\n", 1, true, 99, 5, WRITE, "ab\ncd", 3_03_03_05),
    ("ab\n", 99, false, 0, 99, WRITE, "", 0),
    // all is taken, and the flush fails
    ("ab\n", 9, false, 99, 3, WRITE, "ab\n", 3_03),
];

/// Whether a run answers and writes what its row says, by these calls.
fn is_met(alloc: Global, run: &Run) -> Result<bool, AllocError> {
    let (input, step, fails, takes, room, wanted, output, digits) = *run;
    let calls = Cell::new(0);
    let mut reader = Slow {
        left: input.as_bytes(),
        step,
        fails,
        failed: false,
        calls: &calls,
    };
    let mut writer = Narrow {
        text: Vec::with_capacity(alloc, 64)?,
        step: takes,
        room,
        failed: false,
        stalled: false,
        flushed: false,
        calls: &calls,
    };
    let answer = run_lines(alloc, &mut reader, &mut writer, &mut Echo);
    let is_written = writer.text.as_slice() == output.as_bytes();
    Ok(answer == wanted && is_written && calls.get() == digits)
}

#[test]
fn replies_are_written_before_the_next_read_and_flushed_once(rt: HostRuntime) -> Result<(), Fail> {
    for run in &RUNS {
        if !is_met(rt.alloc(), run)? {
            return Err(Fail::from(run.0));
        }
    }
    Ok(())
}
