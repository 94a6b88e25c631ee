//! Of lq_script_lines: a client that sends a line only after the replies to all lines before it.
ghost use Rattle.std.specs.Prelude.{false, true, Some};
ghost use Rattle.lq_thread_tests.specs.Echo.{HasReplies};

use crate::lines::Echo;
use lq_script_lines::{Client, Failed, Sink, run_lines};
use std::test::Fail;

/// A writer that takes all bytes, and never fails while there is memory.
#[derive(Drop)]
struct Replies {
    text: Vec<u8>,
    failed: bool,
}

impl Sink for Replies {
    ghost written = { λ r. Some r.text.items };

    ghost failed = { λ r. r.failed };

    ghost stalled = { λ _. false };

    ghost flushed = { λ _. true };

    fn write(&mut self, bytes: &[u8]) -> Result<usize, Failed> {
        if self.text.extend_from_slice(bytes).is_err() {
            self.failed = true;
            return Err(Failed);
        }
        Ok(bytes.len())
    }

    fn flush(&mut self) -> Result<(), Failed> {
        Ok(())
    }
}

const SCRIPT: &str = "ab\ncd\ne\n";

/// A client that sends `SCRIPT` line by line, and wants all replies before each line.
#[derive(Drop)]
struct Patient {
    left: &'static [u8],
    sent: usize,
    failed: bool,
}

impl Client<Replies> for Patient {
    ghost left = { λ p. Some p.left.now };

    ghost failed = { λ p. p.failed };

    // The writer has the replies to what was sent.
    ghost may_read = { λ p w. HasReplies p.left.now w.text.items };

    fn receive(&mut self, writer: &Replies, buf: &mut [u8]) -> Result<usize, Failed> {
        if writer.text.len() != self.sent {
            self.failed = true;
            return Err(Failed);
        }
        let line = match self.left.iter().position(|byte| *byte == b'\n') {
            Some(last) => last + 1,
            None => self.left.len(),
        };
        let count = line.min(buf.len());
        buf[..count].copy_from_slice(&self.left[..count]);
        self.left = &self.left[count..];
        self.sent = self.sent.saturating_add(count);
        Ok(count)
    }
}

#[test]
fn a_client_waits_for_its_replies(rt: HostRuntime) -> Result<(), Fail> {
    let alloc = rt.alloc();
    let mut client = Patient {
        left: SCRIPT.as_bytes(),
        sent: 0,
        failed: false,
    };
    let mut replies = Replies {
        text: Vec::new(alloc),
        failed: false,
    };
    let answer = run_lines(alloc, &mut client, &mut replies, &mut Echo);
    if answer != Ok(()) || replies.text.as_slice() != SCRIPT.as_bytes() {
        return Err(Fail::from("a reply was late"));
    }
    Ok(())
}
