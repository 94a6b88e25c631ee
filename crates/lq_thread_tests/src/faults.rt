//! Faults of `run`, and the limits of its input.
ghost use Rattle.std.specs.Prelude.{false, None};

use crate::failing_devices::{FREE, Pace, reader_of, writer_of};
use lq_script::{Failed, RunFault, Source, run};
use std::alloc::Global;
use std::test::Fail;

const FIRST_LINE: &str = r#"{"do":"open","query":"size>100","port":4,"backlog":16}
"#;

const FIRST_REPLY: &str = r#"{"at":0,"result":[],"slot":1}
"#;

const FIRST_MESSAGE: &str = r#"{"do":"open","query":"size>100","port":4,"backlog":16}
{"do":"create","name":"a","size":200}
{"do":"read","slot":1}
"#;

const OUTPUT: &str = concat!(
    r#"{"at":0,"result":[],"slot":1}
{"change":1,"node":2}
{"change":1,"dir":1,"last":true,"name":"a","node":2,"op":"B_ENTRY_CREATED","#,
    r#""seq":1,"what":"B_QUERY_UPDATE"}
"#
);

// Devices that move all at once.
const EASY: Pace = Pace {
    step: FREE,
    calls: FREE,
    room: FREE,
    stalls: false,
};

// Whether a run over devices of these paces answers and writes this.
fn runs(
    alloc: Global,
    (text, reads, writes): (&str, Pace, Pace),
    answer: Result<(), RunFault>,
    output: &str,
) -> bool {
    let mut writer = writer_of(alloc, writes);
    let ran = run(alloc, &mut reader_of(text, reads), &mut writer);
    ran == answer && writer.text.as_slice() == output.as_bytes()
}

#[test]
fn scenario_read_fault(rt: HostRuntime) -> Result<(), Fail> {
    let reads = Pace { calls: 1, ..EASY };
    let given = (FIRST_LINE, reads, EASY);
    assert!(rt; runs(rt.alloc(), given, Err(RunFault::Read), FIRST_REPLY));
    Ok(())
}

// how much a writer takes, the answer, how many bytes of the output are written
const WRITES: [(Pace, Result<(), RunFault>, usize); 3] = [
    (Pace { room: 10, ..EASY }, Err(RunFault::Write), 10),
    (Pace { step: 1, ..EASY }, Ok(()), OUTPUT.len()),
    (
        Pace {
            room: 0,
            stalls: true,
            ..EASY
        },
        Err(RunFault::Write),
        0,
    ),
];

#[test]
fn scenario_write_faults(rt: HostRuntime) -> Result<(), Fail> {
    for (pace, answer, count) in &WRITES {
        let output = OUTPUT.get(..*count).ok_or("more than the output")?;
        if !runs(rt.alloc(), (FIRST_MESSAGE, EASY, *pace), *answer, output) {
            return Err(Fail::from(*count));
        }
    }
    Ok(())
}

// Gives that many bytes, by one text of bytes after another.
#[derive(Drop)]
struct Repeated<'a> {
    text: &'a [u8],
    left: usize,
}

impl<'a> Source for Repeated<'a> {
    ghost left = { λ _. None };

    ghost failed = { λ _. false };

    fn read(&mut self, buf: &mut [u8]) -> Result<usize, Failed> {
        let count = self.left.min(buf.len()).min(self.text.len());
        buf[..count].copy_from_slice(&self.text[..count]);
        self.left -= count;
        Ok(count)
    }
}

// a byte, how often it is given, the answer; nothing is written
const INPUTS: [(u8, usize, Result<(), RunFault>); 3] = [
    (b'\n', 10_000_000, Ok(())),
    (b'\n', 10_000_001, Err(RunFault::Limit)),
    (b'x', 1_073_741_825, Err(RunFault::Limit)),
];

#[test]
fn scenario_input_limits(rt: HostRuntime) -> Result<(), Fail> {
    for (byte, count, answer) in &INPUTS {
        let mut writer = writer_of(rt.alloc(), EASY);
        let mut reader = Repeated {
            text: &[*byte; 4_096],
            left: *count,
        };
        let ran = run(rt.alloc(), &mut reader, &mut writer);
        if ran != *answer || !writer.text.is_empty() {
            return Err(Fail::from(*count));
        }
    }
    Ok(())
}
