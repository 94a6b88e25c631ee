//! Reads side by side, and devices that fail in mid-stream, beside the run by one thread.
use crate::failing_devices::{FREE, Pace, reader_of, writer_of};
use lq_script::{Gate, Host, OpenGate, RunFault, run, run_threads};
use std::alloc::Global;
use std::sync::Wait;
use std::sync::atomic::{AtomicBool, Ordering};
use std::test::Fail;
use std::thread;
use std::thread::Threads;
use std::time::{Clock, Duration};

const TWO_READERS: &str = r#"{"do":"open","query":"name=*","port":4,"backlog":16}
{"do":"open","query":"size>0","port":4,"backlog":16}
{"do":"create","name":"a","size":1}
{"do":"read","slot":1}
{"do":"read","slot":2}
{"do":"read","slot":1}
{"do":"read","slot":2}
"#;

const TWO_READ: &str = concat!(
    r#"{"at":0,"result":[],"slot":1}
{"at":0,"result":[],"slot":2}
{"change":1,"node":2}
{"change":1,"dir":1,"last":true,"name":"a","node":2,"op":"B_ENTRY_CREATED","#,
    r#""seq":1,"what":"B_QUERY_UPDATE"}
{"change":1,"dir":1,"last":true,"name":"a","node":2,"op":"B_ENTRY_CREATED","#,
    r#""seq":1,"what":"B_QUERY_UPDATE"}
{"what":"EMPTY"}
{"what":"EMPTY"}
"#
);

// Reads of both slots, slot by slot: a batch goes on after two reads.
const SLOT_BY_SLOT: &str = r#"{"do":"open","query":"name=*","port":4,"backlog":16}
{"do":"open","query":"size>0","port":4,"backlog":16}
{"do":"create","name":"a","size":1}
{"do":"read","slot":1}
{"do":"read","slot":1}
{"do":"read","slot":2}
{"do":"read","slot":2}
"#;

const SLOT_BY_SLOT_READ: &str = concat!(
    r#"{"at":0,"result":[],"slot":1}
{"at":0,"result":[],"slot":2}
{"change":1,"node":2}
{"change":1,"dir":1,"last":true,"name":"a","node":2,"op":"B_ENTRY_CREATED","#,
    r#""seq":1,"what":"B_QUERY_UPDATE"}
{"what":"EMPTY"}
{"change":1,"dir":1,"last":true,"name":"a","node":2,"op":"B_ENTRY_CREATED","#,
    r#""seq":1,"what":"B_QUERY_UPDATE"}
{"what":"EMPTY"}
"#
);

// Each kind of line, with reads of several slots, one that is free, and an empty line among them.
const MIXED: &str =
    r#"{"do":"open","query":"name=*","port":1,"backlog":8,"moved":true,"values":true}
{"do":"open","query":"size>0","port":1,"backlog":1}
{"do":"create","name":"a","size":1}
{"do":"create","name":"b","size":2}
{"do":"read","slot":2}
{"do":"read","slot":1}

{"do":"read","slot":3}
{"do":"read","slot":2}
{"do":"move","node":2,"name":"c"}
{"do":"set","node":2,"attr":"x","type":"CSTR","value":"z"}
{"do":"unset","node":2,"attr":"x"}
{"do":"write","node":3,"size":0}
{"do":"read","slot":1}
{"do":"read","slot":2}
{"do":"read","slot":2}
{"do":"result","slot":1}
{"do":"fly"}
{"do":"hang_up","slot":1}
{"do":"close","slot":2}
{"do":"finish","slot":2}
{"do":"remove","node":3}
{"do":"read","slot":1}
{"do":"read","slot":1}
{"do":"read","slot":2}
{"do":"finish","slot":1}
{"do":"fetch","query":"name=*"}
{"do":"find","name":"c"}
{"do":"entry","node":2}
{"do":"read","slot":1}"#;

/// Whether one of two has come to the gate, and whether it has seen the other there.
#[derive(Drop)]
struct Place {
    is_here: AtomicBool,
    has_seen: AtomicBool,
}

/// A gate where the first reads of slots 1 and 2 look for each other.
#[derive(Drop)]
struct Meeting<'c, C> {
    clock: &'c C,
    one: Place,
    two: Place,
}

// The tries to see the other, a millisecond apart.
const TRIES: u32 = 5_000;

impl<'c, C: Clock> Gate for Meeting<'c, C> {
    // Each slot sets its own flag, once, and looks for the other's.
    fn pass<R: Wait>(&self, rt: &R, slot: u64) {
        let _ = rt;
        let (own, other) = match slot {
            1 => (&self.one, &self.two),
            2 => (&self.two, &self.one),
            _ => return,
        };
        if own.is_here.swap(true, Ordering::SeqCst) {
            return;
        }
        for _ in 0..TRIES {
            if other.is_here.load(Ordering::SeqCst) {
                own.has_seen.store(true, Ordering::SeqCst);
                return;
            }
            thread::sleep(self.clock, Duration::from_millis(1));
        }
    }
}

fn empty() -> Place {
    Place {
        is_here: AtomicBool::new(false),
        has_seen: AtomicBool::new(false),
    }
}

// Whether a script of two slots writes this, and each of them has seen the other at the gate.
fn meets<R: Clock + Threads + Wait + Sync>(
    rt: &R,
    alloc: Global,
    text: &str,
    output: &str,
) -> Result<bool, RunFault> {
    let meeting = Meeting {
        clock: rt,
        one: empty(),
        two: empty(),
    };
    let mut writer = Host::new(Vec::new(alloc));
    let mut reader = Host::new(text.as_bytes());
    run_threads(rt, alloc, &mut reader, &mut writer, &meeting)?;
    let have_met = meeting.one.has_seen.load(Ordering::SeqCst)
        && meeting.two.has_seen.load(Ordering::SeqCst);
    Ok(have_met && writer.into_device().as_slice() == output.as_bytes())
}

#[test]
fn scenario_two_readers(rt: HostRuntime) -> Result<(), Fail> {
    assert!(rt; meets(&rt, rt.alloc(), TWO_READERS, TWO_READ)?);
    Ok(())
}

#[test]
fn a_batch_goes_on_after_two_reads(rt: HostRuntime) -> Result<(), Fail> {
    assert!(rt; meets(&rt, rt.alloc(), SLOT_BY_SLOT, SLOT_BY_SLOT_READ)?);
    Ok(())
}

// Whether a run by threads answers this, and answers and writes what a run by one thread does.
fn agrees<R: Threads + Wait + Sync>(
    rt: &R,
    alloc: Global,
    pace: Pace,
    answer: Result<(), RunFault>,
) -> bool {
    let mut one = writer_of(alloc, pace);
    let mut many = writer_of(alloc, pace);
    let by_one = run(alloc, &mut reader_of(MIXED, pace), &mut one);
    let by_many = run_threads(rt, alloc, &mut reader_of(MIXED, pace), &mut many, &OpenGate);
    by_one == answer && by_many == answer && one.text == many.text
}

#[test]
fn each_read_and_write_may_fail(rt: HostRuntime) -> Result<(), Fail> {
    let alloc = rt.alloc();
    for step in [7, 100, FREE] {
        let free = Pace {
            step,
            calls: FREE,
            room: FREE,
            stalls: false,
        };
        if !agrees(&rt, alloc, free, Ok(())) {
            return Err(Fail::from(step));
        }
        for calls in 0..=MIXED.len() / step {
            let pace = Pace { calls, ..free };
            if !agrees(&rt, alloc, pace, Err(RunFault::Read)) {
                return Err(Fail::from(("calls", step, calls)));
            }
        }
        for place in 0..360 {
            let pace = Pace {
                room: place / 2 * 7,
                stalls: place % 2 == 1,
                ..free
            };
            if !agrees(&rt, alloc, pace, Err(RunFault::Write)) {
                return Err(Fail::from(("half places", step, place)));
            }
        }
    }
    Ok(())
}
