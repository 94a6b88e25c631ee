//! Threads that stay over batches, beside the run by one thread.
ghost use Rattle.std.specs.Prelude.{◌≡◌, ◌<◌};

use crate::failing_devices::{FREE, Pace, reader_of, writer_of};
use lq_script::{Host, OpenGate, RunFault, run, run_threads};
use std::alloc::{Alloc, AllocError, Global};
use std::fs::Files;
use std::sync::Wait;
use std::test::Fail;
use std::thread::Threads;
use std::time::Duration;
use std::{fs, thread};

const SLOTS: u64 = 64;

// 64 windows, and then batches that name 2, 3 and up to 64 slots, each of them twice. After each
// batch its last slot ends and is used again.
fn batches(alloc: Global) -> Result<String, AllocError> {
    let mut text = String::new(alloc);
    for _ in 0..SLOTS {
        open(&mut text)?;
    }
    for count in 2..=SLOTS {
        let create = format!(in alloc;
            "{{\"do\":\"create\",\"name\":\"f{count}\",\"size\":{count}}}\n"
        )?;
        text.push_str(&create)?;
        for place in 0..2 * count {
            line(alloc, &mut text, "read", place % count + 1)?;
        }
        line(alloc, &mut text, "hang_up", count)?;
        line(alloc, &mut text, "close", count)?;
        line(alloc, &mut text, "read", count)?;
        line(alloc, &mut text, "finish", count)?;
        open(&mut text)?;
    }
    Ok(text)
}

/// Adds a line that opens a window.
pub fn open(text: &mut String) -> Result<(), AllocError> {
    text.push_str("{\"do\":\"open\",\"query\":\"size>0\",\"port\":2,\"backlog\":4}\n")?;
    Ok(())
}

/// Adds a line about a slot.
pub fn line(alloc: Global, text: &mut String, does: &str, slot: u64) -> Result<(), AllocError> {
    text.push_str(&format!(in alloc; "{{\"do\":\"{does}\",\"slot\":{slot}}}\n")?)?;
    Ok(())
}

// Whether a script gives the same replies by threads as by one thread.
fn is_run_alike<R: Threads + Wait + Sync>(
    rt: &R,
    alloc: Global,
    script: &str,
) -> Result<bool, RunFault> {
    let mut one = Host::new(Vec::new(alloc));
    let mut many = Host::new(Vec::new(alloc));
    run(alloc, &mut Host::new(script.as_bytes()), &mut one)?;
    let mut reader = Host::new(script.as_bytes());
    run_threads(rt, alloc, &mut reader, &mut many, &OpenGate)?;
    Ok(one.into_device().as_slice() == many.into_device().as_slice())
}

#[test]
fn batches_of_two_to_all_slots_are_read_as_by_one_thread(rt: HostRuntime) -> Result<(), Fail> {
    let alloc = rt.alloc();
    assert!(rt; is_run_alike(&rt, alloc, &batches(alloc)?)?);
    Ok(())
}

// How many threads this process has.
fn thread_count<R: Files + Alloc + Clone + Drop>(rt: &R) -> Result<usize, Fail> {
    let mut count: usize = 0;
    for task in fs::read_dir(rt, "/proc/self/task")? {
        let _ = task?;
        count = count.saturating_add(1);
    }
    Ok(count)
}

// How often the threads are counted: one that has left its last function needs a while to be gone.
const COUNTS: u32 = 5_000;

// Devices that move all of it.
const WHOLE: Pace = Pace {
    step: FREE,
    calls: FREE,
    room: 10 * FREE * FREE,
    stalls: false,
};

// paces, and what a run answers: a reader and a writer each fail while the threads of slots wait
const RUNS: [(Pace, Result<(), RunFault>); 3] = [
    (WHOLE, Ok(())),
    (Pace { calls: 2, ..WHOLE }, Err(RunFault::Read)),
    (
        Pace {
            room: 5 * FREE,
            ..WHOLE
        },
        Err(RunFault::Write),
    ),
];

#[test]
fn no_thread_is_left_when_a_run_ends(rt: HostRuntime) -> Result<(), Fail> {
    let alloc = rt.alloc();
    let before = thread_count(&rt)?;
    let text = batches(alloc)?;
    for (row, (pace, answer)) in RUNS.iter().enumerate() {
        let mut reader = reader_of(text.as_str(), *pace);
        let mut writer = writer_of(alloc, *pace);
        if run_threads(&rt, alloc, &mut reader, &mut writer, &OpenGate) != *answer {
            return Err(Fail::from(row));
        }
    }
    for _ in 0..COUNTS {
        if thread_count(&rt)? <= before {
            return Ok(());
        }
        thread::sleep(&rt, Duration::from_millis(1));
    }
    Err(Fail::from("threads are left"))
}
