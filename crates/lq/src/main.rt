//! The program `lq`: it hands its arguments and the standard streams to lq_script, takes its stack
//! first, and answers the exit status. Tests: `scenarios`.
#![tactic(auto)]

use lq_script::{Host, Sink, program};
use std::alloc::{AllocError, Global};
use std::process::ExitCode;
use std::{env, io};

/// The status of a run that had no memory, for its words or for its stack.
const EXIT_NO_MEMORY: u8 = 1;

/// The status of a run with a word that is not UTF-8.
const EXIT_USAGE: u8 = 2;

/// The stack that is taken before all else, in bytes: more than any script was seen to take, of
/// which `threads` takes the most.
const STACK: usize = 262_144;

fn main(rt: HostRuntime) -> ExitCode {
    let mut faults = Host::new(rt.stderr());
    let words = match words_of(&rt) {
        Ok(words) => words,
        Err(error) if error.kind() == io::ErrorKind::OutOfMemory => {
            let _ = faults.write(b"lq: no memory\n");
            return ExitCode::from(EXIT_NO_MEMORY);
        }
        Err(_) => {
            let _ = faults.write(b"lq: usage\n");
            return ExitCode::from(EXIT_USAGE);
        }
    };
    let mut reader = Host::new(rt.stdin());
    let mut writer = Host::new(rt.stdout());
    ExitCode::from(program(
        &rt,
        rt.alloc(),
        &words,
        &mut reader,
        &mut writer,
        &mut faults,
    ))
}

// The words after the program's name. `InvalidData` where one is not UTF-8.
fn words_of(rt: &HostRuntime) -> io::Result<Vec<String>> {
    take_stack(rt.alloc())?;
    let mut words = Vec::new(rt.alloc());
    for word in env::args(rt)?.skip(1) {
        words.push(word)?;
    }
    Ok(words)
}

// Takes the stack while a lack of memory can still be reported. The system grows the stack, and
// where it can't, ends the program by a signal. So more than the stack is allocated first, which
// can be refused, and freed again; then the stack grows into what was free. It is twice as much,
// since the C library keeps smaller pieces when they are freed.
fn take_stack(alloc: Global) -> Result<(), AllocError> {
    let room: Vec<u8> = Vec::with_capacity(alloc, 2 * STACK)?;
    let bytes = room.capacity();
    drop(room);
    // It asks for none, so that the stack is of use to something and isn't left out.
    let none: Vec<u8> = Vec::with_capacity(alloc, touched(bytes))?;
    drop(none);
    Ok(())
}

// Fills a part of the stack, and answers 0.
#[inline(never)]
fn touched(number: usize) -> usize {
    let mut room = [0_u8; STACK];
    let place = number % (STACK - 1);
    room[place] = 1;
    room[place + 1] as usize
}
