//! Tests what the program does with its arguments, and what it writes on each stream.
use lq_script::{Host, program};
use std::alloc::{AllocError, Global};
use std::sync::Wait;
use std::test::Fail;
use std::thread::Threads;

// words; the status, what is written, the line on standard error
const CHECKS: [(&[&str], (u8, &str, &str)); 4] = [
    (
        &["check", "((name==\"*[fF]oo*\")&&(size>10))"],
        (0, "((name==\"*[fF]oo*\")&&(size>\"10\"))\n", ""),
    ),
    (&["check", "(size>"], (2, "", "lq: BadQuery at 6\n")),
    (&[], (2, "", "lq: usage\n")),
    (&["fly"], (2, "", "lq: usage\n")),
];

// Whether the program does this with these words.
fn does<T: Threads + Wait + Sync>(
    rt: &T,
    alloc: Global,
    words: &[&str],
    expected: (u8, &str, &str),
) -> Result<bool, AllocError> {
    let mut list = Vec::new(alloc);
    for word in words {
        list.push(String::from_str(alloc, word)?)?;
    }
    let mut reader = Host::new("".as_bytes());
    let mut writer = Host::new(Vec::new(alloc));
    let mut faults = Host::new(Vec::new(alloc));
    let status = program(rt, alloc, &list, &mut reader, &mut writer, &mut faults);
    let (wanted, output, fault) = expected;
    let is_written = writer.into_device().as_slice() == output.as_bytes();
    let is_told = faults.into_device().as_slice() == fault.as_bytes();
    Ok(status == wanted && is_written && is_told)
}

#[test]
fn scenario_check_command(rt: HostRuntime) -> Result<(), Fail> {
    for (row, (words, expected)) in CHECKS.iter().enumerate() {
        if !does(&rt, rt.alloc(), words, *expected)? {
            return Err(Fail::from(row));
        }
    }
    Ok(())
}
