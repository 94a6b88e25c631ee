//! Of lq_script: scripts by one thread and by more, a formula's text, and the program's words.
use crate::device_calls::{Given, Taken};
use lq_script::{Gate, Host, OpenGate, RunFault, check, program, run, run_threads};
use lq_value::Refusal;
use std::alloc::{AllocError, Global};
use std::sync::Wait;
use std::test::Fail;
use std::thread::Threads;

const SCRIPT: &str = r#"{"do":"open","query":"size>100","port":4,"backlog":16}
{"do":"create","name":"a","size":200}
{"do":"read","slot":1}
"#;

const OUTPUT: &str = "{\"at\":0,\"result\":[],\"slot\":1}\n\
    {\"change\":1,\"node\":2}\n\
    {\"change\":1,\"dir\":1,\"last\":true,\"name\":\"a\",\"node\":2,\
    \"op\":\"B_ENTRY_CREATED\",\"seq\":1,\"what\":\"B_QUERY_UPDATE\"}\n";

#[test]
fn a_script_is_run(rt: HostRuntime) -> Result<(), Fail> {
    let mut reader = Host::new(SCRIPT.as_bytes());
    let mut writer = Host::new(Vec::new(rt.alloc()));
    let ran = run(rt.alloc(), &mut reader, &mut writer);
    assert!(rt; ran == Ok(()));
    assert!(rt; writer.into_device().as_slice() == OUTPUT.as_bytes());
    Ok(())
}

#[test]
fn a_script_is_run_over_devices_of_ones_own(rt: HostRuntime) -> Result<(), Fail> {
    let mut writer = Taken::new(rt.alloc(), 10, 9_999);
    let ran = run(rt.alloc(), &mut Given::new(SCRIPT, 7, false), &mut writer);
    assert!(rt; ran == Ok(()) && writer.text.as_slice() == OUTPUT.as_bytes());
    let mut writer = Taken::new(rt.alloc(), 10, 9_999);
    let ran = run(rt.alloc(), &mut Given::new(SCRIPT, 7, true), &mut writer);
    assert!(rt; ran == Err(RunFault::Read) && writer.text.as_slice() == OUTPUT.as_bytes());
    let mut writer = Taken::new(rt.alloc(), 10, 9);
    let ran = run(rt.alloc(), &mut Given::new(SCRIPT, 7, false), &mut writer);
    assert!(rt; ran == Err(RunFault::Write) && writer.text.as_slice() == OUTPUT[..9].as_bytes());
    Ok(())
}

/// A gate that each read passes at once.
#[derive(Drop)]
struct Open;

impl Gate for Open {
    fn pass<R: Wait>(&self, rt: &R, slot: u64) {
        OpenGate.pass(rt, slot);
    }
}

// What a script writes by threads; nothing where it doesn't end well.
fn threaded<T: Threads + Wait + Sync, G: Gate + Sync>(rt: &T, alloc: Global, gate: &G) -> Vec<u8> {
    let mut writer = Host::new(Vec::new(alloc));
    match run_threads(
        rt,
        alloc,
        &mut Host::new(SCRIPT.as_bytes()),
        &mut writer,
        gate,
    ) {
        Ok(()) => writer.into_device(),
        Err(_) => Vec::new(alloc),
    }
}

#[test]
fn a_script_is_run_by_threads(rt: HostRuntime) -> Result<(), Fail> {
    assert!(rt; threaded(&rt, rt.alloc(), &OpenGate).as_slice() == OUTPUT.as_bytes());
    assert!(rt; threaded(&rt, rt.alloc(), &Open).as_slice() == OUTPUT.as_bytes());
    Ok(())
}

#[test]
fn a_formula_is_checked(rt: HostRuntime) -> Result<(), Fail> {
    assert!(rt; check(rt.alloc(), "a = 1")?.as_str() == "(a==\"1\")");
    let refused = check(rt.alloc(), "a = ").err();
    assert!(rt; refused == Some(Refusal::BadQuery { place: 4 }));
    Ok(())
}

// Whether the program does this with these words: its status, what it writes, and the line on
// standard error.
fn does<T: Threads + Wait + Sync>(
    rt: &T,
    alloc: Global,
    words: &[&str],
    expected: (u8, &str, &str),
) -> Result<bool, AllocError> {
    let mut list = Vec::new(alloc);
    for word in words {
        list.push(String::from_str(alloc, word)?)?;
    }
    let mut reader = Host::new(SCRIPT.as_bytes());
    let mut writer = Host::new(Vec::new(alloc));
    let mut faults = Host::new(Vec::new(alloc));
    let status = program(rt, alloc, &list, &mut reader, &mut writer, &mut faults);
    let (wanted, output, fault) = expected;
    let is_written = writer.into_device().as_slice() == output.as_bytes();
    let is_told = faults.into_device().as_slice() == fault.as_bytes();
    Ok(status == wanted && is_written && is_told)
}

// words; status, output, the line on standard error
const WORDS: [(&[&str], (u8, &str, &str)); 5] = [
    (&["run"], (0, OUTPUT, "")),
    (&["threads"], (0, OUTPUT, "")),
    (&["check", "a=1"], (0, "(a==\"1\")\n", "")),
    (&["check", "a="], (2, "", "lq: BadQuery at 2\n")),
    (&[], (2, "", "lq: usage\n")),
];

#[test]
fn the_program_does_what_its_words_say(rt: HostRuntime) -> Result<(), Fail> {
    for (place, (words, expected)) in WORDS.iter().enumerate() {
        if !does(&rt, rt.alloc(), words, *expected)? {
            return Err(Fail::from(place));
        }
    }
    Ok(())
}
