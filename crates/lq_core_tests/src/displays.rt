//! Codes, names and display texts of refusals; those of faults; the debug text of a volume.
use lq_script_lines::RunFault;
use lq_value::Refusal;
use lq_volume::Volume;
use std::alloc::{AllocError, Global};
use std::fmt::Display;
use std::test::Fail;

/// A refusal, its code and its display text.
pub const REFUSALS: [(Refusal, u64, &str); 27] = [
    (Refusal::BadName, 1, "BadName"),
    (Refusal::NoNode, 2, "NoNode"),
    (Refusal::NotFolder, 3, "NotFolder"),
    (Refusal::NoEntry, 4, "NoEntry"),
    (Refusal::Exists, 5, "Exists"),
    (Refusal::WouldLoop, 6, "WouldLoop"),
    (Refusal::NotEmpty, 7, "NotEmpty"),
    (Refusal::KindClash, 8, "KindClash"),
    (Refusal::IsFolder, 9, "IsFolder"),
    (Refusal::NoAttr, 10, "NoAttr"),
    (Refusal::Reserved, 11, "Reserved"),
    (Refusal::TooLong, 12, "TooLong"),
    (Refusal::Exhausted, 13, "Exhausted"),
    (Refusal::NoMemory, 15, "NoMemory"),
    (Refusal::BadQuery { place: 12 }, 20, "BadQuery at 12"),
    (Refusal::BadPort, 21, "BadPort"),
    (Refusal::BadBacklog, 22, "BadBacklog"),
    (Refusal::NoSlot, 23, "NoSlot"),
    (Refusal::NoSeat, 24, "NoSeat"),
    (Refusal::NotOpen, 25, "NotOpen"),
    (Refusal::StillOpen, 26, "StillOpen"),
    (Refusal::LongLine, 30, "LongLine"),
    (Refusal::NotUtf8, 31, "NotUtf8"),
    (Refusal::NotJson, 32, "NotJson"),
    (Refusal::BadLine, 33, "BadLine"),
    (Refusal::OutOfStep, 34, "OutOfStep"),
    (Refusal::Mismatch, 35, "Mismatch"),
];

// a fault and its display text
const FAULTS: [(RunFault, &str); 5] = [
    (RunFault::Read, "read fault"),
    (RunFault::Write, "write fault"),
    (RunFault::Limit, "input too long"),
    (RunFault::Memory, "no memory"),
    (RunFault::Thread, "no thread"),
];

// Whether this text is shown.
fn is_shown<D: Display>(alloc: Global, shown: &D, text: &str) -> Result<bool, AllocError> {
    Ok(format!(in alloc; "{shown}")?.as_str() == text)
}

#[test]
fn refusals_have_codes_and_names(_rt: HostRuntime) -> Result<(), Fail> {
    for (refusal, code, text) in &REFUSALS {
        let name = text.strip_suffix(" at 12").unwrap_or(text);
        if refusal.code() != *code || refusal.name() != name {
            return Err(Fail::from(*text));
        }
    }
    Ok(())
}

#[test]
fn a_refusal_shows_its_name_and_a_fault_its_text(rt: HostRuntime) -> Result<(), Fail> {
    for (refusal, _, text) in &REFUSALS {
        if !is_shown(rt.alloc(), refusal, text)? {
            return Err(Fail::from(*text));
        }
    }
    for (fault, text) in &FAULTS {
        if !is_shown(rt.alloc(), fault, text)? {
            return Err(Fail::from(*text));
        }
    }
    Ok(())
}

#[test]
fn a_volume_shows_its_numbers_and_no_entry(rt: HostRuntime) -> Result<(), Fail> {
    let volume = Volume::new(rt.alloc(), 9);
    let shown = format!(in rt.alloc(); "{volume:?}")?;
    assert!(rt; shown.as_str() == "Volume { limit: 9, changes: 0, .. }");
    Ok(())
}
