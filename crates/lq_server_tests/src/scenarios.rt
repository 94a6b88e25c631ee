//! Plays the scenarios of the tables, and the worked examples among them, at new servers.
ghost use Rattle.std.specs.Prelude.{◌≤◌};

use crate::fills::{COUNTED, ENDS, REFUSED, ROOM};
use crate::more_threads::{DRAWN, HANG_UP_BESIDE_CHANGES, WINDOW, WRITERS_CREATE, WRITERS_WRITE};
use crate::one_thread::{
    CALLS_BY_READER, CHANGE_BY_READER, EACH, READERS_DROPPED, SEATS, SLOT_AFTER_CLOSE,
    SLOT_AFTER_HANG_UP, SLOTS, TWO_OPENINGS,
};
use crate::reference::LIMIT;
use crate::scenario::{Scenario, play};
use std::alloc::Global;
use std::sync::Wait;
use std::test::Fail;
use std::thread::Threads;

/// Whether a scenario is right that is played this many times, each at a server of its own, whose
/// volume takes `limit` changes.
fn play_rounds<R: Threads + Wait + Sync>(
    rt: &R,
    alloc: Global,
    limit: u64,
    rounds: usize,
    scenario: &Scenario,
) -> Result<(), Fail>
    requires { (1 ≤ limit) × (limit ≤ 1000000000000) }
{
    for round in 0..rounds {
        if !play(rt, alloc, limit, 1, round, scenario)?.is_right(alloc)? {
            return Err(Fail::from(scenario.name));
        }
    }
    Ok(())
}

/// Plays scenarios, each once.
fn play_each<R: Threads + Wait + Sync>(
    rt: &R,
    alloc: Global,
    scenarios: &[&Scenario],
) -> Result<(), Fail> {
    for scenario in scenarios {
        play_rounds(rt, alloc, LIMIT, 1, scenario)?;
    }
    Ok(())
}

#[test]
fn each_call_answers(rt: HostRuntime) -> Result<(), Fail> {
    play_each(&rt, rt.alloc(), &[&EACH])
}

#[test]
fn slots_and_openings_run_out(rt: HostRuntime) -> Result<(), Fail> {
    play_each(&rt, rt.alloc(), &[&SLOTS])
}

#[test]
fn each_call_notices_and_fills(rt: HostRuntime) -> Result<(), Fail> {
    play_each(&rt, rt.alloc(), &[&REFUSED, &ROOM, &ENDS, &COUNTED])
}

#[test]
fn drawn_schedules_are_answered(rt: HostRuntime) -> Result<(), Fail> {
    play_rounds(&rt, rt.alloc(), LIMIT, 3, &DRAWN)
}

#[test]
fn scenario_two_writers(rt: HostRuntime) -> Result<(), Fail> {
    play_each(&rt, rt.alloc(), &[&WRITERS_CREATE, &WRITERS_WRITE])
}

#[test]
fn scenario_threaded_window(rt: HostRuntime) -> Result<(), Fail> {
    play_each(&rt, rt.alloc(), &[&WINDOW])
}

#[test]
fn scenario_slot_reuse_on_server(rt: HostRuntime) -> Result<(), Fail> {
    play_each(&rt, rt.alloc(), &[&SLOT_AFTER_HANG_UP, &SLOT_AFTER_CLOSE])
}

#[test]
fn scenario_hang_up_races_changes(rt: HostRuntime) -> Result<(), Fail> {
    play_rounds(&rt, rt.alloc(), LIMIT, 20, &HANG_UP_BESIDE_CHANGES)
}

#[test]
fn a_readers_seat_serves_each_call(rt: HostRuntime) -> Result<(), Fail> {
    play_each(&rt, rt.alloc(), &[&CALLS_BY_READER])
}

#[test]
fn a_readers_seat_changes_what_it_reads(rt: HostRuntime) -> Result<(), Fail> {
    play_each(&rt, rt.alloc(), &[&CHANGE_BY_READER])
}

#[test]
fn scenario_seats_and_drops(rt: HostRuntime) -> Result<(), Fail> {
    play_each(&rt, rt.alloc(), &[&SEATS, &READERS_DROPPED])?;
    play_rounds(&rt, rt.alloc(), 2, 1, &TWO_OPENINGS)
}
