//! Calls that are made again where memory ran out: whichever growth is refused, the answers are the
//! same.
use crate::one_thread::{EACH, TWO_OPENINGS, WINDOW_ALONE};
use crate::reference::LIMIT;
use crate::scenario::play;
use std::test::Fail;

#[test]
fn a_refused_growth_is_made_good(rt: HostRuntime) -> Result<(), Fail> {
    let done = play(&rt, rt.alloc(), LIMIT, 2, 0, &EACH)?;
    assert!(rt; done.retired.changes == 8);
    Ok(())
}

#[test]
fn a_growth_refused_to_a_window_is_made_good(rt: HostRuntime) -> Result<(), Fail> {
    let done = play(&rt, rt.alloc(), LIMIT, 2, 0, &WINDOW_ALONE)?;
    assert!(rt; done.retired.changes == 6);
    Ok(())
}

#[test]
fn an_opening_without_memory_is_not_counted(rt: HostRuntime) -> Result<(), Fail> {
    let done = play(&rt, rt.alloc(), 2, 2, 0, &TWO_OPENINGS)?;
    assert!(rt; done.retired.changes == 0);
    Ok(())
}
