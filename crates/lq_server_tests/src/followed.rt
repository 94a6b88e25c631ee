//! Runs lq_model's server with a reader beside it, and compares what both leave.
use crate::acts::{Row, are_entries, files};
use crate::reference::LIMIT;
use crate::scenario::base;
use lq_model::{Followed, follow};
use lq_predicate::read;
use lq_update::Cause;
use std::marker::Brand;
use std::test::Fail;

// the result after as many changes
const RESULTS: [&[Row]; 4] = [&[], &[("a1", 2)], &[("a1", 2)], &[("a1", 2), ("a2", 4)]];

// Whether the entries are the result after the mark's change, and the volume is that after all.
fn is_right(followed: &Followed) -> bool {
    let Some(mark) = followed.synced.mark else {
        return false;
    };
    let Some(rows) = RESULTS.get(mark.change as usize) else {
        return false;
    };
    mark.cause == Cause::HungUp
        && are_entries(followed.reader.result(), rows)
        && followed.retired.changes == 3
        && followed.retired.volume.changes() == 3
}

#[test]
fn a_query_is_followed(rt: HostRuntime) -> Result<(), Fail> {
    let alloc = rt.alloc();
    let base = base(alloc, LIMIT)?;
    let predicate = read(alloc, "name='a*'")?;
    let changes = files(alloc, &["a1", "b", "a2"])?;
    let followed = follow::<Brand, _>(&rt, base, &predicate, &changes, 2)?;
    assert!(rt; is_right(&followed));
    Ok(())
}
