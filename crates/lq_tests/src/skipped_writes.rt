//! Writes that are passed over by the numbers of a query alone.
use crate::act::creation;
use lq_predicate::{Spans, read};
use lq_update::writes_cross_no_number;
use lq_value::{Kind, Refusal};
use lq_volume::{Change, Volume};
use std::alloc::Global;
use std::test::Fail;

// A formula; size and time of a file, and of a write to it; whether the write is passed over.
const ROWS: [(&str, (u64, i64), (u64, i64), bool); 11] = [
    ("size>10&&size<20", (5, 0), (9, 0), true),
    ("size>10&&size<20", (9, 0), (10, 0), false),
    ("size>10&&size<20", (5, 0), (21, 0), false),
    ("size>10&&size<20", (12, 0), (13, 0), false),
    ("size>10&&size<20", (21, 0), (20, 0), false),
    ("size>10&&size<20", (21, 0), (9000, 0), true),
    ("size!=1*||name=a", (5, 0), (0, 0), true),
    ("last_modified>=7", (5, 6), (0, -8), true),
    ("last_modified>=7", (5, 6), (5, 7), false),
    ("size<3||last_modified>7", (5, 9), (6, 8), true),
    ("size<3||last_modified>7", (5, 9), (3, 8), false),
];

/// Whether a write to a file is passed over.
fn is_passed_over(
    alloc: Global,
    formula: &str,
    before: (u64, i64),
    (size, time): (u64, i64),
) -> Result<bool, Refusal> {
    let mut volume = Volume::new(alloc, 9);
    volume.apply(&creation(alloc, 1, "a", Kind::File, before)?)?;
    let change = Change::Write {
        node: 2,
        size,
        time,
    };
    let spans = Spans::new(&read(alloc, formula)?);
    Ok(writes_cross_no_number(&spans, &volume.plan(&change)?))
}

#[test]
fn writes_beside_the_numbers_are_passed_over(rt: HostRuntime) -> Result<(), Fail> {
    for (formula, before, write, is_passed) in &ROWS {
        if is_passed_over(rt.alloc(), formula, *before, *write)? != *is_passed {
            return Err(Fail::from(*formula));
        }
    }
    Ok(())
}
