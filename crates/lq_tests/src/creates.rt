//! Creations that send no message to a query that needs an attribute.
use crate::act::creation;
use lq_predicate::{needs_attribute, read};
use lq_update::{Flags, step_planned};
use lq_value::{Kind, Refusal};
use lq_volume::Volume;
use std::alloc::Global;
use std::test::Fail;

// A formula; whether it needs an attribute; how many messages it has of a new file of 5 bytes.
const ROWS: [(&str, bool, usize); 8] = [
    ("PRIO==2", true, 0),
    ("PRIO!=2", true, 0),
    ("!(PRIO==2)", false, 1),
    ("size>0", false, 1),
    ("size>9", false, 0),
    ("size>0&&PRIO==2", true, 0),
    ("size>0||PRIO==2", false, 1),
    ("PRIO==1||PRIO==2", true, 0),
];

/// Whether a formula needs an attribute, and how many messages it has of the new file.
fn asked(alloc: Global, formula: &str) -> Result<(bool, usize), Refusal> {
    let predicate = read(alloc, formula)?;
    let volume = Volume::new(alloc, 9);
    let change = creation(alloc, 1, "a", Kind::File, (5, 0))?;
    let planned = volume.plan(&change)?;
    let flags = Flags {
        moved: true,
        values: true,
    };
    let messages = step_planned(alloc, &predicate, &planned, 1, flags)?;
    Ok((needs_attribute(&predicate), messages.len()))
}

#[test]
fn a_query_that_needs_an_attribute_is_told_no_creation(rt: HostRuntime) -> Result<(), Fail> {
    for (formula, needs, messages) in &ROWS {
        if asked(rt.alloc(), formula)? != (*needs, *messages) {
            return Err(Fail::from(*formula));
        }
    }
    Ok(())
}
