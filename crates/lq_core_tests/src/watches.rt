//! A watch leaves out the subscriptions that a change can't concern: no clause says how many.
use crate::slot_tables::slot;
use lq_desk_sub::{Sub, Watch};
use lq_predicate::read;
use lq_update::Flags;
use lq_value::{AttrName, Kind, Name, Refusal, Value};
use lq_volume::Change;
use std::alloc::Global;
use std::test::Fail;

// A subscription to a query.
fn subscribed(alloc: Global, query: &str) -> Result<Sub, Refusal> {
    Sub::new(alloc, &read(alloc, query)?, 0, 2, false)
}

// A change that sets an attribute.
fn setting(alloc: Global, attr: &str) -> Result<Change, Refusal> {
    Ok(Change::SetAttr {
        node: 2,
        attr: AttrName::read(alloc, attr)?,
        value: Value::Int32(1),
    })
}

// A change of each kind, by its number: a creation, a removal, a move, a write, and of the
// attributes `MAIL:status` and `MAIL:when`.
fn change(alloc: Global, number: usize) -> Result<Change, Refusal> {
    match number {
        0 => Ok(Change::Create {
            dir: 1,
            name: Name::read(alloc, "a")?,
            kind: Kind::File,
            size: 0,
            time: 0,
        }),
        1 => Ok(Change::Remove { node: 2 }),
        2 => Ok(Change::Move {
            node: 2,
            dir: 1,
            name: Name::read(alloc, "a")?,
            clobber: false,
        }),
        3 => Ok(Change::Write {
            node: 2,
            size: 1,
            time: 0,
        }),
        4 => setting(alloc, "MAIL:status"),
        5 => setting(alloc, "MAIL:when"),
        _ => Ok(Change::RemoveAttr {
            node: 2,
            attr: AttrName::read(alloc, "MAIL:when")?,
        }),
    }
}

// To whom each of these changes is shown, as a word with a bit for each slot.
fn shown(alloc: Global, watch: &Watch) -> Result<[u64; 7], Refusal> {
    let mut words = [0; 7];
    for number in 0..7 {
        words[number] = watch.slots_for(&change(alloc, number)?).word();
    }
    Ok(words)
}

// To whom they are shown if slot 4 looks at a status and slot 6 at sizes, and then if both look at
// sizes.
fn asked(alloc: Global) -> Result<([u64; 7], [u64; 7]), Refusal> {
    let status = subscribed(alloc, "MAIL:status==\"New\"")?;
    let sizes = subscribed(alloc, "size>7")?;
    let mut watch = Watch::new();
    watch.set(slot(4)?, &status);
    watch.set(slot(6)?, &sizes);
    let first = shown(alloc, &watch)?;
    watch.set(slot(4)?, &sizes);
    Ok((first, shown(alloc, &watch)?))
}

// To whom they are shown if slot 4 looks at a status and has messages of values, and slot 6 looks
// at sizes.
fn asked_values(alloc: Global) -> Result<[u64; 7], Refusal> {
    let flags = Flags {
        moved: false,
        values: true,
    };
    let predicate = read(alloc, "MAIL:status==\"New\"")?;
    let status = Sub::new_by(alloc, &predicate, 0, 2, flags)?;
    let mut watch = Watch::new();
    watch.set(slot(4)?, &status);
    watch.set(slot(6)?, &subscribed(alloc, "size>7")?);
    shown(alloc, &watch)
}

#[test]
fn a_watch_shows_values_where_they_are_asked_for(rt: HostRuntime) -> Result<(), Fail> {
    assert!(rt; asked_values(rt.alloc())? == [32, 40, 40, 40, 8, 8, 8]);
    Ok(())
}

#[test]
fn a_watch_leaves_out_subscriptions(rt: HostRuntime) -> Result<(), Fail> {
    let (first, then) = asked(rt.alloc())?;
    assert!(rt; first == [32, 40, 40, 32, 8, 0, 0]);
    assert!(rt; then == [40, 40, 40, 40, 0, 0, 0]);
    Ok(())
}
