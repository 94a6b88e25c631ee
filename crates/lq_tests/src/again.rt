//! Whichever growth is refused, the answers stay the same: calls that are repeated where memory ran
//! out, and the places of faults.
use crate::act::Act;
use crate::plain_step::is_same;
use lq_predicate::{Predicate, read};
use lq_update::{Flags, Rebuild, step_planned};
use lq_value::{Entry, Refusal};
use lq_volume::{Change, Volume};
use std::alloc::Global;
use std::test::Fail;

// The call's answer; where memory ran out, the answer of the same call once more.
macro_rules! again {
    ($call:expr) => {
        match $call {
            Err(Refusal::NoMemory) => $call,
            answer => answer,
        }
    };
}

pub(crate) use again;

// A file comes, is renamed, goes under another, leaves the result and comes back, and is removed.
const ACTS: [Act; 9] = [
    Act::File(1, "a1", 0),
    Act::File(1, "a2", 0),
    Act::Folder(1, "ad"),
    Act::Move(2, 4, "a3"),
    Act::Set(3, 1),
    Act::Clobber(3, 4, "a3"),
    Act::Move(3, 4, "b"),
    Act::Move(3, 1, "a4"),
    Act::Remove(4),
];

// The place of a formula's fault, or none | the formula; `scenarios/formulas` has the limits too.
const FORMULAS: &str = r#"0|
8|size>10 &
7|name=="[a"
4|a=1 b
3|a=1)
4|(a=1
2|a=
4|a="b
4|a=b\
0|""=1
5|a=1&&''=2
4|!a!=[z-a]
5|a='é[b'
7|a<[b &&
2|a b\
2|a=[^]
2|a=[]
none|a=[\^]
none|((name=="*[fF]oo*")&&(size>10))
none|!(a=1||b=2&&!c=3)&&(('a b'>=c\ d))"#;

/// The entries of a volume by rising node, and those of its root by name. Refused: `NoMemory`.
fn shown(alloc: Global, volume: &Volume) -> Result<(Vec<Entry>, Vec<Entry>), Refusal> {
    let all = again!(read(alloc, "name='*'"))?;
    let found = again!(volume.fetch(&all))?;
    Ok((found, again!(volume.children(1))?))
}

/// Makes a change, again where memory ran out. Refused as `Volume::apply` is, and `Mismatch` where
/// the volume then shows other entries than before.
fn make(alloc: Global, volume: &mut Volume, change: &Change) -> Result<(), Refusal> {
    let before = shown(alloc, volume)?;
    match volume.apply(change) {
        Err(Refusal::NoMemory) => {
            let after = shown(alloc, volume)?;
            if !are_same(&before.0, &after.0) || !are_same(&before.1, &after.1) {
                return Err(Refusal::Mismatch);
            }
            volume.apply(change)?;
        }
        Err(refusal) => return Err(refusal),
        Ok(_) => {}
    }
    Ok(())
}

/// Folds the messages of an act into a kept result and makes the act; the next message's number.
fn follow(
    alloc: Global,
    predicate: &Predicate,
    volume: &mut Volume,
    rebuild: &mut Rebuild,
    seq: u32,
    act: &Act,
) -> Result<u32, Refusal> {
    let change = again!(act.change(alloc))?;
    let planned = volume.plan(&change)?;
    let flags = Flags::without_values(true);
    let messages = again!(step_planned(alloc, predicate, &planned, u64::from(seq), flags))?;
    let mut next = seq;
    for message in &messages {
        again!(rebuild.apply(message))?;
        next = next.saturating_add(1);
    }
    make(alloc, volume, &change)?;
    Ok(next)
}

/// Whether the entries that are kept are those that are found.
fn are_same(kept: &[Entry], found: &[Entry]) -> bool {
    kept.len() == found.len() && kept.iter().zip(found).all(|(a, b)| is_same(a, b))
}

// The result that was kept by messages is the one that is fetched, after all changes, and there
// were nine of both.
#[test]
fn a_refused_growth_is_made_good(rt: HostRuntime) -> Result<(), Fail> {
    let alloc = rt.alloc();
    let predicate = again!(read(alloc, "name='a*'"))?;
    let mut volume = Volume::new(alloc, 99);
    let mut rebuild = Rebuild::new(alloc, 0, Vec::new(alloc));
    let mut seq = 1;
    for act in &ACTS {
        seq = follow(alloc, &predicate, &mut volume, &mut rebuild, seq, act)?;
    }
    let found = again!(volume.fetch(&predicate))?;
    assert!(rt; are_same(rebuild.result(), &found) && seq == 10 && volume.changes() == 9);
    Ok(())
}

/// The place of the fault for which a formula is refused.
fn refused_at(alloc: Global, formula: &str) -> Option<u64> {
    match read(alloc, formula) {
        Err(Refusal::BadQuery { place }) => Some(place),
        _ => None,
    }
}

// Here no call is given again: a fault is answered with its place whatever the memory.
#[test]
fn a_fault_has_one_place_with_memory_and_without(rt: HostRuntime) -> Result<(), Fail> {
    for row in FORMULAS.lines() {
        let Some((place, formula)) = row.split_once('|') else {
            return Err(Fail::from(row));
        };
        if refused_at(rt.alloc(), formula) != place.parse().ok() {
            return Err(Fail::from(formula));
        }
    }
    Ok(())
}
