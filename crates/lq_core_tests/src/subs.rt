//! A caller with only a volume notifies a subscription of changes that are checked, not planned.
ghost use Rattle.std.specs.Prelude.{◌≡◌, ◌<◌, ◌≤◌, ◌+◌, IsTrue, OnOk};
ghost use Rattle.lq_desk_sub.specs.Held.{is_live};

use crate::boards::lawful_file;
use lq_desk::Sub;
use lq_predicate::read;
use lq_update::{Cause, Parcel, steps_are_few};
use lq_value::Refusal;
use lq_volume::Volume;
use std::alloc::Global;
use std::test::Fail;

// The `seq` of a message, 100 more for a mark, 0 where there is none.
fn number(parcel: &Option<Parcel>) -> u64 {
    match parcel {
        None => 0,
        Some(Parcel::Update(message)) => message.seq,
        Some(Parcel::Fin(mark)) => mark.seq.saturating_add(100),
    }
}

// Creates a file in the volume and notifies the subscription. `NotOpen` where that ended it.
fn tell(alloc: Global, sub: &mut Sub, volume: &mut Volume, name: &str) -> Result<(), Refusal>
    requires few { sub.old.held.sent < 100 }
    requires live { IsTrue (is_live sub.old.held) }
    ensures few { OnOk result (sub.new.held.sent ≤ sub.old.held.sent + 3) }
    ensures live { OnOk result (IsTrue (is_live sub.new.held)) }
{
    let create = lawful_file(alloc, volume, name)?;
    // What it ensures, that this is a volume, makes the messages few.
    volume.changes();
    steps_are_few();
    sub.ready(volume, &create)?;
    sub.commit();
    volume.apply(&create)?;
    if sub.is_live() {
        Ok(())
    } else {
        Err(Refusal::NotOpen)
    }
}

// The number of its next parcel, and the number again after the parcel was put back.
fn lent(sub: &mut Sub) -> (u64, u64)
    ensures sent { sub.new.held.sent ≡ sub.old.held.sent }
    ensures mark { sub.new.held.mark ≡ sub.old.held.mark }
{
    let first = sub.next();
    let given = number(&first);
    if let Some(parcel) = first {
        sub.put_back(parcel);
    }
    (given, number(&sub.next()))
}

// The parcels of a subscription to every entry, `name=*`, after two files were created: the first
// message twice, since it is put back, the second and none; then it ends, and gives its mark and
// none.
fn given(alloc: Global) -> Result<[u64; 6], Refusal> {
    let mut volume = Volume::new(alloc, 9);
    let mut sub = Sub::new(alloc, &read(alloc, "name=*")?, 0, 2, false)?;
    tell(alloc, &mut sub, &mut volume, "a")?;
    tell(alloc, &mut sub, &mut volume, "b")?;
    let (first, again) = lent(&mut sub);
    let second = number(&sub.next());
    let none = number(&sub.next());
    sub.finish_with(Cause::Closed, 2);
    let mark = number(&sub.next());
    Ok([first, again, second, none, mark, number(&sub.next())])
}

#[test]
fn scenario_subscription_queue(rt: HostRuntime) -> Result<(), Fail> {
    assert!(rt; given(rt.alloc())? == [1, 1, 2, 0, 103, 0]);
    Ok(())
}
