//! Puts: held messages and the mark move into the port.
ghost use Rattle.std.specs.Prelude.{◌≡◌, ◌<◌, ◌≤◌, length, MatchBool};
ghost use Rattle.lq_server_slots.specs.Standing.{IsConsistentAt, SameButPuts, left_to_put, CannotPut, SideBySide, IsDrained};
ghost use Rattle.lq_board.specs.Known.{KnownSlot};
ghost use Rattle.lq_server_slots.specs.declared.identity.Identity.{Identity as IdentityOf};
ghost use Rattle.lq_server_slots.specs.Turn.{GainsParcels, PutsAndTakes, known_subscription};

use crate::delivery::Delivery;
use crate::ghost_copy::GhostCopy;
use crate::identity::Identity;
use crate::reading::Reading;
use crate::subscription::Subscription;
use lq_board::Keeper;
use lq_desk_sub::putting_back_undoes;
use std::sync::Wait;

/// Puts the first held message, or the mark after the last one, and answers whether it did.
///
/// `false` only where nothing is left to put, or where this end knows of at least as many waiting
/// parcels as the port has places. The end is then unchanged. It may wait for a step of the other
/// end, and takes no memory.
pub fn put_one<R: Wait>(rt: &R, keeper: &Keeper<Identity>, slot: &mut Subscription) -> bool
    requires { IsConsistentAt slot.old keeper.now.book }
    ensures stands { IsConsistentAt slot.new keeper.now.book }
    ensures alike { SameButPuts slot.old slot.new }
    ensures taken { length slot.old.input.taken ≤ length slot.new.input.taken }
    ensures gained { GainsParcels slot.old.input slot.new.input }
    ensures moved { MatchBool result (left_to_put slot.new < left_to_put slot.old)
        ((slot.new.input ≡ slot.old.input) × CannotPut slot.new) }
{
    // For the proof: a parcel that goes out and is put back leaves the subscription as it was.
    putting_back_undoes();
    let Some(what) = slot.sub.next() else {
        return false;
    };
    let item = Delivery {
        what,
        book: GhostCopy::of(keeper),
    };
    match slot.input.put(rt, item) {
        Ok(()) => true,
        Err(back) => {
            slot.sub.put_back(back.what);
            false
        }
    }
}

/// Puts until nothing is left to put, or until this end knows of at least as many waiting parcels
/// as the port has places.
///
/// It may wait for a step of the other end, and takes no memory.
pub fn fill<R: Wait>(rt: &R, keeper: &Keeper<Identity>, slot: &mut Subscription)
    requires { IsConsistentAt slot.old keeper.now.book }
    ensures stands { IsConsistentAt slot.new keeper.now.book }
    ensures alike { SameButPuts slot.old slot.new }
    ensures taken { length slot.old.input.taken ≤ length slot.new.input.taken }
    ensures stuck { CannotPut slot.new }
    ensures puts { (q : KnownSlot IdentityOf) → PutsAndTakes keeper.now.book
        (known_subscription slot.old q) (known_subscription slot.new q) }
{
    // Asked first, so that nothing is moved where nothing is left.
    while slot.sub.has_next() && put_one(rt, keeper, slot) {}
}

/// Puts until nothing is left to put or the port is full, and answers how many parcels wait in it.
///
/// The call has the port's other end too, so no take comes between: a port found full is still full
/// when the call returns. It may wait for a step of the port, and takes no memory.
pub fn drain<R: Wait>(
    rt: &R,
    keeper: &Keeper<Identity>,
    slot: &mut Subscription,
    reading: &mut Reading,
) -> u64
    requires port { reading.old.port.port ≡ slot.old.input.port }
    requires stands { IsConsistentAt slot.old keeper.now.book }
    ensures between { SideBySide slot.old slot.new reading.old.port reading.new.port
        keeper.now.book result }
    ensures drained { IsDrained slot.new result }
    ensures hand { reading.new.hand ≡ reading.old.hand }
    ensures result { reading.new.result ≡ reading.old.result }
{
    loop {
        let waiting = reading.beside(&mut slot.input);
        // Asked first, so that nothing is moved where nothing is left.
        if waiting >= slot.places || !slot.sub.has_next() {
            return waiting;
        }
        if !put_one(rt, keeper, slot) {
            return waiting;
        }
    }
}
