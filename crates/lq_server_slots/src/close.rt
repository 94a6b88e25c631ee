//! Closing a subscription under the lock, and freeing its slot.
ghost use Rattle.std.specs.Prelude.{◌≡◌, ◌<◌, ◌≢◌, ◌-◌, ℕ, IsSome, IsSomeAnd, None};
ghost use Rattle.lq_volume.specs.Book.{Extends};
ghost use Rattle.lq_server_slots.specs.Closing.{IsClosed, IsClosing};
ghost use Rattle.lq_server_slots.specs.Slots.{AreConsistent, KeepsSlots, OthersStay, slot_in};
ghost use Rattle.lq_server_slots.specs.Opening.{IdentityFits, asks_after};

use crate::identity::Identity;
use crate::reading::Reading;
use crate::server_base::Named;
use crate::server_state::ServerState;
use crate::slots::{ServerSlots, notice_slot};
use crate::subscription::close;
use crate::sync::{refresh, refresh_slot};
use lq_board::{Board, Seat};
use lq_desk_sub::SlotIndex;
use std::sync::Wait;

// Closes the subscription of a slot's seat, after a notice, and gives the seat the name that says
// so.
fn close_at(
    board: &Board<Identity>,
    slots: &mut ServerSlots,
    seat: &mut Seat<Identity>,
) -> Option<u64>
    requires board { (slots.old.keeper.board ≡ board.now) × (seat.old.board ≡ board.now) }
    requires seat { 0 < seat.old.slot }
    requires holding { AreConsistent slots.old slots.old.keeper.book }
    ensures closed { IsClosed slots.old.keeper.book seat.old seat.new result }
    ensures keeps { KeepsSlots slots.old slots.new }
    ensures others { OthersStay slots.old slots.new seat.old.slot }
{
    let number = refresh(board, slots, seat);
    let Some(index) = SlotIndex::of(seat.slot()) else {
        unreachable!()
    };
    let Some(taken) = slots.subscriptions.get_mut(index) else {
        unreachable!()
    };
    let keeper = &mut slots.keeper;
    notice_slot(board, keeper, taken, index, number);
    let closed = close(taken, number);
    refresh_slot(board, keeper, seat, taken);
    closed
}

impl<N: Named> ServerState<N> {
    /// Closes a reader's subscription, fills its port, and answers the number of changes then.
    ///
    /// `None` where it had ended before, also where its reader asked for that. The port is filled
    /// as in `sync`. The seat then knows the book, and its name says what the first close answered.
    /// The other slots stay as they are. It takes no memory.
    pub fn close<R: Wait>(
        &mut self,
        rt: &R,
        board: &Board<Identity>,
        seat: &mut Seat<Identity>,
        reading: &mut Reading,
    ) -> Option<u64>
        requires board { (board.now ≡ N.board) × (seat.old.board ≡ N.board) }
        requires seat { (0 < seat.old.slot)
            × IsSomeAnd seat.old.name (λ t. IdentityFits t reading.old.port) }
        ensures same { self.new.slots.keeper.book ≡ self.old.slots.keeper.book }
        ensures openings { self.new.slots.openings ≡ self.old.slots.openings }
        ensures seats { self.new.seats ≡ self.old.seats }
        ensures book { seat.new.book ≡ self.old.slots.keeper.book }
        ensures others { OthersStay self.old.slots self.new.slots seat.old.slot }
        ensures closed { IsClosing seat.old seat.new reading.old reading.new result }
    {
        let closed = close_at(board, &mut self.slots, seat);
        self.sync(rt, board, seat, reading);
        closed
    }

    /// Takes the seat of a slot back and frees the slot, so that an opening may take it.
    ///
    /// `hang_up_asked` says whether its reader asked for the end. The other slots keep their
    /// subscriptions. It takes no memory.
    pub fn finish(&mut self, board: &Board<Identity>, seat: Seat<Identity>, hang_up_asked: bool)
        requires board { (board.now ≡ N.board) × (seat.board ≡ N.board) }
        requires seat { (0 < seat.slot)
            × IsSomeAnd seat.name (λ t. seat.asks ≡ asks_after t.asks hang_up_asked) }
        ensures same { self.new.slots.keeper.book ≡ self.old.slots.keeper.book }
        ensures openings { self.new.slots.openings ≡ self.old.slots.openings }
        ensures seats { self.new.seats ≡ self.old.seats }
        ensures taken { IsSome (slot_in self.old.slots.subscriptions (seat.slot - 1)) }
        ensures freed { slot_in self.new.slots.subscriptions (seat.slot - 1) ≡ None }
        ensures others { (i : ℕ) → i ≢ seat.slot - 1 → slot_in self.new.slots.subscriptions i
            ≡ slot_in self.old.slots.subscriptions i }
        ensures later { Extends self.old.slots.keeper.book seat.book }
    {
        // For the contract alone, which says how often the seat has asked.
        let _ = hang_up_asked;
        let Some(index) = SlotIndex::of(seat.slot()) else {
            unreachable!()
        };
        board.join(&mut self.slots.keeper, seat);
        let _ = self.slots.subscriptions.remove(index);
    }
}
