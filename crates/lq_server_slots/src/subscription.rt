//! A subscription under a lock: what a change does to it, and how it ends.
ghost use Rattle.std.specs.Prelude.{◌≡◌, ◌<◌, ◌^◌, ◌⊎◌, ℕ, None, [], ◌∷◌, length, true, false, is_none, is_some, IsSome, IfSome, OnOk};
ghost use Rattle.lq_value.specs.Refusal.{FailsOnlyForMemory};
ghost use Rattle.lq_volume.specs.Book.{Book, grown, state_of};
ghost use Rattle.lq_volume.specs.Change.{IsLawful};
ghost use Rattle.lq_board.specs.Book.{IsFullBook};
ghost use Rattle.lq_server_slots.specs.Standing.{IsConsistentAt, IsFilled, HasPrepared, IsPreparedIf, SameButHeld, FirstCloseFits};
ghost use Rattle.lq_server_slots.specs.Marking.{hung_mark, MarkCovers, after_close, held_committed, held_noticed, held_closed};

use crate::delivery::Delivery;
use crate::ghost_copy::GhostCopy;
use crate::identity::{FirstClose, LastReport};
use lq_desk_sub::Sub;
use lq_port::PortIn;
use lq_update::{Cause, steps_are_few};
use lq_value::Refusal;
use lq_volume::{Change, Planned};

/// A subscription with the putting end of its port, as it is stored under a lock.
pub struct Subscription {
    /// The query, the held messages, and the mark.
    pub sub: Sub,
    /// The putting end of its port.
    pub input: PortIn<Delivery>,
    /// The number of places of its port.
    pub places: u64,
    /// How often its slot's seats had asked at the opening.
    pub asks: u64,
    /// What its reader was last told. Contracts alone read it.
    pub last_report: GhostCopy<LastReport>,
    /// The answer of its first close.
    pub first_close: FirstClose,
}

impl Drop for Subscription {
    fn drop(self) {
        let Subscription {
            sub: _,
            input: _,
            places: _,
            asks: _,
            last_report: _,
            first_close: _,
        } = self;
    }
}

/// Prepares the messages of a lawful change that isn't made yet, where the subscription is live.
///
/// Its held messages and its mark stay. Refused: `NoMemory`.
pub fn prepare_messages(slot: &mut Subscription, planned: &Planned<'_>) -> Result<(), Refusal>
    requires few { slot.old.sub.held.sent < 2 ^ 63 }
    ensures refused { FailsOnlyForMemory result }
    ensures held { slot.new.sub.held ≡ slot.old.sub.held }
    ensures others { SameButHeld slot.old slot.new }
    ensures first_close { slot.new.first_close ≡ slot.old.first_close }
    ensures prepared { OnOk result
        (HasPrepared slot.new.sub planned.now.before planned.now.change) }
{
    if !slot.sub.is_live() {
        return Ok(());
    }
    let _ = slot.sub.ready_planned(planned)?;
    Ok(())
}

/// Holds the messages that were prepared for this change, or ends with an overrun where they are
/// too many.
///
/// A subscription that stood over the book before then stands over the book with the change. One
/// that has ended stays as it is. It takes no memory.
pub fn commit(slot: &mut Subscription, change: &Change)
    requires few { slot.old.sub.held.sent < 2 ^ 63 }
    requires filled { IsFilled slot.old }
    ensures stands { (book : Book) → IsConsistentAt slot.old book
        → HasPrepared slot.old.sub (state_of book) change.now
        → IsLawful (state_of book) change.now
        → IsFullBook (grown book (change.now ∷ []))
        → IsConsistentAt slot.new (grown book (change.now ∷ [])) }
    ensures held { slot.new.sub.held ≡ held_committed slot.old.sub }
    ensures others { SameButHeld slot.old slot.new }
    ensures first_close { slot.new.first_close ≡ slot.old.first_close }
    ensures hung { hung_mark slot.new.sub.held.mark → hung_mark slot.old.sub.held.mark }
    ensures still { IsSome slot.old.sub.held.mark
        → slot.new.sub.held.mark ≡ slot.old.sub.held.mark }
{
    // For the contract alone, which names the change.
    let _ = change;
    // For the proof: a change has at most three messages.
    steps_are_few();
    if !slot.sub.is_live() {
        return;
    }
    slot.sub.commit();
}

/// As `commit`, where the subscription was asked for messages. Another has none, and stays.
pub(crate) fn commit_if(slot: &mut Subscription, change: &Change, asked: bool)
    requires few { slot.old.sub.held.sent < 2 ^ 63 }
    requires filled { IsFilled slot.old }
    ensures stands { (book : Book) → IsConsistentAt slot.old book
        → IsPreparedIf asked slot.old.sub (state_of book) change.now
        → IsLawful (state_of book) change.now
        → IsFullBook (grown book (change.now ∷ []))
        → IsConsistentAt slot.new (grown book (change.now ∷ [])) }
    ensures others { SameButHeld slot.old slot.new }
    ensures first_close { slot.new.first_close ≡ slot.old.first_close }
    ensures hung { hung_mark slot.new.sub.held.mark → hung_mark slot.old.sub.held.mark }
    ensures still { IsSome slot.old.sub.held.mark
        → slot.new.sub.held.mark ≡ slot.old.sub.held.mark }
    ensures made { asked ≡ true → slot.new.sub.held ≡ held_committed slot.old.sub }
    ensures left { asked ≡ false → slot.new.sub.held ≡ slot.old.sub.held }
    ensures mark { (n : ℕ)
        → (asked ≡ true → slot.old.sub.held.mark ≡ None → slot.old.sub.before ≡ n)
        → MarkCovers n slot.old.sub.held.mark slot.new.sub.held.mark }
{
    // For the proof: a change has at most three messages.
    steps_are_few();
    if asked {
        commit(slot, change);
    }
}

/// Ends the subscription as `HungUp` where it is live and its reader asked for that.
///
/// `number` is the number of changes, and `hang_up_asked` says whether the reader asked. A
/// subscription stays as it is where its reader didn't ask or it has ended. It takes no memory.
pub fn notice(slot: &mut Subscription, hang_up_asked: bool, number: u64)
    requires few { slot.old.sub.held.sent < 2 ^ 63 }
    ensures stands { (book : Book) → IsConsistentAt slot.old book → number ≡ length book.changes
        → IsConsistentAt slot.new book }
    ensures held { slot.new.sub.held ≡ held_noticed hang_up_asked number slot.old.sub.held }
    ensures others { SameButHeld slot.old slot.new }
    ensures first_close { slot.new.first_close ≡ slot.old.first_close }
    ensures messages { slot.new.sub.held.messages ≡ slot.old.sub.held.messages }
    ensures hung { hung_mark slot.new.sub.held.mark
        → (hang_up_asked ≡ true) ⊎ hung_mark slot.old.sub.held.mark }
    ensures ended { hang_up_asked ≡ true → IsSome slot.new.sub.held.mark }
    ensures still { IsSome slot.old.sub.held.mark
        → slot.new.sub.held.mark ≡ slot.old.sub.held.mark }
{
    if !hang_up_asked {
        return;
    }
    if !slot.sub.is_live() {
        return;
    }
    slot.sub.finish_with(Cause::HungUp, number);
}

/// Ends a live subscription as `Closed`, and then answers `number`, the number of changes.
///
/// A subscription that has ended keeps its mark. The answer of the first close is kept in
/// `first_close`. It takes no memory.
pub fn close(slot: &mut Subscription, number: u64) -> Option<u64>
    requires fits { FirstCloseFits slot.old.first_close slot.old.sub.held.mark }
    requires few { slot.old.sub.held.sent < 2 ^ 63 }
    ensures stands { (book : Book) → IsConsistentAt slot.old book → number ≡ length book.changes
        → IsConsistentAt slot.new book }
    ensures held { slot.new.sub.held ≡ held_closed number slot.old.sub.held }
    ensures others { SameButHeld slot.old slot.new }
    ensures messages { slot.new.sub.held.messages ≡ slot.old.sub.held.messages }
    ensures hung { hung_mark slot.new.sub.held.mark → hung_mark slot.old.sub.held.mark }
    ensures first_close { slot.new.first_close
        ≡ after_close slot.old.first_close (is_some result) number }
    ensures closes { is_some result ≡ is_none slot.old.sub.held.mark }
    ensures number { IfSome result (λ n. n ≡ number) }
    ensures ended { IsSome slot.new.sub.held.mark }
{
    if !slot.sub.is_live() {
        if slot.first_close == FirstClose::Never {
            slot.first_close = FirstClose::Late;
        }
        return None;
    }
    slot.sub.finish_with(Cause::Closed, number);
    slot.first_close = FirstClose::At(number);
    Some(number)
}
