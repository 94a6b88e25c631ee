//! A change under the lock: first everything that takes memory, then the change, then its messages.
ghost use Rattle.std.specs.Prelude.{◌≡◌, ◌≢◌, ◌+◌, ◌≤◌, ℕ, [], ◌∷◌, ◌++◌, length, true, None, IfOk, IfErr, OnOk, OnErr};
ghost use Rattle.lq_value.specs.declared.refusal.Refusal.TheVariants.{NoMemory};
ghost use Rattle.lq_board.specs.Slot.{slot_at};
ghost use Rattle.lq_board.specs.Token.{moment_of};
ghost use Rattle.lq_volume.specs.Book.{grown, state_of};
ghost use Rattle.lq_volume.specs.Change.{refused};
ghost use Rattle.lq_board.specs.Book.{IsFullBook};
ghost use Rattle.lq_desk_world.specs.World.{after_change};
ghost use Rattle.lq_server_slots.specs.Turn.{AllNoticed, AllPut, after_notice};
ghost use Rattle.lq_server_slots.specs.Applied.{HasLooked, IsApplied};
ghost use Rattle.lq_server_slots.specs.Changing.{IsChangeMade, IsPrepared};
ghost use Rattle.lq_server_slots.specs.Slots.{AreConsistent, IsConsistentWith, AllPrepared, IsNoticed, IsServed, KnowsHeard, MarksCover, SlotsAre, KeepsCounts, KnowsAsks};

use crate::change_passes::{commit_all, prepare_all};
use crate::identity::Identity;
use crate::server_base::Named;
use crate::server_state::ServerState;
use crate::slots::{ServerSlots, notice_all, serve_all};
use lq_board::{Board, Seat};
use lq_value::Refusal;
use lq_volume::{Applied, Change, Resolved, Volume};
use std::sync::Wait;

impl<N: Named> ServerState<N> {
    /// Makes a change and notifies the subscriptions. The seat, its author, then knows the book.
    /// For contracts alone it has recorded the moment of the keeper too.
    ///
    /// First the subscriptions whose readers hung up end, as the keeper then knows. It knows of
    /// each request that the seat had heard of. So each mark of this call covers the changes
    /// before its own. Messages and marks are put until none is left or the port is full. Refused
    /// as the volume refuses the change, or `NoMemory`; the book is then as it was, but the ports
    /// are filled.
    ///
    /// A refused change walks over the taken slots twice, or three times where memory ran out. An
    /// accepted one walks over them twice, and prepares messages only in those slots that the watch
    /// shows it to.
    pub fn apply<R: Wait>(
        &mut self,
        rt: &R,
        board: &Board<Identity>,
        seat: &mut Seat<Identity>,
        change: &Change,
    ) -> Result<Applied, Refusal>
        requires board { (board.now ≡ N.board) × (seat.old.board ≡ N.board) }
        requires signs { seat.old.author.signs ≡ true }
        ensures applied { IsApplied change.now self.new.slots.keeper.book seat.old seat.new result }
        ensures grown { OnOk result
            (self.new.slots.keeper.book ≡ grown self.old.slots.keeper.book (change.now ∷ [])) }
        ensures same { OnErr result (self.new.slots.keeper.book ≡ self.old.slots.keeper.book) }
        ensures openings { self.new.slots.openings ≡ self.old.slots.openings }
        ensures seats { self.new.seats ≡ self.old.seats }
        ensures served { SlotsAre IsServed self.new.slots.subscriptions
            self.new.slots.keeper.slots }
        ensures heard { KnowsHeard seat.old.author.heard self.new.slots.subscriptions
            self.new.slots.keeper.slots }
        ensures looked { HasLooked seat.old seat.new }
        ensures marks { MarksCover (length self.old.slots.keeper.book.changes)
            self.old.slots.subscriptions self.new.slots.subscriptions }
        ensures number { IfOk result (λ a.
            a.change ≡ length self.old.slots.keeper.book.changes + 1) }

        // At each slot: a notice, the change if it is made, and puts until nothing moves.
        ensures turned { OnOk result (AllPut self.new.slots.keeper.book
            (λ u. after_change self.old.slots.keeper.book change.now
            (after_notice self.old.slots.keeper.book u))
            self.old.slots.subscriptions self.new.slots.subscriptions
            self.new.slots.keeper.slots) }
        ensures refused { IfErr result (λ e. e ≢ NoMemory → AllPut self.old.slots.keeper.book
            (after_notice self.old.slots.keeper.book)
            self.old.slots.subscriptions self.new.slots.subscriptions
            self.new.slots.keeper.slots) }
    {
        // The keeper of a slot's seat first learns how often it has asked, and then of the requests
        // that the seat has heard of. Another seat meets the keeper with its change, or once it is
        // refused.
        self.meet_slot(board, seat);
        self.hear(board, seat);
        match add(board, &mut self.slots, &mut self.volume, seat, change) {
            Ok(applied) => {
                commit_all(rt, &mut self.slots, change);
                Ok(applied)
            }
            Err(refusal) => {
                serve_all(rt, board, &mut self.slots, self.volume.changes());
                self.record(board, seat);
                Err(refusal)
            }
        }
    }
}

// Makes a change: first everything that takes memory, then the point of the change. No message is
// held yet.
fn add(
    board: &Board<Identity>,
    slots: &mut ServerSlots,
    volume: &mut Volume,
    seat: &mut Seat<Identity>,
    change: &Change,
) -> Result<Applied, Refusal>
    requires board { (slots.old.keeper.board ≡ board.now) × (seat.old.board ≡ board.now) }
    requires signs { seat.old.author.signs ≡ true }
    requires known { KnowsAsks slots.old.keeper.slots seat.old }
    requires stands { IsConsistentWith slots.old volume.old }
    ensures made { IsChangeMade change.now result volume.old volume.new
        slots.old.keeper.book slots.new.keeper.book seat.old seat.new }
    ensures lawful { OnOk result (refused volume.old change.now ≡ None) }
    ensures prepared { OnOk result (AllPrepared slots.new.watch slots.new.subscriptions
        (state_of slots.old.keeper.book) change.now) }
    ensures noticed { OnOk result
        (SlotsAre IsNoticed slots.new.subscriptions slots.new.keeper.slots) }
    ensures recorded { OnOk result (seat.new.moments
        ≡ seat.old.moments ++ moment_of slots.new.keeper ∷ []) }
    ensures marks { MarksCover (length slots.old.keeper.book.changes)
        slots.old.subscriptions slots.new.subscriptions }
    ensures heard { OnOk result (KnowsHeard slots.old.keeper.register.heard
        slots.new.subscriptions slots.new.keeper.slots) }
    ensures same { slots.new.keeper.register.heard ≡ slots.old.keeper.register.heard }
    ensures shown { OnOk result (AllNoticed slots.old.keeper.book slots.old.subscriptions
        slots.new.subscriptions slots.new.keeper.slots) }
    ensures tried { IfErr result (λ e. e ≢ NoMemory
        → slots.new.subscriptions ≡ slots.old.subscriptions) }
    ensures counts { KeepsCounts slots.old slots.new }
    ensures rises { (k : ℕ) → (slot_at slots.old.keeper.slots k).asks
        ≤ (slot_at slots.new.keeper.slots k).asks }
    ensures volume { volume.new ≡ state_of slots.new.keeper.book }
    ensures full { IsFullBook slots.new.keeper.book }
    ensures holding { AreConsistent slots.new slots.old.keeper.book }
{
    let resolved = prepare(board, slots, volume, change)?;
    let applied = volume.make(change, &resolved)?;
    // For the proof: this call says that the seat's slot is one of 64, or 0.
    let _ = seat.slot();
    board.add_by(&mut slots.keeper, seat, change);
    Ok(applied)
}

// Checks a change, and prepares its messages in the taken slots that it is shown to. Where it is
// shown to none it makes no plan, which is a large value. The answer is what `make` needs.
fn prepare(
    board: &Board<Identity>,
    slots: &mut ServerSlots,
    volume: &Volume,
    change: &Change,
) -> Result<Resolved, Refusal>
    requires board { slots.old.keeper.board ≡ board.now }
    requires stands { IsConsistentWith slots.old volume.now }
    ensures { IsPrepared volume.now change.now result slots.old slots.new }
{
    let taken = slots.subscriptions.taken();
    let asked = slots.watch.slots_for(change).intersection(taken);
    if asked.is_empty() {
        let resolved = volume.resolve(change)?;
        notice_all(board, slots, volume.changes());
        return Ok(resolved);
    }
    prepare_asked(board, slots, volume, change)
}

// As `prepare`, by a plan.
#[inline(never)]
fn prepare_asked(
    board: &Board<Identity>,
    slots: &mut ServerSlots,
    volume: &Volume,
    change: &Change,
) -> Result<Resolved, Refusal>
    requires board { slots.old.keeper.board ≡ board.now }
    requires stands { IsConsistentWith slots.old volume.now }
    ensures { IsPrepared volume.now change.now result slots.old slots.new }
{
    let planned = volume.plan(change)?;
    prepare_all(board, slots, &planned)
}
