//! Steps on a board's words that a call chooses, each a split or a join of tokens: the calls of
//! `board` and `meet_calls` are made of them.
ghost use Rattle.std.specs.Prelude.{◌≡◌, ◌⊎◌, ◌+◌, ◌<◌, [], ◌∷◌, length, true, false, Some};
ghost use Rattle.lq_volume.specs.Book.{grown, state_of};
ghost use Rattle.lq_volume.specs.Change.{after, IsLawful};
ghost use Rattle.lq_board.specs.Author.{HasHeard, with_seat, with_out, with_opening, new_author, with_author, with_change, with_heard};
ghost use Rattle.lq_board.specs.Book.{IsFullBook};
ghost use Rattle.lq_board.specs.Slot.{slot_at, gone_out};
ghost use Rattle.lq_board.specs.View.{sitting_of, slotless_sitting, sits_again, with_moment, IsSeat};
ghost use Rattle.lq_board.specs.Meeting.{GoesOutAgain};
ghost use Rattle.lq_board.specs.Rule.{CountsOut};
ghost use Rattle.lq_board.specs.Token.{moment_of, new_seat_of};

use crate::board::Board;
use crate::tokens::{Keeper, Seat, Token};
use crate::word_steps::{
    Add, Again, AgainFor, AgainRecorded, Back, Check, Chosen, Hear, Open, Slotless,
};
use lq_volume::{Change, accepted_changes_keep_trees, changes_are_counted};

impl<M> Board<M> {
    // Splits a new seat of no slot off the keeper, which goes out. No seat leads: the board or the
    // keeper says so.
    pub(crate) fn slotless_seat(&self, keeper: &mut Keeper<M>) -> Seat<M>
        requires board { keeper.old.board ≡ self.now }
        requires uncounted { (self.now.free ≡ true) ⊎ (keeper.old.register.free ≡ true) }
        ensures seat { result ≡ new_seat_of keeper.old }
        ensures signs { result.author.signs ≡ keeper.old.board.free }
        ensures full { IsFullBook result.book }
        ensures keeper { keeper.new ≡ record keeper.old {
          register = with_seat keeper.old.register;
        } }
    {
        Seat {
            token: Some(self.table.shared.split_seat::<Slotless>(&mut keeper.token)),
            slot: 0,
            has_heard: false,
        }
    }

    // Splits a slot's new seat off the keeper. `slot` is for the proof: the call takes W's slot
    // from it.
    pub(crate) fn slot_token<W: Chosen<M>>(&self, keeper: &mut Keeper<M>, slot: u64) -> Token<M>
        requires board { keeper.old.board ≡ self.now }
        requires chosen { W.slot ≡ slot }
        requires slot { (0 < slot) × (slot < 65) }
        requires free { (slot_at keeper.old.slots slot).out ≡ false }
        ensures board { record { table = result.table_id; free = keeper.old.register.free }
            ≡ keeper.old.board }
        ensures free { keeper.old.register.free ≡ keeper.old.board.free }
        ensures view { IsSeat result.me (
            record (slotless_sitting keeper.old.book (new_author keeper.old.register)) {
              slot = slot;
              asks = (slot_at keeper.old.slots slot).asks;
              name = W.name;
            }) }
        ensures full { IsFullBook keeper.old.book }
        ensures keeper { keeper.new ≡ record keeper.old {
          slots = gone_out keeper.old.slots slot W.name;
          register = with_opening keeper.old.register;
        } }
    {
        let _ = slot;
        self.table.shared.split_seat::<Open<W>>(&mut keeper.token)
    }

    // Takes a seat back, which goes out again under the name that the call chooses. The number that
    // the keeper reads in between proves what holds for that seat.
    pub(crate) fn met<W: Chosen<M>>(
        &self,
        keeper: &mut Keeper<M>,
        token: Token<M>,
    ) -> (u64, Token<M>)
        requires board { (keeper.old.board ≡ self.now) × (token.table_id ≡ self.now.table) }
        requires view { IsSeat token.me (sitting_of token.me.0) }
        requires number { 0 < (sitting_of token.me.0).author.number }
        requires slot { (sitting_of token.me.0).slot < 65 }
        ensures number { result.0 ≡ length keeper.old.book.changes }
        ensures again { let w = sitting_of token.me.0 in GoesOutAgain keeper.old keeper.new w
            (sits_again w keeper.old.book W.name W.openings) result.1.table_id result.1.me }
        ensures register { keeper.new.register ≡ keeper.old.register }
        ensures few { CountsOut keeper.old.register (sitting_of token.me.0) }
    {
        self.table
            .shared
            .join_seat::<Back>(&mut keeper.token, token);
        let number = self.table.shared.load::<Check>(&mut keeper.token, 0);
        let again = self.table.shared.split_seat::<Again<W>>(&mut keeper.token);
        (number, again)
    }

    // As `met`, and the seat records the moment of the keeper at which it went out again.
    pub(crate) fn recorded<W: Chosen<M>>(&self, keeper: &mut Keeper<M>, token: Token<M>) -> Token<M>
        requires board { (keeper.old.board ≡ self.now) × (token.table_id ≡ self.now.table) }
        requires view { IsSeat token.me (sitting_of token.me.0) }
        requires number { 0 < (sitting_of token.me.0).author.number }
        requires slot { (sitting_of token.me.0).slot < 65 }
        ensures again { let w = sitting_of token.me.0 in GoesOutAgain keeper.old keeper.new w
            (with_moment (sits_again w keeper.old.book W.name W.openings) (moment_of keeper.new))
            result.table_id result.me }
        ensures register { keeper.new.register ≡ keeper.old.register }
    {
        self.table
            .shared
            .join_seat::<Back>(&mut keeper.token, token);
        self.table.shared.load::<Check>(&mut keeper.token, 0);
        self.table
            .shared
            .split_seat::<AgainRecorded<W>>(&mut keeper.token)
    }

    // As `met`, and the keeper hears of all requests that the seat has heard of.
    pub(crate) fn heard<W: Chosen<M>>(&self, keeper: &mut Keeper<M>, token: Token<M>) -> Token<M>
        requires board { (keeper.old.board ≡ self.now) × (token.table_id ≡ self.now.table) }
        requires view { IsSeat token.me (sitting_of token.me.0) }
        requires number { 0 < (sitting_of token.me.0).author.number }
        requires slot { (sitting_of token.me.0).slot < 65 }
        ensures again { let w = sitting_of token.me.0 in GoesOutAgain keeper.old keeper.new w
            (sits_again w keeper.old.book W.name W.openings) result.table_id result.me }
        ensures register { keeper.new.register
            ≡ with_heard keeper.old.register keeper.new.register.heard }
        ensures rises { HasHeard keeper.new.register.heard keeper.old.register.heard }
        ensures heard { HasHeard keeper.new.register.heard
            (sitting_of token.me.0).author.heard }
    {
        self.table
            .shared
            .join_seat::<Back>(&mut keeper.token, token);
        self.table.shared.load::<Hear>(&mut keeper.token, 0);
        self.table.shared.split_seat::<Again<W>>(&mut keeper.token)
    }

    // As `met` for the leading seat, which keeps its name. One more seat is made for it, and is
    // out, before it is split off.
    pub(crate) fn met_for_seat(&self, keeper: &mut Keeper<M>, token: Token<M>) -> Token<M>
        requires board { (keeper.old.board ≡ self.now) × (token.table_id ≡ self.now.table) }
        requires view { IsSeat token.me (sitting_of token.me.0) }
        requires number { 0 < (sitting_of token.me.0).author.number }
        requires slot { (sitting_of token.me.0).slot < 65 }
        requires leads { (sitting_of token.me.0).author.leads ≡ true }
        ensures again { let w = sitting_of token.me.0 in GoesOutAgain keeper.old keeper.new w
            (record w { book = keeper.old.book; seats = w.seats + 1 }) result.table_id result.me }
        ensures register { keeper.new.register ≡ with_out keeper.old.register }
    {
        self.table
            .shared
            .join_seat::<Back>(&mut keeper.token, token);
        // For the proof: this read tells what holds for the seat.
        self.table.shared.load::<Check>(&mut keeper.token, 0);
        self.table.shared.split_seat::<AgainFor>(&mut keeper.token)
    }

    // As `recorded`, with a change by the seat in between. `change` is for the proof: the call
    // takes W's change from it.
    #[tactic(auto, using(crate::proofs::WordLemmas::state_of_grown))]
    pub(crate) fn added<W: Chosen<M>>(
        &self,
        keeper: &mut Keeper<M>,
        token: Token<M>,
        change: &Change,
    ) -> (u64, Token<M>)
        requires board { (keeper.old.board ≡ self.now) × (token.table_id ≡ self.now.table) }
        requires view { IsSeat token.me (sitting_of token.me.0) }
        requires number { 0 < (sitting_of token.me.0).author.number }
        requires slot { (sitting_of token.me.0).slot < 65 }
        requires chosen { W.change ≡ Some change.now }
        requires signs { (sitting_of token.me.0).author.signs ≡ true }
        requires lawful { IsLawful (state_of keeper.old.book) change.now }
        ensures number { result.0 ≡ length keeper.new.book.changes }
        ensures again { let w = sitting_of token.me.0 in GoesOutAgain keeper.old keeper.new w
            (with_moment
            (record (sits_again w (grown keeper.old.book (change.now ∷ [])) W.name W.openings) {
              author = with_change w.author result.0;
            })
            (moment_of keeper.new))
            result.1.table_id result.1.me }
        ensures state { state_of keeper.new.book ≡ after (state_of keeper.old.book) change.now }
        ensures register { keeper.new.register
            ≡ with_author keeper.old.register (sitting_of token.me.0).author.number }
    {
        let _ = change;
        // For the proof: a volume that takes the change is within its limit after it.
        accepted_changes_keep_trees();
        changes_are_counted();
        self.table
            .shared
            .join_seat::<Back>(&mut keeper.token, token);
        let number = self
            .table
            .shared
            .fetch_add::<Add<W>>(&mut keeper.token, 0, 1)
            + 1;
        let again = self
            .table
            .shared
            .split_seat::<AgainRecorded<W>>(&mut keeper.token);
        (number, again)
    }
}
