//! Calls in which a seat meets the keeper, or another seat.
ghost use Rattle.std.specs.Prelude.{◌≡◌, ◌≢◌, ◌+◌, ◌<◌, ◌≤◌, [], ◌∷◌, ◌++◌, length, slice_index, Some, true, false};
ghost use Rattle.lq_volume.specs.Book.{grown, state_of, Extends};
ghost use Rattle.lq_volume.specs.Change.{after, IsLawful};
ghost use Rattle.lq_board.specs.Author.{AreDisjoint, HasHeard, with_number, with_seat, with_author, with_signs, with_roll, with_heard, author_heard};
ghost use Rattle.lq_board.specs.Book.{IsFullBook};
ghost use Rattle.lq_board.specs.Meeting.{GoesOut, HasAdded, HasMet, WasOut, slots_met};
ghost use Rattle.lq_board.specs.Roll.{IsMerged, without_number};
ghost use Rattle.lq_board.specs.Token.{MayOpen, moment_of, new_seat_of};
ghost use Rattle.lq_board.specs.Slot.{slot_at};

use crate::board::Board;
use crate::tokens::{Keeper, Seat};
use crate::word_steps::{Compare, Dismiss, Enlist, HearOf, Inner, Part, RecordMoment, Together};
use lq_volume::Change;
use std::marker::Brand;

impl<M> Board<M> {
    /// Adds a lawful change to the book, and answers the number of changes that it then has.
    ///
    /// Its author is a new seat that makes no other change; so no seat may lead. The state after
    /// the new book is the state after the change. A lawful change has room: a volume takes at most
    /// 1,000,000,000,000 changes. It takes no memory.
    pub fn add(&self, keeper: &mut Keeper<M>, change: &Change) -> u64
        requires board { keeper.old.board ≡ self.now }
        requires free { keeper.old.register.free ≡ true }
        requires lawful { IsLawful (state_of keeper.old.book) change.now }
        ensures number { result ≡ length keeper.new.book.changes }
        ensures full { IsFullBook keeper.new.book }
        ensures state { state_of keeper.new.book ≡ after (state_of keeper.old.book) change.now }
        ensures keeper { keeper.new ≡ record keeper.old {
          book = grown keeper.old.book (change.now ∷ []);
          register = with_author (with_number keeper.old.register) (keeper.old.register.seats + 1);
        } }
    {
        let mut seat = self.slotless_seat(keeper);
        let number = self.add_by(keeper, &mut seat, change);
        self.join(keeper, seat);
        number
    }

    /// As `add`, for a change whose author is this seat, which then knows the keeper's book.
    ///
    /// The seat has to be one that may make changes: any where no seat leads, else an enlisted one.
    /// The number that it answers is then among the seat's own changes, and the seat has recorded
    /// the moment of the keeper with this change. The rest is as in `meet` or `meet_slot`, and the
    /// seat keeps its name. It takes no memory.
    pub fn add_by(&self, keeper: &mut Keeper<M>, seat: &mut Seat<M>, change: &Change) -> u64
        requires board { (keeper.old.board ≡ self.now) × (seat.old.board ≡ self.now) }
        requires signs { seat.old.author.signs ≡ true }
        requires lawful { IsLawful (state_of keeper.old.book) change.now }
        ensures number { result ≡ length keeper.new.book.changes }
        ensures added { HasAdded change.now result keeper.old keeper.new seat.old seat.new }
    {
        let token = seat.token.take().unwrap();
        let (number, again) = self.added::<Brand>(keeper, token, change);
        seat.token = Some(again);
        number
    }

    /// The number of changes in the keeper's book, which a seat of no slot then knows.
    ///
    /// Where it leads, at most one seat of no slot is out beside those that calls made for it. It
    /// takes no memory.
    pub fn meet(&self, keeper: &mut Keeper<M>, seat: &mut Seat<M>) -> u64
        requires board { (keeper.old.board ≡ self.now) × (seat.old.board ≡ self.now) }
        requires slot { seat.old.slot ≡ 0 }
        ensures number { result ≡ length seat.new.book.changes }
        ensures later { Extends seat.new.book seat.old.book }
        ensures full { IsFullBook seat.new.book }
        ensures seat { seat.new ≡ record seat.old { book = keeper.old.book } }
        ensures few { seat.old.author.leads ≡ true
            → keeper.old.register.out ≤ seat.old.seats + 1 }
        ensures keeper { keeper.new ≡ keeper.old }
    {
        let token = seat.token.take().unwrap();
        let (number, again) = self.met::<Brand>(keeper, token);
        seat.token = Some(again);
        number
    }

    /// The number of changes in the keeper's book, which a slot's seat then knows.
    ///
    /// The keeper then knows how often the seat has asked, and both have the name that the caller
    /// gives for contracts alone. The seat was out under the name that the keeper knew, and had
    /// asked at least as often as the keeper knew. It takes no memory.
    pub fn meet_slot(&self, keeper: &mut Keeper<M>, seat: &mut Seat<M>) -> u64
        ghost name: { M }
        requires board { (keeper.old.board ≡ self.now) × (seat.old.board ≡ self.now) }
        requires slot { 0 < seat.old.slot }
        ensures number { result ≡ length seat.new.book.changes }
        ensures met { HasMet keeper.old keeper.new seat.old seat.new (Some name) }
    {
        let token = seat.token.take().unwrap();
        let (number, again) = self.met::<Brand>(keeper, token);
        seat.token = Some(again);
        number
    }

    /// The keeper hears of all requests that the seat has heard of.
    ///
    /// The rest is as in `meet` or `meet_slot`, and the seat keeps its name. It takes no memory.
    pub fn hear(&self, keeper: &mut Keeper<M>, seat: &mut Seat<M>)
        requires board { (keeper.old.board ≡ self.now) × (seat.old.board ≡ self.now) }
        ensures heard { HasHeard keeper.new.register.heard seat.old.author.heard }
        ensures rises { HasHeard keeper.new.register.heard keeper.old.register.heard }
        ensures later { Extends keeper.old.book seat.old.book }
        ensures full { IsFullBook keeper.old.book }
        ensures seat { seat.new ≡ record seat.old { book = keeper.old.book } }
        ensures keeper { keeper.new ≡ record keeper.old {
          slots = slots_met keeper.old.slots seat.old;
          register = with_heard keeper.old.register keeper.new.register.heard;
        } }
        ensures was_out { 0 < seat.old.slot → WasOut keeper.old.slots seat.old }
    {
        // For the proof: this call says that the seat's slot is one of 64, or 0.
        let _ = seat.slot();
        let token = seat.token.take().unwrap();
        seat.token = Some(self.heard::<Brand>(keeper, token));
    }

    /// The seat meets the keeper, as in `meet` or `meet_slot`, and records this moment of it. The
    /// seat keeps its name. It takes no memory.
    pub fn meet_and_record(&self, keeper: &mut Keeper<M>, seat: &mut Seat<M>)
        requires board { (keeper.old.board ≡ self.now) × (seat.old.board ≡ self.now) }
        ensures later { Extends keeper.old.book seat.old.book }
        ensures full { IsFullBook keeper.old.book }
        ensures seat { seat.new ≡ record seat.old {
          book = keeper.old.book;
          moments = seat.old.moments ++ moment_of keeper.new ∷ [];
        } }
        ensures keeper { keeper.new ≡ record keeper.old {
          slots = slots_met keeper.old.slots seat.old;
        } }
        ensures was_out { 0 < seat.old.slot → WasOut keeper.old.slots seat.old }
    {
        // For the proof: this call says that the seat's slot is one of 64, or 0.
        let _ = seat.slot();
        let token = seat.token.take().unwrap();
        seat.token = Some(self.recorded::<Brand>(keeper, token));
    }

    /// A seat of no slot, as `seat` gives it, made for a leading seat, which counts it.
    ///
    /// The leading seat then knows the keeper's book. It takes no memory.
    pub fn seat_by(&self, keeper: &mut Keeper<M>, by: &mut Seat<M>) -> Seat<M>
        requires board { (keeper.old.board ≡ self.now) × (by.old.board ≡ self.now) }
        requires slot { by.old.slot ≡ 0 }
        requires leads { by.old.author.leads ≡ true }
        ensures seat { result ≡ new_seat_of keeper.old }
        ensures signs { result.author.signs ≡ keeper.old.board.free }
        ensures full { IsFullBook result.book }
        ensures by { by.new ≡ record by.old {
          book = keeper.old.book;
          seats = by.old.seats + 1;
        } }
        ensures later { Extends keeper.old.book by.old.book }
        ensures keeper { keeper.new ≡ record keeper.old {
          register = with_seat keeper.old.register;
        } }
    {
        let token = by.token.take().unwrap();
        by.token = Some(self.met_for_seat(keeper, token));
        Seat {
            token: Some(self.table.shared.split_seat::<Inner>(&mut keeper.token)),
            slot: 0,
            has_heard: false,
        }
    }

    /// The seat of a slot, as `slot_seat` gives it, made for a seat that may open, which counts it.
    ///
    /// First that seat meets the keeper, as in `meet` or `meet_slot`, and keeps its name. It takes
    /// no memory.
    pub fn slot_seat_by(&self, keeper: &mut Keeper<M>, by: &mut Seat<M>, slot: u64) -> Seat<M>
        ghost name: { M }
        requires board { (keeper.old.board ≡ self.now) × (by.old.board ≡ self.now) }
        requires slot { (0 < slot) × (slot < 65) }
        requires free { (slot_at keeper.old.slots slot).out ≡ false }
        requires may { MayOpen by.old }
        ensures out { GoesOut (record keeper.old { slots = slots_met keeper.old.slots by.old })
            keeper.new slot (Some name) result }
        ensures by { by.new ≡ record by.old {
          book = keeper.old.book;
          openings = by.old.openings + 1;
        } }
        ensures later { Extends keeper.old.book by.old.book }
        ensures was_out { 0 < by.old.slot → WasOut keeper.old.slots by.old }
    {
        // For the proof: this call says that the seat's slot is one of 64, or 0.
        let _ = by.slot();
        let token = by.token.take().unwrap();
        let (_, again) = self.met::<Brand>(keeper, token);
        by.token = Some(again);
        Seat {
            token: Some(self.slot_token::<Brand>(keeper, slot)),
            slot,
            has_heard: false,
        }
    }

    /// The seat records this moment of the keeper: its book, what it knows of the slots, and how
    /// many seats went out to a slot.
    ///
    /// For contracts alone: the keeper had each moment that a seat has recorded. One number more is
    /// given out. It takes no memory.
    pub fn record_moment(&self, keeper: &mut Keeper<M>, seat: &mut Seat<M>)
        requires board { (keeper.old.board ≡ self.now) × (seat.old.board ≡ self.now) }
        ensures seat { seat.new ≡ record seat.old {
          moments = seat.old.moments ++ moment_of keeper.old ∷ [];
        } }
        ensures keeper { keeper.new ≡ record keeper.old {
          register = with_number keeper.old.register;
        } }
    {
        let mut first = self.table.shared.split_seat::<Inner>(&mut keeper.token);
        let second = seat.token.take().unwrap();
        self.table.shared.join_seat::<Together>(&mut first, second);
        seat.token = Some(self.table.shared.split_seat::<RecordMoment>(&mut first));
    }

    /// Compares two seats, for contracts alone: they are two authors. The first is of no slot.
    ///
    /// It needs no keeper, neither waits nor takes memory, and leaves both seats as they were.
    pub fn compare(&self, one: &mut Seat<M>, two: &mut Seat<M>)
        requires board { (one.old.board ≡ self.now) × (two.old.board ≡ self.now) }
        requires slot { one.old.slot ≡ 0 }
        ensures numbers { one.new.author.number ≢ two.new.author.number }
        ensures changes { AreDisjoint one.new.author.changes two.new.author.changes }
        ensures one { one.new ≡ one.old }
        ensures two { two.new ≡ two.old }
    {
        let mut first = one.token.take().unwrap();
        let second = two.token.take().unwrap();
        self.table.shared.join_seat::<Together>(&mut first, second);
        self.table.shared.load::<Compare>(&mut first, 0);
        two.token = Some(self.table.shared.split_seat::<Part>(&mut first));
        one.token = Some(first);
    }

    /// A seat of no slot hears how often another has asked, and of all requests that the other has
    /// heard of.
    ///
    /// For contracts alone. It needs no keeper, and neither waits nor takes memory.
    pub fn hear_of(&self, one: &mut Seat<M>, two: &mut Seat<M>)
        requires board { (one.old.board ≡ self.now) × (two.old.board ≡ self.now) }
        requires slot { one.old.slot ≡ 0 }
        ensures one { one.new ≡ record one.old {
          author = author_heard one.old.author one.new.author.heard;
        } }
        ensures two { two.new ≡ two.old }
        ensures more { HasHeard one.new.author.heard one.old.author.heard }
        ensures heard { HasHeard one.new.author.heard two.old.author.heard }
        ensures asks { 0 < two.old.slot
            → two.old.asks ≤ slice_index one.new.author.heard two.old.slot }
    {
        let mut first = one.token.take().unwrap();
        let second = two.token.take().unwrap();
        self.table.shared.join_seat::<Together>(&mut first, second);
        self.table.shared.load::<HearOf>(&mut first, 0);
        two.token = Some(self.table.shared.split_seat::<Part>(&mut first));
        one.token = Some(first);
        one.has_heard = true;
    }

    /// The leading seat enlists another, which made no change and may make changes from then on.
    ///
    /// For contracts alone. It needs no keeper, and neither waits nor takes memory.
    pub fn enlist(&self, head: &mut Seat<M>, other: &mut Seat<M>)
        requires board { (head.old.board ≡ self.now) × (other.old.board ≡ self.now) }
        requires slot { head.old.slot ≡ 0 }
        requires leads { head.old.author.leads ≡ true }
        requires fresh { other.old.author.changes ≡ [] }
        ensures head { head.new ≡ record head.old {
          author = with_roll head.old.author
              (other.old.author.number ∷ head.old.author.enlisted) head.old.author.gathered;
        } }
        ensures other { other.new ≡ record other.old {
          author = with_signs other.old.author true;
        } }
    {
        let mut first = head.token.take().unwrap();
        let second = other.token.take().unwrap();
        self.table.shared.join_seat::<Together>(&mut first, second);
        self.table.shared.load::<Enlist>(&mut first, 0);
        other.token = Some(self.table.shared.split_seat::<Part>(&mut first));
        head.token = Some(first);
    }

    /// The leading seat gathers the changes of an enlisted seat, which may then make no more.
    ///
    /// For contracts alone. It needs no keeper, and neither waits nor takes memory.
    pub fn dismiss(&self, head: &mut Seat<M>, other: &mut Seat<M>)
        requires board { (head.old.board ≡ self.now) × (other.old.board ≡ self.now) }
        requires slot { head.old.slot ≡ 0 }
        requires leads { head.old.author.leads ≡ true }
        requires signs { other.old.author.signs ≡ true }
        ensures merged { IsMerged head.old.author.gathered other.old.author.changes
            head.new.author.gathered }
        ensures head { head.new ≡ record head.old {
          author = with_roll head.old.author
              (without_number other.old.author.number head.old.author.enlisted)
              head.new.author.gathered;
        } }
        ensures other { other.new ≡ record other.old {
          author = with_signs other.old.author false;
        } }
    {
        let mut first = head.token.take().unwrap();
        let second = other.token.take().unwrap();
        self.table.shared.join_seat::<Together>(&mut first, second);
        self.table.shared.load::<Dismiss>(&mut first, 0);
        other.token = Some(self.table.shared.split_seat::<Part>(&mut first));
        head.token = Some(first);
    }
}
