//! The steps on the words, and what each one proves. No value of these types exists.
use crate::token_views::TokenView;
use atomic_table::{Join, Play, Split};
use lq_volume::Change;
use std::marker::{Brand, PhantomData};

/// What a call chooses for its step: a slot, a name and a change, and what becomes of the count of
/// openings made for a seat.
pub trait Chosen<M> {
    ghost use Rattle.std.specs.Prelude.{ℕ, Option};
    ghost use Rattle.lq_volume.specs.declared.change.Change.{Change};

    ghost slot: { ℕ };

    ghost name: { Option M };

    ghost change: { Option Change };

    ghost openings: { ℕ → ℕ };
}

impl<M> Chosen<M> for Brand {
    ghost use Rattle.std.specs.Prelude.{None};

    ghost slot = { 0 };

    ghost name = { None };

    ghost change = { None };

    ghost openings = { λ n. n };
}

// Adds a change by the latest seat that came back.
pub(crate) struct Add<W> {
    said: PhantomData<W>,
}

impl<M, W: Chosen<M>> Play<u8, TokenView<M>> for Add<W> {
    ghost use Rattle.lq_board.specs.Step.{AddsChange};

    ghost then = { AddsChange W.change };
}

// A seat reads the number.
pub(crate) struct See;

impl<M> Play<u8, TokenView<M>> for See {
    ghost use Rattle.lq_board.specs.Step.{Sees};

    ghost then = { Sees };
}

// The keeper reads the number and checks the seat that came back.
pub(crate) struct Check;

impl<M> Play<u8, TokenView<M>> for Check {
    ghost use Rattle.lq_board.specs.Step.{Checks};

    ghost then = { Checks };
}

// As `Check`, for a seat that comes home.
pub(crate) struct Home;

impl<M> Play<u8, TokenView<M>> for Home {
    ghost use Rattle.lq_board.specs.Step.{ComesHome};

    ghost then = { ComesHome };
}

// The keeper reads a slot's word.
pub(crate) struct Count;

impl<M> Play<u8, TokenView<M>> for Count {
    ghost use Rattle.lq_board.specs.Step.{Counts};

    ghost then = { Counts };
}

// The keeper hears of all requests.
pub(crate) struct Hear;

impl<M> Play<u8, TokenView<M>> for Hear {
    ghost use Rattle.lq_board.specs.Step.{Hears};

    ghost then = { Hears };
}

// A slot's seat asks.
pub(crate) struct Ask;

impl<M> Play<u8, TokenView<M>> for Ask {
    ghost use Rattle.lq_board.specs.Step.{AsksAgain};

    ghost then = { AsksAgain };
}

// Makes a new seat of no slot, which goes out.
pub(crate) struct Slotless;

impl<M> Split<TokenView<M>> for Slotless {
    ghost use Rattle.lq_board.specs.View.{with_new_seat, copy_of};

    ghost left = { with_new_seat };

    ghost right = { copy_of };
}

// Makes a new seat of no slot, which stays within a call.
pub(crate) struct Inner;

impl<M> Split<TokenView<M>> for Inner {
    ghost use Rattle.lq_board.specs.View.{with_new_number, copy_of};

    ghost left = { with_new_number };

    ghost right = { copy_of };
}

// Makes the leading seat of a board.
pub(crate) struct Lead;

impl<M> Split<TokenView<M>> for Lead {
    ghost use Rattle.lq_board.specs.View.{led, lead_of};

    ghost left = { led };

    ghost right = { lead_of };
}

// Makes a new seat of a slot.
pub(crate) struct Open<W> {
    said: PhantomData<W>,
}

impl<M, W: Chosen<M>> Split<TokenView<M>> for Open<W> {
    ghost use Rattle.lq_board.specs.View.{with_slot_seat, seated};

    ghost left = { with_slot_seat W.slot W.name };

    ghost right = { seated W.slot W.name };
}

// Gives the latest seat that came back out again.
pub(crate) struct Again<W> {
    said: PhantomData<W>,
}

impl<M, W: Chosen<M>> Split<TokenView<M>> for Again<W> {
    ghost use Rattle.lq_board.specs.View.{parted, again_of};

    ghost left = { parted W.name };

    ghost right = { again_of W.name W.openings };
}

// As `Again`, and the seat records this moment of the keeper.
pub(crate) struct AgainRecorded<W> {
    said: PhantomData<W>,
}

impl<M, W: Chosen<M>> Split<TokenView<M>> for AgainRecorded<W> {
    ghost use Rattle.lq_board.specs.View.{parted, again_recorded};

    ghost left = { parted W.name };

    ghost right = { again_recorded W.name W.openings };
}

// As `Again`, for a seat for which one seat of no slot more is made, which is out.
pub(crate) struct AgainFor;

impl<M> Split<TokenView<M>> for AgainFor {
    ghost use Rattle.lq_board.specs.View.{parted_with_seat, again_with_seat};

    ghost left = { parted_with_seat };

    ghost right = { again_with_seat };
}

// Joins a seat to the keeper.
pub(crate) struct Back;

impl<M> Join<TokenView<M>> for Back {
    ghost use Rattle.lq_board.specs.Known.{Spent};
    ghost use Rattle.lq_board.specs.View.{taken};

    ghost both = { taken };

    ghost spent = { Spent };
}

// Joins two seats, the first of no slot.
pub(crate) struct Together;

impl<M> Join<TokenView<M>> for Together {
    ghost use Rattle.lq_board.specs.Known.{Spent};
    ghost use Rattle.lq_board.specs.View.{paired};

    ghost both = { paired };

    ghost spent = { Spent };
}

// Compares the two.
pub(crate) struct Compare;

impl<M> Play<u8, TokenView<M>> for Compare {
    ghost use Rattle.lq_board.specs.Step.{Compares};

    ghost then = { Compares };
}

// The first of the two hears of the second.
pub(crate) struct HearOf;

impl<M> Play<u8, TokenView<M>> for HearOf {
    ghost use Rattle.lq_board.specs.Step.{HearsOf};

    ghost then = { HearsOf };
}

// The first of the two enlists the second.
pub(crate) struct Enlist;

impl<M> Play<u8, TokenView<M>> for Enlist {
    ghost use Rattle.lq_board.specs.Step.{Enlists};

    ghost then = { Enlists };
}

// The first of the two dismisses the second.
pub(crate) struct Dismiss;

impl<M> Play<u8, TokenView<M>> for Dismiss {
    ghost use Rattle.lq_board.specs.Step.{Dismisses};

    ghost then = { Dismisses };
}

// Parts the two.
pub(crate) struct Part;

impl<M> Split<TokenView<M>> for Part {
    ghost use Rattle.lq_board.specs.View.{first_seat, second_seat};

    ghost left = { first_seat };

    ghost right = { second_seat };
}

// Parts the two. The second has then recorded the first's moments too.
pub(crate) struct RecordMoment;

impl<M> Split<TokenView<M>> for RecordMoment {
    ghost use Rattle.lq_board.specs.View.{first_seat, second_recorded};

    ghost left = { first_seat };

    ghost right = { second_recorded };
}
