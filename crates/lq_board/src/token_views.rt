//! What a token knows, and the rule of the words.
use atomic_table::TableRule;
use lq_volume::Volume;
use std::marker::{Model, PhantomData};

/// What a token knows, as contracts see it: a `TokenView` of `specs/Known`. `M` is the type of the
/// names that contracts give.
///
/// No value of this type exists.
pub struct TokenView<M> {
    names: PhantomData<M>,
}

impl<M> Model for TokenView<M> {
    ghost use Rattle.lq_board.specs.Known.{TokenView, Spent};

    ghost Value = { TokenView M };

    ghost view = { λ _. Spent };
}

/// The rule of a board's words. The words are made for a volume.
pub struct Law;

impl<M> TableRule<u8, TokenView<M>, Volume> for Law {
    ghost use Rattle.lq_board.specs.Rule.{IsKept};
    ghost use Rattle.lq_board.specs.View.{newborn};

    ghost holds = { λ _. IsKept };

    ghost first = { newborn };
}
