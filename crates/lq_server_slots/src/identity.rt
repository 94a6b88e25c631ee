//! The names of subscriptions, for contracts alone.
use lq_update::Mark;
use std::marker::Model;

/// The answer of the first close of a subscription.
#[derive(Clone, Copy, Debug, PartialEq, Eq)]
pub enum FirstClose {
    /// There was no close yet.
    Never,
    /// The close ended the subscription, after this many changes.
    At(u64),
    /// The subscription had ended before the close.
    Late,
}

/// What its reader was last told of a subscription, by its opening or a sync.
#[derive(Clone, Copy)]
pub enum LastReport {
    /// It was live after this many changes. This many parcels had been taken from its port then.
    Live { change: u64, seen: u64 },
    /// It had ended with this mark.
    Ended(Mark),
}

/// The name that goes with a slot's seat: which subscription it is, what its reader was last told
/// of it, and what its first close answered. Contracts see an `Identity` of `specs/Names`.
///
/// No value of this type exists.
pub struct Identity {
    none: u8,
}

impl Model for Identity {
    ghost use Rattle.std.specs.Coded.{codes};
    ghost use Rattle.atomic_table.specs.Seated.{itself};
    ghost use Rattle.lq_predicate.specs.contracts.predicate.Predicate as a_predicate;
    ghost use Rattle.lq_server_slots.specs.Names.{Identity, no_identity};

    ghost Value = { Identity };

    ghost coded = { Prim.hlevel (codes, itself, a_predicate.the_row.coded) };

    ghost view = { λ _. no_identity };
}
