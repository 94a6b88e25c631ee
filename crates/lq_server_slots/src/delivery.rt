//! The items of a port.
use crate::ghost_copy::GhostCopy;
use crate::identity::Identity;
use lq_board::Keeper;
use lq_port::Follows;
use lq_predicate::Predicate;
use lq_update::{Flags, Parcel};

/// An item of a port: a message or the mark, and the keeper's book then, for contracts alone.
#[derive(Drop)]
pub struct Delivery {
    /// The message or the mark.
    pub what: Parcel,
    /// The keeper when it was put.
    pub book: GhostCopy<Keeper<Identity>>,
}

/// The floor of a port: what its rule depends on, fixed at the opening.
#[derive(Drop)]
pub struct Opening {
    /// The query.
    pub query: GhostCopy<Predicate>,
    /// Which messages there are beside created and removed ones.
    pub flags: Flags,
    /// The number of changes at the opening.
    pub opened: u64,
    /// The keeper at the opening.
    pub book: GhostCopy<Keeper<Identity>>,
}

impl Follows for Delivery {
    type Floor = Opening;

    ghost use Rattle.lq_server_slots.specs.Rule.{MayFollow, no_opening};

    ghost follows = { MayFollow };

    ghost no_floor = { no_opening };
}
