//! The world of a desk, for contracts alone.
//!
//! A witness has no bytes, and its calls do nothing at run time: each says which world the new one
//! has. The three calls are proved by hand, since the prover makes no such value by itself.
ghost use Rattle.std.specs.Prelude.{◌≡◌, []};
ghost use Rattle.std.specs.Borrow.{ftrue};
ghost use Rattle.std.specs.Coded.{codes};
ghost use Rattle.lq_predicate.specs.QueryCode.{coded_query};
ghost use Rattle.lq_desk_world.specs.World.{World, first_world};
ghost use Rattle.lq_desk.specs.Reply.{answer_of};
ghost use Rattle.lq_desk.specs.Turn.{stepped, world_after_turn};

use crate::reply::Reply;
use lq_desk_world::Event;
use lq_volume::Volume;
use std::marker::Model;

/// A world that no code holds.
#[derive(Drop)]
pub struct Witness {
    pub ghost world: { World } by { Prim.hlevel (codes, coded_query) },
}

impl Model for Witness {
    ghost also_owns = { λ _. ftrue };
}

impl Witness {
    /// The first world over a volume.
    #[inline(always)]
    pub fn start(_volume: &Volume) -> Witness
        ensures { result.world ≡ first_world (record { start = _volume.now; changes = [] }) }
    {
        Witness {}
    }

    /// The world after an event that got this answer.
    #[inline(always)]
    pub fn step(_before: &Witness, _event: &Event, _reply: &Reply) -> Witness
        ensures { result.world ≡ stepped _before.now.world _event.now (answer_of _reply.now) }
    {
        Witness {}
    }

    /// The world after a turn whose event got this answer.
    #[inline(always)]
    pub fn turn(_before: &Witness, _event: &Event, _reply: &Reply) -> Witness
        ensures { result.world
            ≡ world_after_turn _before.now.world _event.now (answer_of _reply.now) }
    {
        Witness {}
    }
}
