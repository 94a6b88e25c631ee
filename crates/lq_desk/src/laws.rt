//! Laws of desks: each is the contract of a function that does nothing.
ghost use denote.Param.Send.{IsSend};
ghost use Rattle.lq_desk.specs.Laws.{KeptShowsWorlds};
ghost use Rattle.lq_desk.specs.contracts.desk.Desk as desks;

use crate::slot::Slot;
use lq_desk_sub::SlotTable;
use lq_desk_world::runs_keep_worlds_fair;
use lq_update::{changes_add_steps, updates_stay};
use lq_volume::{Volume, changes_are_counted};

/// What a desk keeps answers each event as any world that it shows, and then shows the next world.
pub fn kept_shows_worlds()
    ensures { KeptShowsWorlds }
{
    updates_stay();
    changes_add_steps();
    changes_are_counted();
    runs_keep_worlds_fair();
}

/// A desk may go to another thread.
///
/// A predicate's tree contains itself, so the prover finds this in no caller by itself.
pub fn desks_may_be_sent()
    ensures { IsSend desks.the_row }
{
    // For the proof: what a desk is made of.
    sends::<Volume>();
    sends::<SlotTable<Slot>>();
}

// The bound, as a fact.
fn sends<T: Send>()
    ensures { IsSend T.row }
{}
