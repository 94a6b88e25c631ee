//! Laws of worlds and of their runs: each is the contract of a function that does nothing.
ghost use Rattle.lq_desk_world.specs.Laws.{FirstWorldsAreFair, ListsArePassedOn, ReadsArePassedOn, RefusalsLeaveWorlds, RunsKeepWorldsFair, RunsTellReaders, TurnsFillPorts, TurnsPutUntilStill};

use lq_update::{
    changes_add_steps, folds_give_results, updates_grow, updates_stay, whole_folds_give_results,
};
use lq_volume::changes_are_counted;

/// A world without subscriptions is fair.
pub fn first_worlds_are_fair()
    ensures { FirstWorldsAreFair }
{}

/// A run leaves a fair world fair. For each subscription, no more was taken than put, and no more
/// put than its list has; no more waits than its port has places. While it is live, no more is held
/// than its backlog allows. Its port and backlog are within their limits.
pub fn runs_keep_worlds_fair()
    ensures { RunsKeepWorldsFair }
{
    updates_stay();
    changes_add_steps();
}

/// A refused event leaves the world unchanged.
pub fn refusals_leave_worlds()
    ensures { RefusalsLeaveWorlds }
{}

/// A subscription's whole list is, in order: what was taken, what is in its port, what is held for
/// it, and a mark that wasn't put yet.
pub fn lists_are_passed_on()
    ensures { ListsArePassedOn }
{}

/// A turn puts parcels until nothing moves. After a change no port takes another parcel; after a
/// close, and before a read, the port of its slot takes none.
pub fn turns_fill_ports()
    ensures { TurnsFillPorts }
{
    updates_stay();
    changes_add_steps();
}

/// The puts of a turn are puts until nothing moves: all but the last one move a parcel. After a
/// change they are those of each taken slot, in rising order; after a close, and before a read,
/// those of its slot.
pub fn turns_put_until_still()
    ensures { TurnsPutUntilStill }
{
    updates_stay();
    changes_add_steps();
}

/// The list of each subscription that a run opens is passed on: the parcels among the answers to
/// its reads are those that were taken from it. They, then what is in its port, what is held for
/// it, and a mark that wasn't put yet, are its whole list. Once its slot was freed, all of it was
/// read.
pub fn reads_are_passed_on()
    ensures { ReadsArePassedOn }
{
    updates_stay();
    changes_add_steps();
}

/// The reads of a subscription that a run opens give a prefix of its query's update list from the
/// opening, over the changes that the run accepts: each message once and in order.
///
/// The closing mark comes only after the whole list up to the change that it names. Only `Ended`
/// follows it, and `Ended` comes only after it. Once a change's last message was read, folding
/// gives the query's result after that change; before the mark, after the change that the mark
/// names. An opening is answered with the number of the changes before it and the result then.
pub fn readers_are_told()
    ensures { RunsTellReaders }
{
    updates_stay();
    changes_add_steps();
    updates_grow();
    changes_are_counted();
    folds_give_results();
    whole_folds_give_results();
}
