//! Laws of trees and changes: each is the contract of a function that does nothing.
ghost use Rattle.lq_volume.specs.Laws.{ChangesCount, ChangesKeepTrees, UntouchedStay, ClobberedGo};
ghost use Rattle.lq_volume.specs.Restore.{VolumesAreRestored};
ghost use Rattle.lq_volume.specs.Walk.{ReachesAll};

use lq_volume_entries::{names_stay_apart, records_are_kept};

/// In a tree, the test whether a folder is within a node is true just where a walk up leads there.
pub fn walks_are_bounded()
    ensures { ReachesAll }
{
    records_are_kept();
}

/// The state after an accepted change is again a tree within its limit.
pub fn accepted_changes_keep_trees()
    ensures { ChangesKeepTrees }
{
    names_stay_apart();
    records_are_kept();
}

/// A node that an accepted change doesn't touch keeps its record.
pub fn untouched_nodes_stay()
    ensures { UntouchedStay }
{
    records_are_kept();
}

/// The other node that a move removes is gone afterwards.
pub fn clobbered_nodes_go()
    ensures { ClobberedGo }
{
    records_are_kept();
}

/// Each change counts one: the number after a list of changes is greater by its length.
pub fn changes_are_counted()
    ensures { ChangesCount }
{}

/// A state is a volume just where no call of `Restoring` refuses its numbers and records.
pub fn volumes_are_restored()
    ensures { VolumesAreRestored }
{
    records_are_kept();
}
