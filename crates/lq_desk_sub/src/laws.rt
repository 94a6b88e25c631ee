//! Laws of subscriptions: each is the contract of a function that does nothing.
ghost use Rattle.lq_desk_sub.specs.Laws.{PassedTellNothing, PuttingBackUndoes};

use lq_predicate::truth_goes_by_names;
use lq_update::changes_pass_over;

/// If a parcel goes out and is put back, the subscription is as it was.
pub fn putting_back_undoes()
    ensures { PuttingBackUndoes }
{}

/// A change that alters only values, and none under a query's names, has no message for the query
/// without messages of values.
pub(crate) fn passed_changes_tell_nothing()
    ensures { PassedTellNothing }
{
    changes_pass_over();
    truth_goes_by_names();
}
