//! Laws of the update lists: each is the contract of a function that does nothing.
ghost use Rattle.lq_update.specs.Laws.{BareCreatesTellNothing, ChangesAddSteps, ChangesPassOver, FoldingsFollow, FoldsGiveResults, MessagesFitIn, QuietKeepMatches, RebuildsTakeAll, ResultsRise, SettledIsTested, StepsAreFew, UpdatesArePrefixes, UpdatesBeginEmpty, UpdatesGrow, UpdatesJoin, UpdatesStay, ValuesAreShown, ValuesAreTold, WholeFoldsGiveResults};

use crate::difference::changes_touch_few;
use lq_predicate::bare_rows_fail;
use lq_volume::{
    accepted_changes_keep_trees, changes_are_counted, clobbered_nodes_go, untouched_nodes_stay,
    values_are_found,
};

/// An update list up to a number is a prefix of the one up to the next number: the prefix law.
pub fn updates_grow()
    ensures { UpdatesGrow }
{}

/// The messages of a list of changes and of further changes are those of the first list, then those
/// of the further ones from the state and the number that the first ones lead to.
pub fn updates_join()
    ensures { UpdatesJoin }
{}

/// One more change in a book appends exactly its messages to an update list, numbered onwards.
pub fn changes_add_steps()
    ensures { ChangesAddSteps }
{}

/// A longer book has the same update list up to each number of the shorter one.
pub fn updates_stay()
    ensures { UpdatesStay }
{}

/// An update list up to a number is a prefix of the update list up to a later number:
/// `updates_grow`, over many changes.
pub fn updates_are_prefixes()
    ensures { UpdatesArePrefixes }
{}

/// An update list over no change is empty.
pub fn updates_begin_empty()
    ensures { UpdatesBeginEmpty }
{}

/// An accepted change makes at most three messages for a query.
pub fn steps_are_few()
    ensures { StepsAreFew }
{
    accepted_changes_keep_trees();
    untouched_nodes_stay();
    clobbered_nodes_go();
}

/// The entries of a result rise by node, so a rebuild can start from them.
pub fn results_rise()
    ensures { ResultsRise }
{}

/// Folding a settled prefix of an update list over the opening's result gives the query's result
/// after the change of the prefix's final message: the fold law.
pub fn folds_give_results()
    ensures { FoldsGiveResults }
{
    accepted_changes_keep_trees();
    changes_are_counted();
}

/// Folding a whole update list over the opening's result gives the query's result at its end.
pub fn whole_folds_give_results()
    ensures { WholeFoldsGiveResults }
{
    accepted_changes_keep_trees();
}

/// After each prefix of an update list, the next message fits the fold so far: the presence law.
pub fn messages_fit_in()
    ensures { MessagesFitIn }
{
    accepted_changes_keep_trees();
}

/// Folding many messages into a rebuild gives the entries of their fold, their last change and
/// whether they are settled.
pub fn foldings_follow()
    ensures { FoldingsFollow }
{}

/// A list of messages is settled exactly where the test `is_settled` says so.
pub fn settled_is_tested()
    ensures { SettledIsTested }
{}

/// A rebuild that started with an opening's result and took a prefix of its update list also takes
/// the next message: only `NoMemory` can refuse it.
pub fn rebuilds_take_all()
    ensures { RebuildsTakeAll }
{
    accepted_changes_keep_trees();
    changes_are_counted();
}

/// A write makes no message for a predicate that names neither `size` nor `last_modified`. Setting
/// or removing an attribute makes none for a predicate that doesn't name it: the passing-over law.
///
/// The law is stated for any list of names that the predicate's truth depends on alone, as it does
/// on its `names` (`truth_goes_by_names` of lq_predicate).
pub fn changes_pass_over()
    ensures { ChangesPassOver }
{
    values_are_found();
}

/// A creation makes no message for a predicate that needs an attribute (`needs_attribute` of
/// lq_predicate): a new entry has none until one is set.
pub fn bare_creates_tell_nothing()
    ensures { BareCreatesTellNothing }
{
    bare_rows_fail();
    changes_touch_few();
}

/// A change that has no message for a query, beside those of values, leaves it as it was whether
/// the query matches an entry: one question to the query will do (`matches_once`).
pub fn quiet_changes_keep_matches()
    ensures { QuietKeepMatches }
{
    accepted_changes_keep_trees();
}

/// An update list with values tells each change within the result: where a node is in the result at
/// two numbers and its size or time, or an attribute of it, differs between them, the messages
/// between have a `ValueChanged` of that, or a removed message of the node and later a created one.
pub fn values_are_told()
    ensures { ValuesAreTold }
{
    accepted_changes_keep_trees();
    untouched_nodes_stay();
    clobbered_nodes_go();
    changes_are_counted();
    values_are_found();
}

/// The entry of a message of a value is in the result after its change, at the message's place.
pub fn values_are_shown()
    ensures { ValuesAreShown }
{
    accepted_changes_keep_trees();
    changes_are_counted();
}
