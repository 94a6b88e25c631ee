//! Laws of books, subscriptions and the slots under the lock, each the contract of a function that
//! does nothing.
ghost use Rattle.lq_server_slots.specs.Shown.{ActsShowWorlds, SlotsShowWorlds};
ghost use Rattle.lq_server_slots.specs.TurnRun.{MadeAreRuns, RefusedAreRuns};
ghost use Rattle.lq_server_slots.specs.Turn.{PutsAreRuns};
ghost use Rattle.lq_server_slots.specs.Laws.{BooksExtendOn, BooksExtendThemselves, NewSubscriptionsStand, StatesStay, UpdatesAreUpdateLists};

/// The slots under the lock show a world of the core, whatever the counts of parcels taken are,
/// which only the readers know.
///
/// Each taken slot is a subscription of that world: its updates due are the messages that were put
/// and then those held, and what is still to come is those held and then a mark that isn't put yet.
pub fn slots_show_worlds()
    ensures { SlotsShowWorlds }
{}

/// A commit, a notice and a close under the lock do to a subscription's mark what the core's
/// change, notice and close do to the end of the one that it stands for.
pub fn acts_show_worlds()
    ensures { ActsShowWorlds }
{}

/// Where puts under the lock and takes of a reader led from one subscription of a world to another,
/// acts of the core lead there, each of which moves a parcel; one put more moves none.
pub fn puts_are_runs()
    ensures { PutsAreRuns }
{}

/// What a change that is made does under the lock is a run of the world that the lock knows of.
pub fn made_are_runs()
    ensures { MadeAreRuns }
{}

/// What a refused change does under the lock is a run of the world that the lock knows of.
pub fn refused_are_runs()
    ensures { RefusedAreRuns }
{}

/// Each book extends itself.
pub fn books_extend_themselves()
    ensures { BooksExtendThemselves }
{}

/// Extension of books is transitive.
pub fn books_extend_on()
    ensures { BooksExtendOn }
{}

/// A book and one that extends it lead to the same state at each number of the shorter one.
pub fn states_stay()
    ensures { StatesStay }
{}

/// The opaque update list in the rule of a port is the query's update list.
pub fn updates_are_update_lists()
    ensures { UpdatesAreUpdateLists }
{}

/// A new subscription with an empty port stands over the book of its opening.
pub fn new_subscriptions_stand()
    ensures { NewSubscriptionsStand }
{}
