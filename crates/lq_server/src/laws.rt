//! The laws of readers and of threads, as contracts of functions that do nothing.
ghost use Rattle.std.specs.Thread.{IsSend, IsSync};
ghost use Rattle.lq_server.specs.Counted.{CallsMakeTheBook, TwoSeatsMakeTheBook};
ghost use Rattle.lq_server.specs.Headline.{AnswersAreTold};
ghost use Rattle.lq_server.specs.Laws.{FirstClosesAreRefusedLate, WaitingReadsAnswer};
ghost use Rattle.lq_server.specs.contracts.server.Server as servers;

use lq_board::{Board, Keeper};
use lq_desk_sub::{SlotTable, Sub};
use lq_port::PortIn;
use lq_server_slots::{Delivery, Identity, Named, Subscription};
use lq_update::{folds_give_results, whole_folds_give_results};
use lq_volume::Volume;

/// The headline, of the reads of a reader that had received nothing before.
///
/// Their messages are a prefix of its query's update list, each once. The mark comes after all of
/// it up to the change that it names, and only `Ended` comes after the mark. Folding gives the
/// query's result after each message that is the last of its change, and before the mark.
pub fn answers_are_told()
    ensures { AnswersAreTold }
{
    // For the proof: what a fold gives where it is settled, and at the end.
    folds_give_results();
    whole_folds_give_results();
}

/// An answer of `read_waiting` is one of a read, as `answers_are_told` takes them.
///
/// So the answers of `read` and `read_waiting`, mixed in any order, are a reader's answers.
pub fn waiting_reads_answer()
    ensures { WaitingReadsAnswer }
{}

/// A first close is refused only where its reader asked for the end, or where its subscription has
/// overrun.
pub fn first_closes_are_refused_late()
    ensures { FirstClosesAreRefusedLate }
{}

/// Each change of a book was made by exactly one call, where the calls were answered the numbers of
/// the book, each once.
///
/// The leading seat of a counted server knows that they were, from `dismiss` and `retire`.
pub fn calls_make_the_book()
    ensures { CallsMakeTheBook }
{}

/// The book of a counted server is just the changes of two seats, mixed: each seat's in its order.
///
/// It takes two seats that made these changes and were dismissed, and a leading seat that has
/// gathered the numbers of all changes from them alone, as `dismiss` and `retire` say.
pub fn two_seats_make_the_book()
    ensures { TwoSeatsMakeTheBook }
{}

/// Threads may share a server, whatever its name.
///
/// A predicate's tree contains itself, so the prover finds this in no caller by itself. One whose
/// threads borrow a server calls this.
pub fn servers_may_be_shared<N: Named>()
    ensures { IsSync (servers.the_row N.row N.Named) }
{
    // For the proof: what the lock and the board are made of.
    sends::<Sub>();
    sends::<PortIn<Delivery>>();
    sends::<Subscription>();
    sends::<SlotTable<Subscription>>();
    sends::<Keeper<Identity>>();
    sends::<Volume>();
    shares::<Board<Identity>>();
}

// The bound, as a fact.
fn sends<T: Send>()
    ensures { IsSend T.row }
{}

// The bound, as a fact.
fn shares<T: Sync>()
    ensures { IsSync T.row }
{}
