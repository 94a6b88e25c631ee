//! The laws of scripts and of sessions: each is the contract of a function that does nothing.
ghost use denote.Param.Send.{IsSend};
ghost use Rattle.lq_script_desk.specs.History.{ScriptsTellReaders};
ghost use Rattle.lq_script_desk.specs.SessionHistory.{AllSessionsTell};
ghost use Rattle.lq_script_desk.specs.contracts.session.Session as sessions;

use lq_desk::desks_may_be_sent;
use lq_desk_sub::SlotTable;
use lq_desk_world::readers_are_told;
use lq_script_request::Scratch;
use lq_update::{IndexedRebuild, foldings_follow, rebuilds_take_all};

/// The turns of a script's lines, joined, and the answers to their events are a run of the first
/// world, so at every moment of it the readers are told: the headline.
///
/// The reply to each line that asks for an event is the text of this event's answer. The result of
/// a slot is Fold over its opening's result and the updates that were read since; a slot has one
/// just where it is taken.
pub fn scripts_tell_readers()
    ensures { ScriptsTellReaders }
{
    readers_are_told();
    rebuilds_take_all();
    foldings_follow();
}

/// The first session over a volume has the empty history, and of every history of a session the
/// headline is true. In it each result of a slot is Fold over its opening's result and the updates
/// read since.
///
/// A turn, by a line or by a typed call, extends each history (`specs/SessionHistory`). So at every
/// moment, what was read of a slot since its opening is as the headline says.
pub fn sessions_tell_readers()
    ensures { AllSessionsTell }
{
    readers_are_told();
    rebuilds_take_all();
    foldings_follow();
}

/// A session may go to another thread.
pub fn sessions_may_be_sent()
    ensures { IsSend sessions.the_row }
{
    // For the proof: what a session is made of.
    desks_may_be_sent();
    sends::<SlotTable<IndexedRebuild>>();
    sends::<Scratch>();
}

// The bound, as a fact.
fn sends<T: Send>()
    ensures { IsSend T.row }
{}
