//! A session's calls for a caller without lines: they take requests and answer responses, not
//! texts.
ghost use Rattle.std.specs.Prelude.{◌≡◌, ◌⊎◌, IfOk, Ok};
ghost use Rattle.std.specs.Option.{option_map};
ghost use Rattle.lq_value.specs.declared.refusal.Refusal.TheVariants.{NoMemory};
ghost use Rattle.lq_value.specs.Refusal.{FailsOnlyForMemory};
ghost use Rattle.lq_desk_world.specs.Fair.{IsFairWorld};
ghost use Rattle.lq_desk.specs.Ready.{TellsReady};
ghost use Rattle.lq_desk.specs.Reply.{answer_of};
ghost use Rattle.lq_script_request.specs.declared.request.Request.TheVariants as request;
ghost use Rattle.lq_script_desk.specs.Answer.{response_of};
ghost use Rattle.lq_script_desk.specs.Answered.{Responds, rebuilt};
ghost use Rattle.lq_script_desk.specs.Keeps.{keeps, without_fold};
ghost use Rattle.lq_script_desk.specs.Response.{Refuses};
ghost use Rattle.lq_script_desk.specs.Script.{script_session, session_over};
ghost use Rattle.lq_script_desk.specs.Session.{volume_of};
ghost use Rattle.lq_script_desk.specs.Turned.{Turned};

use crate::rebuilds::{follow, put, rebuild_at};
use crate::response::Response;
use crate::session::{Session, slot_of};
use lq_desk::{Desk, Event, Reply};
use lq_desk_sub::SlotTable;
use lq_script_request::Look;
use lq_update::{IndexedRebuild, results_rise};
use lq_value::Refusal;
use lq_volume::{MAX_CHANGES, Volume};
use std::alloc::Global;

impl Session {
    /// The session in which a script begins: a volume with the root alone, and 64 free slots.
    ///
    /// Refused: `NoMemory`.
    pub fn start(alloc: Global) -> Result<Session, Refusal>
        ensures refused { FailsOnlyForMemory result }
        ensures value { IfOk result (λ session. keeps session ≡ script_session) }
    {
        Session::over(alloc, Volume::new(alloc, MAX_CHANGES))
    }

    /// The first session over a volume, as over one that was restored: 64 free slots, and the next
    /// change is the volume's next one.
    ///
    /// Refused: `NoMemory`.
    pub fn over(alloc: Global, volume: Volume) -> Result<Session, Refusal>
        ensures refused { FailsOnlyForMemory result }
        ensures value { IfOk result (λ session. keeps session ≡ session_over volume) }
    {
        let desk = Desk::new(alloc, volume)?;
        Ok(Session::new(alloc, desk, SlotTable::new(alloc)?))
    }

    /// The volume as it is now. It takes no memory.
    pub fn volume(&self) -> &Volume
        ensures volume { result.now ≡ volume_of (keeps self.now) }
        ensures fair { IsFairWorld (keeps self.now).core }
    {
        self.desk.volume()
    }

    /// The response to a look, as to a line that makes it, or a refusal with `NoMemory`.
    pub fn look(&self, look: &Look) -> Response
        ensures { Responds (keeps self.now) (Ok (request.Look look.now)) (response_of result) }
    {
        let volume = self.desk.volume();
        match look {
            Look::Find { dir, name } => match volume.find(*dir, name) {
                Ok(node) => Response::Found { node },
                Err(refusal) => Response::Refused(refusal),
            },
            Look::Entry { node } => match volume.listing(*node) {
                Ok(listing) => Response::Listed {
                    node: *node,
                    listing,
                },
                Err(refusal) => Response::Refused(refusal),
            },
            Look::Fetch { predicate } => match volume.fetch(predicate) {
                Ok(result) => Response::Fetched {
                    at: volume.changes(),
                    result,
                },
                Err(refusal) => Response::Refused(refusal),
            },
            Look::Rebuilt { slot } => rebuilt(rebuild_at(&self.rebuilds, *slot)),
        }
    }

    /// Carries out an event with its whole turn, as a line that asks for it, and updates the
    /// rebuilt result of its slot.
    ///
    /// Refused as by `Desk::turn`. Where memory runs out for the rebuilt result alone, the reply
    /// stands, and the slot is left without one.
    pub fn turn(&mut self, event: &Event) -> Reply
        ensures { Turned (keeps self.old) (keeps self.new) event.now (answer_of result) }
    {
        // Two calls for what they prove: a result rises by node, and the desk's volume is a tree.
        results_rise();
        let _ = self.desk.volume().changes();
        let reply = self.desk.turn(event);
        follow(self.alloc, &mut self.rebuilds, slot_of(event), &reply);
        reply
    }

    /// Which slots have something to read, as by `Desk::ready`. It takes no memory.
    pub fn ready(&self) -> u64
        ensures { TellsReady (keeps self.now).core result }
    {
        self.desk.ready()
    }

    /// Drops the rebuilt result of a slot, if it has one. It takes no memory.
    pub fn forget(&mut self, slot: u64)
        ensures { keeps self.new ≡ without_fold (keeps self.old) slot }
    {
        put(&mut self.rebuilds, slot, None);
    }
}

// The rebuilt result of a slot, if it has one.
fn rebuilt(rebuild: Option<&IndexedRebuild>) -> Response
    ensures { (response_of result ≡ Refuses NoMemory)
        ⊎ (response_of result ≡ rebuilt (option_map (λ r. r.now) rebuild.entry)) }
{
    let Some(rebuild) = rebuild else {
        return Response::Refused(Refusal::NotOpen);
    };
    match rebuild.entries() {
        Err(refusal) => Response::Refused(refusal),
        Ok(result) => Response::Rebuilt {
            change: rebuild.last_change(),
            result,
            settled: rebuild.is_settled(),
        },
    }
}
