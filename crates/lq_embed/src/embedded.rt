//! The embedded session: a script's session, with what its calls gave kept until the caller takes
//! it.
ghost use Rattle.std.specs.Prelude.{◌≡◌, IfOk};
ghost use Rattle.lq_value.specs.Refusal.{FailsOnlyForMemory, code_of};
ghost use Rattle.lq_desk.specs.Reply.{answer_of};
ghost use Rattle.lq_script_desk.specs.Keeps.{keeps};
ghost use Rattle.lq_script_request.specs.Asked.{raw_asked};
ghost use Rattle.lq_script_request.specs.Request.{request_for};
ghost use Rattle.lq_embed.specs.Calls.{Asks, state_after_refusal};
ghost use Rattle.lq_embed.specs.SessionState.{first_state, state_over, holds, volume_in, with_session};

use crate::numbers::status;
use lq_desk::Reply;
use lq_predicate::Stack;
use lq_script_desk::Session;
use lq_script_request::{RawRequest, RecentAttrs, Request, read_request};
use lq_value::{Entry, Refusal, Value};
use lq_volume::{MAX_CHANGES, Volume};
use std::alloc::Global;
use std::vec::IntoIter;

/// A session, and the entries and the text that its calls gave and the caller hasn't taken yet.
///
/// Contracts see it as the `SessionState` that it holds.
pub struct Embedded {
    pub(crate) alloc: Global,
    pub(crate) session: Session,
    // The names that requests used last, kept from call to call.
    pub(crate) attrs: RecentAttrs,
    // The entries of the last result that weren't given yet.
    pub(crate) entries: IntoIter<Entry>,
    // The text of the last line's reply, of a path, or of a formula with its values.
    pub(crate) text: Vec<u8>,
    pub(crate) stack: Stack,
    // The values that were bound and not put in place yet.
    pub(crate) bound: Vec<Value>,
    // The place of the last fault of a formula, a push or a value.
    pub(crate) fault: u64,
}

impl Drop for Embedded {
    fn drop(self) {
        let Embedded {
            alloc: _,
            session: _,
            attrs: _,
            entries: _,
            text: _,
            stack: _,
            bound: _,
            fault: _,
        } = self;
    }
}

impl Embedded {
    /// A session over a volume with the root alone. Refused: `NoMemory`.
    pub fn start(alloc: Global) -> Result<Embedded, Refusal>
        ensures refused { FailsOnlyForMemory result }
        ensures value { IfOk result (λ embedded. holds embedded ≡ first_state) }
    {
        Embedded::over(alloc, Volume::new(alloc, MAX_CHANGES))
    }

    /// The first session over a volume, as over one that was restored.
    ///
    /// Refused: `NoMemory`.
    pub fn over(alloc: Global, volume: Volume) -> Result<Embedded, Refusal>
        ensures refused { FailsOnlyForMemory result }
        ensures value { IfOk result (λ embedded. holds embedded ≡ state_over volume) }
    {
        Ok(Embedded {
            alloc,
            session: Session::over(alloc, volume)?,
            attrs: RecentAttrs::new(alloc),
            entries: Vec::new(alloc).into_iter(),
            text: Vec::new(alloc),
            stack: Stack::new(alloc),
            bound: Vec::new(alloc),
            fault: 0,
        })
    }

    // Carries out the event that a request asks for.
    pub(crate) fn answer_request(&mut self, raw: &RawRequest<'_>) -> Reply
        ensures asks { Asks (keeps self.old.session) (keeps self.new.session)
            (request_for (raw_asked raw.now)) (answer_of result) }
        ensures beside { holds self.new ≡ with_session (holds self.old) (keeps self.new.session) }
    {
        match read_request(self.alloc, &mut self.attrs, raw) {
            Ok(Request::Event(event)) => self.session.turn(&event),
            Ok(Request::Look(_)) => Reply::Refused(Refusal::BadLine),
            Err(refusal) => Reply::Refused(refusal),
        }
    }

    // The status of a refusal, whose place is kept if it has one.
    pub(crate) fn refused(&mut self, refusal: Refusal) -> u32
        ensures status { result ≡ code_of refusal }
        ensures after { holds self.new ≡ state_after_refusal refusal (holds self.old) }
    {
        if let Refusal::BadQuery { place } = refusal {
            self.fault = place;
        }
        status(refusal)
    }

    /// The place of the last fault: the byte of a formula, the number of pushes accepted before, or
    /// the number of a value. It takes no memory.
    pub fn fault_place(&self) -> u64
        ensures { result ≡ (holds self.now).fault }
    {
        self.fault
    }

    /// How many changes the volume accepted. It takes no memory.
    pub fn changes(&self) -> u64
        ensures { result ≡ (volume_in (holds self.now)).number }
    {
        self.session.volume().changes()
    }
}
