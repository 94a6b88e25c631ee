//! Opens a live query with options; a backlog of 0 means the default.
ghost use Rattle.std.specs.Prelude.{◌≡◌};
ghost use Rattle.lq_predicate.specs.Stack.{only_part};
ghost use Rattle.lq_desk.specs.Reply.{answer_of};
ghost use Rattle.lq_embed.specs.Calls.{state_after_opening};
ghost use Rattle.lq_embed.specs.Opening.{OpensBy, asked_options, backlog_of, kept_by};
ghost use Rattle.lq_embed.specs.Outs.{opening_after};
ghost use Rattle.lq_embed.specs.Requests.{stack_left, open_pushed, open_request};
ghost use Rattle.lq_embed.specs.SessionState.{holds};
ghost use Rattle.lq_embed.specs.Status.{status_of};

use crate::embedded::Embedded;
use crate::numbers::status;
use crate::out_structs::{OpenOptions, OpeningOut};
use lq_desk::{Event, Reply};
use lq_script_request::RawRequest;
use lq_update::{Flags, OpenOptions as QueryOptions};
use lq_value::Refusal;

/// The places of each port: a caller without threads can't tell them from the backlog.
const DEFAULT_PORT: u64 = 1;

/// The backlog that 0 stands for.
const DEFAULT_BACKLOG: u64 = 65536;

impl Embedded {
    /// Opens a live query of a formula in the lowest free slot, with a port of one place. Its
    /// result is to be given.
    ///
    /// Refused, the first that fits: `NotUtf8`, `BadQuery`, then as by `Desk::event`; `NoMemory`.
    pub fn open_by(&mut self, formula: &[u8], options: &OpenOptions, out: &mut OpeningOut) -> u32
        ensures { OpensBy (holds self.old) (holds self.new) (holds self.old).pushed options.now
            (open_request formula.now (asked_options options.now)) result out.old out.new }
    {
        let Ok(query) = str::from_utf8(formula) else {
            return status(Refusal::NotUtf8);
        };
        let no_result = options.no_result;
        let options = asked_options(options);
        let reply = self.answer_request(&RawRequest::Open { query, options });
        let status = self.opened(reply, out);
        self.keep_by(no_result, status, out.slot);
        status
    }

    /// Opens a live query of the predicate that is the stack's only item, which is taken off also
    /// where the opening is refused, with a port of one place.
    ///
    /// Refused, the first that fits: `BadQuery` where the stack holds anything else, then as
    /// `open_by`; `NoMemory`.
    pub fn open_pushed_by(&mut self, options: &OpenOptions, out: &mut OpeningOut) -> u32
        ensures { OpensBy (holds self.old) (holds self.new)
            (stack_left (holds self.old).pushed (only_part (holds self.old).pushed.items))
            options.now
            (open_pushed (holds self.old).pushed.pushes (asked_options options.now)
            (only_part (holds self.old).pushed.items)) result out.old out.new }
    {
        let predicate = match self.stack.finish() {
            Ok(predicate) => predicate,
            Err(refusal) => return self.refused(refusal),
        };
        let no_result = options.no_result;
        let options = asked_options(options);
        let reply = self.session.turn(&Event::OpenBy { predicate, options });
        let status = self.opened(reply, out);
        self.keep_by(no_result, status, out.slot);
        status
    }

    // Writes what was opened, keeps its result to be given, and answers the status.
    fn opened(&mut self, reply: Reply, out: &mut OpeningOut) -> u32
        ensures status { result ≡ status_of (answer_of reply) }
        ensures out { out.new ≡ opening_after (answer_of reply) out.old }
        ensures after { holds self.new ≡ state_after_opening (answer_of reply) (holds self.old) }
    {
        match reply {
            Reply::Opened { slot, at, result } => {
                out.slot = slot;
                out.at = at;
                out.count = result.len();
                self.entries = result.into_iter();
                0
            }
            Reply::Refused(refusal) => self.refused(refusal),
            _ => 0,
        }
    }

    // Leaves an opened slot without its rebuilt result, where none is wanted.
    fn keep_by(&mut self, no_result: bool, status: u32, slot: u64)
        ensures { holds self.new ≡ kept_by no_result status slot (holds self.old) }
    {
        if no_result && status == 0 {
            self.forget(slot);
        }
    }
}

// What the caller's options ask of the core.
fn asked_options(options: &OpenOptions) -> QueryOptions
    ensures { result ≡ asked_options options.now }
{
    QueryOptions {
        port: DEFAULT_PORT,
        backlog: backlog_of(options.backlog),
        flags: Flags {
            moved: options.moved,
            values: options.values,
        },
    }
}

// The backlog that is meant.
fn backlog_of(backlog: u64) -> u64
    ensures { result ≡ backlog_of backlog }
{
    if backlog == 0 {
        DEFAULT_BACKLOG
    } else {
        backlog
    }
}
