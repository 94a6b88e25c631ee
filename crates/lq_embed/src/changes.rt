//! Each change of the volume as a typed call, which makes the request of a script's line.
ghost use Rattle.std.specs.Prelude.{◌≡◌};
ghost use Rattle.lq_desk.specs.Reply.{answer_of};
ghost use Rattle.lq_script_request.specs.Asked.{given};
ghost use Rattle.lq_script_request.specs.Request.{asks_remove, asks_write, request_for};
ghost use Rattle.lq_embed.specs.Calls.{Changes};
ghost use Rattle.lq_embed.specs.Outs.{applied_after};
ghost use Rattle.lq_embed.specs.Requests.{create_request, move_request, set_request, set_text_request, unset_request};
ghost use Rattle.lq_embed.specs.SessionState.{holds};
ghost use Rattle.lq_embed.specs.Status.{status_of};

use crate::embedded::Embedded;
use crate::live_queries::acted;
use crate::numbers::{kind_numbered, status};
use crate::out_structs::AppliedOut;
use lq_desk::Reply;
use lq_script_request::RawRequest;
use lq_value::{Refusal, View};

impl Embedded {
    /// Creates an entry in the folder `dir`, under the next node. `kind` is 0 for a file and 1 for
    /// a folder, `size` is in bytes, `time` in seconds since 1970.
    ///
    /// Refused, the first that fits: `NotUtf8` for the name, `BadLine` for the kind, `BadName`,
    /// then as by `Volume::apply`; `NoMemory`.
    pub fn create(
        &mut self,
        dir: u64,
        name: &[u8],
        kind: u32,
        size: u64,
        time: i64,
        out: &mut AppliedOut,
    ) -> u32
        ensures { Changes (holds self.old) (holds self.new)
            (create_request dir name.now kind size time) result out.old out.new }
    {
        let Ok(name) = str::from_utf8(name) else {
            return status(Refusal::NotUtf8);
        };
        let Some(kind) = kind_numbered(kind) else {
            return status(Refusal::BadLine);
        };
        let reply = self.answer_request(&RawRequest::Create {
            dir,
            name,
            kind,
            size,
            time,
        });
        applied(reply, out)
    }

    /// Removes the entry of a node. Refused as by `Volume::apply`; `NoMemory`.
    pub fn remove(&mut self, node: u64, out: &mut AppliedOut) -> u32
        ensures { Changes (holds self.old) (holds self.new) (request_for (asks_remove node))
            result out.old out.new }
    {
        applied(self.answer_request(&RawRequest::Remove { node }), out)
    }

    /// Moves the entry of a node to another place; with `clobber` another node there is removed.
    ///
    /// Refused, the first that fits: `NotUtf8` for the name, `BadName`, then as by `Volume::apply`;
    /// `NoMemory`.
    pub fn move_entry(
        &mut self,
        node: u64,
        dir: u64,
        name: &[u8],
        clobber: bool,
        out: &mut AppliedOut,
    ) -> u32
        ensures { Changes (holds self.old) (holds self.new)
            (move_request node dir name.now clobber) result out.old out.new }
    {
        let Ok(name) = str::from_utf8(name) else {
            return status(Refusal::NotUtf8);
        };
        let reply = self.answer_request(&RawRequest::Move {
            node,
            dir,
            name,
            clobber,
        });
        applied(reply, out)
    }

    /// Sets a file's size in bytes and its `last_modified` in seconds since 1970. Refused as by
    /// `Volume::apply`; `NoMemory`.
    pub fn write(&mut self, node: u64, size: u64, time: i64, out: &mut AppliedOut) -> u32
        ensures { Changes (holds self.old) (holds self.new)
            (request_for (asks_write node size time)) result out.old out.new }
    {
        applied(
            self.answer_request(&RawRequest::Write { node, size, time }),
            out,
        )
    }

    /// Sets an attribute of an entry to a text.
    ///
    /// Refused, the first that fits: `NotUtf8` for a text, `BadName` for the attribute's name,
    /// `TooLong` for the value, then as by `Volume::apply`; `NoMemory`.
    pub fn set_text(&mut self, node: u64, attr: &[u8], text: &[u8], out: &mut AppliedOut) -> u32
        ensures { Changes (holds self.old) (holds self.new)
            (set_text_request node attr.now text.now) result out.old out.new }
    {
        let Ok(text) = str::from_utf8(text) else {
            return status(Refusal::NotUtf8);
        };
        self.set_attr(node, attr, View::Text(text), out)
    }

    /// Sets an attribute of an entry to a value. Refused as `set_text`, but with `NotUtf8` for the
    /// attribute's name alone.
    pub fn set_attr(&mut self, node: u64, attr: &[u8], value: View<'_>, out: &mut AppliedOut) -> u32
        ensures { Changes (holds self.old) (holds self.new)
            (set_request node attr.now (given value.entry)) result out.old out.new }
    {
        let Ok(attr) = str::from_utf8(attr) else {
            return status(Refusal::NotUtf8);
        };
        let reply = self.answer_request(&RawRequest::Set { node, attr, value });
        applied(reply, out)
    }

    /// Removes an attribute of an entry.
    ///
    /// Refused, the first that fits: `NotUtf8`, `BadName` for the attribute's name, then as by
    /// `Volume::apply`; `NoMemory`.
    pub fn unset(&mut self, node: u64, attr: &[u8], out: &mut AppliedOut) -> u32
        ensures { Changes (holds self.old) (holds self.new) (unset_request node attr.now)
            result out.old out.new }
    {
        let Ok(attr) = str::from_utf8(attr) else {
            return status(Refusal::NotUtf8);
        };
        applied(self.answer_request(&RawRequest::Unset { node, attr }), out)
    }
}

// Writes the effect of a change that was accepted, and answers the status.
fn applied(reply: Reply, out: &mut AppliedOut) -> u32
    ensures status { result ≡ status_of (answer_of reply) }
    ensures out { out.new ≡ applied_after (answer_of reply) out.old }
{
    if let Reply::Changed(applied) = &reply {
        out.change = applied.change;
        out.node = applied.node;
    }
    acted(&reply)
}
