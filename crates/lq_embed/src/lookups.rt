//! Looks at the volume, which change nothing in it.
ghost use Rattle.std.specs.Prelude.{◌≡◌, Ok};
ghost use Rattle.lq_script_request.specs.Asked.{raw_asked};
ghost use Rattle.lq_script_request.specs.Request.{request_for};
ghost use Rattle.lq_script_request.specs.declared.request.Request.TheVariants as request;
ghost use Rattle.lq_script_request.specs.declared.request.Look.TheVariants.{Entry, Rebuilt};
ghost use Rattle.lq_script_desk.specs.Answer.{response_of};
ghost use Rattle.lq_script_desk.specs.Answered.{Responds};
ghost use Rattle.lq_script_desk.specs.Keeps.{keeps};
ghost use Rattle.lq_embed.specs.Calls.{Fetches, FindsNode, Rebuilds, ShowsEntry, state_after_fetch};
ghost use Rattle.lq_embed.specs.Outs.{fetched_after, node_after};
ghost use Rattle.lq_embed.specs.Requests.{fetch_request, find_request};
ghost use Rattle.lq_embed.specs.SessionState.{holds};
ghost use Rattle.lq_embed.specs.Status.{response_status};

use crate::embedded::Embedded;
use crate::numbers::{number_of_kind, status};
use crate::out_structs::{FetchedOut, InfoOut, RebuiltOut, put_text};
use lq_script_desk::Response;
use lq_script_request::{Look, RawRequest, Request, read_request};
use lq_value::Refusal;

impl Embedded {
    /// Fetches the entries that match a formula; they are then to be given.
    ///
    /// Refused, the first that fits: `NotUtf8`, `BadQuery`; `NoMemory`.
    pub fn fetch(&mut self, formula: &[u8], out: &mut FetchedOut) -> u32
        ensures { Fetches (holds self.old) (holds self.new) (holds self.old).pushed
            (fetch_request formula.now) result out.old out.new }
    {
        let Ok(query) = str::from_utf8(formula) else {
            return status(Refusal::NotUtf8);
        };
        let response = self.look(&RawRequest::Fetch { query });
        self.fetched(response, out)
    }

    /// Finds the node at a place.
    ///
    /// Refused, the first that fits: `NotUtf8`, `BadName`, then as by `Volume::find`; `NoMemory`.
    pub fn find(&mut self, dir: u64, name: &[u8], node: &mut u64) -> u32
        ensures { FindsNode (holds self.old) (holds self.new) (find_request dir name.now)
            result node.old node.new }
    {
        let Ok(name) = str::from_utf8(name) else {
            return status(Refusal::NotUtf8);
        };
        put_node(&self.look(&RawRequest::Find { dir, name }), node)
    }

    /// The rebuilt result of a slot, which is then to be given.
    ///
    /// Refused: `NotOpen` where the slot is free or was left without one, `NoMemory`.
    pub fn rebuilt(&mut self, slot: u64, out: &mut RebuiltOut) -> u32
        ensures { Rebuilds (holds self.old) (holds self.new) (Ok (request.Look (Rebuilt slot)))
            result out.old out.new }
    {
        match self.session.look(&Look::Rebuilt { slot }) {
            Response::Rebuilt {
                change,
                result,
                settled,
            } => {
                out.change = change;
                out.count = result.len();
                out.settled = settled;
                self.entries = result.into_iter();
                0
            }
            Response::Refused(refusal) => status(refusal),
            _ => 0,
        }
    }

    // Writes what was fetched, keeps it to be given, and answers the status.
    pub(crate) fn fetched(&mut self, response: Response, out: &mut FetchedOut) -> u32
        ensures status { result ≡ response_status (response_of response) }
        ensures out { out.new ≡ fetched_after (response_of response) out.old }
        ensures after { holds self.new ≡ state_after_fetch (response_of response) (holds self.old) }
    {
        match response {
            Response::Fetched { at, result } => {
                out.at = at;
                out.count = result.len();
                self.entries = result.into_iter();
                0
            }
            Response::Refused(refusal) => self.refused(refusal),
            _ => 0,
        }
    }

    // The response to a raw request for a look. No event is asked for.
    fn look(&mut self, raw: &RawRequest<'_>) -> Response
        ensures responds { Responds (keeps self.old.session) (request_for (raw_asked raw.now))
            (response_of result) }
        ensures stays { holds self.new ≡ holds self.old }
    {
        match read_request(self.alloc, &mut self.attrs, raw) {
            Ok(Request::Look(look)) => self.session.look(&look),
            Ok(Request::Event(_)) => Response::Refused(Refusal::NoMemory),
            Err(refusal) => Response::Refused(refusal),
        }
    }

    /// Writes the entry of a node. It takes no memory.
    ///
    /// Refused: `NoNode` where there is no such node, `NoEntry` for the root.
    pub fn entry(&mut self, node: u64, out: &mut InfoOut) -> u32
        ensures { ShowsEntry (holds self.old) (holds self.new) (Ok (request.Look (Entry node)))
            result out.old out.new }
    {
        match self.session.volume().entry(node) {
            Err(refusal) => status(refusal),
            Ok(entry) => {
                out.dir = entry.dir();
                out.node = node;
                out.size = entry.size();
                out.time = entry.time();
                out.kind = number_of_kind(entry.kind());
                out.attr_count = entry.attr_count();
                out.name_size = put_text(&mut out.name, entry.name().as_str().as_bytes());
                0
            }
        }
    }
}

// Writes the node that was found, and answers the status.
fn put_node(response: &Response, node: &mut u64) -> u32
    ensures status { result ≡ response_status (response_of response.now) }
    ensures out { node.new ≡ node_after (response_of response.now) node.old }
{
    match response {
        Response::Found { node: found } => {
            *node = *found;
            0
        }
        Response::Refused(refusal) => status(*refusal),
        _ => 0,
    }
}
