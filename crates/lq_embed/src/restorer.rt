//! A volume that is restored by typed calls: its numbers, then each entry after its attributes.
ghost use Rattle.std.specs.Prelude.{◌≡◌, [], IfOk, Ok};
ghost use Rattle.lq_value.specs.Refusal.{FailsOnlyForMemory};
ghost use Rattle.lq_volume.specs.Lookup.{listed};
ghost use Rattle.lq_script_request.specs.Asked.{given};
ghost use Rattle.lq_embed.specs.Requests.{set_request, set_text_request};
ghost use Rattle.lq_embed.specs.Restorer.{attr_outcome, begin_outcome, end_outcome, entry_outcome, fault_code, first_restored, push_outcome, restores, with_value, without_attrs};
ghost use Rattle.lq_embed.specs.SessionState.{holds};
ghost use Rattle.lq_embed.specs.Outcome.{Gives};

use crate::embedded::Embedded;
use crate::numbers::{kind_numbered, status};
use crate::saves::begin_over;
use lq_script_request::{Event, RawRequest, RecentAttrs, Request, read_request};
use lq_value::{AttrName, Name, Refusal, Value, View};
use lq_volume::{Change, Listing, MAX_CHANGES, RestoreFault, Restoring};
use std::alloc::Global;
use std::mem;

/// The number of `RestoreFault::NumberOutOfRange`.
const NUMBER_OUT_OF_RANGE: u32 = 101;

/// A volume that is being restored, and the attributes of its next entry.
///
/// In contracts it is a `Restored` (by `restores`); a new one stands for a volume with the root
/// alone. Each call returns a status: 0, a refusal's code, or the number of a `RestoreFault`.
pub struct Restorer {
    pub(crate) alloc: Global,
    pub(crate) restoring: Restoring,
    pub(crate) attrs: Vec<(AttrName, Value)>,
    // The names of attributes that came last, which entries share.
    pub(crate) names: RecentAttrs,
}

impl Drop for Restorer {
    fn drop(self) {
        let Restorer {
            alloc: _,
            restoring: _,
            attrs: _,
            names: _,
        } = self;
    }
}

impl Restorer {
    /// Starts with the root alone. The code allocates no memory; no clause says so.
    pub fn new(alloc: Global) -> Result<Restorer, Refusal>
        ensures refused { FailsOnlyForMemory result }
        ensures value { IfOk result (λ restorer. restores restorer ≡ first_restored) }
    {
        Ok(Restorer {
            alloc,
            restoring: empty(alloc)?,
            attrs: Vec::new(alloc),
            names: RecentAttrs::new(alloc),
        })
    }

    /// Begins anew, with a volume's limit, the number of its changes, and the node of its next
    /// entry.
    ///
    /// Refused as by `Restoring::new`, and `NumberOutOfRange` for a limit above `MAX_CHANGES`.
    pub fn begin(&mut self, limit: u64, changes: u64, next: u64) -> u32
        ensures { Gives (begin_outcome limit changes next) (restores self.old) (restores self.new)
            result }
    {
        if limit > MAX_CHANGES {
            return NUMBER_OUT_OF_RANGE;
        }
        match Restoring::new(self.alloc, limit, changes, next) {
            Err(fault) => fault_status(fault),
            Ok(restoring) => {
                self.restoring = restoring;
                self.attrs.clear();
                0
            }
        }
    }

    /// Adds an attribute of the next entry, whose value is a text.
    ///
    /// Refused, the first that fits: `NotUtf8` for a text, `BadName` for the attribute's name,
    /// `TooLong` for the value; `NoMemory`.
    pub fn attr_text(&mut self, attr: &[u8], text: &[u8]) -> u32
        ensures { Gives (attr_outcome (restores self.old) (set_text_request 0 attr.now text.now))
            (restores self.old) (restores self.new) result }
    {
        let Ok(text) = str::from_utf8(text) else {
            return status(Refusal::NotUtf8);
        };
        self.attr(attr, View::Text(text))
    }

    /// Adds an attribute of the next entry. Refused as `attr_text`, but with `NotUtf8` for the
    /// attribute's name alone.
    pub fn attr(&mut self, attr: &[u8], value: View<'_>) -> u32
        ensures { Gives (attr_outcome (restores self.old)
            (set_request 0 attr.now (given value.entry)))
            (restores self.old) (restores self.new) result }
    {
        let Ok(attr) = str::from_utf8(attr) else {
            return status(Refusal::NotUtf8);
        };
        let set = RawRequest::Set {
            node: 0,
            attr,
            value,
        };
        match read_request(self.alloc, &mut self.names, &set) {
            Ok(Request::Event(Event::Change(Change::SetAttr { attr, value, .. }))) => {
                self.add(attr, value)
            }
            Ok(_) => status(Refusal::NoMemory),
            Err(refusal) => status(refusal),
        }
    }

    // Adds an attribute of the next entry.
    fn add(&mut self, attr: AttrName, value: Value) -> u32
        ensures { Gives (Ok (with_value (restores self.old) attr value)) (restores self.old)
            (restores self.new) result }
    {
        match self.attrs.push((attr, value)) {
            Ok(()) => 0,
            Err(_) => status(Refusal::NoMemory),
        }
    }

    /// Adds an entry with the attributes that came before it. `kind` is 0 for a file and 1 for a
    /// folder, `size` is in bytes, `time` in seconds since 1970.
    ///
    /// Refused, the first that fits: `NotUtf8` for the name, `BadLine` for the kind, `BadName`,
    /// then as by `Restoring::push`; `NoMemory`. A refused entry's attributes are gone.
    pub fn entry(
        &mut self,
        node: u64,
        dir: u64,
        name: &[u8],
        kind: u32,
        size: u64,
        time: i64,
    ) -> u32
        ensures { Gives (entry_outcome (restores self.old) node dir name.now kind size time)
            (without_attrs (restores self.old)) (restores self.new) result }
    {
        let attrs = mem::replace(&mut self.attrs, Vec::new(self.alloc));
        let Ok(name) = str::from_utf8(name) else {
            return status(Refusal::NotUtf8);
        };
        let Some(kind) = kind_numbered(kind) else {
            return status(Refusal::BadLine);
        };
        match Name::read(self.alloc, name) {
            Err(refusal) => status(refusal),
            Ok(name) => self.push(
                node,
                Listing {
                    dir,
                    name,
                    kind,
                    size,
                    time,
                    attrs,
                },
            ),
        }
    }

    // Adds an entry after all attributes were taken.
    fn push(&mut self, node: u64, listing: Listing) -> u32
        requires { (restores self.old).attrs ≡ [] }
        ensures { Gives (push_outcome (restores self.old).state node (listed listing))
            (restores self.old) (restores self.new) result }
    {
        match self.restoring.push(node, listing) {
            Ok(()) => 0,
            Err(fault) => fault_status(fault),
        }
    }

    /// Ends: begins the first session over the volume with these numbers and entries, in place of
    /// another session. The restorer is then as a new one.
    ///
    /// Refused as by `Restoring::finish`, or `NoMemory`; the other session stays then.
    pub fn end(&mut self, embedded: &mut Embedded) -> u32
        ensures ended { Gives (end_outcome (restores self.old).state) (holds embedded.old)
            (holds embedded.new) result }
    {
        let Ok(empty) = empty(self.alloc) else {
            return status(Refusal::NoMemory);
        };
        self.attrs.clear();
        match mem::replace(&mut self.restoring, empty).finish() {
            Err(fault) => fault_status(fault),
            Ok(volume) => begin_over(embedded, volume),
        }
    }
}

// A volume with the root alone, as one that is being restored. It takes no memory.
fn empty(alloc: Global) -> Result<Restoring, Refusal>
    ensures refused { FailsOnlyForMemory result }
    ensures value { IfOk result (λ restoring. restoring ≡ first_restored.state) }
{
    match Restoring::new(alloc, MAX_CHANGES, 0, 2) {
        Ok(restoring) => Ok(restoring),
        Err(_) => Err(Refusal::NoMemory),
    }
}

// The number of a fault: from 101 on, or that of `Refusal::NoMemory`.
fn fault_status(fault: RestoreFault) -> u32
    ensures { result ≡ fault_code fault }
{
    match fault {
        RestoreFault::NumberOutOfRange => NUMBER_OUT_OF_RANGE,
        RestoreFault::NodeOutOfRange => 102,
        RestoreFault::OutOfOrder => 103,
        RestoreFault::NameTaken => 104,
        RestoreFault::SizeOfFolder => 105,
        RestoreFault::TooLong => 106,
        RestoreFault::Reserved => 107,
        RestoreFault::NameTwice => 108,
        RestoreFault::NoFolder => 109,
        RestoreFault::NotFolder => 110,
        RestoreFault::Ring => 111,
        RestoreFault::NoMemory => 15,
    }
}
