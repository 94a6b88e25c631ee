//! Changes, openings and numbers drawn from a seed.
ghost use Rattle.std.specs.Prelude.{◌<◌};

use lq_update::{Flags, OpenOptions};
use lq_value::{AttrName, Kind, Name, Refusal, Value};
use lq_volume::Change;
use std::alloc::Global;

/// What an opening asks for.
#[derive(Clone, Copy)]
pub struct DrawnOpening {
    pub query: &'static str,
    pub options: OpenOptions,
}

/// The queries that are compared with the reference, of which all but the last are drawn.
pub const QUERIES: [&str; 4] = ["name='a*'", "size>0", "x=1&&size<2", "name=*"];

/// Numbers drawn from a seed, by the linear congruence of Knuth's MMIX; the newest node so far, and
/// how many changes were accepted.
#[derive(Drop)]
pub struct Draws {
    pub state: u64,
    pub newest: u64,
    pub made: u64,
}

/// The name of this text and a number.
pub fn numbered(alloc: Global, start: &str, number: u64) -> Result<Name, Refusal> {
    let text = format!(in alloc; "{start}{number}")?;
    Name::read(alloc, &text)
}

impl Draws {
    /// A number below a bound.
    pub fn below(&mut self, bound: u64) -> u64
        requires { 0 < bound }
        ensures { result < bound }
    {
        self.state = self
            .state
            .wrapping_mul(6_364_136_223_846_793_005)
            .wrapping_add(1);
        (self.state >> 33) % bound
    }

    /// The next opening.
    pub fn opening(&mut self) -> DrawnOpening {
        let query = self.below(3) as usize;
        DrawnOpening {
            query: QUERIES.get(query).copied().unwrap_or(""),
            options: OpenOptions {
                port: self.below(9) + 1,
                backlog: self.below(20),
                flags: Flags {
                    moved: self.below(2) == 1,
                    values: self.below(2) == 1,
                },
            },
        }
    }

    /// The next change.
    pub fn change(&mut self, alloc: Global) -> Result<Change, Refusal> {
        let node = self.node();
        // The root half the time.
        let dir = if self.below(2) == 0 { 1 } else { self.node() };
        let start = if self.below(2) == 0 { "a" } else { "b" };
        let name = numbered(alloc, start, self.below(60))?;
        let attr = AttrName::read(alloc, "x")?;
        let size = self.below(3);
        Ok(match self.below(12) {
            0..=3 => Change::Create {
                dir,
                name,
                kind: Kind::File,
                size,
                time: 1,
            },
            4 => Change::Create {
                dir,
                name,
                kind: Kind::Folder,
                size: 0,
                time: 2,
            },
            5 => Change::Remove { node },
            6..=8 => Change::Move {
                node,
                dir,
                name,
                clobber: size == 0,
            },
            9 => Change::Write {
                node,
                size,
                time: 3,
            },
            _ if size == 0 => Change::RemoveAttr { node, attr },
            _ => Change::SetAttr {
                node,
                attr,
                value: Value::UInt64(size),
            },
        })
    }

    // One of the newest half the time, and else any.
    fn node(&mut self) -> u64 {
        let back = self.below(12);
        if self.below(2) == 0 {
            self.newest.saturating_sub(back)
        } else {
            self.below(1000) % self.newest.max(1) + 1
        }
    }
}
