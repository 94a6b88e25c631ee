//! What a thread of a scenario did, and its calls on the volume, by its own seat or its reader's.
ghost use Rattle.std.specs.Prelude.{◌≡◌, true};
ghost use Rattle.lq_server.specs.Own.{StaysOwn};

use crate::acts::{Act, Expected, are_entries, change};
use crate::random_changes::Draws;
use crate::reference::{Log, Taken};
use lq_predicate::read;
use lq_server::{Named, Seat, Server};
use lq_value::{Name, Refusal};
use std::alloc::Global;
use std::sync::Wait;

/// What a thread draws, and what it did: the changes that were accepted, what the kept readers have
/// read, and the row whose answer isn't the expected one, counted from 0.
#[derive(Drop)]
pub struct Acted {
    pub alloc: Global,
    pub draws: Draws,
    pub taken: Vec<Taken>,
    pub logs: Vec<Log>,
    pub stop: Option<usize>,
}

impl Acted {
    /// Nothing so far. It draws from this state.
    pub fn new(alloc: Global, state: u64) -> Acted {
        Acted {
            alloc,
            draws: Draws {
                state,
                newest: 1,
                made: 0,
            },
            taken: Vec::new(alloc),
            logs: Vec::new(alloc),
            stop: None,
        }
    }

    /// What the call of an act on the volume answers by this seat; `None` if the act makes none. An
    /// accepted change is kept.
    pub fn call<N: Named, R: Wait>(
        &mut self,
        rt: &R,
        server: &Server<N>,
        seat: &mut Seat,
        act: &Act,
    ) -> Result<Option<Expected>, Refusal>
        requires { (seat.old.board ≡ N.board) × (seat.old.author.signs ≡ true) }
        ensures seat { (seat.new.board ≡ N.board) × (seat.new.author.signs ≡ true) }
        ensures own { StaysOwn seat.old seat.new }
    {
        if let Some(change) = change(self.alloc, &mut self.draws, act)? {
            self.taken.reserve(1)?;
            let accepted = server.apply(rt, seat, &change)?;
            self.draws.newest = self.draws.newest.max(accepted.node);
            self.taken.push(Taken { accepted, change })?;
            self.draws.made = self.taken.len() as u64;
            return Ok(Some(Expected::Changed(accepted.change, accepted.node)));
        }
        Ok(Some(match act {
            Act::Fetch(query, rows) => {
                let predicate = read(self.alloc, query)?;
                let found = server.fetch(rt, seat, &predicate)?;
                if are_entries(&found.entries, rows) {
                    Expected::Number(found.at)
                } else {
                    Expected::Is(false)
                }
            }
            Act::Find(name) => {
                let name = Name::read(self.alloc, name)?;
                Expected::Number(server.find(rt, seat, 1, &name)?)
            }
            Act::Listing(node, name) => {
                let listing = server.listing(rt, seat, *node)?;
                Expected::Is(listing.dir == 1 && listing.name.as_str() == *name)
            }
            Act::Latest => Expected::Number(server.latest(seat)),
            _ => return Ok(None),
        }))
    }
}
