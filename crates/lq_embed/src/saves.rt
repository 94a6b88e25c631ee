//! What a save asks of a volume: its numbers and the nodes of its entries. And a copy of a volume.
ghost use Rattle.std.specs.Prelude.{◌≡◌, Ok, length};
ghost use Rattle.lq_embed.specs.Saves.{TellsNodes, nodes_in, numbers_of};
ghost use Rattle.lq_embed.specs.SessionState.{holds, state_over, volume_in};
ghost use Rattle.lq_embed.specs.Outcome.{Gives};

use crate::embedded::Embedded;
use crate::numbers::status;
use lq_volume::{Saved, Volume};

/// The numbers of a volume: its limit, how many changes it has accepted, and the node of the next
/// entry.
#[repr(C)]
#[derive(Drop)]
pub struct NumbersOut {
    pub limit: u64,
    pub changes: u64,
    pub next: u64,
}

impl Embedded {
    /// Writes the numbers of the volume. It takes no memory.
    pub fn numbers(&self, out: &mut NumbersOut)
        ensures { out.new ≡ numbers_of (volume_in (holds self.now)) }
    {
        let volume = self.session.volume();
        out.limit = volume.limit();
        out.changes = volume.changes();
        out.next = volume.next();
    }

    /// Writes how many entries the volume has, and their nodes by rising node, where `out` has room
    /// for just as many. Refused: `NoMemory`.
    ///
    /// Together with `numbers`, and with `entry` and `attr_at` of each node, they determine the
    /// volume.
    pub fn nodes(&self, out: &mut [u64], count: &mut usize) -> u32
        ensures { TellsNodes (volume_in (holds self.now)) out.old out.new count.old count.new
            result }
    {
        match self.session.volume().saved() {
            Err(refusal) => status(refusal),
            Ok(saved) => {
                *count = saved.len();
                if out.len() == saved.len() {
                    put_nodes(&saved, out);
                }
                0
            }
        }
    }

    /// Begins the first session over a copy of the volume, in place of another session.
    ///
    /// Refused: `NoMemory`, and then the other session stays.
    pub fn copy_to(&self, copy: &mut Embedded) -> u32
        ensures { Gives (Ok (state_over (volume_in (holds self.now)))) (holds copy.old)
            (holds copy.new) result }
    {
        match self.session.volume().copy() {
            Err(refusal) => status(refusal),
            Ok(volume) => begin_over(copy, volume),
        }
    }
}

// Writes the node of each entry.
fn put_nodes(saved: &Saved<'_>, out: &mut [u64])
    requires { length out.old ≡ length saved.now }
    ensures { out.new ≡ nodes_in saved.now }
{
    for index in 0..saved.len() {
        match saved.at(index) {
            None => unreachable!(),
            Some((node, _)) => out[index] = node,
        }
    }
}

/// Begins the first session over a volume, in place of another session. Refused: `NoMemory`.
pub(crate) fn begin_over(embedded: &mut Embedded, volume: Volume) -> u32
    ensures { Gives (Ok (state_over volume)) (holds embedded.old) (holds embedded.new) result }
{
    match Embedded::over(embedded.alloc, volume) {
        Err(refusal) => status(refusal),
        Ok(first) => {
            *embedded = first;
            0
        }
    }
}
