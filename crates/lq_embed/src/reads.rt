//! Makes several reads of a slot in one call, which saves the caller a call for each message.
ghost use Rattle.std.specs.Prelude.{◌≡◌};
ghost use Rattle.lq_desk.specs.Reply.{answer_of};
ghost use Rattle.lq_embed.specs.Outs.{read_after};
ghost use Rattle.lq_embed.specs.Reads.{Drops, ReadsMany, ReadsOne, Skips};
ghost use Rattle.lq_embed.specs.SessionState.{holds};

use crate::embedded::Embedded;
use crate::live_queries::taken;
use crate::numbers::status;
use crate::out_structs::MessageOut;
use lq_desk::{Event, Read, Reply};
use lq_value::Refusal;

impl Embedded {
    /// Reads a slot until a read gives neither a message nor the mark or each place of `out` has
    /// one, and writes how many there were. The places after these stay as they were.
    ///
    /// Refused: `NotOpen` where the slot is free.
    pub fn read_many(&mut self, slot: u64, out: &mut [MessageOut], got: &mut usize) -> u32
        ensures { ReadsMany (holds self.old) (holds self.new) slot result out.old out.new
            got.old got.new }
    {
        let mut count = 0;
        for message in out.iter_mut() {
            match self.read_one(slot, message) {
                Err(refusal) => return status(refusal),
                Ok(false) => break,
                Ok(true) => count += 1,
            }
        }
        *got = count;
        0
    }

    // Reads a slot, and writes what was read if it is a message or the mark: whether it is.
    fn read_one(&mut self, slot: u64, out: &mut MessageOut) -> Result<bool, Refusal>
        ensures { ReadsOne (holds self.old) (holds self.new) slot result out.old out.new }
    {
        let reply = self.session.turn(&Event::Take(slot));
        match &reply {
            Reply::Took(Read::Update(_) | Read::Fin(_)) => {
                taken(&reply, out);
                Ok(true)
            }
            Reply::Refused(refusal) => Err(*refusal),
            _ => Ok(false),
        }
    }

    /// Ends a slot's subscription where it hasn't ended, reads its messages up to a read that gives
    /// none (or 2^64 - 1 of them), and finishes the slot.
    ///
    /// Refused as `finish`: `NotOpen` where the slot is free.
    pub fn drop_slot(&mut self, slot: u64) -> u32
        ensures { Drops (holds self.old) (holds self.new) slot result }
    {
        let mut covered = 0;
        self.close(slot, &mut covered);
        for _ in 0..u64::MAX {
            if !self.skip_message(slot) {
                break;
            }
        }
        self.finish(slot)
    }

    // Reads a slot: whether it gave a message.
    fn skip_message(&mut self, slot: u64) -> bool
        ensures { Skips (holds self.old) (holds self.new) slot result }
    {
        matches!(
            self.session.turn(&Event::Take(slot)),
            Reply::Took(Read::Update(_))
        )
    }
}
