//! A result that is kept by folding messages into it, as a reader of a live query does.
ghost use Rattle.std.specs.Prelude.{◌≡◌, OnOk, OnErr};
ghost use Rattle.lq_value.specs.Refusal.{IsRefusedBy, first_refusal};
ghost use Rattle.lq_update.specs.Fold.{EntriesRise, fold_refusals, folding_after, opened_at};

use crate::fold::fold;
use crate::fold_progress::FoldProgress;
use crate::message::Message;
use lq_value::{Entry, Refusal};
use std::alloc::Global;
use std::marker::Model;

/// A query's result, kept by folding the messages of its subscription.
///
/// Contracts see it as a `Folding`: how many messages it has taken, whether the latest one was the
/// last of its change, the number of that change, and the entries by rising node.
///
/// ```rattle
/// use lq_update::{Message, Opcode, Rebuild};
/// use lq_value::Name;
///
/// let mut rebuild = Rebuild::new(alloc, 0, Vec::new(alloc));
/// let name = Name::read(alloc, "notes.txt")?;
/// let op = Opcode::Created;
/// rebuild.apply(&Message { seq: 1, change: 5, last: true, op, dir: 1, name, node: 2 })?;
/// assert!(rt; rebuild.is_settled() && rebuild.last_change() == 5);
/// assert!(rt; rebuild.result().len() == 1);
/// ```
#[derive(Drop)]
pub struct Rebuild {
    latest: FoldProgress,
    alloc: Global,
    entries: Vec<Entry>,
}

impl Model for Rebuild {
    ghost use Rattle.lq_update.specs.Fold.{Folding, EntriesRise};

    ghost Value = { Folding };

    ghost view = { λ r. record {
      seq = r.latest.seq;
      change = r.latest.change;
      settled = r.latest.last;
      entries = r.entries.items;
    } };

    ghost invariant = { λ r. EntriesRise r.entries.items };
}

impl Rebuild {
    /// The result at an opening, after `at` changes, before any message.
    ///
    /// The entries' nodes rise strictly, as in the result of a fetch. It takes no memory.
    pub fn new(alloc: Global, at: u64, entries: Vec<Entry>) -> Rebuild
        requires { EntriesRise entries.items }
        ensures { result ≡ opened_at at entries.items }
    {
        Rebuild {
            latest: FoldProgress::opening(at),
            alloc,
            entries,
        }
    }

    /// The entries by rising node. It takes no memory.
    pub fn result(&self) -> &[Entry]
        ensures entries { result.now ≡ self.now.entries }
        ensures rise { EntriesRise self.now.entries }
    {
        &self.entries
    }

    /// Whether it is settled (`Folding`): no message was taken yet, or the latest was the last of
    /// its change. `folds_give_results` says what the entries are then. It takes no memory.
    pub fn is_settled(&self) -> bool
        ensures { result ≡ self.now.settled }
    {
        self.latest.last
    }

    /// The number of the change of the latest message; before the first message, of the opening. It
    /// takes no memory.
    pub fn last_change(&self) -> u64
        ensures { result ≡ self.now.change }
    {
        self.latest.change
    }

    /// Takes the next message: a removed entry is taken out, a created one is put in, a moved one
    /// gets its new place; a message of a value leaves the entries as they are.
    ///
    /// Refused, the first that fits: `OutOfStep` where `seq` isn't one more than the latest (1 for
    /// the first), or `change` isn't above the latest message's although that was the last of its
    /// change, or differs from it although that wasn't; `Mismatch` where a removed entry, a moved
    /// one's old place or the entry of a value isn't in the result, or a created entry's node is;
    /// `NoMemory`. A refused message changes nothing.
    pub fn apply(&mut self, message: &Message) -> Result<(), Refusal>
        ensures refused { IsRefusedBy result (first_refusal (fold_refusals self.old message.now)) }
        ensures ok { OnOk result (self.new ≡ folding_after self.old message.now) }
        ensures err { OnErr result (self.new ≡ self.old) }
    {
        if !self.latest.is_followed_by(message) {
            return Err(Refusal::OutOfStep);
        }
        fold(self.alloc, &mut self.entries, message)?;
        self.latest = FoldProgress::of(message);
        Ok(())
    }
}
