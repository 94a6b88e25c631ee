//! A result that is kept by folding messages into a map by node: for large results, where `Rebuild`
//! would move entries at each message.
ghost use Rattle.std.specs.Prelude.{◌≡◌, IfOk, OnOk, OnErr};
ghost use Rattle.lq_value.specs.Refusal.{FailsOnlyForMemory, IsRefusedBy, first_refusal};
ghost use Rattle.lq_update.specs.Fold.{EntriesRise, fold_refusals, folding_after, opened_at};

use crate::fold_progress::FoldProgress;
use crate::locations::{Location, entries_of, fold_into, locations_of};
use crate::message::Message;
use lq_value::{Entry, Refusal};
use std::alloc::Global;
use std::collections::BTreeMap;
use std::marker::Model;

/// A query's result as in `Rebuild`, but kept in a map by node. As the code says, a message costs
/// time logarithmic in the number of entries. There is no slice of the entries.
///
/// Contracts see it as a `Folding`, as they see a `Rebuild`.
#[derive(Drop)]
pub struct IndexedRebuild {
    latest: FoldProgress,
    alloc: Global,
    locations: BTreeMap<u64, Location>,
}

impl Model for IndexedRebuild {
    ghost use Rattle.lq_update.specs.Fold.{Folding, EntriesRise};
    ghost use Rattle.lq_update.specs.Locations.{entries_of};

    ghost Value = { Folding };

    ghost view = { λ r. record {
      seq = r.latest.seq;
      change = r.latest.change;
      settled = r.latest.last;
      entries = entries_of r.locations.entries;
    } };

    ghost invariant = { λ r. EntriesRise (entries_of r.locations.entries) };
}

impl IndexedRebuild {
    /// The result at an opening, after `at` changes, before any message.
    ///
    /// The entries' nodes rise strictly, as in the result of a fetch. Refused: `NoMemory`.
    pub fn new(alloc: Global, at: u64, entries: &[Entry]) -> Result<IndexedRebuild, Refusal>
        requires { EntriesRise entries.now }
        ensures refused { FailsOnlyForMemory result }
        ensures value { IfOk result (λ rebuild. rebuild ≡ opened_at at entries.now) }
    {
        Ok(IndexedRebuild {
            latest: FoldProgress::opening(at),
            alloc,
            locations: locations_of(alloc, entries)?,
        })
    }

    /// A copy of the entries by rising node. Refused: `NoMemory`.
    pub fn entries(&self) -> Result<Vec<Entry>, Refusal>
        ensures refused { FailsOnlyForMemory result }
        ensures entries { IfOk result (λ entries. entries.items ≡ self.now.entries) }
        ensures rise { EntriesRise self.now.entries }
    {
        entries_of(self.alloc, &self.locations)
    }

    /// Whether it is settled (`Folding`): no message was taken yet, or the latest was the last of
    /// its change. `folds_give_results` says what the entries are then. It takes no memory.
    pub fn is_settled(&self) -> bool
        ensures { result ≡ self.now.settled }
    {
        self.latest.last
    }

    /// The number of the change of the latest message; before the first message, of the opening. It
    /// takes no memory.
    pub fn last_change(&self) -> u64
        ensures { result ≡ self.now.change }
    {
        self.latest.change
    }

    /// Takes the next message, as `Rebuild::apply` does and with the same refusals. A refused
    /// message changes nothing.
    pub fn apply(&mut self, message: &Message) -> Result<(), Refusal>
        ensures refused { IsRefusedBy result (first_refusal (fold_refusals self.old message.now)) }
        ensures ok { OnOk result (self.new ≡ folding_after self.old message.now) }
        ensures err { OnErr result (self.new ≡ self.old) }
    {
        if !self.latest.is_followed_by(message) {
            return Err(Refusal::OutOfStep);
        }
        fold_into(self.alloc, &mut self.locations, message)?;
        self.latest = FoldProgress::of(message);
        Ok(())
    }
}
