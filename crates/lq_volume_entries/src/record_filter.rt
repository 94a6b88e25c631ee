//! A test of records, as a trait: a fetch asks it of each record, and the query is above this
//! crate.
ghost use Rattle.std.specs.Prelude.{◌≡◌, Bool};
ghost use Rattle.lq_volume_entries.specs.Record.{Record};

use crate::stored_record::StoredRecord;

/// A filter that each record passes or fails.
pub trait RecordFilter {
    /// Which records pass.
    ghost picks: { Self → Record → Bool };

    /// Whether a record passes. It takes no memory.
    fn passes(&self, stored: &StoredRecord) -> bool
        ensures { result ≡ picks self.now stored.now };
}
