//! Hands out the entries of a result, one or several in a call.
ghost use Rattle.std.specs.Prelude.{◌≡◌};
ghost use Rattle.lq_embed.specs.Calls.{GivesRow};
ghost use Rattle.lq_embed.specs.Outs.{row_after};
ghost use Rattle.lq_embed.specs.Rows.{TakesRows};
ghost use Rattle.lq_embed.specs.SessionState.{holds};

use crate::embedded::Embedded;
use crate::numbers::number_of_kind;
use crate::out_structs::{RowOut, put_text};
use lq_value::Entry;
use lq_volume::Volume;

impl Embedded {
    /// Writes the next entry of the last result; false, and nothing is written, where there is
    /// none. It takes no memory.
    pub fn next_entry(&mut self, out: &mut RowOut) -> bool
        ensures { GivesRow (holds self.old) (holds self.new) result out.old out.new
            (holds self.old).entries }
    {
        let Some(entry) = self.entries.next() else {
            return false;
        };
        put_row(self.session.volume(), &entry, out);
        true
    }

    /// Writes the next entries of the last result, one to each place of `out` from the first on,
    /// and answers how many they were: fewer than the places where none is left. It takes no
    /// memory.
    pub fn take_entries(&mut self, out: &mut [RowOut]) -> usize
        ensures { TakesRows (holds self.old) (holds self.new) result out.old out.new }
    {
        let mut count = 0;
        for row in out.iter_mut() {
            if !self.next_entry(row) {
                break;
            }
            count += 1;
        }
        count
    }
}

// Writes an entry of a result.
fn put_row(volume: &Volume, entry: &Entry, out: &mut RowOut)
    ensures { out.new ≡ row_after volume.now entry.now out.old }
{
    out.dir = entry.dir;
    out.node = entry.node;
    out.name_size = put_text(&mut out.name, entry.name.as_str().as_bytes());
    match volume.entry(entry.node) {
        Ok(there) => {
            out.size = there.size();
            out.time = there.time();
            out.kind = number_of_kind(there.kind());
        }
        Err(_) => {
            out.size = 0;
            out.time = 0;
            out.kind = 2;
        }
    }
}
