//! One volume: its tree of entries, the changes that it accepts, and the static query.
//!
//! Contracts see a volume as a `State` (`specs/State`), which is always a tree. `specs/Change` says
//! when a change is refused and what the state is after an accepted one; `specs/Lookup` says when a
//! look-up is refused; `specs/Result` gives the result of a query; `specs/Restore` says which
//! numbers and entries are a volume. The entries are kept by lq_volume_entries. Nothing here waits.
//! Tests: lq_tests. Begin with `change`, then `volume`, then `lookup`, then `restoring`.
#![tactic(auto)]

mod change;
mod checks;
mod entry_ref;
mod entry_row;
mod laws;
mod lookup;
mod planned;
mod restore_fault;
mod restoring;
mod saved;
mod volume;
mod walks;

pub use change::{Applied, Change, Resolved};
pub use entry_ref::{EntryRef, Listing};
pub use entry_row::EntryRow;
pub use laws::{
    accepted_changes_keep_trees, changes_are_counted, clobbered_nodes_go, untouched_nodes_stay,
    volumes_are_restored, walks_are_bounded,
};
pub use lq_volume_entries::values_are_found;
pub use planned::{Planned, WrittenNumbers};
pub use restore_fault::RestoreFault;
pub use restoring::Restoring;
pub use saved::Saved;
pub use volume::{MAX_CHANGES, Volume};
