//! A single subscription: its query, the messages that it holds and its mark, without port or
//! thread; and the table of the 64 slots, with sets of them and one loop over the slots of a set.
//!
//! Contracts see how it was opened, the messages that it holds and its mark (`specs/Held`). The
//! desk puts its parcels into its own port, the server for threads into a shared one. Nothing here
//! waits. Tests: `subs` and `watches` of lq_core_tests. Begin with `sub`, then `prepare_commit`,
//! then `watch`; for the slots, `slot_table`.
#![tactic(auto)]

mod laws;
mod live_query;
mod messages;
mod prepare_commit;
mod read;
mod slot_index;
mod slot_set;
mod slot_table;
mod sub;
mod visit;
mod watch;

pub use laws::putting_back_undoes;
pub use read::Read;
pub use slot_index::SlotIndex;
pub use slot_set::SlotSet;
pub use slot_table::{SLOTS, SlotTable};
pub use sub::Sub;
pub use visit::Visit;
pub use watch::Watch;
