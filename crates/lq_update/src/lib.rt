//! The effect of one change on one query's result, as numbered messages.
//!
//! Contracts see the messages of a query over a book of changes as a list (`specs/Updates`). This
//! list depends only on the results before and after each change (`specs/Diff`). Nothing here
//! waits. Tests: `bodies`, `folds`, `creates` and `skipped_writes` of lq_tests. Begin with
//! `message`, then `stepping`, then `rebuild`.
#![tactic(auto)]

mod difference;
mod fold;
mod fold_progress;
mod indexed_rebuild;
mod laws;
mod locations;
mod mark;
mod matches;
mod message;
mod message_list;
mod number_writes;
mod open_options;
mod parcel;
mod rebuild;
mod stepping;
mod values;

pub use indexed_rebuild::IndexedRebuild;
pub use laws::{
    bare_creates_tell_nothing, changes_add_steps, changes_pass_over, foldings_follow,
    folds_give_results, messages_fit_in, quiet_changes_keep_matches, rebuilds_take_all,
    results_rise, settled_is_tested, steps_are_few, updates_are_prefixes, updates_begin_empty,
    updates_grow, updates_join, updates_stay, values_are_shown, values_are_told,
    whole_folds_give_results,
};
pub use mark::{Cause, Mark};
pub use matches::{Matches, matches_of, matches_once};
pub use message::{Message, Opcode};
pub use number_writes::writes_cross_no_number;
pub use open_options::{Flags, OpenOptions};
pub use parcel::Parcel;
pub use rebuild::Rebuild;
pub use stepping::{MAX_STEP, step, step_by, step_planned};
