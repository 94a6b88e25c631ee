//! A session for a caller without lines: typed calls with numbered statuses, and what they give
//! kept until it is asked for.
//!
//! Contracts see what an embedded session holds as a `SessionState` (`specs/SessionState`). Each
//! call makes the request that a line with the same fields makes (`specs/Requests`), and
//! `specs/Calls` ties a call's status and what it writes to the answer. The structs have C's
//! layout. Nothing here waits. Tests: `tests/c` and `tests/python`, through lq_c. Begin with
//! `embedded`, then `changes`, then `live_queries`.
#![tactic(auto)]

mod answer_lines;
mod attrs;
mod bound_formula;
mod bound_values;
mod changes;
mod embedded;
mod find_path;
mod folders;
mod laws;
mod live_queries;
mod lookups;
mod numbers;
mod options;
mod out_structs;
mod parameters;
mod pushes;
mod quoting;
mod reads;
mod restorer;
mod rows;
mod saves;

pub use embedded::Embedded;
pub use laws::{bound_formulas_are_read, embedded_may_be_sent, texts_are_meant};
pub use out_structs::{
    AppliedOut, AttrOut, FetchedOut, InfoOut, MessageOut, OpenOptions, OpeningOut, RebuiltOut,
    RowOut, put_text,
};
pub use pushes::Push;
pub use quoting::has_meaning;
pub use restorer::Restorer;
pub use saves::NumbersOut;
