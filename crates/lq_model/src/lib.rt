//! Two models of how a program uses the server, from its beginning to its end.
//!
//! Their contracts say what is left at the end (`specs/Followed`). There is one book of changes,
//! and the volume is the state after it. For `follow` it has just the changes given. The reader has
//! received its query's whole update list up to its mark, and has the result after that. For
//! `two_callers` the book is just the two lists given, mixed. Calls may wait. Tests: `followed` of
//! lq_server_tests. Begin with `follow`.
#![tactic(auto)]

mod callers;
mod model;

pub use callers::two_callers;
pub use model::{Followed, follow};
