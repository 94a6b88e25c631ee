//! Scripts carried out by a desk, a single line and a whole run, and the texts of their replies.
//!
//! Contracts see a response as what it says (`specs/Response`), and its text as serde_json's
//! compact text of its data (`specs/Reply`), with LF. The code makes no such data: it appends the
//! text piece by piece (`pieces`, `quoted_text`) to a buffer (`specs/Front`). They see a session as
//! its desk's world and the result read from each slot (`specs/Folds`), and a script's output as
//! the texts of that world's answers to its lines (`specs/Script`). `specs/History` ties the lines
//! to the headline. `output` holds replies until they are written (`specs/Writes`). Nothing here
//! waits. Tests: `plain_reply` and `replies` of lq_core_tests, and the scenarios. Begin with
//! `response` and `reply_text`, then `session` and `script`.
#![tactic(auto)]

mod laws;
mod listing;
mod message_text;
mod output;
mod pieces;
mod quoted_text;
mod rebuilds;
mod reply_text;
mod response;
mod script;
mod session;

pub use laws::{scripts_tell_readers, sessions_may_be_sent, sessions_tell_readers};
pub use lq_desk::{Reply, SLOTS};
pub use output::Output;
pub use reply_text::{put_event_reply, put_reply};
pub use response::Response;
pub use script::run;
pub use session::Session;
