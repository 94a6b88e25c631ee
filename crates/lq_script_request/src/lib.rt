//! What a script's lines ask, with the fields of their JSON.
//!
//! Contracts see a line as its bytes, its JSON as serde_json's data, and its meaning as a request
//! or the first fault that fits (`specs/Request`). Of equal keys the last one counts, and a text
//! with a number beyond the doubles is no value. A plain line is read by its bytes, without memory;
//! any other line by `serde_json::Value`. `fields` says which lines are plain. Both readers find
//! the same fields (`specs/Fields`). Of an array or an object within them only the kind is kept
//! (`specs/Shown`). Nothing here waits. Tests: `json_values` of lq_core_tests. Begin with
//! `request`, then `parse_line`, `fields` and `member`.
#![tactic(auto)]

mod field;
mod field_values;
mod fields;
mod key;
mod member;
mod parse_line;
mod quick_read;
mod raw_request;
mod request;
mod scratch;

pub use fields::Fields;
pub use key::Key;
pub use lq_desk_world::Event;
pub use parse_line::{read_request, request_in};
pub use raw_request::RawRequest;
pub use request::{Look, Request};
pub use scratch::{RecentAttrs, Scratch};
