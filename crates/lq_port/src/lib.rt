//! A port: a queue of fixed length with two ends, under a law for the list of all that was put.
//!
//! Contracts see an end as the record `End` of `specs/End`: which port it is, its places and floor,
//! what was taken, and what was put after that. `specs/Port` has the rule that joins the two ends.
//! `put`, `take` and `take_waiting` may wait. An end may cross threads if its items may. Tests:
//! `ports` of lq_core_tests. Begin with `item_law`, then `ends`.
#![tactic(auto)]

mod channel;
mod ends;
mod item_law;
mod port_steps;

pub use ends::{PortIn, PortOut, make};
pub use item_law::Follows;
