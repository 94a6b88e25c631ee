//! The definition of the core of the live query server, and its laws.
//!
//! A world is a book of changes and the subscriptions over it (`specs/World`). `specs/Events` gives
//! the answer to each event and the world after it, `specs/Runs` a run of events, and
//! `specs/Headline` what a subscription reads in a run. The code declares the events and the laws:
//! functions that do nothing, whose contracts are the laws. Tests: `events` of lq_tests. Begin with
//! `specs/World`.
#![tactic(auto)]

mod event;
mod laws;

pub use event::{Act, Event};
pub use laws::{
    first_worlds_are_fair, lists_are_passed_on, readers_are_told, reads_are_passed_on,
    refusals_leave_worlds, runs_keep_worlds_fair, turns_fill_ports, turns_put_until_still,
};
pub use lq_update::{Flags, OpenOptions};
