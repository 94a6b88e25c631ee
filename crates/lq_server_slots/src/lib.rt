//! What is under the server's lock: the volume, the keeper of the board, and the 64 slots of
//! subscriptions, each with its port. A server's call locks it for one method of `ServerState`.
//!
//! Each parcel carries the keeper's book, for contracts alone (`ghost_copy`); `specs/Rule` says
//! which parcel may follow. A subscription under the lock stands over a book (`IsConsistentAt` of
//! `specs/Standing`), and the reading end is a `ReadingHold` (`specs/Reading`). Contracts see
//! `ServerSlots` by its fields: `AreConsistent` (`specs/Slots`) says how far each taken slot has
//! followed a book. Puts and takes may wait for a port's other end. Tests: lq_server_tests. Begin
//! with `delivery`, `subscription`, `fill_port` and `reading`, then `slots` and `server_state`.
#![tactic(auto)]

mod apply_change;
mod change_passes;
mod close;
mod delivery;
mod fill_port;
mod ghost_copy;
mod identity;
mod laws;
mod open;
mod reading;
mod server_base;
mod server_state;
mod slots;
mod subscription;
mod sync;
mod take_parcel;

pub use delivery::Delivery;
pub use identity::{Identity, LastReport};
pub use laws::{
    acts_show_worlds, books_extend_on, books_extend_themselves, made_are_runs, puts_are_runs,
    refused_are_runs, slots_show_worlds, states_stay,
};
pub use open::Opened;
pub use reading::Reading;
pub use server_base::{Base, Named, Seat};
pub use server_state::{Found, ServerState};
pub use slots::ServerSlots;
pub use subscription::Subscription;
pub use sync::Progress;
