//! The core of the live query server with its ports: one event at a time, without threads.
//!
//! Contracts see a desk as a world of lq_desk_world: a book of changes and the subscriptions over
//! it. No code holds that world (`witness`). What the code keeps is what it would keep for that
//! world (`specs/DeskState`): the volume, and of each subscription what wasn't read yet, as
//! lq_desk_sub shows it, with what is in its port (`specs/Slot`). Nothing here waits. Tests:
//! lq_tests. Begin with `event` of lq_desk_world, then `desk`.
#![tactic(auto)]

mod desk;
mod desk_slots;
mod engine;
mod laws;
mod reply;
mod slot;
mod witness;

pub use desk::Desk;
pub use laws::desks_may_be_sent;
pub use lq_desk_sub::{Read, SLOTS, Sub};
pub use lq_desk_world::Event;
pub use reply::Reply;
