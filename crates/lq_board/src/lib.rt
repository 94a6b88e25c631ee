//! Atomic words beside a lock: the number of changes, and how often each slot's seat has asked.
//!
//! A keeper adds changes, and seats read the number without the lock. A contract sees a token as a
//! `KeeperToken` or a `SeatToken` (`specs/Token`), each with a lawful book. Each change has an
//! author, the seat that made it (`specs/Author`). Where a seat leads, just those that it enlists
//! make changes, and it gathers their numbers. `specs/Rule` has the rule that relates the tokens.
//! Nothing here waits. Tests: `boards` of lq_core_tests. Begin with `tokens`, then `board`.
#![tactic(auto)]

mod board;
mod meet_calls;
mod shared_steps;
mod token_views;
mod tokens;
mod word_steps;

pub use board::Board;
pub use tokens::{Keeper, Seat};
