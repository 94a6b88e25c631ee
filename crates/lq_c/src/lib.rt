//! The proved calls of the library for C, over an embedded session of lq_embed.
//!
//! `c/lq.c` makes the functions of `include/lq.h` of them: it tests the arguments that C passes,
//! which the contracts here take as tested. Contracts see a handle as what the session behind it
//! holds (`specs/Held`), and say of each call what lq_embed says of it. `handle` has all the
//! `unsafe` code. Nothing here waits. Tests: `tests/c` and `tests/python`. Begin with `handles`.
#![tactic(auto)]

mod attr_calls;
mod change_calls;
mod folder_calls;
mod formula_calls;
mod handle;
mod handle_numbers;
mod handle_target;
mod handles;
mod live_query_calls;
mod lookup_calls;
mod outs;
mod push_calls;
mod restore_calls;
mod results;
mod save_calls;
