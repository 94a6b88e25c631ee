//! The script library: what the program `lq` does with its arguments, and scripts carried out by
//! one thread or by several.
//!
//! Contracts see the program's arguments as texts (`specs/Words` of lq_script_lines, which reads
//! them), what it writes as `specs/Written` says, and a script's output as the texts of a world's
//! answers to its lines (`specs/Script` of lq_script_desk). `run_threads` makes a server's public
//! calls, a line at a time, and does a run of `read` lines as a batch, with a thread for each slot.
//! Contracts say that each of these calls is safe, and that the server made no change but those
//! that the replies tell (`specs/Changes`). Tests show that its output is that of `run`. It may
//! wait. `thiserror` derives the display texts of `RunFault`. Tests: lq_thread_tests, and the
//! scenarios. Begin with `arguments`, then `threads`, `runner`, `server_session`, `batch` and
//! `workers`.
#![tactic(auto)]

mod arguments;
mod batch;
mod canonical_text;
mod commands;
mod gate;
mod input_lines;
mod reader_table;
mod runner;
mod server_session;
mod slot_calls;
mod tasks;
mod threads;
mod workers;

pub use arguments::program;
pub use canonical_text::check;
pub use gate::{Gate, OpenGate};
pub use lq_script_desk::run;
pub use lq_script_lines::{Client, Failed, Host, RunFault, Sink, Source};
pub use threads::run_threads;
