//! The program's edges: its arguments, and runs over a script: lines in, replies out, over devices
//! that may fail.
//!
//! Contracts see the arguments as texts (`specs/Words`), a device as the bytes that it has left or
//! has taken, an input as its list of lines (`specs/Lines`), and the responder to lines as rules on
//! a state. `specs/Output` says what a run has read and written when it answers. Nothing here
//! waits. Tests: `lines`, `clients` and `faults` of lq_thread_tests. Begin with `devices`, then
//! `responder`, then `script_run`; `command_line` stands alone.
#![tactic(auto)]

mod command_line;
mod devices;
mod input_pieces;
mod intake;
mod responder;
mod run_fault;
mod script_run;
mod writing;

pub use command_line::{Subcommand, WordsFault, subcommand_of};
pub use devices::{Client, Failed, Host, Sink, Source};
pub use input_pieces::{GATHERED, first_lf, lines_grow, run_at, take_piece};
pub use intake::{Intake, LF, MAX_BYTES, MAX_LINE, MAX_LINES, cut_cr};
pub use responder::Responder;
pub use run_fault::RunFault;
pub use script_run::{BLOCK, run_lines};
pub use writing::{out_of_memory, write_all, write_replies};
