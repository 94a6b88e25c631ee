//! Tests of the threaded server: scenarios, a reader's seat, reads that wait, and the model.
//!
//! A `Scenario` is tables of calls (`Act`), each with the expected answer (`Expected`). `stage`
//! plays it at a new server, and `Done::is_right` compares what was accepted and read with a plain
//! reference, which takes the difference of two whole results. Begin with `acts`, then `scenario`,
//! `party`, `acted`, `reader_log` and `reference`; the tests are in `scenarios`, `seats`, `waits`,
//! `followed` and `repeated_calls`, and the tables in `one_thread`, `more_threads` and `fills`.
#![tactic(auto)]

#[cfg(test)]
mod acted;
#[cfg(test)]
mod acts;
#[cfg(test)]
mod fills;
#[cfg(test)]
mod followed;
#[cfg(test)]
mod more_threads;
#[cfg(test)]
mod one_thread;
#[cfg(test)]
mod party;
#[cfg(test)]
mod random_changes;
#[cfg(test)]
mod reader_log;
#[cfg(test)]
mod reference;
#[cfg(test)]
mod repeated_calls;
#[cfg(test)]
mod scenario;
#[cfg(test)]
mod scenarios;
#[cfg(test)]
mod seats;
#[cfg(test)]
mod waits;
