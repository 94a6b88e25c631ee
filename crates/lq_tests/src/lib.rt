//! Tests that cross crates: worked examples as lists of events (`events`), each call that may give
//! up with memory for each variant of its arguments (`variants`), listings and paths (`listings`),
//! calls that are given again where memory ran out (`again`), the plain body of `step` beside the
//! fast one (`plain_step`, `bodies`), and changes without a message (`skipped_writes`, `creates`).
//! And calls that no script and no other test makes (`value_calls`, `entry_rows`, `folds`,
//! `restores`). Begin with `events`. Nothing here waits.
#![tactic(auto)]

#[cfg(test)]
mod act;
#[cfg(test)]
mod again;
#[cfg(test)]
mod ask;
#[cfg(test)]
mod bodies;
#[cfg(test)]
mod creates;
#[cfg(test)]
mod entry_rows;
#[cfg(test)]
mod events;
#[cfg(test)]
mod fits;
#[cfg(test)]
mod folds;
#[cfg(test)]
mod listings;
#[cfg(test)]
mod plain_step;
#[cfg(test)]
mod restores;
#[cfg(test)]
mod skipped_writes;
#[cfg(test)]
mod value_calls;
#[cfg(test)]
mod variants;
