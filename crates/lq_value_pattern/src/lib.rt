//! The elements of patterns, the sources that write them, and whether they fit a text.
//!
//! A contract sees a pattern as its list of elements. `specs/Written` says how a source writes
//! them, `specs/Source` how it is read, and `specs/Pattern` what they fit. Plain elements are
//! compared as text (`plain`), those with a star at an end are searched for as text (`starred`),
//! others are matched from star to star (`matching`), in a long text at many places at once
//! (`long`). Nothing here waits, and matching takes no memory. Tests: `patterns` of lq_core_tests.
//! Begin with `element`, then `source` and `matching`.
#![tactic(auto)]

mod build_masks;
mod copying;
mod element;
mod element_chars;
mod element_runs;
mod error;
mod first;
mod laws;
mod long;
mod match_masks;
mod matching;
mod piece;
mod plain;
mod set;
mod sign;
mod source;
mod starred;
mod window_search;

pub use copying::copy_elements;
pub use element::{Element, Item, Items};
pub use error::SourceError;
pub use first::first_char;
pub use laws::{faults_are_found, fits_are_splits, sources_are_read, sources_are_walked};
pub use matching::fits_text;
pub use piece::{FirstPiece, first_piece};
pub use plain::{fits_plain, plain_text};
pub use set::{FirstItem, first_item};
pub use source::read_elements;
pub use starred::Starred;
