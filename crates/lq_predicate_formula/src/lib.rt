//! Formulas and their queries, for lq_predicate: tokens, queries as trees, and canonical texts.
//!
//! Contracts see a text as its bytes, its tokens as a list (`specs/Tokens`) and their meaning as a
//! `Query` (`specs/Query`, `specs/Grammar`). `specs/Faults` says what a text reads as and where it
//! is faulty, `specs/Canonical` writes a query, `specs/Truth` says when it is true of a row, and
//! `specs/PredicateLimits` when it is a predicate. `specs/Lexing`, `Machine` and `MachineReading`
//! say how a token and a reading are found, for the law `machine_reads` and for functions of this
//! crate and of lq_predicate. Nothing here waits, and asking takes no memory. Tests: `predicates`
//! of lq_core_tests, through lq_predicate. Begin with `token`, then `laws`, then `tree` and `row`,
//! then `tree/truth`, `text_sink` and `write_comparison`.
#![tactic(auto)]

mod count;
mod fitting;
mod laws;
mod leading_token;
mod lexer;
mod raw;
mod raw_size;
mod row;
mod size;
mod source_size;
mod span;
mod text_sink;
mod token;
mod tree;
mod write_comparison;

pub use fitting::{fit_joined, fits_not};
pub use laws::{
    bare_rows_fail, canonical_is_read, joined_texts_add, machine_reads, one_reading,
    one_token_list, patterns_are_good, read_is_good, reads_one, truth_goes_by_names,
    truth_stays_beside_spans,
};
pub use lexer::next_token;
pub use raw::{is_name, read_literal, read_name};
pub use raw_size::{joined_size, raw_literal_size, raw_name_size};
pub use row::Row;
pub use size::{
    characters_size, comparison_size, comparison_size_with, pair_size, pattern_size, plain_size,
};
pub use span::Span;
pub use token::{Cursor, Placed, Token};
pub use tree::Tree;
