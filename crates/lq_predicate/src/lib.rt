//! Predicates: read from formulas, built by pushes in postfix order or from other predicates,
//! written as text, and evaluated for a row.
//!
//! Contracts see a predicate as a `Query` of lq_predicate_formula within the limits of a predicate,
//! and a row as what it shows under each attribute's name (its `PredicateLimits` and `Truth`). They
//! see a stack as its items and the number of pushes accepted (`specs/Stacked`; `specs/Stack` says
//! what each push gives, and when it doesn't fit). A formula is read twice: first without memory,
//! which finds its leftmost fault if it has one, and then to build the tree, by one `machine` with
//! two builders; `specs/Building` says what it has built of the specified machine's state. Nothing
//! here waits, and `holds` takes no memory. Tests: `predicates` and `predicate_copies` of
//! lq_core_tests. Begin with `predicate`, then `predicate_truth`, `formula_reader` and `stack`.
#![tactic(auto)]

mod builder;
mod canonical;
mod formula_reader;
mod literal_source;
mod machine;
mod operand;
mod predicate;
mod predicate_attributes;
mod predicate_truth;
mod read_whole;
mod sizes;
mod spans;
mod stack;
mod stack_comparison;
mod stack_fitting;
mod stack_item;
mod stack_op;
mod stop;
mod trees;

pub use canonical::write;
pub use formula_reader::read;
pub use lq_predicate_formula::{
    Row, bare_rows_fail, one_reading, truth_goes_by_names, truth_stays_beside_spans,
};
pub use predicate::Predicate;
pub use predicate_attributes::{names, needs_attribute};
pub use predicate_truth::holds;
pub use spans::Spans;
pub use stack::Stack;
pub use stack_op::StackOp;
