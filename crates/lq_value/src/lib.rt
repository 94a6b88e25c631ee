//! Names, values, texts, refusals, patterns and literals, for all other crates.
//!
//! A contract sees a name or a text as its bytes, and a pattern as its list of elements. What a
//! pattern fits and how a source writes it is said by lq_value_pattern. Nothing here waits, and
//! comparing takes no memory. Tests: `patterns` and `displays` of lq_core_tests, `values` of
//! lq_tests. Begin with `refusal`, then `value`, `name`, `pattern` and `literal`.
#![tactic(auto)]

mod attr_field;
mod attr_name;
mod digits;
mod entry;
mod kind;
mod limits;
mod literal;
mod name;
mod name_text;
mod op;
mod pattern;
mod refusal;
mod short_text;
mod small_text;
mod text;
mod value;
mod value_text;
mod view;

pub use attr_field::Field;
pub use attr_name::AttrName;
pub use digits::number_of_bytes;
pub use entry::Entry;
pub use kind::Kind;
pub use limits::{
    MAX_ATTR_NAME, MAX_BACKLOG, MAX_COMPARISONS, MAX_DEPTH, MAX_FORMULA, MAX_NAME, MAX_PLACES,
    MAX_VALUE_TEXT,
};
pub use literal::{Literal, compare};
pub use lq_value_pattern::{
    Element, FirstItem, FirstPiece, Item, Items, faults_are_found, first_item, first_piece,
    sources_are_read, sources_are_walked,
};
pub use name::Name;
pub use op::Op;
pub use pattern::{Elements, Pattern};
pub use refusal::Refusal;
pub use text::{Text, same_text};
pub use value::Value;
pub use value_text::ValueText;
pub use view::View;
