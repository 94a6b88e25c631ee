//! What a stack holds between two pushes: attributes, texts and finished predicates.
use crate::operand::Operand;
use crate::predicate::Predicate;
use lq_value::AttrName;

/// An item of a stack: an attribute, a value's text, or a predicate.
#[derive(Drop)]
pub enum StackItem {
    Attr(AttrName),
    Value(Operand),
    Part(Predicate),
}
