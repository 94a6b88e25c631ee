//! The numbers of typed calls: statuses, which are a refusal's code or one from 40 on that only
//! typed calls have; and those that stand for kinds of entries and for operators.
ghost use Rattle.std.specs.Prelude.{◌≡◌};
ghost use Rattle.lq_value.specs.Refusal.{code_of};
ghost use Rattle.lq_embed.specs.Numbers.{kind_numbered, number_of_kind, op_numbered};

use lq_predicate::StackOp;
use lq_value::{Kind, Refusal};

/// The call was misuse.
pub(crate) const MISUSE: u32 = 40;

/// There is nothing to read.
pub(crate) const EMPTY: u32 = 41;

/// The mark was read before.
pub(crate) const ENDED: u32 = 42;

/// No value was bound for a parameter.
pub(crate) const NO_VALUE: u32 = 43;

/// No parameter has the number of a bound value.
pub(crate) const UNUSED_VALUE: u32 = 44;

/// The number of a refusal.
pub(crate) fn status(refusal: Refusal) -> u32
    ensures { result ≡ code_of refusal }
{
    refusal.code() as u32
}

/// The kind with this number: 0 a file, 1 a folder.
pub fn kind_numbered(number: u32) -> Option<Kind>
    ensures { result ≡ kind_numbered number }
{
    match number {
        0 => Some(Kind::File),
        1 => Some(Kind::Folder),
        _ => None,
    }
}

/// The number of a kind.
pub fn number_of_kind(kind: Kind) -> u32
    ensures { result ≡ number_of_kind kind }
{
    match kind {
        Kind::File => 0,
        Kind::Folder => 1,
    }
}

/// The operator with this number, from 1.
pub fn op_numbered(number: u32) -> Option<StackOp>
    ensures { result ≡ op_numbered number }
{
    match number {
        1 => Some(StackOp::Eq),
        2 => Some(StackOp::Ne),
        3 => Some(StackOp::Gt),
        4 => Some(StackOp::Ge),
        5 => Some(StackOp::Lt),
        6 => Some(StackOp::Le),
        7 => Some(StackOp::Contains),
        8 => Some(StackOp::BeginsWith),
        9 => Some(StackOp::EndsWith),
        10 => Some(StackOp::And),
        11 => Some(StackOp::Or),
        12 => Some(StackOp::Not),
        _ => None,
    }
}
