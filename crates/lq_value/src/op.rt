//! The six operators between an attribute and a literal.
ghost use Rattle.std.specs.Prelude.{◌≡◌};

use std::cmp::Ordering;

/// The operator between the two sides of a comparison, as in BQuery.
#[derive(Clone, Copy, Debug, PartialEq, Eq)]
pub enum Op {
    Eq,
    Ne,
    Lt,
    Le,
    Gt,
    Ge,
}

impl Op {
    ghost use Rattle.lq_value.specs.Compare.{accepts};

    /// Whether the operator accepts the order of the two sides. It takes no memory.
    pub fn accepts(self, order: Ordering) -> bool
        ensures { result ≡ accepts self order }
    {
        match self {
            Op::Eq => order.is_eq(),
            Op::Ne => order.is_ne(),
            Op::Lt => order.is_lt(),
            Op::Le => order.is_le(),
            Op::Gt => order.is_gt(),
            Op::Ge => order.is_ge(),
        }
    }
}
