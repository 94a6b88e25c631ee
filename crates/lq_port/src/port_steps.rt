//! What an end knows of its port, and the steps that change it. These types have no values.
use crate::item_law::Follows;
use crossbeam_channel::protocol::{Join, Lesson, Outcome, Protocol, Split};
use std::marker::{Brand, Model, PhantomData};

/// What one end knows, as contracts see it: a `Known` of `specs/Known`.
pub struct Known<T, F> {
    floor: F,
    items: PhantomData<T>,
}

impl<T, F> Model for Known<T, F> {
    ghost use Rattle.lq_port.specs.Known.{Known, nothing_known};

    ghost Value = { Known T F };

    ghost view = { λ v. nothing_known v.floor };
}

/// The rule of a port's channel: its items leave in the order in which they were put.
pub struct InOrder;

impl<T: Follows> Protocol<T, Known<T, T::Floor>> for InOrder {
    ghost use Rattle.std.specs.Prelude.{true, []};
    ghost use Rattle.lq_port.specs.Port.{PortRule, known_alone};

    ghost holds = { PortRule T.follows };

    ghost first = { known_alone 0 true true T.no_floor [] [] };
}

// Splits a pass that has both roles into an end for puts and one for takes.
pub(crate) struct Apart;

impl<T, F> Split<Known<T, F>> for Apart {
    ghost use Rattle.lq_port.specs.Port.{putter, taker};

    ghost left = { λ v. putter v.room v.floor v };

    ghost right = { λ v. taker v.room v.floor v };
}

// Splits the pass of a new port into its two ends. The call picks the room and the floor.
impl<T, F> Split<Known<T, F>> for Brand {
    ghost use Rattle.lq_port.specs.Port.{putter, taker};

    ghost left = { λ v. putter v.room v.floor v };

    ghost right = { λ v. taker v.room v.floor v };
}

// The end for takes gives away all that it knows, and may do nothing more.
pub(crate) struct Away;

impl<T, F> Split<Known<T, F>> for Away {
    ghost use Rattle.lq_port.specs.Port.{idle};

    ghost left = { λ v. idle v };

    ghost right = { λ v. v };
}

// Joins both ends into one pass, which knows what each of them knew.
pub(crate) struct Beside;

impl<T: Follows> Join<Known<T, T::Floor>> for Beside {
    ghost use Rattle.std.specs.Prelude.{false, []};
    ghost use Rattle.lq_port.specs.Port.{known_alone, together};

    ghost both = { together };

    ghost spent = { known_alone 0 false false T.no_floor [] [] };
}

// What a put teaches its end, and what it teaches where the port is full.
pub(crate) struct Put;

impl<T, F> Outcome<T, Known<T, F>> for Put {
    ghost use Rattle.lq_port.specs.Port.{AddsItem};

    ghost then = { AddsItem };
}

impl<T, F> Lesson<T, Known<T, F>> for Put {
    ghost use Rattle.std.specs.Prelude.{◌≤◌, length};

    ghost fact = { λ v items. length items ≤ length v.ahead };
}

// What a take teaches its end, and what it teaches where the port is empty.
pub(crate) struct Take;

impl<T: Follows> Outcome<T, Known<T, T::Floor>> for Take {
    ghost use Rattle.lq_port.specs.Port.{Removes};

    ghost then = { Removes T.follows };
}

impl<T, F> Lesson<T, Known<T, F>> for Take {
    ghost use mathlib.Core.List.{IsPrefix};

    ghost fact = { λ v items. IsPrefix v.ahead items };
}

// What the joined pass knows of the port's content.
pub(crate) struct Total;

impl<T, F> Lesson<T, Known<T, F>> for Total {
    ghost use Rattle.lq_port.specs.Port.{Totals};

    ghost fact = { Totals };
}
