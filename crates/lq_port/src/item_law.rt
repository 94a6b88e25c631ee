//! The law for the items of a port, by which the end that takes an item knows that it may come
//! next.
ghost use Rattle.std.specs.Prelude.{List};

/// An item that may be put into a port.
///
/// `follows before floor item` says that the item may come next, where `before` is all that was put
/// so far and `floor` is the port's. `put` requires it, so the end that takes an item knows it. The
/// floor is a value that only contracts read; `make` fixes it. `no_floor` is any value of its type,
/// for use where there is no floor. The law is our own.
pub trait Follows {
    type Floor;

    ghost follows: { List Self → Self.Floor → Self → Type 0 };

    ghost no_floor: { Self.Floor };
}
