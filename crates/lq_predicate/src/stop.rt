//! Why a reading stops: at a fault of the text, or where what it builds fails.

// The text has a fault, or what builds from it failed.
#[derive(Drop)]
pub(crate) enum Stop<F, E> {
    Fault(F),
    Failed(E),
}

impl<F, E> From<E> for Stop<F, E> {
    ghost use Rattle.std.specs.Prelude.{◌≡◌};
    ghost use Rattle.lq_predicate.specs.declared.stop.Stop.TheVariants.{Failed};

    ghost from_gives = { λ e stop. stop ≡ Failed e };

    fn from(e: E) -> Stop<F, E> {
        Stop::Failed(e)
    }
}
