//! The steps on a port's channel, with the passes that hold what each end knows, for contracts.
ghost use Rattle.crossbeam_channel.specs.Claims.{IsSeatAt};
ghost use Rattle.crossbeam_channel.specs.Ends.{sends_on};
ghost use Rattle.lq_port.specs.End.{known_of, IsPutter, IsTaker};
ghost use Rattle.lq_port.specs.Port.{Shares};

use crate::item_law::Follows;
use crate::port_steps::{Apart, Away, Beside, InOrder, Known, Total};
use crossbeam_channel::{Pass, RuledReceiver, RuledSender};
use std::alloc::Global;
use std::sync::Wait;

pub(crate) type PortSender<T> = RuledSender<T, Known<T, <T as Follows>::Floor>, InOrder, Global>;

pub(crate) type PortReceiver<T> = RuledReceiver<
    T,
    Known<T, <T as Follows>::Floor>,
    InOrder,
    Global,
>;

pub(crate) type PortPass<T> = Pass<T, Known<T, <T as Follows>::Floor>>;

// Waits for ever: no run gets here.
pub(crate) fn wait_for_ever<R: Wait>(rt: &R) -> ! {
    for _ in rt.forever() {}
    unreachable!()
}

// Joins what two ends know, and splits it again.
pub(crate) fn meet<T: Follows + Drop>(
    sender: &PortSender<T>,
    input: &mut PortPass<T>,
    output: &mut PortPass<T>,
)
    requires seats { IsSeatAt (sends_on sender.now) input.old
        × IsSeatAt (sends_on sender.now) output.old }
    requires roles { IsPutter (known_of input.old) × IsTaker (known_of output.old) }
    ensures seats { IsSeatAt (sends_on sender.now) input.new
        × IsSeatAt (sends_on sender.now) output.new }
    ensures roles { IsPutter (known_of input.new) × IsTaker (known_of output.new) }
    ensures shared { Shares (known_of input.old) (known_of output.old)
        (known_of input.new) (known_of output.new) }
{
    let other = sender.another::<Away>(output);
    sender.absorb::<Beside>(input, other);
    sender.learn_as::<Total>(input);
    *output = sender.another::<Apart>(input);
}
