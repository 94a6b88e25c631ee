//! The two ends of a port, for two threads: one puts items, the other takes them in order.
ghost use Rattle.std.specs.Prelude.{◌≡◌, ◌≤◌, ℕ, [], length, IfOk, IfErr, OnOk, OnErr};
ghost use Rattle.lq_value.specs.Refusal.{IsRefusedBy};
ghost use Rattle.lq_port.specs.End.{all_put, IsSamePort, Gains, IsTake, AreBeside};
ghost use Rattle.lq_port.specs.Port.{port_refusal};

use crate::channel::{PortPass, PortReceiver, PortSender, meet, wait_for_ever};
use crate::item_law::Follows;
use crate::port_steps::{InOrder, Known, Put, Take};
use crossbeam_channel::{TrySendError, bounded_with};
use lq_value::{MAX_PLACES, Refusal};
use std::alloc::Global;
use std::marker::{Brand, Model};
use std::sync::Wait;

/// The end of a port for puts.
///
/// It knows all that was put, and a prefix of what was taken: each put tells it how many items wait
/// then, and so does `beside`. It keeps a receiving end itself, so a
/// port whose `PortOut` was dropped fills up and is then full, as tests show. After 2^61 puts every
/// further put waits for ever, as the code says.
///
/// ```rattle
/// use lq_port::{Follows, make};
///
/// #[derive(Drop)]
/// struct Item(u64);
///
/// impl Follows for Item {
///     type Floor = ();
///     ghost follows = { λ before floor item. Unit {0} };
///     ghost no_floor = { tt };
/// }
///
/// let (mut input, mut output) = make::<Item>(alloc, 1, &())?;
/// assert!(rt; input.put(&rt, Item(7)).is_ok());
/// assert!(rt; matches!(input.put(&rt, Item(8)), Err(Item(8))));
/// assert!(rt; matches!(output.take(&rt), Some(Item(7))));
/// ```
#[derive(Drop)]
pub struct PortIn<T: Follows + Drop> {
    sender: PortSender<T>,
    own: PortReceiver<T>,
    pass: PortPass<T>,
    count: u64,
}

/// The end of a port for takes.
///
/// It knows all that was taken, and a prefix of what was put. The example of `PortIn` has both.
#[derive(Drop)]
pub struct PortOut<T: Follows + Drop> {
    receiver: PortReceiver<T>,
    pass: PortPass<T>,
    count: u64,
}

impl<T: Follows + Drop> Model for PortIn<T> {
    ghost use Rattle.std.specs.Prelude.{◌≡◌, ◌≤◌, length};
    ghost use Rattle.crossbeam_channel.specs.Claims.{IsSeatAt};
    ghost use Rattle.crossbeam_channel.specs.Ends.{sends_on};
    ghost use Rattle.lq_port.specs.End.{End, end_of, known_of, IsPutter};
    ghost use Rattle.lq_port.specs.Port.{IsLegal, put_of};

    ghost Value = { End T T.Floor };

    ghost view = { λ end. end_of (sends_on end.sender) end.pass };

    ghost invariant = { λ end. IsSeatAt (sends_on end.sender) end.pass
        × IsPutter (known_of end.pass)
        × (end.count ≡ length (put_of (known_of end.pass)))
        × IsLegal T.follows (known_of end.pass).floor (put_of (known_of end.pass))
        × ((known_of end.pass).room ≡ (sends_on end.sender).cap)
        × (length (known_of end.pass).ahead ≤ (known_of end.pass).room) };
}

impl<T: Follows + Drop> Model for PortOut<T> {
    ghost use Rattle.std.specs.Prelude.{◌≡◌, length};
    ghost use Rattle.crossbeam_channel.specs.Claims.{IsSeatAt};
    ghost use Rattle.crossbeam_channel.specs.Ends.{receives_on};
    ghost use Rattle.lq_port.specs.End.{End, end_of, known_of, IsTaker};
    ghost use Rattle.lq_port.specs.Port.{IsLegal, put_of};

    ghost Value = { End T T.Floor };

    ghost view = { λ end. end_of (receives_on end.receiver) end.pass };

    ghost invariant = { λ end. IsSeatAt (receives_on end.receiver) end.pass
        × IsTaker (known_of end.pass)
        × (end.count ≡ length (known_of end.pass).taken)
        × IsLegal T.follows (known_of end.pass).floor (put_of (known_of end.pass)) };
}

/// The two ends of a new port with this many places.
///
/// `places` is 1 to 1,024. Every item follows the floor, which only contracts read. Refused, the
/// first that fits: `BadPort` where `places` is 0 or above 1,024, `NoMemory`. Puts and takes need
/// no further memory. The limit is our own.
pub fn make<T: Follows + Drop>(
    alloc: Global,
    places: u64,
    floor: &T::Floor,
) -> Result<(PortIn<T>, PortOut<T>), Refusal>
    ensures places { IfOk result (λ ends. ends.0.places ≡ places) }
    ensures floor { IfOk result (λ ends. ends.0.floor ≡ floor.now) }
    ensures empty { IfOk result (λ ends. (ends.0.taken ≡ []) × (ends.0.ahead ≡ [])) }
    ensures ends { IfOk result (λ ends. ends.1 ≡ ends.0) }

    // For a valid number of places only `NoMemory` can refuse.
    ensures refused { IsRefusedBy result (port_refusal places) }
{
    make_at(alloc, places, floor)
}

// `named` is for the proof: this call picks it, and the split of the first pass picks it again.
fn make_at<T: Follows + Drop>(
    alloc: Global,
    places: u64,
    floor: &T::Floor,
) -> Result<(PortIn<T>, PortOut<T>), Refusal>
    ghost named: { ℕ × T.Floor }
    requires named { (named.0 ≡ places) × (named.1 ≡ floor.now) }
    ensures places { IfOk result (λ ends. ends.0.places ≡ places) }
    ensures floor { IfOk result (λ ends. ends.0.floor ≡ floor.now) }
    ensures empty { IfOk result (λ ends. (ends.0.taken ≡ []) × (ends.0.ahead ≡ [])) }
    ensures ends { IfOk result (λ ends. ends.1 ≡ ends.0) }

    ensures refused { IsRefusedBy result (port_refusal places) }
{
    let _ = floor;
    if places == 0 || places > MAX_PLACES {
        return Err(Refusal::BadPort);
    }
    let (sender, receiver, mut pass) = bounded_with::<T, Known<T, T::Floor>, InOrder, Global>(
        alloc,
        places as usize,
    )?;
    let own = receiver.try_clone()?;
    let other = sender.another::<Brand>(&mut pass);
    Ok((
        PortIn {
            sender,
            own,
            pass,
            count: 0,
        },
        PortOut {
            receiver,
            pass: other,
            count: 0,
        },
    ))
}

impl<T: Follows + Drop> PortIn<T> {
    /// Puts an item at the back. The end then knows what waits at that moment.
    ///
    /// `Err` gives the item back, only where as many items waited as the port has places when this
    /// end last knew: after its last put, or after the two ends last met. The end is then
    /// unchanged. No clause says that the port was full at some moment of the call. As the code
    /// says, it may wait for a step of the other end, but not for a place. It takes no memory.
    pub fn put<R: Wait>(&mut self, rt: &R, item: T) -> Result<(), T>
        requires follows { T.follows (all_put self.old) self.old.floor item }
        ensures ok { OnOk result (Gains self.old item self.new) }
        ensures port { IsSamePort self.old self.new }

        // `Err` gives the item back, where this end knows of no free place in the port.
        ensures back { IfErr result (λ back. back ≡ item) }
        ensures full { OnErr result (length self.old.ahead ≡ self.old.places) }
        ensures err { OnErr result (self.new ≡ self.old) }
    {
        if self.count == u64::MAX {
            wait_for_ever(rt);
        }
        match self.sender.try_send_as::<Put, R>(rt, &mut self.pass, item) {
            Ok(()) => {
                self.count += 1;
                Ok(())
            }
            Err(TrySendError::Full(back)) => Err(back),
            // This end keeps a receiving end, so the channel is never without one.
            Err(_) => wait_for_ever(rt),
        }
    }
}

impl<T: Follows + Drop> PortOut<T> {
    /// Takes the item at the front.
    ///
    /// `None` only where this end knows of no waiting item; the end is then unchanged. No clause
    /// says that the port was empty at some moment of the call. As the code says, it may wait for a
    /// step of the other end, but not for an item. It takes no memory.
    pub fn take<R: Wait>(&mut self, rt: &R) -> Option<T>
        ensures { IsTake T.follows self.old result self.new }
    {
        if self.count == u64::MAX {
            wait_for_ever(rt);
        }
        let Ok(item) = self.receiver.try_recv_as::<Take, R>(rt, &mut self.pass) else {
            return None;
        };
        self.count += 1;
        Some(item)
    }

    /// Takes the item at the front, and waits for one if there is none.
    ///
    /// `None` only where this end knows of no waiting item; the end is then unchanged. Tests show
    /// that its `PortIn` is gone then. It takes no memory.
    pub fn take_waiting<R: Wait>(&mut self, rt: &R) -> Option<T>
        ensures { IsTake T.follows self.old result self.new }
    {
        if self.count == u64::MAX {
            wait_for_ever(rt);
        }
        let Ok(item) = self.receiver.recv_as::<Take, R>(rt, &mut self.pass) else {
            return None;
        };
        self.count += 1;
        Some(item)
    }

    /// How many items were taken through this end.
    ///
    /// It neither waits nor takes memory.
    pub fn taken(&self) -> u64
        ensures { result ≡ length self.now.taken }
    {
        self.count
    }

    /// How many items wait, found with both ends at hand.
    ///
    /// They are no more than the port's places. Afterwards each end knows all that was put and all
    /// that was taken. Both ends know the same waiting items, which begin with those that this end
    /// knew before. It doesn't wait and takes no memory.
    pub fn beside(&mut self, input: &mut PortIn<T>) -> u64
        requires port { self.old.port ≡ input.old.port }
        ensures { AreBeside T.follows self.old self.new input.old input.new result }
    {
        meet(&input.sender, &mut input.pass, &mut self.pass);
        input.count - self.count
    }
}
