//! Reading: the end of a subscription that takes its parcels and folds them.
ghost use Rattle.std.specs.Prelude.{◌≡◌, Bool, [], length, IfSome, None, is_some, IsSome, IsTrue, true, false, ◌↔◌};
ghost use Rattle.lq_volume.specs.Book.{state_of, state_at};
ghost use Rattle.lq_volume.specs.Result.{result_of};
ghost use Rattle.lq_board.specs.Book.{IsFullBook};
ghost use Rattle.lq_update.specs.Fold.{EntriesRise, opened_at, folded, last_change};
ghost use Rattle.lq_update.specs.Updates.{IsSettled};
ghost use Rattle.lq_port.specs.End.{AreBeside};
ghost use Rattle.lq_server_slots.specs.Rule.{MayFollow, floor_of, query_of};
ghost use Rattle.lq_server_slots.specs.Reading.{known_book, received, is_marked, mark_read, opening_of, IsTold, IsReadStep};

use crate::delivery::Delivery;
use crate::take_parcel::{keep, take_one};
use lq_desk_sub::Read;
use lq_port::{PortIn, PortOut};
use lq_update::{
    Message, Parcel, Rebuild, foldings_follow, folds_give_results, rebuilds_take_all,
    settled_is_tested, whole_folds_give_results,
};
use lq_value::{Entry, Refusal};
use std::marker::Model;
use std::sync::Wait;

/// The taking end of a port, with the result of what was received.
///
/// A contract sees it as a `ReadingHold`: the port, the result so far, and a message in hand. A
/// message in hand was taken, but isn't folded yet because memory ran out.
pub struct Reading {
    output: PortOut<Delivery>,
    rebuild: Rebuild,
    hand: Option<Message>,
    ended: bool,
    opened: u64,
}

impl Drop for Reading {
    fn drop(self) {
        let Reading {
            output: _,
            rebuild: _,
            hand: _,
            ended: _,
            opened: _,
        } = self;
    }
}

impl Model for Reading {
    ghost use Rattle.lq_server_slots.specs.Reading.{ReadingHold, IsTold};
    ghost use Rattle.lq_server_slots.specs.Rule.{mark_in};
    ghost use Rattle.std.specs.Prelude.{◌≡◌, is_some};
    ghost use Rattle.std.specs.Coded.{codes};
    ghost use Rattle.lq_port.specs.contracts.ends.PortOut as port_out;
    ghost use Rattle.lq_server_slots.specs.contracts.delivery.Delivery as delivery;
    ghost use Rattle.lq_server_slots.specs.contracts.delivery.Opening as opening_at;
    ghost use Rattle.lq_server_slots.specs.contracts.delivery.DeliveryFollows.TheImpl.{ghosts};

    ghost Value = { ReadingHold };

    ghost coded = { Prim.hlevel (
      codes,
      (port_out.the_row delivery.the_row opening_at.the_row ghosts).coded,
    ) };

    ghost view = { λ r. record { port = r.output; hand = r.hand; result = r.rebuild } };

    ghost invariant = { λ r. IsTold (record { port = r.output; hand = r.hand; result = r.rebuild })
        × (r.ended ≡ is_some (mark_in r.output.taken))
        × (r.opened ≡ r.output.floor.opened) };
}

impl Reading {
    /// A reading that has received nothing, from a port of which nothing was taken and the query's
    /// result at the opening.
    ///
    /// It takes no memory.
    pub fn new(output: PortOut<Delivery>, rebuild: Rebuild) -> Reading
        requires taken { output.taken ≡ [] }
        requires opening { output.floor.opened ≡ length (floor_of output.floor).changes }
        requires full { IsFullBook (floor_of output.floor) }
        requires result { rebuild ≡ opened_at output.floor.opened
            (result_of (query_of output.floor) (state_of (floor_of output.floor))) }
        ensures { result ≡ record { port = output; hand = None; result = rebuild } }
    {
        let opened = rebuild.last_change();
        Reading {
            output,
            rebuild,
            hand: None,
            ended: false,
            opened,
        }
    }

    /// The number of changes at the opening. It takes no memory.
    pub fn opened(&self) -> u64
        ensures { result ≡ self.now.port.floor.opened }
    {
        self.opened
    }

    /// Whether the mark was read. It takes no memory.
    pub fn is_ended(&self) -> bool
        ensures { result ≡ is_marked self.now }
    {
        self.ended
    }

    /// Whether a message is in hand. The next read begins with it. It takes no memory.
    pub fn has_hand(&self) -> bool
        ensures { result ≡ is_some self.now.hand }
    {
        self.hand.is_some()
    }

    /// The result after the messages received, by rising node: the opening's result with each
    /// message folded in.
    ///
    /// After the mark it is the query's result after the mark's change. It takes no memory.
    pub fn result(&self) -> &[Entry]
        ensures entries { result.now ≡ self.now.result.entries }
        ensures rise { EntriesRise result.now }
        ensures folded { result.now ≡ folded (opening_of self.now.port.floor).entries
            (received self.now) }
        ensures marked { IfSome (mark_read self.now) (λ k. result.now
            ≡ result_of (query_of self.now.port.floor) (state_at (known_book self.now) k.change)) }
    {
        // For the proof: what a fold of the whole list gives, and how a fold goes on.
        whole_folds_give_results();
        foldings_follow();
        self.rebuild.result()
    }

    /// Whether nothing was received, or the latest message received was the last of its change.
    ///
    /// The result is then the query's after that change, or at the opening. It takes no memory.
    pub fn is_settled(&self) -> bool
        ensures settled { result ≡ self.now.result.settled }
        ensures received { (result ≡ true) ↔ IsSettled (received self.now) }
        ensures whole { IsTrue result → self.now.result.entries
            ≡ result_of (query_of self.now.port.floor)
            (state_at (known_book self.now) self.now.result.change) }
    {
        // For the proof: what a fold gives where it is settled, and how that is tested.
        folds_give_results();
        foldings_follow();
        settled_is_tested();
        self.rebuild.is_settled()
    }

    /// The change of the latest message received, or `opened` before the first. It takes no memory.
    pub fn last_change(&self) -> u64
        ensures change { result ≡ self.now.result.change }
        ensures received { result ≡ last_change self.now.port.floor.opened (received self.now) }
    {
        // For the proof: how a fold goes on.
        foldings_follow();
        self.rebuild.last_change()
    }

    /// The invariant of each reading: its parcels were legal, and the messages received are folded.
    pub fn update_facts(&self)
        ensures { IsTold self.now }
    {
        // For the proof: a field that is read shows the invariant.
        let _ = &self.rebuild;
    }

    /// Takes the next parcel, and folds it if it is a message.
    ///
    /// `Empty` only where no parcel is known to wait; `Ended` after the mark and only then.
    /// Refused: `NoMemory`; the message then stays in hand, and the next read begins with it. It
    /// may wait for a step of the other end, but not for a parcel.
    pub fn read<R: Wait>(&mut self, rt: &R) -> Result<Read, Refusal>
        ensures { IsReadStep false self.old self.new result }
    {
        self.read_by(rt, false)
    }

    /// As `read`, but it waits for a parcel if there is none, and never answers `Empty`.
    ///
    /// Where the other end is gone and nothing is left, it waits for ever.
    pub fn read_waiting<R: Wait>(&mut self, rt: &R) -> Result<Read, Refusal>
        ensures { IsReadStep true self.old self.new result }
    {
        self.read_by(rt, true)
    }

    // Gives the message in hand, or else the next parcel.
    fn read_by<R: Wait>(&mut self, rt: &R, waits: bool) -> Result<Read, Refusal>
        ensures { IsReadStep waits self.old self.new result }
    {
        // For the proof: a fold takes each message of the update list.
        rebuilds_take_all();
        if self.hand.is_some() {
            return self.read_hand();
        }
        if self.ended {
            return Ok(Read::Ended);
        }
        let Some(item) = take_one(&mut self.output, rt, waits) else {
            return Ok(Read::Empty);
        };
        let Delivery { what, book: _ } = item;
        match what {
            Parcel::Fin(mark) => {
                self.ended = true;
                Ok(Read::Fin(mark))
            }
            Parcel::Update(message) => keep(&mut self.rebuild, &mut self.hand, message),
        }
    }

    // Gives the message in hand, whether the read may wait or not. Few reads have one, and the
    // others then move none.
    #[inline(never)]
    fn read_hand(&mut self) -> Result<Read, Refusal>
        requires hand { IsSome self.old.hand }
        ensures { (waits : Bool) → IsReadStep waits self.old self.new result }
    {
        // For the proof: a fold takes each message of the update list.
        rebuilds_take_all();
        let Some(message) = self.hand.take() else {
            unreachable!()
        };
        keep(&mut self.rebuild, &mut self.hand, message)
    }

    /// How many parcels were taken from the port. It neither waits nor takes memory.
    pub(crate) fn taken(&self) -> u64
        ensures { result ≡ length self.now.port.taken }
    {
        self.output.taken()
    }

    /// How many parcels wait, found with both ends of the port.
    ///
    /// Afterwards each end knows all that was put and all that was taken. It neither waits nor
    /// takes memory.
    pub fn beside(&mut self, input: &mut PortIn<Delivery>) -> u64
        requires port { self.old.port.port ≡ input.old.port }
        ensures beside { AreBeside MayFollow self.old.port self.new.port
            input.old input.new result }
        ensures hand { self.new.hand ≡ self.old.hand }
        ensures result { self.new.result ≡ self.old.result }
    {
        self.output.beside(input)
    }
}
