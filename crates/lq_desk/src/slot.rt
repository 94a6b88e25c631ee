//! A taken slot: a subscription with its port, what is done there, and the visits of several.
ghost use Rattle.std.specs.Prelude.{◌≡◌, ◌<◌, ◌≤◌, ◌^◌, ◌-◌, true, Some, IfOk};
ghost use Rattle.lq_value.specs.Refusal.{FailsOnlyForMemory};
ghost use Rattle.lq_desk.specs.Slot.{slot_of, can_move, close_slot, filled, is_ending, noticed};
ghost use Rattle.lq_desk.specs.Act.{act_of, left_by};
ghost use Rattle.lq_desk.specs.Ready.{has_parcel};
ghost use Rattle.lq_desk.specs.Reply.{answer_of};

use crate::reply::Reply;
use lq_desk_sub::{Read, SlotIndex, Sub, Visit};
use lq_desk_world::Act;
use lq_predicate::Predicate;
use lq_update::{Cause, OpenOptions, Parcel};
use lq_value::Refusal;
use std::alloc::Global;
use std::collections::VecDeque;
use std::marker::Model;

/// A subscription, its port with room for all its places, and whether its end was asked for.
#[derive(Drop)]
pub struct Slot {
    pub(crate) sub: Sub,
    port: u64,
    queue: VecDeque<Parcel>,
    hang_up_asked: bool,
}

impl Model for Slot {
    ghost use Rattle.std.specs.Prelude.{◌≤◌};
    ghost use Rattle.std.specs.VecDeque.{deque_capacity};
    ghost use Rattle.lq_desk.specs.Slot.{PreparedSlot};
    ghost use Rattle.std.specs.Coded.{codes};
    ghost use Rattle.lq_predicate.specs.QueryCode.{coded_query};

    ghost Value = { PreparedSlot };

    ghost coded = { Prim.hlevel (codes, coded_query) };

    ghost view = { λ s. record {
      sub = s.sub;
      port = s.port;
      queue = s.queue.items;
      hang_up_asked = s.hang_up_asked;
    } };

    ghost invariant = { λ s. s.port ≤ deque_capacity s.queue };
}

impl Slot {
    ghost use Rattle.lq_desk_world.specs.Events.{Moved, Noticed};
    ghost use Rattle.lq_desk.specs.Slot.{PreparedSlot, fresh_slot, put_slot, read_slot, notice_slot, is_mark_read};
    ghost use Rattle.lq_desk.specs.Reply.{answer_of_read};

    /// A new subscription after `at` changes, with an empty port. Refused: `NoMemory`.
    pub fn new(
        alloc: Global,
        predicate: &Predicate,
        at: u64,
        options: &OpenOptions,
    ) -> Result<Slot, Refusal>
        ensures refused { FailsOnlyForMemory result }
        ensures value { IfOk result (λ s. slot_of s ≡ fresh_slot predicate.now at options.now) }
    {
        Ok(Slot {
            sub: Sub::new_by(alloc, predicate, at, options.backlog, options.flags)?,
            port: options.port,
            queue: VecDeque::with_capacity(alloc, options.port as usize)?,
            hang_up_asked: false,
        })
    }

    /// Carries out an act. At `Finished` the caller frees the slot.
    pub fn act(&mut self, act: Act, number: u64) -> Reply
        requires { self.old.sub.held.sent < 2 ^ 63 }
        ensures { (answer_of result, left_by (answer_of result) (slot_of self.new))
            ≡ act_of number act (slot_of self.old) }
    {
        match act {
            Act::Put => Reply::Moved(self.put()),
            Act::Take => Reply::Took(self.read()),
            Act::HangUp => {
                self.hang_up_asked = true;
                Reply::Asked
            }
            Act::Notice => Reply::Noticed(self.notice(number)),
            Act::Close => self.close(number),
            Act::Finish if self.is_read() => Reply::Finished,
            Act::Finish => Reply::Refused(Refusal::StillOpen),
        }
    }

    /// Moves the next parcel into the port if there is room; answers whether one moved.
    pub fn put(&mut self) -> bool
        ensures { (Moved result, Some (slot_of self.new)) ≡ put_slot (slot_of self.old) }
    {
        if self.queue.len() as u64 >= self.port {
            return false;
        }
        match self.sub.next() {
            None => false,
            Some(parcel) => {
                self.queue.push_back_reserved(parcel);
                true
            }
        }
    }

    /// Moves parcels into the port until nothing moves.
    pub fn fill(&mut self)
        ensures { slot_of self.new ≡ filled (slot_of self.old) }
    {
        for _ in 0..self.port {
            if !self.put() {
                return;
            }
        }
    }

    /// Whether a parcel could move into the port.
    pub fn can_move(&self) -> bool
        ensures { result ≡ can_move (slot_of self.now) }
    {
        (self.queue.len() as u64) < self.port && self.sub.has_next()
    }

    /// Takes the first parcel out of the port and answers it.
    pub fn read(&mut self) -> Read
        ensures { (answer_of_read result, Some (slot_of self.new)) ≡ read_slot (slot_of self.old) }
    {
        match self.queue.pop_front() {
            Some(Parcel::Update(message)) => Read::Update(message),
            Some(Parcel::Fin(mark)) => Read::Fin(mark),
            None => {
                if self.is_read() {
                    Read::Ended
                } else {
                    Read::Empty
                }
            }
        }
    }

    /// Whether the subscription is live and its end was asked for.
    pub fn is_ending(&self) -> bool
        ensures { result ≡ is_ending (slot_of self.now) }
    {
        self.sub.is_live() && self.hang_up_asked
    }

    /// Ends the subscription if it is live and its end was asked for; answers whether it did.
    pub fn notice(&mut self, number: u64) -> bool
        requires { self.old.sub.held.sent < 2 ^ 63 }
        ensures does { (Noticed result, Some (slot_of self.new))
            ≡ notice_slot number (slot_of self.old) }
        ensures slot { slot_of self.new ≡ noticed number (slot_of self.old) }
    {
        let ends = self.sub.is_live() && self.hang_up_asked;
        if ends {
            self.sub.finish_with(Cause::HungUp, number);
        }
        ends
    }

    /// Ends the subscription, unless it has ended: that is refused.
    pub fn close(&mut self, number: u64) -> Reply
        requires { self.old.sub.held.sent < 2 ^ 63 }
        ensures { (answer_of result, Some (slot_of self.new))
            ≡ close_slot number (slot_of self.old) }
    {
        if !self.sub.is_live() {
            return Reply::Refused(Refusal::NotOpen);
        }
        self.sub.finish_with(Cause::Closed, number);
        Reply::Shut(number)
    }

    /// Whether a read would give a parcel, after a notice and after the port was filled.
    pub fn has_parcel(&self) -> bool
        ensures { result ≡ has_parcel (slot_of self.now) }
    {
        !self.queue.is_empty()
            || self.port > 0 && (self.sub.has_next() || self.is_ending() && !self.sub.is_marked())
    }

    /// Whether its mark was put into the port, and the port is empty.
    pub fn is_read(&self) -> bool
        ensures { result ≡ is_mark_read (slot_of self.now) }
    {
        self.sub.is_marked() && self.queue.is_empty()
    }
}

/// Ends a live subscription whose end was asked for.
#[derive(Drop)]
pub struct Notice {
    pub number: u64,
}

impl Visit<Slot, ()> for Notice {
    ghost use Rattle.std.specs.Prelude.{◌≡◌, ◌<◌, ◌^◌};
    ghost use Rattle.lq_desk.specs.Slot.{noticed, slot_of};

    ghost allows = { λ v s i x. x.sub.held.sent < 2 ^ 63 };

    ghost did = { λ v t i x y. slot_of y ≡ noticed v.number (slot_of x) };

    fn visit(&self, _state: &mut (), _slot: SlotIndex, item: &mut Slot) {
        let _ = item.notice(self.number);
    }
}

/// Fills a port.
#[derive(Drop)]
pub struct Fill {}

impl Visit<Slot, ()> for Fill {
    ghost use Rattle.std.specs.Prelude.{◌≡◌};
    ghost use Rattle.lq_desk.specs.Slot.{filled, slot_of};

    ghost allows = { λ v s i x. Unit {0} };

    ghost did = { λ v t i x y. slot_of y ≡ filled (slot_of x) };

    fn visit(&self, _state: &mut (), _slot: SlotIndex, item: &mut Slot) {
        item.fill();
    }
}

/// Commits the messages that were made, if the subscription is live.
#[derive(Drop)]
pub struct Commit {}

impl Visit<Slot, ()> for Commit {
    ghost use Rattle.std.specs.Prelude.{◌≡◌, ◌<◌, ◌^◌};
    ghost use Rattle.lq_desk.specs.Slot.{committed_slot};

    ghost allows = { λ v s i x. x.sub.held.sent < 2 ^ 63 };

    ghost did = { λ v t i x y. y ≡ committed_slot x };

    fn visit(&self, _state: &mut (), _slot: SlotIndex, item: &mut Slot) {
        if item.sub.is_live() {
            item.sub.commit();
        }
    }
}
