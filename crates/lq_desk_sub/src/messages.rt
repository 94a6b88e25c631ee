//! The messages of a subscription: those held, and after them those made ready.
ghost use Rattle.std.specs.Prelude.{◌≡◌, ◌+◌, ◌<◌, ◌^◌, [], ◌∷◌, ◌++◌, length, true, false, OnOk, OnErr, MatchOption};
ghost use Rattle.lq_value.specs.Refusal.{FailsOnlyForMemory};
ghost use Rattle.lq_update.specs.Updates.{step_of};

use lq_update::{Flags, MAX_STEP, Matches, Message};
use lq_value::Refusal;
use std::alloc::Global;
use std::collections::VecDeque;
use std::marker::Model;

/// The messages that a subscription holds and those that are made ready for a change, in one queue.
///
/// Holding what is ready moves no message. Beside them stand the number of changes before the one
/// that the ready messages belong to, and whether there is room to put a message back.
#[derive(Drop)]
pub struct Messages {
    queue: VecDeque<Message>,
    // How many of them, at the end, are ready and not held.
    ready: usize,
    before: u64,
    lent: bool,
}

impl Model for Messages {
    ghost use Rattle.std.specs.Prelude.{◌+◌, ◌-◌, ◌≤◌, take, drop, if◌then◌else◌};
    ghost use Rattle.std.specs.VecDeque.{deque_len, deque_capacity};
    ghost use Rattle.lq_desk_sub.specs.Messages.{Queued};

    ghost Value = { Queued };

    ghost view = { λ m. record {
      held = take (deque_len m.queue - m.ready) m.queue.items;
      ready = drop (deque_len m.queue - m.ready) m.queue.items;
      before = m.before;
      lent = m.lent;
    } };

    ghost invariant = { λ m. (m.ready ≤ deque_len m.queue)
        × (deque_len m.queue + (if m.lent then 1 else 0) ≤ deque_capacity m.queue) };
}

impl Messages {
    ghost use Rattle.lq_desk_sub.specs.Messages.{Queued};

    /// No message.
    pub fn new(alloc: Global) -> Messages
        ensures { result ≡ record { held = []; ready = []; before = 0; lent = false } }
    {
        Messages {
            queue: VecDeque::new(alloc),
            ready: 0,
            before: 0,
            lent: false,
        }
    }

    /// How many are held.
    #[inline(always)]
    pub fn held(&self) -> usize
        ensures { result ≡ length self.now.held }
    {
        self.queue.len() - self.ready
    }

    /// How many are ready.
    #[inline(always)]
    pub fn ready(&self) -> usize
        ensures value { result ≡ length self.now.ready }
        ensures few { result < 2 ^ 63 }
    {
        self.ready
    }

    /// How many are held or ready.
    #[inline(always)]
    pub fn len(&self) -> usize
        ensures { result ≡ length self.now.held + length self.now.ready }
    {
        self.queue.len()
    }

    /// The number of changes before the one that the ready messages belong to.
    pub fn before(&self) -> u64
        ensures { result ≡ self.now.before }
    {
        self.before
    }

    /// Makes the messages of a change for a query ready, in place of those that are. Refused:
    /// `NoMemory`; then nothing changes.
    #[inline(always)]
    pub fn make_ready(
        &mut self,
        alloc: Global,
        matches: &Matches<'_, '_>,
        first_seq: u64,
        flags: Flags,
    ) -> Result<(), Refusal>
        requires { first_seq + 2 < 2 ^ 64 }
        ensures refused { FailsOnlyForMemory result }
        ensures ok { OnOk result (self.new ≡ record self.old {
          ready = step_of matches.now.predicate.now flags matches.now.planned.now.before
              matches.now.planned.now.change first_seq;
          before = matches.now.planned.now.before.number;
        }) }
        ensures err { OnErr result (self.new ≡ self.old) }
    {
        if self.ready > 0 {
            return self.replace_ready(alloc, matches, first_seq, flags);
        }
        let held = self.queue.len();
        // One place more than is needed: so the room is of six places, doubled as it fills up.
        self.queue.reserve(MAX_STEP + 2)?;
        matches.put_step(alloc, first_seq, flags, &mut self.queue)?;
        self.ready = self.queue.len() - held;
        self.before = matches.planned.applied().change - 1;
        Ok(())
    }

    // Makes the messages of a change ready, where some of another change are: that change wasn't
    // made, for want of memory.
    #[inline(never)]
    fn replace_ready(
        &mut self,
        alloc: Global,
        matches: &Matches<'_, '_>,
        first_seq: u64,
        flags: Flags,
    ) -> Result<(), Refusal>
        requires { first_seq + 2 < 2 ^ 64 }
        ensures refused { FailsOnlyForMemory result }
        ensures ok { OnOk result (self.new ≡ record self.old {
          ready = step_of matches.now.predicate.now flags matches.now.planned.now.before
              matches.now.planned.now.change first_seq;
          before = matches.now.planned.now.before.number;
        }) }
        ensures err { OnErr result (self.new ≡ self.old) }
    {
        let mut step = VecDeque::with_capacity(alloc, MAX_STEP)?;
        matches.put_step(alloc, first_seq, flags, &mut step)?;
        self.queue.reserve(MAX_STEP + 2)?;
        let held = self.queue.len() - self.ready;
        self.queue.truncate(held);
        self.ready = step.len();
        // It fails only where room is missing, and there is room.
        self.queue.append(&mut step)?;
        self.before = matches.planned.applied().change - 1;
        Ok(())
    }

    /// Drops those that are ready: the change after this many has none.
    #[inline(always)]
    pub fn forget_ready(&mut self, before: u64)
        ensures { self.new ≡ record self.old { ready = []; before = before } }
    {
        if self.ready > 0 {
            self.drop_ready();
        }
        self.before = before;
    }

    /// Drops those that are ready.
    #[inline(never)]
    pub fn drop_ready(&mut self)
        ensures { self.new ≡ record self.old { ready = [] } }
    {
        let held = self.queue.len() - self.ready;
        self.ready = 0;
        self.queue.truncate(held);
    }

    /// Holds those that are ready.
    #[inline(always)]
    pub fn hold_ready(&mut self)
        ensures { self.new ≡ record self.old {
          held = self.old.held ++ self.old.ready;
          ready = [];
        } }
    {
        self.ready = 0;
    }

    /// Takes the first one that is held.
    #[inline(always)]
    pub fn take(&mut self) -> Option<Message>
        ensures { MatchOption result
            ((self.old.held ≡ []) × (self.new ≡ self.old))
            (λ message. (self.old.held ≡ message ∷ self.new.held) × (self.new.lent ≡ true)
            × (self.new.ready ≡ self.old.ready) × (self.new.before ≡ self.old.before)) }
    {
        if self.queue.len() == self.ready {
            return None;
        }
        let message = self.queue.pop_front()?;
        self.lent = true;
        Some(message)
    }

    /// Puts the message back that the latest `take` gave.
    pub fn put_back(&mut self, message: Message)
        requires { self.old.lent ≡ true }
        ensures { self.new ≡ record self.old {
          held = message ∷ self.old.held;
          lent = false;
        } }
    {
        self.lent = false;
        self.queue.push_front_reserved(message);
    }
}
