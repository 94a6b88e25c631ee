//! A subscription as both servers keep it: how it was opened, what it holds, and its mark.
ghost use Rattle.std.specs.Prelude.{◌≡◌, ◌+◌, ◌<◌, ◌^◌, [], length, is_some, false, Some, IfOk, IsTrue, IfSome};
ghost use Rattle.lq_value.specs.Refusal.{FailsOnlyForMemory};
ghost use Rattle.lq_update.specs.Options.{no_values};

use crate::live_query::LiveQuery;
use crate::messages::Messages;
use lq_predicate::Predicate;
use lq_update::{Cause, Flags, Mark, Parcel};
use lq_value::Refusal;
use std::alloc::Global;
use std::marker::Model;

/// One subscription: its query, the messages that it holds and those of a change that isn't made
/// yet, and its mark.
pub struct Sub {
    pub(crate) alloc: Global,
    pub(crate) query: LiveQuery,
    pub(crate) flags: Flags,
    opened: u64,
    pub(crate) backlog: u64,
    pub(crate) sent: u64,
    pub(crate) messages: Messages,
    pub(crate) mark: Option<Mark>,
    mark_out: bool,
}

impl Drop for Sub {
    fn drop(self) {
        let Sub {
            alloc: _,
            query: _,
            flags: _,
            opened: _,
            backlog: _,
            sent: _,
            messages: _,
            mark: _,
            mark_out: _,
        } = self;
    }
}

impl Model for Sub {
    ghost use Rattle.lq_desk_sub.specs.Held.{Prepared};
    ghost use Rattle.std.specs.Coded.{codes};
    ghost use Rattle.lq_predicate.specs.QueryCode.{coded_query};

    ghost Value = { Prepared };

    ghost coded = { Prim.hlevel (codes, coded_query) };

    ghost view = { λ s. record {
      held = record {
        query = s.query;
        flags = s.flags;
        opened = s.opened;
        backlog = s.backlog;
        sent = s.sent;
        messages = s.messages.held;
        mark = s.mark;
        mark_out = s.mark_out;
      };
      ready = s.messages.ready;
      before = s.messages.before;
      lent = s.messages.lent;
    } };
}

impl Sub {
    ghost use Rattle.lq_desk_sub.specs.Held.{Prepared, opened_with, is_live, ended_by, next_parcel, without_parcel, with_back, fits_back};

    /// A live subscription without messages of values that holds no message, opened after `at`
    /// changes. Refused: `NoMemory`.
    pub fn new(
        alloc: Global,
        predicate: &Predicate,
        at: u64,
        backlog: u64,
        moved: bool,
    ) -> Result<Sub, Refusal>
        ensures refused { FailsOnlyForMemory result }
        ensures value { IfOk result (λ s. s ≡ record {
          held = opened_with predicate.now (no_values moved) at backlog;
          ready = [];
          before = 0;
          lent = false;
        }) }
    {
        Sub::new_by(alloc, predicate, at, backlog, Flags::without_values(moved))
    }

    /// A live subscription with these flags that holds no message, opened after `at` changes.
    /// Refused: `NoMemory`.
    pub fn new_by(
        alloc: Global,
        predicate: &Predicate,
        at: u64,
        backlog: u64,
        flags: Flags,
    ) -> Result<Sub, Refusal>
        ensures refused { FailsOnlyForMemory result }
        ensures value { IfOk result (λ s. s ≡ record {
          held = opened_with predicate.now flags at backlog;
          ready = [];
          before = 0;
          lent = false;
        }) }
    {
        Ok(Sub {
            alloc,
            query: LiveQuery::new(alloc, predicate)?,
            flags,
            opened: at,
            backlog,
            sent: 0,
            messages: Messages::new(alloc),
            mark: None,
            mark_out: false,
        })
    }

    /// Whether the subscription hasn't ended. It takes no memory.
    pub fn is_live(&self) -> bool
        ensures { result ≡ is_live self.now.held }
    {
        self.mark.is_none()
    }

    /// Whether the mark went out. It takes no memory.
    pub fn is_marked(&self) -> bool
        ensures { result ≡ self.now.held.mark_out }
    {
        self.mark_out
    }

    /// The number of messages held. It takes no memory.
    pub fn held(&self) -> u64
        ensures { result ≡ length self.now.held.messages }
    {
        self.messages.held() as u64
    }

    /// The mark, if the subscription has ended. It takes no memory.
    pub fn mark(&self) -> Option<Mark>
        ensures { result ≡ self.now.held.mark }
    {
        self.mark
    }

    /// Whether `next` has a parcel to give. It takes no memory.
    pub fn has_next(&self) -> bool
        ensures { result ≡ is_some (next_parcel self.now.held) }
    {
        if self.messages.held() > 0 {
            return true;
        }
        if self.mark_out {
            return false;
        }
        self.mark.is_some()
    }

    /// Ends the subscription; the mark covers the changes up to `change`. It takes no memory.
    pub fn finish_with(&mut self, cause: Cause, change: u64)
        requires few { self.old.held.sent < 2 ^ 63 }
        requires live { IsTrue (is_live self.old.held) }
        ensures { self.new ≡ record self.old { held = ended_by self.old.held cause change } }
    {
        self.mark = Some(Mark {
            seq: self.sent + 1,
            change,
            cause,
        });
    }

    /// Takes the first message held; after the last one, the mark once if there is one; else
    /// `None`. The messages made ready for a change stay. It takes no memory.
    pub fn next(&mut self) -> Option<Parcel>
        ensures value { result ≡ next_parcel self.old.held }
        ensures rest { self.new.held ≡ without_parcel self.old.held (next_parcel self.old.held) }
        ensures room { IfSome result (λ parcel. IsTrue (fits_back self.new.lent parcel)) }
        ensures sent { self.new.held.sent ≡ self.old.held.sent }
        ensures mark { self.new.held.mark ≡ self.old.held.mark }
        ensures ready { self.new.ready ≡ self.old.ready }
        ensures before { self.new.before ≡ self.old.before }
    {
        if let Some(message) = self.messages.take() {
            return Some(Parcel::Update(message));
        }
        if self.mark_out {
            return None;
        }
        let mark = self.mark?;
        self.mark_out = true;
        Some(Parcel::Fin(mark))
    }

    /// Puts back the parcel that the latest `next` gave. The messages made ready for a change stay.
    /// It takes no memory.
    pub fn put_back(&mut self, parcel: Parcel)
        requires { IsTrue (fits_back self.old.lent parcel) }
        ensures held { self.new.held ≡ with_back self.old.held parcel }
        ensures sent { self.new.held.sent ≡ self.old.held.sent }
        ensures mark { self.new.held.mark ≡ self.old.held.mark }
        ensures ready { self.new.ready ≡ self.old.ready }
        ensures before { self.new.before ≡ self.old.before }
    {
        match parcel {
            Parcel::Update(message) => self.messages.put_back(message),
            Parcel::Fin(_) => self.mark_out = false,
        }
    }
}
