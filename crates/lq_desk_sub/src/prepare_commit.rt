//! What a change does to a subscription: its messages are made ready, and then held.
ghost use Rattle.std.specs.Prelude.{◌≡◌, ◌<◌, ◌^◌, length, nat_lt, IfOk, OnOk, OnErr, IsTrue};
ghost use Rattle.lq_value.specs.Refusal.{FailsOnlyForMemory};
ghost use Rattle.lq_volume.specs.State.{record_at};
ghost use Rattle.lq_volume.specs.Change.{after, node_of, IsLawful};
ghost use Rattle.lq_update.specs.Touched.{is_match};

use crate::sub::Sub;
use lq_update::{Cause, Mark, Matches};
use lq_value::Refusal;
use lq_volume::{Change, Planned, Volume};
use std::alloc::AllocError;

impl Sub {
    ghost use Rattle.lq_desk_sub.specs.Held.{IsReadied, is_live, prepared_for, committed};

    /// Makes the messages of an accepted change to a volume, and room for them. The messages held
    /// stay the same.
    ///
    /// Refused: `NoMemory`; then nothing changes, and the messages made ready before stay too. For
    /// a planned change call `ready_planned`, which doesn't check the change again.
    pub fn ready(&mut self, volume: &Volume, change: &Change) -> Result<(), Refusal>
        requires few { self.old.held.sent < 2 ^ 63 }
        requires live { IsTrue (is_live self.old.held) }
        requires lawful { IsLawful volume.now change.now }
        ensures refused { FailsOnlyForMemory result }
        ensures ok { OnOk result (self.new ≡ prepared_for volume.now change.now self.old) }
        ensures err { OnErr result (self.new ≡ self.old) }
    {
        let planned = volume.plan(change)?;
        let _ = self.ready_planned(&planned)?;
        Ok(())
    }

    /// Makes the messages of a planned change, as `ready` does for the plan's volume and change;
    /// answers whether there are any.
    ///
    /// Refused: `NoMemory`; then nothing changes, and the messages made ready before stay too.
    #[inline(always)]
    pub fn ready_planned(&mut self, planned: &Planned<'_>) -> Result<bool, Refusal>
        requires few { self.old.held.sent < 2 ^ 63 }
        requires live { IsTrue (is_live self.old.held) }
        ensures refused { FailsOnlyForMemory result }
        ensures any { IfOk result (λ any. any ≡ nat_lt 0 (length self.new.ready)) }
        ensures ok { OnOk result
            (self.new ≡ prepared_for planned.now.before planned.now.change self.old) }
        ensures err { OnErr result (self.new ≡ self.old) }
    {
        let told = self.prepare_if_any(planned)?;
        if !told {
            self.messages.forget_ready(planned.applied().change - 1);
        }
        Ok(told)
    }

    /// Makes the messages of a planned change, if it has some and the subscription is live, in
    /// place of those made ready before; answers whether it did.
    ///
    /// Where there is none, held messages stay, and no clause says what is ready: only the messages
    /// of a change that has some may be committed after it. It skips, as the code says, a change
    /// that alters only values that the predicate doesn't look at, unless the subscription has
    /// messages of values. Without memory nothing changes.
    #[inline(always)]
    pub fn prepare_if_any(&mut self, planned: &Planned<'_>) -> Result<bool, AllocError>
        requires few { self.old.held.sent < 2 ^ 63 }
        ensures ok { IfOk result (λ told.
            IsReadied planned.now.before planned.now.change told self.old self.new) }
        ensures err { OnErr result (self.new ≡ self.old) }
    {
        let asked = self.query.matches_around(planned, self.flags);
        let Some((matched_before, matches_after)) = asked else {
            return Ok(false);
        };
        if !self.is_live() {
            return Ok(false);
        }
        self.make_ready(planned, matched_before, matches_after)
    }

    // Makes the messages of a change that may have some, by whether the query matches the entry of
    // its own node before it and after it; answers whether there are any. It is a function of its
    // own because most changes have no message for most queries.
    #[inline(never)]
    fn make_ready(
        &mut self,
        planned: &Planned<'_>,
        matched_before: bool,
        matches_after: bool,
    ) -> Result<bool, AllocError>
        requires few { self.old.held.sent < 2 ^ 63 }
        requires asked_before { matched_before ≡ is_match self.old.held.query
            (record_at planned.now.before (node_of planned.now.before planned.now.change)) }
        requires asked_after { matches_after ≡ is_match self.old.held.query
            (record_at (after planned.now.before planned.now.change)
            (node_of planned.now.before planned.now.change)) }
        ensures any { IfOk result (λ any. any ≡ nat_lt 0 (length self.new.ready)) }
        ensures ok { OnOk result
            (self.new ≡ prepared_for planned.now.before planned.now.change self.old) }
        ensures err { OnErr result (self.new ≡ self.old) }
    {
        let matches = Matches {
            predicate: self.query.predicate(),
            planned,
            matched_before,
            matches_after,
        };
        let first = self.sent + 1;
        let made = self
            .messages
            .make_ready(self.alloc, &matches, first, self.flags);
        match made {
            Ok(()) => Ok(self.messages.ready() > 0),
            Err(_) => Err(AllocError),
        }
    }

    /// Holds the messages made ready for a change. If they are more than the backlog has room for,
    /// the subscription ends with `Overrun` before that change instead. It takes no memory.
    pub fn commit(&mut self)
        requires few { self.old.held.sent < 2 ^ 63 }
        requires live { IsTrue (is_live self.old.held) }
        ensures { self.new ≡ committed self.old }
    {
        let ready = self.messages.ready() as u64;
        if ready > 0 && self.messages.len() as u64 > self.backlog {
            self.messages.drop_ready();
            self.mark = Some(Mark {
                seq: self.sent + 1,
                change: self.messages.before(),
                cause: Cause::Overrun,
            });
            return;
        }
        self.messages.hold_ready();
        self.sent += ready;
    }
}
