//! A change that a volume accepts, with the entries that it touches: subscriptions are asked before
//! it is made.
ghost use Rattle.std.specs.Prelude.{◌≡◌, ◌+◌, Some, None, IfErr, IfOk, IfSome, MatchOption, OnOk};
ghost use Rattle.std.specs.Option.{option_copied, option_map};
ghost use Rattle.lq_volume.specs.State.{record_at, IsVolume};
ghost use Rattle.lq_value.specs.Refusal.{first_refusal};
ghost use Rattle.lq_volume.specs.Change.{after, clobbered, own_tests, node_of, refused, IsLawful};
ghost use Rattle.lq_volume.specs.Plan.{WritesNumbers, IsLookedUp, IsNoWrite, resolved_of};

use crate::change::{Applied, Change, Resolved};
use crate::checks::{
    check_create, check_move, check_remove, check_remove_attr, check_set_attr, check_write,
};
use crate::entry_row::{EntryRow, view_after};
use crate::volume::Volume;
use lq_value::Refusal;
use lq_volume_entries::{StoredRecord, records_are_kept};
use std::marker::Model;

/// The sizes, in bytes, and the times, in seconds since 1970, that a write finds and leaves.
#[derive(Clone, Copy, Drop)]
pub struct WrittenNumbers {
    pub old_size: u64,
    pub new_size: u64,
    pub old_time: i64,
    pub new_time: i64,
}

/// A change that a volume accepts, with the entries that it touches, each looked up once.
///
/// Contracts see it as a `Plan` (`specs/Plan`): the state before, and the change, which is lawful
/// there. It borrows the volume and the change. No call here takes memory.
#[derive(Drop)]
pub struct Planned<'a> {
    // For contracts alone, which see the state before the change.
    volume: &'a Volume,
    change: &'a Change,
    applied: Applied,
    before: Option<EntryRow<'a>>,
    after: Option<EntryRow<'a>>,
    clobbered: Option<(u64, EntryRow<'a>)>,
    written: Option<WrittenNumbers>,
}

impl<'a> Model for Planned<'a> {
    ghost use Rattle.lq_volume.specs.Plan.{Plan, IsPlanned};

    ghost Value = { Plan };

    ghost view = { λ p. record {
      before = p.volume.now;
      change = p.change.now;
    } };

    ghost invariant = { λ p.
        IsPlanned p.volume.now p.change.now p.applied p.before p.after p.clobbered p.written };
}

impl Volume {
    /// What `make` needs of a change that would be accepted. Takes no memory and changes nothing.
    ///
    /// Refused exactly as `check`.
    #[inline(always)]
    pub fn resolve(&self, change: &Change) -> Result<Resolved, Refusal>
        ensures ok { OnOk result (refused self.now change.now ≡ None) }
        ensures err { IfErr result (λ e. refused self.now change.now ≡ Some e) }
        ensures value { IfOk result (λ resolved. resolved ≡ resolved_of self.now change.now) }
    {
        let planned = self.plan(change)?;
        Ok(planned.resolved())
    }

    /// A plan of a change that would be accepted, with what it touches. It takes no memory and
    /// changes nothing.
    ///
    /// Refused exactly as `check`.
    #[inline(always)]
    pub fn plan<'a>(&'a self, change: &'a Change) -> Result<Planned<'a>, Refusal>
        ensures ok { OnOk result (refused self.now change.now ≡ None) }
        ensures err { IfErr result (λ e. refused self.now change.now ≡ Some e) }
        ensures value { IfOk result (λ planned.
            planned ≡ record { before = self.now; change = change.now }) }
    {
        // For its clause `volume`.
        let _ = self.changes();
        let found = found_by(self, change)?;
        if self.is_full() {
            return Err(Refusal::Exhausted);
        }
        Ok(Planned {
            volume: self,
            change,
            applied: self.applied_by(change),
            before: found.stored.map(EntryRow::stored),
            after: view_after(self, change, found.stored),
            clobbered: found
                .other
                .map(|(node, stored)| (node, EntryRow::stored(stored))),
            written: written_by(self, change, found.stored),
        })
    }
}

impl<'a> Planned<'a> {
    /// What `make` answers: the number of the change, and the node that it creates or names.
    ///
    /// The change is lawful, and the volume is a tree within its limit.
    pub fn applied(&self) -> Applied
        ensures value { result ≡ record {
          change = self.now.before.number + 1;
          node = node_of self.now.before self.now.change;
        } }
        ensures lawful { IsLawful self.now.before self.now.change }
        ensures volume { IsVolume self.now.before }
    {
        self.applied
    }

    /// What `make` needs of the change, so that it looks nothing up again.
    pub fn resolved(&self) -> Resolved
        ensures { result ≡ resolved_of self.now.before self.now.change }
    {
        Resolved {
            applied: self.applied,
            clobbered: self.clobbered.as_ref().map(|(node, _)| *node),
        }
    }

    /// The change.
    pub fn change(&self) -> &'a Change
        ensures { result.now ≡ self.now.change }
    {
        self.change
    }

    /// The entry of the change's own node before the change; `None` where the change creates it.
    pub fn entry_before(&self) -> Option<&EntryRow<'a>>
        ensures { option_copied result
            ≡ record_at self.now.before (node_of self.now.before self.now.change) }
    {
        self.before.as_ref()
    }

    /// The entry of the change's own node after the change; `None` where the change removes it.
    pub fn entry_after(&self) -> Option<&EntryRow<'a>>
        ensures { option_copied result ≡ record_at (after self.now.before self.now.change)
            (node_of self.now.before self.now.change) }
    {
        records_are_kept();
        self.after.as_ref()
    }

    /// The other node that a move removes, and its entry.
    pub fn clobbered(&self) -> Option<(u64, &EntryRow<'a>)>
        ensures node { option_map (λ e. e.0) result ≡ clobbered self.now.before self.now.change }
        ensures entry { IfSome result (λ e. record_at self.now.before e.0 ≡ Some e.1.now) }
    {
        let (node, view) = self.clobbered.as_ref()?;
        Some((*node, view))
    }

    /// The numbers that a write finds and leaves, looked up once; `None` where the change is no
    /// write.
    pub fn written(&self) -> Option<WrittenNumbers>
        ensures { MatchOption result (IsNoWrite self.now.change)
            (WritesNumbers self.now.before self.now.change) }
    {
        self.written
    }
}

// What a check of a change finds: the record of the change's own node, and the other node at the
// place of a move, with its record.
#[derive(Drop)]
pub struct LookedUp<'a> {
    pub stored: Option<&'a StoredRecord>,
    pub other: Option<(u64, &'a StoredRecord)>,
}

// Checks a change by the tests of its own, and gives what that finds.
#[inline(always)]
fn found_by<'a>(volume: &'a Volume, change: &'a Change) -> Result<LookedUp<'a>, Refusal>
    requires { IsVolume volume.now }
    ensures ok { OnOk result (first_refusal (own_tests volume.now change.now) ≡ None) }
    ensures err { IfErr result (λ e.
        first_refusal (own_tests volume.now change.now) ≡ Some e) }
    ensures found { IfOk result (IsLookedUp volume.now change.now) }
{
    records_are_kept();
    let stored = match change {
        Change::Create {
            dir,
            name,
            kind,
            size,
            ..
        } => {
            check_create(volume, *dir, name, *kind, *size)?;
            None
        }
        Change::Move {
            node,
            dir,
            name,
            clobber,
        } => return check_move(volume, *node, *dir, name, *clobber),
        Change::Remove { node } => Some(check_remove(volume, *node)?),
        Change::Write { node, size, .. } => Some(check_write(volume, *node, *size)?),
        Change::SetAttr { node, attr, .. } => Some(check_set_attr(volume, *node, attr)?),
        Change::RemoveAttr { node, attr } => Some(check_remove_attr(volume, *node, attr)?),
    };
    Ok(LookedUp {
        stored,
        other: None,
    })
}

// The numbers that a write finds and leaves; `None` where the change is no write.
fn written_by(
    volume: &Volume,
    change: &Change,
    stored: Option<&StoredRecord>,
) -> Option<WrittenNumbers>
    requires lawful { IsLawful volume.now change.now }
    requires stored { option_copied stored
        ≡ record_at volume.now (node_of volume.now change.now) }
    ensures { MatchOption result (IsNoWrite change.now) (WritesNumbers volume.now change.now) }
{
    let Change::Write { size, time, .. } = change else {
        return None;
    };
    let record = stored?;
    Some(WrittenNumbers {
        old_size: record.size(),
        new_size: *size,
        old_time: record.time(),
        new_time: *time,
    })
}
