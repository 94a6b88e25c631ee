//! Which subscriptions a change may have messages for.
ghost use Rattle.std.specs.Prelude.{◌≡◌, ◌≢◌, ℕ};
ghost use Rattle.lq_volume.specs.declared.change.Change.{Change};
ghost use Rattle.lq_desk_sub.specs.SlotSet.{has};
ghost use Rattle.lq_desk_sub.specs.Watch.{IsWatched, slots_for};

use crate::laws::passed_changes_tell_nothing;
use crate::live_query::ending_of;
use crate::slot_index::SlotIndex;
use crate::slot_set::SlotSet;
use crate::sub::Sub;
use lq_update::bare_creates_tell_nothing;
use lq_volume::Change;

/// For each change, the slots whose subscription it may have messages for: no other slot need be
/// asked.
///
/// A creation, which makes an entry without attributes, is shown to those whose query may match
/// one; a write to those that look at sizes or times; a change of an attribute to those that look
/// at a name with the ending of the attribute's; a write and a change of an attribute also to those
/// that have messages of values; and a removal or a move to all of them.
#[derive(Drop)]
pub struct Watch {
    // The slots whose subscription is watched.
    all: SlotSet,
    // Those whose query may match an entry without attributes.
    creates: SlotSet,
    // Those whose query looks at sizes or times, and those that have messages of values.
    writes: SlotSet,
    // For each ending, those whose query looks at a name that has it, and those that have messages
    // of values.
    attrs: [SlotSet; 64],
}

impl Watch {
    /// A watch before any `set`. It takes no memory.
    pub fn new() -> Watch {
        Watch {
            all: SlotSet::new(),
            creates: SlotSet::new(),
            writes: SlotSet::new(),
            attrs: [SlotSet::new(); 64],
        }
    }

    /// Watches a slot's subscription, in place of the one that was there. It takes no memory.
    pub fn set(&mut self, slot: SlotIndex, sub: &Sub)
        ensures here { IsWatched self.new slot.index sub.now.held.query sub.now.held.flags }
        ensures others { (c : Change) (i : ℕ) → i ≢ slot.index
            → has (slots_for self.new c).word i ≡ has (slots_for self.old c).word i }
    {
        passed_changes_tell_nothing();
        bare_creates_tell_nothing();
        let query = &sub.query;
        self.all.insert(slot);
        self.creates.put(slot, query.sees_creates());
        let sees_all = sub.flags.values;
        self.writes.put(slot, sees_all || query.sees_writes());
        for ending in 0..64 {
            self.attrs[ending].put(slot, sees_all || query.may_name(ending));
        }
    }

    /// The slots that a change may have messages for. It takes no memory.
    #[inline(always)]
    pub fn slots_for(&self, change: &Change) -> SlotSet
        ensures { result ≡ slots_for self.now change.now }
    {
        match change {
            Change::Create { .. } => self.creates,
            Change::Remove { .. } | Change::Move { .. } => self.all,
            Change::Write { .. } => self.writes,
            Change::SetAttr { attr, .. } | Change::RemoveAttr { attr, .. } => {
                self.attrs[ending_of(attr.as_str())]
            }
        }
    }
}
