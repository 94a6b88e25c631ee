//! What a volume answers about its entries: by place, by node, by folder and by path.
ghost use Rattle.std.specs.Prelude.{◌≡◌, Some, None, IfOk, IfErr, OnOk};

use crate::checks::check_folder;
use crate::entry_ref::{EntryRef, Listing};
use crate::entry_row::EntryRow;
use crate::volume::{ROOT, Volume};
use lq_predicate::{Predicate, holds};
use lq_value::{Entry, Kind, Name, Refusal};
use lq_volume_entries::{RecordFilter, StoredRecord};

impl Volume {
    ghost use Rattle.lq_value.specs.Refusal.{FailsOnlyForMemory, IsRefusedBy, first_refusal};
    ghost use Rattle.lq_volume.specs.State.{root, kind_at, is_taken, record_at, node_in};
    ghost use Rattle.lq_volume.specs.Change.{other_at};
    ghost use Rattle.lq_volume.specs.Lookup.{find_refusals, entry_refusals, children_refusals, path_refusals, listed};
    ghost use Rattle.lq_volume_entries.specs.Folder.{AreChildren, Leads};
    ghost use Rattle.lq_volume.specs.Result.{result_of};

    /// The node at a place. It takes no memory.
    ///
    /// Refused, the first that fits: `NoNode` where there is no node `dir`, `NotFolder` where `dir`
    /// is a file, `NoEntry` where the folder has no entry of that name.
    pub fn find(&self, dir: u64, name: &Name) -> Result<u64, Refusal>
        ensures value { IfOk result (λ node. node_in self.now.records dir name.now ≡ Some node) }
        ensures ok { OnOk result (first_refusal (find_refusals self.now dir name.now) ≡ None) }
        ensures err { IfErr result (λ e.
            first_refusal (find_refusals self.now dir name.now) ≡ Some e) }
    {
        match self.kind(dir) {
            None => return Err(Refusal::NoNode),
            Some(Kind::File) => return Err(Refusal::NotFolder),
            Some(Kind::Folder) => {}
        }
        match self.entries.node_in(dir, name) {
            None => Err(Refusal::NoEntry),
            Some(node) => Ok(node),
        }
    }

    /// The entry of a node. It takes no memory.
    ///
    /// Refused, the first that fits: `NoNode` where there is no such node, `NoEntry` for the root,
    /// which is not an entry.
    pub fn entry(&self, node: u64) -> Result<EntryRef<'_>, Refusal>
        ensures value { IfOk result (λ entry. record_at self.now node ≡ Some entry) }
        ensures ok { OnOk result (first_refusal (entry_refusals self.now node) ≡ None) }
        ensures err { IfErr result (λ e. first_refusal (entry_refusals self.now node) ≡ Some e) }
    {
        if node == ROOT {
            return Err(Refusal::NoEntry);
        }
        match self.entries.get(node) {
            None => Err(Refusal::NoNode),
            Some(stored) => Ok(EntryRef::new(stored)),
        }
    }

    /// A copy of the whole entry of a node.
    ///
    /// Refused, the first that fits: `NoNode` where there is no such node, `NoEntry` for the root,
    /// `NoMemory`.
    pub fn listing(&self, node: u64) -> Result<Listing, Refusal>
        ensures value { IfOk result (λ listing. record_at self.now node ≡ Some (listed listing)) }
        ensures refused { IsRefusedBy result (first_refusal (entry_refusals self.now node)) }
    {
        let entry = self.entry(node)?;
        Ok(entry.listing(self.alloc)?)
    }

    /// The entries in a folder, also in the root, by rising name: a directory's listing.
    ///
    /// Refused, the first that fits: `NoNode` where there is no node `dir`, `NotFolder` where `dir`
    /// is a file, `NoMemory`. As the code says, it takes the time of sorting them, however many
    /// entries other folders have.
    pub fn children(&self, dir: u64) -> Result<Vec<Entry>, Refusal>
        ensures refused { IsRefusedBy result (first_refusal (children_refusals self.now dir)) }
        ensures children { IfOk result (λ entries.
            AreChildren self.now.records dir entries.items) }
    {
        check_folder(self, dir)?;
        Ok(self.entries.children(dir)?)
    }

    /// The path of a node: the names that lead from the root down to it. The root's is empty.
    ///
    /// Looked up one after another by `find`, the names lead to the node. The time is linear in
    /// their number, as the code says. Refused, the first that fits: `NoNode` where there is no
    /// such node, `NoMemory`.
    pub fn path(&self, node: u64) -> Result<Vec<Name>, Refusal>
        ensures refused { IsRefusedBy result (first_refusal (path_refusals self.now node)) }
        ensures path { IfOk result (λ names. Leads self.now.records root names.items node) }
    {
        match self.kind(node) {
            None => Err(Refusal::NoNode),
            Some(_) => Ok(self.entries.path(node)?),
        }
    }

    /// The entries that match the predicate, by rising node: the static query, as a BQuery that
    /// isn't live.
    ///
    /// Refused: `NoMemory`. It changes nothing.
    pub fn fetch(&self, predicate: &Predicate) -> Result<Vec<Entry>, Refusal>
        ensures refused { FailsOnlyForMemory result }
        ensures entries { IfOk result (λ entries.
            entries.items ≡ result_of predicate.now self.now) }
    {
        self.entries.fetch(&Matching { predicate })
    }

    pub(crate) fn kind(&self, node: u64) -> Option<Kind>
        ensures { result ≡ kind_at self.now node }
    {
        if node == ROOT {
            return Some(Kind::Folder);
        }
        Some(self.entries.get(node)?.kind())
    }

    pub(crate) fn is_taken(&self, dir: u64, name: &Name) -> bool
        ensures { result ≡ is_taken self.now dir name.now }
    {
        self.entries.node_in(dir, name).is_some()
    }

    // The node at the place, if it is another one.
    pub(crate) fn other_at(&self, node: u64, dir: u64, name: &Name) -> Option<u64>
        ensures { result ≡ other_at self.now node dir name.now }
    {
        match self.entries.node_in(dir, name) {
            None => None,
            Some(there) => { if there == node { None } else { Some(there) } }
        }
    }
}

// The test whether a record matches a predicate.
#[derive(Drop)]
struct Matching<'a> {
    predicate: &'a Predicate,
}

impl<'a> RecordFilter for Matching<'a> {
    ghost use Rattle.lq_predicate.specs.Truth.{truth};
    ghost use Rattle.lq_volume.specs.Result.{shown};

    ghost picks = { λ matching r. truth matching.predicate.now (shown r) };

    fn passes(&self, stored: &StoredRecord) -> bool {
        holds(self.predicate, &EntryRow::stored(stored))
    }
}
