//! The index of places: which node a folder has under a name, found by the name's hash.
ghost use Rattle.std.specs.Prelude.{◌≡◌, ◌↔◌, ℕ, List, ◌==◌, ◌||◌, ◌++◌, not, length, false, OnOk, OnErr, IfOk, IsSome, Some, None};
ghost use Rattle.std.specs.List.{Contains};
ghost use Rattle.std.specs.Map.{values_of};
ghost use Rattle.lq_value.specs.Refusal.{FailsOnlyForMemory};

use lq_value::{Name, Refusal};
use std::alloc::Global;
use std::collections::BTreeMap;

/// The nodes of a folder's entries, by their names.
///
/// A node stands under the hash of its name, and its record alone has the name. If another name had
/// that hash before, the node stands among the others, under its name.
#[derive(Drop)]
pub struct Names {
    first: BTreeMap<u64, u64>,
    others: BTreeMap<Name, u64>,
}

impl Names {
    // Whether any node is here.
    fn has_any(&self) -> bool
        ensures { result ≡ (not (length self.now.first.entries == 0)
            || not (length self.now.others.entries == 0)) }
    {
        !self.first.is_empty() || !self.others.is_empty()
    }

    // The nodes, in no order that matters. Refused: `NoMemory`.
    fn nodes(&self, alloc: Global) -> Result<Vec<u64>, Refusal>
        ensures refused { FailsOnlyForMemory result }
        ensures nodes { IfOk result (λ nodes. nodes.items
            ≡ values_of self.now.first.entries ++ values_of self.now.others.entries) }
    {
        let mut nodes = Vec::new(alloc);
        push_values(&mut nodes, &self.first)?;
        push_values(&mut nodes, &self.others)?;
        Ok(nodes)
    }
}

// Adds a map's values in the order of its keys. Refused: `NoMemory`.
fn push_values<K: Ord>(nodes: &mut Vec<u64>, map: &BTreeMap<K, u64>) -> Result<(), Refusal>
    ensures refused { FailsOnlyForMemory result }
    ensures pushed { OnOk result
        (nodes.new.items ≡ nodes.old.items ++ values_of map.now.entries) }
{
    for node in map.values() {
        nodes.push(*node)?;
    }
    Ok(())
}

/// The node at each place, by folder and then by name.
///
/// A look-up searches the index for a number, the hash, and compares the name with one other name.
/// Names chosen to share a hash cost a logarithmic search among them. A folder's map of names is
/// made with its first name and dropped with its last.
#[derive(Drop)]
pub struct Places {
    alloc: Global,
    folders: BTreeMap<u64, Names>,
}

impl Places {
    ghost use Rattle.lq_volume_entries.specs.Places.{first_in, other_in, has_names, is_first, HasFolder, IsNameless, PutsNode, PutsFirst, PutsOther, TakesNode, SamePlaces};

    /// No places. It takes no memory.
    pub fn new(alloc: Global) -> Places
        ensures first { (d h : ℕ) → first_in result d h ≡ None }
        ensures others { (d : ℕ) (n : List ℕ) → other_in result d n ≡ None }
    {
        Places {
            alloc,
            folders: BTreeMap::new(alloc),
        }
    }

    /// The node under a hash.
    pub fn first(&self, dir: u64, hash: u64) -> Option<u64>
        ensures { result ≡ first_in self.now dir hash }
    {
        self.folders.get(&dir)?.first.get(&hash).copied()
    }

    /// The node under a name.
    pub fn other(&self, dir: u64, name: &Name) -> Option<u64>
        ensures { result ≡ other_in self.now dir name.now }
    {
        self.folders.get(&dir)?.others.get(name).copied()
    }

    /// Whether a folder contains a node.
    pub fn has_names(&self, dir: u64) -> bool
        ensures { (result ≡ false) ↔ IsNameless self.now dir }
    {
        match self.folders.get(&dir) {
            None => false,
            Some(names) => names.has_any(),
        }
    }

    /// All nodes under a hash or a name of a folder. A node may be there twice.
    ///
    /// Refused: `NoMemory`.
    pub fn nodes(&self, dir: u64) -> Result<Vec<u64>, Refusal>
        ensures refused { FailsOnlyForMemory result }
        ensures first { IfOk result (λ nodes. (h x : ℕ)
            → first_in self.now dir h ≡ Some x → Contains nodes.items x) }
        ensures others { IfOk result (λ nodes. (n : List ℕ) (x : ℕ)
            → other_in self.now dir n ≡ Some x → Contains nodes.items x) }
    {
        match self.folders.get(&dir) {
            None => Ok(Vec::new(self.alloc)),
            Some(names) => names.nodes(self.alloc),
        }
    }

    /// Whether this node is the one under the hash of a name.
    pub fn is_first(&self, dir: u64, name: &Name, node: u64) -> bool
        ensures { result ≡ is_first self.now dir name.now node }
    {
        self.first(dir, name.hash()) == Some(node)
    }

    /// Puts a node at a place. A node that is already under the hash stays there, unless it is
    /// `over`, which goes.
    ///
    /// Refused: `NoMemory`; a refused call changes no place.
    pub fn put(
        &mut self,
        dir: u64,
        name: &Name,
        node: u64,
        over: Option<u64>,
    ) -> Result<(), Refusal>
        ensures refused { FailsOnlyForMemory result }
        ensures ok { OnOk result (PutsNode self.old self.new dir name.now node over) }
        ensures err { OnErr result (SamePlaces self.old self.new) }
    {
        let hash = name.hash();
        self.open_folder(dir)?;
        match self.put_first(dir, hash, node)? {
            None => Ok(()),
            Some(there) if over == Some(there) => Ok(()),
            Some(there) => {
                self.put_back(dir, hash, there);
                self.put_other(dir, name.copy(self.alloc)?, node)
            }
        }
    }

    // Makes the map of names for a folder that has none.
    fn open_folder(&mut self, dir: u64) -> Result<(), Refusal>
        ensures refused { FailsOnlyForMemory result }
        ensures ok { OnOk result (HasFolder self.new dir) }
        ensures same { SamePlaces self.old self.new }
    {
        if !self.folders.contains_key(&dir) {
            let names = Names {
                first: BTreeMap::new(self.alloc),
                others: BTreeMap::new(self.alloc),
            };
            self.folders.insert(dir, names)?;
        }
        Ok(())
    }

    // Puts a node under a hash, and gives the one that was there.
    fn put_first(&mut self, dir: u64, hash: u64, node: u64) -> Result<Option<u64>, Refusal>
        requires { HasFolder self.old dir }
        ensures refused { FailsOnlyForMemory result }
        ensures there { IfOk result (λ there. there ≡ first_in self.old dir hash) }
        ensures ok { OnOk result (PutsFirst self.old self.new dir hash node) }
        ensures err { OnErr result (SamePlaces self.old self.new) }
    {
        match self.folders.get_mut(&dir) {
            None => Ok(None),
            Some(names) => Ok(names.first.insert(hash, node)?),
        }
    }

    // Gives a hash back to the node that was there. It takes no memory.
    fn put_back(&mut self, dir: u64, hash: u64, node: u64)
        requires { IsSome (first_in self.old dir hash) }
        ensures { PutsFirst self.old self.new dir hash node }
    {
        if let Some(names) = self.folders.get_mut(&dir) {
            if let Some(there) = names.first.get_mut(&hash) {
                *there = node;
            }
        }
    }

    fn put_other(&mut self, dir: u64, name: Name, node: u64) -> Result<(), Refusal>
        requires { HasFolder self.old dir }
        ensures refused { FailsOnlyForMemory result }
        ensures ok { OnOk result (PutsOther self.old self.new dir name node) }
        ensures err { OnErr result (SamePlaces self.old self.new) }
    {
        if let Some(names) = self.folders.get_mut(&dir) {
            names.others.insert(name, node)?;
        }
        Ok(())
    }

    /// Empties a place, also under the hash if its node was the one there.
    pub fn take(&mut self, dir: u64, name: &Name, was_first: bool)
        ensures { TakesNode self.old self.new dir name.now was_first }
    {
        if !self.take_name(dir, name, was_first) {
            self.drop_names(dir);
        }
    }

    // Empties a place, and answers whether the folder has other names.
    fn take_name(&mut self, dir: u64, name: &Name, was_first: bool) -> bool
        ensures has { result ≡ has_names self.new dir }
        ensures takes { TakesNode self.old self.new dir name.now was_first }
    {
        match self.folders.get_mut(&dir) {
            None => false,
            Some(names) => {
                if was_first {
                    names.first.remove(&name.hash());
                }
                names.others.remove(name);
                names.has_any()
            }
        }
    }

    // Drops a folder's map of names, if it is empty.
    fn drop_names(&mut self, dir: u64)
        requires { has_names self.old dir ≡ false }
        ensures { SamePlaces self.old self.new }
    {
        self.folders.remove(&dir);
    }
}
