//! What a query's result holds for each match: the entry's folder, its name and its node.
use crate::name::Name;

/// An entry of a result: its folder, its name and its node.
///
/// Nodes count from 2 and are never used again. `dir` is 1, the root, or a folder's node.
#[derive(Debug, Drop)]
pub struct Entry {
    pub dir: u64,
    pub name: Name,
    pub node: u64,
}
