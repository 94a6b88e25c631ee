//! Files and folders: only a folder can hold other nodes.

/// The kind of a node: a file, or a folder, which can hold other nodes.
#[derive(Clone, Copy, Debug, PartialEq, Eq)]
pub enum Kind {
    File,
    Folder,
}
