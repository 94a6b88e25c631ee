//! The keys that a script's lines use: `fields` finds a field for each.

/// A key that lines use.
#[derive(Clone, Copy)]
pub enum Key {
    /// `do`: what the line asks for.
    Do,
    /// `dir`: the folder of a place.
    Dir,
    /// `name`: the name at a place.
    Name,
    /// `kind`: file or folder.
    Kind,
    /// `size`: a size in bytes.
    Size,
    /// `time`: when an entry was modified, in seconds since 1970.
    Time,
    /// `node`: the node of an entry.
    Node,
    /// `attr`: the name of an attribute.
    Attr,
    /// `type`: the type of an attribute's value.
    Type,
    /// `value`: an attribute's value.
    Value,
    /// `query`: a formula.
    Query,
    /// `port`: the length of a port.
    Port,
    /// `backlog`: the bound on held messages.
    Backlog,
    /// `moved`: whether moves within a result are messages.
    Moved,
    /// `values`: whether changes of a value within a result are messages.
    Values,
    /// `slot`: the slot of a subscription.
    Slot,
    /// `clobber`: whether a move may take a place that is taken.
    Clobber,
}
