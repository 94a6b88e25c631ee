//! The arguments of an opening, beside its predicate.
ghost use Rattle.std.specs.Prelude.{◌≡◌};
ghost use Rattle.lq_update.specs.Options.{no_values, options_of};

/// Which messages a live query has beside created and removed ones.
#[derive(Clone, Copy)]
pub struct Flags {
    /// Whether one moved message comes in place of a removed and a created one of the same node.
    pub moved: bool,
    /// Whether a change of a value within the result has a message: a write, or an attribute that
    /// is set or removed.
    pub values: bool,
}

/// How a live query is opened: its port, its backlog, and its flags.
#[derive(Clone, Copy)]
pub struct OpenOptions {
    /// The number of places of its port, 1 to 1,024 parcels.
    pub port: u64,
    /// The most messages that it holds before the port, up to 65,536. A change that would exceed it
    /// ends the live query.
    pub backlog: u64,
    /// Which messages it has beside created and removed ones.
    pub flags: Flags,
}

impl Flags {
    /// Moved messages or not, and no messages of values.
    pub fn without_values(moved: bool) -> Flags
        ensures { result ≡ no_values moved }
    {
        Flags {
            moved,
            values: false,
        }
    }
}

impl OpenOptions {
    /// These options without messages of values.
    pub fn without_values(port: u64, backlog: u64, moved: bool) -> OpenOptions
        ensures { result ≡ options_of port backlog moved }
    {
        OpenOptions {
            port,
            backlog,
            flags: Flags::without_values(moved),
        }
    }
}
