//! Why no volume is restored from numbers and entries.
use std::fmt;
use thiserror::Error;

/// Why no volume is restored from these numbers and entries.
///
/// The names are our own. The display text is the name.
#[derive(Clone, Copy, PartialEq, Eq, Error)]
pub enum RestoreFault {
    /// There are more changes than the limit.
    #[error("NumberOutOfRange")]
    NumberOutOfRange,
    /// The next node isn't one of 2 to the number of changes + 2, or an entry's node isn't below
    /// the next node.
    #[error("NodeOutOfRange")]
    NodeOutOfRange,
    /// An entry's node isn't above the node of the entry before it, or the first node isn't
    /// above 1.
    #[error("OutOfOrder")]
    OutOfOrder,
    /// An entry before it has the same folder and name.
    #[error("NameTaken")]
    NameTaken,
    /// A folder has a size other than 0.
    #[error("SizeOfFolder")]
    SizeOfFolder,
    /// A size is above 9,223,372,036,854,775,807 bytes.
    #[error("TooLong")]
    TooLong,
    /// An attribute has the name `name`, `size` or `last_modified`.
    #[error("Reserved")]
    Reserved,
    /// Two attributes of an entry have the same name.
    #[error("NameTwice")]
    NameTwice,
    /// An entry's folder is neither the root nor one of the entries.
    #[error("NoFolder")]
    NoFolder,
    /// An entry's folder is a file.
    #[error("NotFolder")]
    NotFolder,
    /// A folder is within itself.
    #[error("Ring")]
    Ring,
    /// Memory ran out.
    #[error("NoMemory")]
    NoMemory,
}

impl fmt::Debug for RestoreFault {
    fn fmt<W: fmt::Write>(&self, f: &mut fmt::Formatter<W>) -> fmt::Result {
        fmt::Display::fmt(self, f)
    }
}
