//! Why a table was not changed.
use shelf::NoSlot;
use thiserror::Error;

/// Why [`Table::install`](crate::Table::install) put nothing. The table is as it was.
#[derive(Clone, Copy, Debug, Error, PartialEq, Eq)]
pub enum InstallRefusal {
    /// There are fifteen rows, and none of them has the key. No step was made.
    #[error("the table is full: remove a key, and call again")]
    Full = 1,
    /// No slot is free: none is blank, and of no retired one is the cookie done. Or 2^54 versions were put. Retired
    /// slots may have become blank.
    #[error("{}", NoSlot)]
    NoSlot = 2,
    /// An allocation was refused. The rows lie in an array of the table's own, so this is never the answer.
    #[error("out of memory: free some, and call again")]
    Memory = 3,
}

/// Why [`Table::remove`](crate::Table::remove) put nothing. The table is as it was.
#[derive(Clone, Copy, Debug, Error, PartialEq, Eq)]
pub enum RemoveRefusal {
    /// No row has the key. No step was made.
    #[error("the key is not in the table: install it before")]
    NotThere = 1,
    /// As [`InstallRefusal::NoSlot`].
    #[error("{}", NoSlot)]
    NoSlot = 2,
}
