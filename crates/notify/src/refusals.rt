//! Why a chain stays as it is.
use shelf::NoSlot;
use thiserror::Error;

/// Why a block is not registered. The first of these that holds is told. The chain is as it was, though retired slots may
/// have become blank.
#[derive(Clone, Copy, Debug, Error, PartialEq, Eq)]
pub enum RegisterRefusal {
    /// The id is in the chain, at whatever priority.
    #[error("the handler is in the chain: unregister it before")]
    There = 1,
    /// The chain has fifteen blocks.
    #[error("the chain is full: unregister a handler, and call again")]
    Full = 2,
    /// No slot is blank, and of no retired one is the cookie done. Or 2^54 versions were put.
    #[error("{}", NoSlot)]
    NoSlot = 3,
    /// There is no memory. A chain takes none, so this is never told.
    #[error("out of memory: free some, and call again")]
    Memory = 4,
}

/// Why a block is not unregistered. The first of these that holds is told. The chain is as it was, though retired slots
/// may have become blank.
#[derive(Clone, Copy, Debug, Error, PartialEq, Eq)]
pub enum UnregisterRefusal {
    /// The id is not in the chain.
    #[error("the handler is not in the chain: register it before")]
    NotThere = 1,
    /// No slot is blank, and of no retired one is the cookie done. Or 2^54 versions were put.
    #[error("{}", NoSlot)]
    NoSlot = 2,
}
