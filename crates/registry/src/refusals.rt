//! Why a change was refused. Where it was, nothing has changed.
use thiserror::Error;

/// Why [`Registry::insert`](crate::Registry::insert) handed its device back.
#[derive(Clone, Copy, Debug, Error, PartialEq, Eq)]
pub enum InsertRefusal {
    /// A device with this key is there.
    #[error("the key is taken: remove the device that has it first")]
    There,
    /// The key is free, and there was no memory for the device or for the index.
    #[error("out of memory: free some, and call again")]
    Memory,
    /// The key is free, and each slot of the cell holds the current version, or one that a section may still read. Or the cell
    /// has had 2^54 versions.
    #[error("no slot is free: synchronize, and call again")]
    NoSlot,
}

/// Why [`Registry::remove`](crate::Registry::remove) removed nothing.
#[derive(Clone, Copy, Debug, Error, PartialEq, Eq)]
pub enum RemoveRefusal {
    /// No device has this key.
    #[error("no device has this key")]
    NotThere,
    /// The device is there, and there was no memory for the index.
    #[error("out of memory: free some, and call again")]
    Memory,
    /// The device is there, and each slot of the cell holds the current version, or one that a section may still read. Or the
    /// cell has had 2^54 versions.
    #[error("no slot is free: synchronize, and call again")]
    NoSlot,
}

/// Why [`Registry::replace`](crate::Registry::replace) handed its device back.
#[derive(Clone, Copy, Debug, Error, PartialEq, Eq)]
pub enum ReplaceRefusal {
    /// No device has this key.
    #[error("no device has this key")]
    NotThere,
    /// The old device is there, and there was no memory for the new one or for the index.
    #[error("out of memory: free some, and call again")]
    Memory,
    /// The old device is there, and each slot of the cell holds the current version, or one that a section may still read. Or
    /// the cell has had 2^54 versions.
    #[error("no slot is free: synchronize, and call again")]
    NoSlot,
}

/// Why [`Registry::remove_and_wait`](crate::Registry::remove_and_wait) removed nothing, though it waits for a slot.
#[derive(Clone, Copy, Debug, Error, PartialEq, Eq)]
pub enum StayRefusal {
    /// No device has this key.
    #[error("no device has this key")]
    NotThere,
    /// The device is there, and there was no memory for the index.
    #[error("out of memory: free some, and call again")]
    Memory,
    /// The device is there, and the cell has had 2^54 versions: none is removed any more.
    #[error("the cell has had 2^54 versions: its devices stay there")]
    Spent,
    /// The device is there. No slot was free, and no more grace periods may start.
    #[error("no more grace periods may start: make another domain")]
    Periods,
    /// The device is there. The limit passed while no slot was free.
    #[error("the time is over, and no slot is free: find who uses devices, and call again")]
    TimedOut,
}

/// Why [`Registry::remove_and_wait`](crate::Registry::remove_and_wait) returned no device.
#[derive(Clone, Copy, Debug, Error, PartialEq, Eq)]
pub enum WaitRefusal {
    /// The device was not removed, for this reason. It is still there.
    #[error("nothing was removed: {0}")]
    NotRemoved(StayRefusal),
    /// The device was removed, and no more grace periods may start. [`Registry::reclaim`](crate::Registry::reclaim) returns it,
    /// if it comes back.
    #[error("no more grace periods may start: make another domain")]
    Exhausted,
    /// The device was removed, and the time was over. [`Registry::reclaim`](crate::Registry::reclaim) returns it once no section
    /// can use it any more.
    #[error("the time is over: find who uses the device, and reclaim it")]
    TimedOut,
}

/// Why no version was put.
pub(crate) enum NotPut {
    Memory,
    NoSlot,
}

impl NotPut {
    ghost use Rattle.std.specs.Prelude.{◌≡◌};
    ghost use Rattle.registry.specs.Refusing.{not_inserted, not_removed, not_replaced};

    /// Why a device was not inserted then.
    pub(crate) fn inserting(self) -> InsertRefusal
        ensures { result ≡ not_inserted self }
    {
        match self {
            NotPut::Memory => InsertRefusal::Memory,
            NotPut::NoSlot => InsertRefusal::NoSlot,
        }
    }

    /// Why a device was not removed then.
    pub(crate) fn removing(self) -> RemoveRefusal
        ensures { result ≡ not_removed self }
    {
        match self {
            NotPut::Memory => RemoveRefusal::Memory,
            NotPut::NoSlot => RemoveRefusal::NoSlot,
        }
    }
    /// Why a device was not replaced then.
    pub(crate) fn replacing(self) -> ReplaceRefusal
        ensures { result ≡ not_replaced self }
    {
        match self {
            NotPut::Memory => ReplaceRefusal::Memory,
            NotPut::NoSlot => ReplaceRefusal::NoSlot,
        }
    }
}
