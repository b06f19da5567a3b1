//! The writer of a registry.

use crate::devices::Devices;
use crate::index::Index;
use boxes::BoxWriter;
use std::alloc::{Allocator, Global};
use std::marker::Model;

/// How many versions are put at most: 2^54, as of any cell.
pub(crate) const MOST: u64 = 18_014_398_509_481_984;

/// What inserts devices under keys, removes them, and has them back. It has one owner. Dropped, it leaks the devices that did
/// not come back. Contracts see the devices, and which have yet to come back.
#[derive(Drop)]
pub struct Registry<K: Ord + Copy, V: Drop, A: Allocator + Copy = Global> {
    pub(crate) alloc: A,
    pub(crate) writer: BoxWriter<Index<K, V, A>, A>,
    pub(crate) devices: Devices<K, V, A>,
    /// How many versions it has put. The next device has this number.
    pub(crate) changes: u64,
}

impl<K: Ord + Copy, V: Drop, A: Allocator + Copy> Model for Registry<K, V, A> {
    ghost use Rattle.registry.specs.Registry.{RegistryView, IsAtRest};

    ghost Value = { RegistryView K V A };

    ghost view = { λ r. record { writer = r.writer; here = r.devices.here.items; leaving = r.devices.leaving.items; changes = r.changes } };

    ghost invariant = { λ r. IsAtRest K.cmp r.writer r.devices.here.items r.devices.leaving.items r.changes };
}
