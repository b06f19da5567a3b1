//! What the writer keeps of a device.
ghost use Rattle.std.specs.Prelude.{◌≡◌, ◌+◌, ◌^◌, ◌<◌};

use crate::index::Entry;
use parts::{LooseDeed, Part, freeze, thaw};
use std::alloc::Allocator;

/// A device, with those of its parts that no version has.
#[derive(Drop)]
pub(crate) struct Device<K: Copy, V, A: Allocator> {
    pub(crate) key: K,
    /// Which device it is: no other one of its registry has the same number.
    pub(crate) number: u64,
    pub(crate) deed: LooseDeed<V, A>,
    pub(crate) part: Part<V>,
    /// How many versions have a part of it.
    pub(crate) out: u64,
    ghost round: { part.round ≡ deed.deed.round },
    ghost all: { part.count + out ≡ 2 ^ 63 },
}

impl<K: Copy, V: Drop, A: Allocator> Device<K, V, A> {
    ghost use Rattle.registry.specs.Names.{IsPartOf, kept_of};

    /// A device of which no version has a part yet.
    pub(crate) fn new(key: K, number: u64, whole: Box<V, A>) -> Device<K, V, A>
        ensures { (result.key ≡ key) × (result.number ≡ number) × (result.deed.deed.value ≡ whole.value) × (result.out ≡ 0) }
    {
        let (deed, part) = freeze(whole);
        Device {
            key,
            number,
            deed: LooseDeed::new(deed),
            part,
            out: 0,
        }
    }

    /// One part more, for a version.
    pub(crate) fn lend(&mut self) -> Entry<K, V>
        requires { self.old.out < 2 ^ 62 }
        ensures part { IsPartOf result self.old }
        ensures rest { (kept_of self.new ≡ kept_of self.old) × (self.new.out ≡ self.old.out + 1) }
    {
        self.deed.deed.agree(&self.part);
        self.out += 1;
        Entry {
            key: self.key,
            number: self.number,
            part: self.part.split(1),
        }
    }

    /// Takes a version's part back.
    pub(crate) fn take_home(&mut self, entry: Entry<K, V>)
        requires { entry.part.round ≡ self.old.deed.deed.round }
        ensures { (kept_of self.new ≡ kept_of self.old) × (self.new.out + 1 ≡ self.old.out) }
    {
        let Entry {
            key: _,
            number: _,
            part,
        } = entry;
        self.part.join(part);
        self.out -= 1;
    }

    /// The device itself. No version may have a part of it.
    pub(crate) fn into_value(self) -> V
        requires { self.out ≡ 0 }
        ensures { result ≡ self.deed.deed.value }
    {
        let Device {
            key: _,
            number: _,
            deed,
            part,
            out: _,
        } = self;
        Box::into_inner(thaw(deed.into_deed(), part))
    }
}
