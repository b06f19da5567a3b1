//! How many devices there are.
ghost use Rattle.std.specs.Prelude.{◌≡◌, ◌==◌, length};

use crate::registry::Registry;
use std::alloc::Allocator;

impl<K: Ord + Copy, V: Drop, A: Allocator + Copy> Registry<K, V, A> {
    /// How many devices sections find. Those that were removed don't count.
    pub fn len(&self) -> usize
        ensures { result ≡ length self.now.here }
    {
        self.devices.here.len()
    }

    /// Whether sections find none.
    pub fn is_empty(&self) -> bool
        ensures { result ≡ (length self.now.here == 0) }
    {
        self.devices.here.is_empty()
    }
}
