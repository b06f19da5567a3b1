//! A deed that may be dropped.
ghost use Rattle.std.specs.Prelude.{◌≡◌};

use crate::part::Deed;
use std::alloc::Allocator;

/// A deed that may be dropped: then it abandons its box, which is never freed. A closure may own it, as one of another thread has
/// to: closures own only what may be dropped.
pub struct LooseDeed<T, A: Allocator> {
    /// The deed.
    pub deed: Deed<T, A>,
}

impl<T, A: Allocator> LooseDeed<T, A> {
    /// Makes a deed one that may be dropped.
    pub fn new(deed: Deed<T, A>) -> LooseDeed<T, A>
        ensures { result.deed ≡ deed }
    {
        LooseDeed { deed }
    }

    /// The deed, which can't be dropped again.
    pub fn into_deed(self) -> Deed<T, A>
        ensures { result ≡ self.deed }
    {
        let LooseDeed { deed } = self;
        deed
    }
}

impl<T, A: Allocator> Drop for LooseDeed<T, A> {
    fn drop(self) {
        let LooseDeed { deed } = self;
        drop(deed.abandon());
    }
}
