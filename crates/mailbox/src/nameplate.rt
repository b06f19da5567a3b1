//! The key of a place, for contracts alone.
ghost use Rattle.std.specs.Prelude.{◌≡◌};
ghost use Rattle.std.specs.Borrow.{ftrue};

use std::marker::{Model, PhantomData};

/// The key that what lies in a place fits. It has no bytes: the key itself stays with whoever made the place. The table is told
/// this, and no bare type parameter: a call that takes such a table by value would have no proof.
#[derive(Drop)]
pub struct Nameplate<K> {
    of: PhantomData<K>,
    pub ghost key: { K },
}

impl<K> Model for Nameplate<K> {
    ghost also_owns = { λ _. ftrue };
}

impl<K> Nameplate<K> {
    /// The nameplate with this key.
    pub(crate) fn of(_key: &K) -> Nameplate<K>
        ensures { result.key ≡ _key.now }
    {
        Nameplate { of: PhantomData }
    }
}
