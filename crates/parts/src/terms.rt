//! What is known of a round, as a value to hand about.
ghost use Rattle.std.specs.Prelude.{◌≡◌, ℕ};
ghost use Rattle.parts.specs.Rounds.{known};

use crate::part::{Deed, Part};
use std::alloc::Allocator;
use std::marker::{Model, PhantomData};

/// Knows which value the parts of a round read. It reads nothing itself and has no bytes, so it goes to any thread, whatever `T` is.
/// It stays true for good.
#[derive(Drop)]
pub struct Terms<T> {
    of: PhantomData<T>,
    /// What each part of the round reads.
    pub ghost value: { T },
    /// Which freeze it is of.
    pub ghost round: { ℕ },
}

impl<T> Model for Terms<T> {
    ghost also_owns = { λ s. known T.row s.round s.value };

    ghost also_shares = { λ s _ _. known T.row s.round s.value };
}

impl<T> Terms<T> {
    /// The terms of a part's round.
    pub fn of_part(part: &Part<T>) -> Terms<T>
        ensures { (result.value ≡ part.now.value) × (result.round ≡ part.now.round) }
    {
        Terms { of: PhantomData }
    }

    /// The terms of a deed's round.
    pub fn of_deed<A: Allocator>(deed: &Deed<T, A>) -> Terms<T>
        ensures { (result.value ≡ deed.now.value) × (result.round ≡ deed.now.round) }
    {
        Terms { of: PhantomData }
    }

    /// The same terms once more.
    pub fn another(&self) -> Terms<T>
        ensures { (result.value ≡ self.now.value) × (result.round ≡ self.now.round) }
    {
        Terms { of: PhantomData }
    }

    /// A part of this round has this value. It does nothing: contracts learn it from the call.
    pub fn agree(&self, part: &Part<T>)
        requires { part.now.round ≡ self.now.round }
        ensures { part.now.value ≡ self.now.value }
    {}
}

// It has no bytes, and shows nothing of a `T`.
unsafe impl<T> Send for Terms<T> {}

unsafe impl<T> Sync for Terms<T> {}
