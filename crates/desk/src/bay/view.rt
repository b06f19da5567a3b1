//! What the proofs know of a seat at a bay. But for `Plan`, no value of these types is ever made.
use sections::Home;
use std::marker::{Model, PhantomData};
use std::snapshot::Snapshot;

/// What the rule of a bay's table is told when the table is made.
#[derive(Drop)]
pub struct Plan<T> {
    /// The domain of all that lies in the bay.
    pub home: Home,
    /// How many seats the bay has.
    pub seats: usize,
    /// What lies there in the beginning.
    pub first: Snapshot<T>,
}

/// An entry of the bay's log. Contracts see a swap.
pub struct Entry<T> {
    marker: PhantomData<T>,
}

impl<T> Model for Entry<T> {
    ghost use Rattle.std.specs.Prelude.{None};
    ghost use Rattle.desk.specs.Swaps.{Swap};

    ghost Value = { Swap T };

    ghost view = { λ _. record { by = 0; left = None; found = None } };
}

/// What lay there in the beginning. Contracts see an option.
pub struct First<T> {
    marker: PhantomData<T>,
}

impl<T> Model for First<T> {
    ghost use Rattle.std.specs.Prelude.{Option, None};

    ghost Value = { Option T };

    ghost view = { λ _. None };
}

/// What one seat knows beside the swaps.
pub struct Terms<T> {
    /// The domain of all that lies in the bay.
    pub home: Home,
    /// How many seats the bay has.
    pub seats: usize,
    /// What lay there in the beginning. A seat that is nobody's may know nothing of it.
    pub first: First<T>,
}
