//! What the proofs know of a seat at a lock's word. No value of these types is ever made.
use std::marker::{Model, PhantomData};

/// The states in which a value was left, the newest first. Contracts see a list.
pub struct States<E> {
    marker: PhantomData<E>,
}

impl<E> Model for States<E> {
    ghost use Rattle.std.specs.Prelude.{List, []};

    ghost Value = { List E };

    ghost view = { λ _. [] };
}

/// What one seat knows.
pub struct View<K, E> {
    /// The lock's key, for whoever comes to the lock.
    pub key: Option<K>,
    /// The value is out with this seat.
    pub has: bool,
    /// The states in which the value had been left by a moment.
    pub seen: States<E>,
    /// What another seat had seen, which the next load covers.
    pub told: States<E>,
}
