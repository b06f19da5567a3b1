//! What the proofs know of a seat. But for `Plan`, no value of these types is ever made.
use sections::Home;
use std::marker::{Model, PhantomData};

/// What the rule of a desk's table is told when the table is made.
#[derive(Drop)]
pub struct Plan {
    /// The domain of all that lies on the desk.
    pub home: Home,
    /// How many seats the desk has.
    pub seats: usize,
}

/// Swaps on a desk, one after the other. Contracts see a list.
pub struct History<T> {
    marker: PhantomData<T>,
}

impl<T> Model for History<T> {
    ghost use Rattle.std.specs.Prelude.{List, []};
    ghost use Rattle.desk.specs.Swaps.{Swap};

    ghost Value = { List (Swap T) };

    ghost view = { λ _. [] };
}

/// Seats of a desk that are over, each with the swaps that it has seen. Contracts see a list.
pub struct Accounts<T> {
    marker: PhantomData<T>,
}

impl<T> Model for Accounts<T> {
    ghost use Rattle.std.specs.Prelude.{List, []};
    ghost use Rattle.desk.specs.Swaps.{Account};

    ghost Value = { List (Account T) };

    ghost view = { λ _. [] };
}

/// What a seat of the table is.
pub enum Role<T> {
    /// It was taken in by another one.
    Nobody,
    /// It stands for all seats of the desk from this number on, which are still to be dealt. Their slots lie in the
    /// table.
    Dealer(u64),
    /// The desk's seat of this number. Its slot lies in the table.
    Waits { number: u64, slot: u64 },
    /// The desk's seat of this number. It holds its slot.
    Sits { number: u64, slot: u64 },
    /// These seats of the desk are over. Their slots lie in the table.
    Gathers(Accounts<T>),
}

/// What one seat knows.
pub struct View<T> {
    /// The domain of all that lies on the desk.
    pub home: Home,
    /// How many seats the desk has.
    pub seats: usize,
    pub role: Role<T>,
    /// The desk's swaps, as far as this seat has seen them.
    pub seen: History<T>,
}
