//! The rule of a desk's table, and what each step on it tells the one that makes it.
ghost use Rattle.desk.specs.Rule.{Kept, founder, dealer, dealt, gathering, spent};
ghost use Rattle.desk.specs.Plays.{picked_up, traded, laid_down, gathered};

use crate::view::{Plan, View};
use atomic_table::{Join, Play, Seat, Shared, Split, TableRule};
use sections::Token;
use std::marker::PhantomData;

pub(crate) type Place<T> = Seat<Option<T>, View<T>>;

pub(crate) type Board<T> = Shared<Option<T>, View<T>, Plan, InTurn<T>>;

/// Each swap finds what the one before it left.
pub struct InTurn<T>(PhantomData<T>);

impl<T: Token> TableRule<Option<T>, View<T>, Plan> for InTurn<T> {
    ghost holds = { λ plan. Kept T.domain plan };

    ghost first = { founder };
}

/// Swap of the word: the own slot goes to the desk, and the desk's slot comes in its place.
pub(crate) struct Trade<T>(PhantomData<T>);

impl<T: Token> Play<Option<T>, View<T>> for Trade<T> {
    ghost then = { λ st. traded T.domain };
}

/// Load of the word: a new seat takes its slot, which is empty.
pub(crate) struct PickUp;

impl<T> Play<Option<T>, View<T>> for PickUp {
    ghost then = { λ st. picked_up };
}

/// Load of the word: a seat lays its slot down, which is empty.
pub(crate) struct LayDown;

impl<T> Play<Option<T>, View<T>> for LayDown {
    ghost then = { λ st. laid_down };
}

/// Load of the word: a new seat is to take in the others.
pub(crate) struct Gather;

impl<T> Play<Option<T>, View<T>> for Gather {
    ghost then = { λ st. gathered };
}

/// A new seat is the desk's next one.
pub(crate) struct Deal;

impl<T> Split<View<T>> for Deal {
    ghost left = { dealer };

    ghost right = { dealt };
}

/// The other seat is over.
pub(crate) struct TakeIn;

impl<T> Join<View<T>> for TakeIn {
    ghost both = { gathering };

    ghost spent = { spent };
}
