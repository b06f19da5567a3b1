//! The rule of a line, and what each step on it tells the one that makes it.
ghost use Rattle.std.specs.Prelude.{Option, None};
ghost use Rattle.intake.specs.Rule.{Kept, founder, pusher_of, taker_of};
ghost use Rattle.intake.specs.Plays.{pushed, taken, emptied};

use crate::item::Item;
use crate::view::View;
use crossbeam_queue::protocol::{Lesson, Outcome, Protocol, Split};
use std::marker::{Brand, PhantomData};

/// What was taken out is a beginning of what was pushed, and the rest waits in the line.
pub struct InTurn<T, K>(PhantomData<(T, K)>);

impl<T: Item<K>, K> Protocol<T, View<T, K>> for InTurn<T, K> {
    ghost holds = { Kept T.follows };

    ghost first = { founder };
}

/// A value comes in last.
pub(crate) struct Push;

impl<T, K> Outcome<T, View<T, K>> for Push {
    ghost then = { pushed };
}

/// The first value goes out.
pub(crate) struct Take<T, K>(PhantomData<(T, K)>);

impl<T: Item<K>, K> Outcome<T, View<T, K>> for Take<T, K> {
    ghost then = { taken T.follows };
}

impl<T: Item<K>, K> Lesson<T, View<T, K>> for Take<T, K> {
    ghost fact = { emptied };
}

/// The key of a new line. Each call names it anew.
pub trait Naming<K> {
    ghost key: { Option K };
}

impl<K> Naming<K> for Brand {
    ghost key = { None };
}

/// A new line gets its two ends.
pub(crate) struct Part<N>(PhantomData<N>);

impl<T, K, N: Naming<K>> Split<View<T, K>> for Part<N> {
    ghost left = { λ v. pusher_of N.key };

    ghost right = { λ v. taker_of N.key };
}
