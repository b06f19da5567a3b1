//! How seats of the table are cut in two and joined, and what a load tells.
ghost use Rattle.annals.specs.Rule.{bearer, informed, spent, dealer, dealt};
ghost use Rattle.annals.specs.Plays.{found_all, admitted};

use crate::rule::Chronicle;
use crate::view::View;
use atomic_table::{Join, Play, Split};
use std::marker::PhantomData;

/// A new seat has seen as much.
pub struct GiveToken<S, K, P>(PhantomData<(S, K, P)>);

impl<S, E, D, C, K, P: Chronicle<S, E, D, C, K>> Split<View<E, D, C>> for GiveToken<S, K, P> {
    ghost left = { λ v. v };

    ghost right = { bearer P.client };
}

/// What the other seat has seen is told.
pub struct TakeToken<S, K, P>(PhantomData<(S, K, P)>);

impl<S, E, D, C, K, P: Chronicle<S, E, D, C, K>> Join<View<E, D, C>> for TakeToken<S, K, P> {
    ghost both = { informed };

    ghost spent = { spent P.client };
}

/// A new seat is the next one.
pub struct Deal<S, K, P>(PhantomData<(S, K, P)>);

impl<S, E, D, C, K, P: Chronicle<S, E, D, C, K>> Split<View<E, D, C>> for Deal<S, K, P> {
    ghost left = { dealer };

    ghost right = { dealt P.client };
}

/// A load that sees all entries until now.
pub struct Cover<K, P>(PhantomData<(K, P)>);

impl<S, E, D, C, K, P: Chronicle<S, E, D, C, K>> Play<S, View<E, D, C>> for Cover<K, P> {
    ghost then = { λ st. found_all P.client };
}

/// A load by a seat that has then seen just what it was told.
pub struct Admit<K, P>(PhantomData<(K, P)>);

impl<S, E, D, C, K, P: Chronicle<S, E, D, C, K>> Play<S, View<E, D, C>> for Admit<K, P> {
    ghost then = { λ st. admitted P.client };
}
