//! The rule of a bay's table, and what each step on it tells the one that makes it.
ghost use Rattle.desk.specs.BayRule.{bay_client};
ghost use Rattle.desk.specs.BayPlays.{took, put_back};

use super::Alike;
use super::view::{Entry, Plan, Terms};
use annals::{Annals, Chronicle, View};
use atomic_table::Play;
use sections::Token;
use std::marker::PhantomData;

pub(crate) type BayView<T> = View<Entry<T>, (), Terms<T>>;

pub(crate) type Place<T> = annals::Place<Option<T>, Entry<T>, (), Terms<T>>;

pub(crate) type Board<T> = annals::Board<Option<T>, Entry<T>, (), Terms<T>, Plan<T>, OneHolds<T>>;

pub(crate) type Rule<T> = Annals<OneHolds<T>>;

/// The value lies in the bay, or just one seat holds it.
pub struct OneHolds<T>(PhantomData<T>);

impl<T: Token + Alike> Chronicle<Option<T>, Entry<T>, (), Terms<T>, Plan<T>> for OneHolds<T> {
    ghost client = { bay_client T.domain T.like };
}

/// Swap of the word: what lies there comes to the seat.
pub(crate) struct Take<T>(PhantomData<T>);

impl<T: Token + Alike> Play<Option<T>, BayView<T>> for Take<T> {
    ghost then = { λ st. took T.domain T.like };
}

/// Swap of the word: the value lies there again.
pub(crate) struct PutBack;

impl<T> Play<Option<T>, BayView<T>> for PutBack {
    ghost then = { λ st. put_back };
}
