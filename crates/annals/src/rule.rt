//! The rule of a table with a log, over a rule of the caller's.
ghost use Rattle.annals.specs.Client.{Client};
ghost use Rattle.annals.specs.Rule.{Kept, founder};

use crate::view::View;
use atomic_table::TableRule;
use std::marker::PhantomData;

/// What a caller's rule says of the words, of the log and of its part of each view. S is what a slot holds, E an entry of
/// the log, D a deed, which is noted beside the log, C the caller's part of a view, and K what the table is told once, when it is made.
pub trait Chronicle<S, E, D, C, K> {
    ghost client: { Client K S E D C };
}

/// There is one log. Each seat has seen a beginning of it, in which all of its own entries are.
pub struct Annals<P>(PhantomData<P>);

impl<S, E, D, C, K, P: Chronicle<S, E, D, C, K>> TableRule<S, View<E, D, C>, K> for Annals<P> {
    ghost holds = { Kept P.client };

    ghost first = { founder P.client };
}
