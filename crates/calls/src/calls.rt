//! The callbacks of a domain.
use crate::list::List;
use crate::spot::Spot;
use keep::Keep;
use std::alloc::{Allocator, Global};
use std::marker::Model;

mod handing;

/// A processor's list in its lock.
pub(crate) type Lock<J, A> = Keep<List<J, A>, Spot<J>, A>;

/// The callbacks of a domain: a list for each processor, behind a lock of its own. The threads share it by reference.
/// Contracts see the domain, the tally words, and how many processors there are.
#[derive(Drop)]
pub struct Calls<J, A: Allocator = Global> {
    pub(crate) lists: Vec<Lock<J, A>, A>,
}

impl<J, A: Allocator> Model for Calls<J, A> {
    ghost use Rattle.calls.specs.Views.{CallsView};

    ghost Value = { CallsView };

    ghost use Rattle.calls.specs.Insides.{view_of_calls, AreCalls};

    ghost view = { view_of_calls };

    ghost invariant = { AreCalls };
}
