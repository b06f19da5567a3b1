//! A domain, and how it is made.
ghost use Rattle.std.specs.Prelude.{◌≡◌};

use calls::Calls;
use funnel::Funnel;
use scan::Station;
use std::alloc::{Allocator, Global};
use std::marker::Model;
use std::sync::atomic::AtomicU64;

mod barriers;
pub(crate) mod bell;
mod calling;
pub(crate) mod cleanup;
mod counting;
mod gathering;
mod loads;
mod making;
mod meeting;
mod needs;
mod periods;
mod tallies;
pub(crate) mod waiting;
mod watching;

/// A sleepable RCU domain (`srcu_struct`), which all of its processors share by reference. It has the place where the
/// engine lies; whoever drives it has it for one call, and others that want it are told that it is busy. And it has the callbacks, whose
/// jobs are of type `J`, a list for each processor. A domain that is dropped drops the jobs that still wait in its lists;
/// those that came in and were not moved there yet are dropped once their processor is gone too. Contracts see the
/// domain's table, those of the tree of needs, of the place and of the tally words of the callbacks, how many processors
/// there are, and how many grace periods may end.
#[derive(Drop)]
pub struct Domain<J, A: Allocator = Global> {
    pub(crate) station: Station<A>,
    pub(crate) calls: Calls<J, A>,
    /// The tree in which the processors ask for grace periods.
    pub(crate) tree: Funnel<A>,
    /// How many processors there are.
    pub(crate) processors: u16,
    /// Whether somebody sleeps until a grace period is asked for.
    pub(crate) bell: AtomicU64,
}

impl<J, A: Allocator> Model for Domain<J, A> {
    ghost use Rattle.domain.specs.Views.{DomainView};

    ghost Value = { DomainView };

    ghost use Rattle.domain.specs.Insides.{view_of_domain, IsDomain};

    ghost view = { view_of_domain };

    ghost invariant = { IsDomain };
}

impl<J, A: Allocator> Domain<J, A> {
    /// How many processors the domain has: 1 to 256.
    pub fn processors(&self) -> u16
        ensures { result ≡ self.now.processors }
    {
        self.processors
    }
}
