//! A domain and all of its processors.
ghost use Rattle.domain.specs.Meetings.{IsAllOf, MeetsHere};

use domain::{Cpu, Domain};
use std::alloc::Allocator;

/// All that can act in a domain: whoever has the processors has the engine too, since it lies where they take it from.
#[derive(Drop)]
pub(crate) struct Members<J, A: Allocator> {
    pub(crate) domain: Domain<J, A>,
    pub(crate) cpus: Vec<Cpu<J, A>, A>,
}

impl<J: Drop, A: Allocator> Members<J, A> {
    /// Lets all meet behind an act of one of them. Each knows its own events, raises, turns, and deeds at the tally words,
    /// so what all have then seen is what was before, with the act: nobody else can have come between.
    pub(crate) fn settle(&mut self)
        requires { IsAllOf self.old.domain self.old.cpus.items }
        ensures all { IsAllOf self.new.domain self.new.cpus.items }
        ensures meets { MeetsHere self.old.cpus.items self.new.cpus.items }
    {
        self.domain.meet(&mut self.cpus);
    }
}
