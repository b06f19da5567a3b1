//! What a domain is made with: processors that no thread has yet, and writers of its cells.
ghost use Rattle.std.specs.Prelude.{◌≡◌, ◌+◌, All, MatchOption, MatchResult, length};
ghost use Rattle.driver.specs.Pools.{IsIdle};
ghost use Rattle.srcu.specs.Workers.{AreWritersOf, IsWriterOf};

use crate::worker::Worker;
use domain::{Cpu, Domain, Writer};
use std::alloc::{Allocator, Global};
use std::marker::Model;

mod running;

/// What `make` gives beside a domain. It gives processors out as workers, and takes workers back; and it gives out writers.
/// Contracts see the domain, and how many processors and writers there are.
#[derive(Drop)]
pub struct Team<'a, J, A: Allocator = Global> {
    domain: &'a Domain<J, A>,
    cpus: Vec<Cpu<J, A>, A>,
    writers: Vec<Writer, A>,
}

impl<'a, J, A: Allocator> Model for Team<'a, J, A> {
    ghost use Rattle.srcu.specs.Teams.{TeamView};

    ghost Value = { TeamView };

    ghost use Rattle.srcu.specs.TeamInsides.{view_of_team, IsTeam};

    ghost view = { view_of_team };

    ghost invariant = { IsTeam };
}

impl<'a, J, A: Allocator> Team<'a, J, A> {
    /// A team of these processors and writers.
    pub fn new(
        domain: &'a Domain<J, A>,
        cpus: Vec<Cpu<J, A>, A>,
        writers: Vec<Writer, A>,
    ) -> Team<'a, J, A>
        requires idle { All (IsIdle domain.now) cpus.items }
        requires writers { AreWritersOf domain.now writers.items }
        ensures { result ≡ record { domain = domain.now; cpus = length cpus.items; writers = length writers.items } }
    {
        Team {
            domain,
            cpus,
            writers,
        }
    }

    /// Takes a worker out, if one is there.
    pub fn worker(&mut self) -> Option<Worker<'a, J, A>>
        ensures domain { self.new.domain ≡ self.old.domain }
        ensures worker { MatchOption result
            (self.old.cpus ≡ 0 × (self.new ≡ self.old))
            (λ w. (w.domain ≡ self.old.domain) × (self.old ≡ record self.new { cpus = self.new.cpus + 1 })) }
    {
        let cpu = self.cpus.pop()?;
        Some(Worker::new(self.domain, cpu))
    }

    /// Takes a worker back, or hands it back where there is no memory.
    pub fn back(&mut self, worker: Worker<'a, J, A>) -> Result<(), Worker<'a, J, A>>
        requires { worker.domain ≡ self.old.domain }
        ensures domain { self.new.domain ≡ self.old.domain }
        ensures worker { MatchResult result
            (λ _. self.new ≡ record self.old { cpus = self.old.cpus + 1 })
            (λ w. (w ≡ worker.entry) × (self.new ≡ self.old)) }
    {
        let domain = self.domain;
        match self.cpus.push(worker.into_cpu()) {
            Ok(()) => Ok(()),
            Err(refused) => Err(Worker::new(domain, refused.value)),
        }
    }

    /// Takes the writer of the last cell out that has its writer here, if one is there.
    pub fn writer(&mut self) -> Option<Writer>
        ensures domain { self.new.domain ≡ self.old.domain }
        ensures writer { MatchOption result
            (self.old.writers ≡ 0 × (self.new ≡ self.old))
            (λ w. IsWriterOf self.old.domain w × (self.old ≡ record self.new { writers = self.new.writers + 1 })) }
    {
        self.writers.pop()
    }

    /// The processors, for [`clean_up`](crate::clean_up).
    pub fn into_cpus(self) -> Vec<Cpu<J, A>, A>
        ensures idle { All (IsIdle self.entry.domain) result.items }
        ensures count { length result.items ≡ self.entry.cpus }
    {
        let Team {
            domain: _,
            cpus,
            writers: _,
        } = self;
        cpus
    }
}
