//! A processor with its domain.
ghost use Rattle.std.specs.Prelude.{◌≡◌};
ghost use Rattle.driver.specs.Pools.{IsIdle};

use domain::{Cpu, Domain};
use std::alloc::{Allocator, Global};
use std::marker::Model;

mod boxing;
mod calling;
mod changing;
mod driving;
mod emptying;
mod holding;
mod reading;
mod taking;
mod updating;
mod waiting;
mod watching;

pub use emptying::EmptyRefusal;
pub use updating::UpdateRefusal;

/// A processor with the domain that it is of, on which no reading is open. One thread owns it. So its calls ask for neither.
/// Contracts see the domain and the processor.
#[derive(Drop)]
pub struct Worker<'a, J, A: Allocator = Global> {
    pub(crate) domain: &'a Domain<J, A>,
    pub(crate) cpu: Cpu<J, A>,
}

impl<'a, J, A: Allocator> Model for Worker<'a, J, A> {
    ghost use Rattle.srcu.specs.Workers.{WorkerView};

    ghost Value = { WorkerView J };

    ghost use Rattle.srcu.specs.Insides.{view_of_worker, IsWorker};

    ghost view = { view_of_worker };

    ghost invariant = { IsWorker };
}

impl<'a, J, A: Allocator> Worker<'a, J, A> {
    /// Puts a processor and its domain together. No reading may be open on the processor.
    pub fn new(domain: &'a Domain<J, A>, cpu: Cpu<J, A>) -> Worker<'a, J, A>
        requires { IsIdle domain.now cpu }
        ensures { result ≡ record { domain = domain.now; cpu = cpu } }
    {
        Worker { domain, cpu }
    }

    /// The domain.
    pub fn domain(&self) -> &'a Domain<J, A>
        ensures { result.now ≡ self.now.domain }
    {
        self.domain
    }

    /// The number of the processor, from 0.
    pub fn processor(&self) -> u16
        ensures { result ≡ self.now.cpu.cpu.processor }
    {
        self.cpu.processor()
    }

    /// Gives the processor back, on which no reading is open: to a pool, or for `Domain::cleanup`.
    pub fn into_cpu(self) -> Cpu<J, A>
        ensures cpu { result ≡ self.entry.cpu }
        ensures idle { IsIdle self.entry.domain result }
        ensures domain { result.cpu.domain ≡ self.entry.domain.domain }
    {
        let Worker { domain: _, cpu } = self;
        cpu
    }
}
