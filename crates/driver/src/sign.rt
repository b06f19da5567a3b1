//! What a sign says, behind its lock.
ghost use Rattle.std.specs.Prelude.{◌≡◌, true};
ghost use Rattle.calls.specs.Calls.{IsSameSeat};
ghost use Rattle.calls.specs.Tallies.{IsBeginning};
ghost use Rattle.domain.specs.Views.{IsOf, with_calls};
ghost use Rattle.driver.specs.Signs.{IsWordOf, IsDoneBy, MayPoll};

use domain::{Cpu, Domain, Ticket};
use std::alloc::Allocator;
use trail::Lies;

/// What a sign says: nothing, as long as it is not given; and then, with which ticket it is, if it is by a processor.
#[derive(Drop)]
pub struct Sign<J, A: Allocator> {
    pub(crate) told: Option<Option<Ticket<J, A>>>,
}

impl<J, A: Allocator> Lies<Domain<J, A>, Option<Option<Ticket<J, A>>>> for Sign<J, A> {
    ghost use Rattle.driver.specs.Signs.{IsWordOf, Stays};

    ghost fits = { λ domain sign. IsWordOf domain sign.told };

    ghost state = { λ sign. sign.told };

    ghost goes = { Stays };
}

impl<J, A: Allocator> Sign<J, A> {
    /// Whether it is given, and all that its ticket covers is finished: one poll, if there is a ticket.
    pub(crate) fn is_done(&self, domain: &Domain<J, A>, cpu: &mut Cpu<J, A>) -> bool
        requires word { IsWordOf domain.now self.now.told }
        requires here { IsOf domain.now cpu.old }
        ensures here { IsOf domain.now cpu.new }
        ensures same { IsSameSeat cpu.old.calls cpu.new.calls }
        ensures rest { cpu.new ≡ with_calls cpu.new.calls cpu.old }
        ensures later { IsBeginning cpu.old.calls.seen cpu.new.calls.seen }
        ensures polled { MayPoll cpu.old cpu.new }
        ensures done { result ≡ true → IsDoneBy self.now.told cpu.new.calls.seen }
    {
        match &self.told {
            None => false,
            Some(None) => true,
            Some(Some(ticket)) => domain.barrier_poll(cpu, ticket),
        }
    }
}
