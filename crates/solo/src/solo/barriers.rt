//! Barriers: whether all callbacks that were queued before are run.
ghost use Rattle.std.specs.Prelude.{◌≡◌, ◌<◌, IfOk, MatchBool};
ghost use Rattle.solo.specs.Barriers.{ticket_of, IsTicketOf, AreReached};

use crate::solo::Solo;
use calls::{Memory, Ticket};
use std::alloc::Allocator;

impl<J: Drop, A: Allocator + Copy> Solo<J, A> {
    /// Starts a barrier on a processor (`srcu_barrier`): it waits for what is queued now, on every processor. Where there is
    /// not enough memory for its ticket, nothing has changed.
    pub fn barrier_start(&mut self, processor: u64) -> Result<Ticket<J, A>, Memory>
        requires { processor < self.old.course.standing.processors }
        ensures after { self.new ≡ self.old }
        ensures ticket { IfOk result (λ ticket. ticket ≡ ticket_of self.old) }
        ensures here { IfOk result (λ ticket. IsTicketOf self.old ticket) }
    {
        let cpu = &mut self.members.cpus[processor as usize];
        let started = self.members.domain.barrier_start(cpu);
        self.members.settle();
        started
    }

    /// Whether the barrier is done, as a processor finds it: as many calls are finished of each processor as it waits for. What
    /// was only taken out isn't. Any processor may ask, and as often as it likes.
    pub fn barrier_poll(&mut self, processor: u64, ticket: &Ticket<J, A>) -> bool
        requires processor { processor < self.old.course.standing.processors }
        requires ticket { IsTicketOf self.old ticket.now }
        ensures after { self.new ≡ self.old }
        ensures done { MatchBool result (AreReached ticket.now.numbers self.old.course.finished) (¬ AreReached ticket.now.numbers self.old.course.finished) }
    {
        let cpu = &mut self.members.cpus[processor as usize];
        let done = self.members.domain.barrier_poll(cpu, ticket);
        self.members.settle();
        done
    }
}
