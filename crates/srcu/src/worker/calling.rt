//! Callbacks: a job is queued, and the barrier for those that were.
ghost use Rattle.std.specs.Prelude.{◌≡◌, IfErr, IfOk, MatchResult};
ghost use Rattle.calls.specs.Barriers.{Starts, CoversAll, IsDone, AreFinished};
ghost use Rattle.domain.specs.Views.{IsSameProcessor, with_calls};
ghost use Rattle.domain.specs.Acting.{asks_for, loads, ActsAs, QueuesNone};
ghost use Rattle.domain.specs.Barriers.{IsTicketOf};
ghost use Rattle.domain.specs.Calling.{CallsIn, RefusesCall};
ghost use Rattle.driver.specs.Serving.{Works, EndsInVain};
ghost use Rattle.srcu.specs.Workers.{IsSameWorker};

use super::Worker;
use domain::{CallRefusal, Memory, PeriodsExhausted, Receipt, Ticket};
use driver::Served;
use std::alloc::Allocator;
use std::sync::Wait;

impl<'a, J: Drop, A: Allocator + Copy> Worker<'a, J, A> {
    /// Queues a job (`call_srcu`). It is ready once no section is open that is open now, and `serve`, `serve_until` or
    /// `take_ready` runs it. Where it is refused, the job comes back.
    pub fn call<R: Wait>(&mut self, rt: &R, job: J) -> Result<Receipt<J>, (J, CallRefusal)>
        ensures same { IsSameWorker self.old self.new }
        ensures processor { IsSameProcessor self.old.cpu self.new.cpu }
        ensures calls { MatchResult result
            (λ receipt. CallsIn self.old.domain self.old.cpu job receipt self.new.cpu)
            (λ refused. RefusesCall self.old.domain self.old.cpu job refused self.new.cpu) }
        ensures acts { MatchResult result
            (λ receipt. ActsAs (asks_for receipt.cookie.number 1) self.old.cpu self.new.cpu)
            (λ refused. QueuesNone refused.1 self.old.cpu self.new.cpu) }
    {
        self.domain.call(rt, &mut self.cpu, job)
    }

    /// Starts a barrier for the jobs that were queued before, on every processor (the first half of `srcu_barrier`).
    pub fn barrier_start(&mut self) -> Result<Ticket<J, A>, Memory>
        ensures same { IsSameWorker self.old self.new }
        ensures starts { MatchResult result (λ ticket. Starts self.old.cpu.calls ticket self.new.cpu.calls) (λ _. self.new.cpu ≡ self.old.cpu) }
        ensures acts { ActsAs loads self.old.cpu self.new.cpu }
        ensures rest { self.new.cpu ≡ with_calls self.new.cpu.calls self.old.cpu }
        ensures ticket { IfOk result (λ ticket. IsTicketOf self.old.domain ticket) }
        ensures covers { IfOk result (λ ticket. CoversAll ticket self.old.domain.processors self.old.cpu.calls.seen) }
    {
        self.domain.barrier_start(&mut self.cpu)
    }

    /// Drives grace periods and runs each job by `work`, until the ticket's jobs are finished (the second half of
    /// `srcu_barrier`). It returns early, with what it did so far, where no more grace periods may start.
    pub fn serve_until<R: Wait, F: FnMut(J)>(
        &mut self,
        rt: &R,
        ticket: &Ticket<J, A>,
        work: F,
    ) -> Result<Served, (Served, PeriodsExhausted)>
        requires ticket { IsTicketOf self.old.domain ticket.now }
        requires work { F.IsAlwaysCallable work }
        ensures same { IsSameWorker self.old self.new }
        ensures processor { IsSameProcessor self.old.cpu self.new.cpu }
        ensures works { MatchResult result
            (λ served. (last : F) × Works (λ p x q. F.step p x tt q) self.old.domain work self.old.cpu served last self.new.cpu)
            (λ ended. (last : F) × Works (λ p x q. F.step p x tt q) self.old.domain work self.old.cpu ended.0 last self.new.cpu) }
        ensures vain { IfErr result (λ ended. (last : F) × EndsInVain (λ p x q. F.step p x tt q) self.old.domain work self.old.cpu ended.0 last self.new.cpu) }
        ensures done { IfOk result (λ _. IsDone ticket.now self.new.cpu.calls.seen × AreFinished ticket.now self.new.cpu.calls.seen) }
    {
        driver::serve_until(rt, self.domain, &mut self.cpu, ticket, work)
    }
}
