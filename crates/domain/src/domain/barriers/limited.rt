//! Waiting for a barrier, up to a limit of time.
ghost use Rattle.std.specs.Prelude.{◌≡◌, IfOk, MatchResult};
ghost use Rattle.calls.specs.Calls.{IsSameSeat};
ghost use Rattle.calls.specs.Barriers.{IsDone, AreFinished};
ghost use Rattle.domain.specs.Views.{IsOf, with_calls};
ghost use Rattle.domain.specs.Waiting.{HasNoneOpen};
ghost use Rattle.domain.specs.Barriers.{IsTicketOf, PollsUntilDone};
ghost use Rattle.domain.specs.Limited.{PollsInVain};
ghost use Rattle.domain.specs.Acting.{loads, ActsAs};

use crate::cpu::Cpu;
use crate::domain::Domain;
use crate::limit::{Limit, TimedOut};
use calls::Ticket;
use std::alloc::Allocator;
use std::sync::Wait;
use std::thread::yield_now;
use std::time::{Clock, Duration};

impl<J, A: Allocator> Domain<J, A> {
    /// As [`Domain::barrier`], for so long at most. One poll is made whatever the limit is. Where the clock can't be read, the
    /// time is over. The ticket stays as it is, so one may wait or poll on.
    pub fn barrier_for<R: Wait + Clock>(
        &self,
        rt: &R,
        cpu: &mut Cpu<J, A>,
        ticket: &Ticket<J, A>,
        limit: Duration,
    ) -> Result<(), TimedOut>
        requires domain { IsOf self.now cpu.old }
        requires ticket { IsTicketOf self.now ticket.now }
        requires none { HasNoneOpen cpu.old }
        ensures here { IsOf self.now cpu.new }
        ensures waits { MatchResult result (λ _. PollsUntilDone ticket.now cpu.old.calls cpu.new.calls) (λ _. PollsInVain ticket.now cpu.old.calls cpu.new.calls) }
        ensures acts { ActsAs loads cpu.old cpu.new }
        ensures same { IsSameSeat cpu.old.calls cpu.new.calls }
        ensures rest { cpu.new ≡ with_calls cpu.new.calls cpu.old }
        ensures still_none { HasNoneOpen cpu.new }

        // The job of each receipt that is covered was given out, and its batch is finished.
        ensures done { IfOk result (λ _. IsDone ticket.now cpu.new.calls.seen × AreFinished ticket.now cpu.new.calls.seen) }
    {
        let limit = Limit::new(rt, limit);
        for _ in rt.forever() {
            if self.barrier_poll(cpu, ticket) {
                return Ok(());
            }
            if limit.is_over(rt) {
                return Err(TimedOut);
            }
            yield_now();
        }
        unreachable!()
    }
}
