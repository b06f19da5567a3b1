//! Barriers: waiting until all callbacks that were queued before are run.
ghost use Rattle.std.specs.Prelude.{◌≡◌, IfOk, IsTrue, MatchBool, MatchResult};
ghost use Rattle.calls.specs.Calls.{IsSameSeat};
ghost use Rattle.calls.specs.Barriers.{IsQueued, IsCallOf, IsDone, Starts, CoversAll, IsBehind, Polls, AreFinished, Hears};
ghost use Rattle.domain.specs.Views.{IsOf, with_calls};
ghost use Rattle.domain.specs.Waiting.{HasNoneOpen};
ghost use Rattle.domain.specs.Barriers.{IsTicketOf, IsReceiptOf, PollsUntilDone};
ghost use Rattle.domain.specs.Acting.{loads, ActsAs};

use crate::cpu::Cpu;
use crate::domain::Domain;
use calls::{Memory, Receipt, Ticket};
use std::alloc::Allocator;
use std::sync::Wait;
use std::thread::yield_now;

mod limited;

impl<J, A: Allocator + Copy> Domain<J, A> {
    /// Starts a barrier (the first half of `srcu_barrier`): it waits for the calls that were queued before, on every
    /// processor. Each queued word is loaded once. Where there is not enough memory, no step was made.
    pub fn barrier_start(&self, cpu: &mut Cpu<J, A>) -> Result<Ticket<J, A>, Memory>
        requires { IsOf self.now cpu.old }
        ensures here { IsOf self.now cpu.new }
        ensures starts { MatchResult result (λ ticket. Starts cpu.old.calls ticket cpu.new.calls) (λ _. cpu.new ≡ cpu.old) }
        ensures acts { ActsAs loads cpu.old cpu.new }
        ensures same { IsSameSeat cpu.old.calls cpu.new.calls }
        ensures rest { cpu.new ≡ with_calls cpu.new.calls cpu.old }
        ensures ticket { IfOk result (λ ticket. IsTicketOf self.now ticket) }

        // Each receipt is covered whose queueing this processor had seen: its own ones, and those that it had heard.
        ensures covers { IfOk result (λ ticket. CoversAll ticket self.now.processors cpu.old.calls.seen) }
    {
        self.calls.barrier_start(&mut cpu.calls)
    }
}

// The allocator can't be copied here, so nothing of this takes memory.
impl<J, A: Allocator> Domain<J, A> {
    /// Whether a barrier is done: as many calls are finished of each processor as it waits for. A batch that was only
    /// taken out does not count. The finished words are loaded in the order of the processors, up to the first that has
    /// not got there. Any processor may ask, and as often as it likes; nothing is waited for.
    pub fn barrier_poll(&self, cpu: &mut Cpu<J, A>, ticket: &Ticket<J, A>) -> bool
        requires domain { IsOf self.now cpu.old }
        requires ticket { IsTicketOf self.now ticket.now }
        ensures here { IsOf self.now cpu.new }
        ensures polls { Polls ticket.now cpu.old.calls result cpu.new.calls }
        ensures acts { ActsAs loads cpu.old cpu.new }
        ensures same { IsSameSeat cpu.old.calls cpu.new.calls }
        ensures rest { cpu.new ≡ with_calls cpu.new.calls cpu.old }
        ensures done { MatchBool result (IsDone ticket.now cpu.new.calls.seen) (IsBehind ticket.now cpu.old.calls cpu.new.calls) }

        // The job of each receipt that is covered was given out, and its batch is finished.
        ensures finished { IsTrue result → AreFinished ticket.now cpu.new.calls.seen }
    {
        self.calls.barrier_poll(&mut cpu.calls, ticket)
    }

    /// One load of the queued word of the receipt's processor, which is over its number: the processor has then seen all
    /// that the one who queued the job had. So a barrier that it starts later covers the receipt, wherever its job was
    /// queued.
    pub fn hear(&self, cpu: &mut Cpu<J, A>, receipt: &mut Receipt<J>)
        requires domain { IsOf self.now cpu.old }
        requires receipt { IsReceiptOf self.now receipt.old }
        ensures here { IsOf self.now cpu.new }
        ensures hears { Hears receipt.old cpu.old.calls cpu.new.calls }
        ensures acts { ActsAs loads cpu.old cpu.new }
        ensures same { IsSameSeat cpu.old.calls cpu.new.calls }
        ensures rest { cpu.new ≡ with_calls cpu.new.calls cpu.old }
        ensures receipt { receipt.new ≡ receipt.old }

        // Its job was queued, and a barrier covers it from now on.
        ensures queued { IsQueued receipt.old cpu.new.calls.seen × IsCallOf receipt.old cpu.new.calls.seen }
    {
        self.calls.hear(&mut cpu.calls, receipt);
    }

    /// Waits until a barrier is done (the second half of `srcu_barrier`): it polls, and yields the thread behind each poll
    /// in vain. It runs no callback and drives no grace period itself, so somebody else has to do both: other threads
    /// that call `advance`, `take_ready` and `finish` until no batch of these jobs is left. On the processor itself no
    /// reading may be open: the grace periods that the barrier's jobs wait for would wait for it, and so the call for
    /// itself.
    pub fn barrier<R: Wait>(&self, rt: &R, cpu: &mut Cpu<J, A>, ticket: &Ticket<J, A>)
        requires domain { IsOf self.now cpu.old }
        requires ticket { IsTicketOf self.now ticket.now }
        requires none { HasNoneOpen cpu.old }
        ensures here { IsOf self.now cpu.new }
        ensures waits { PollsUntilDone ticket.now cpu.old.calls cpu.new.calls }
        ensures acts { ActsAs loads cpu.old cpu.new }
        ensures same { IsSameSeat cpu.old.calls cpu.new.calls }
        ensures rest { cpu.new ≡ with_calls cpu.new.calls cpu.old }
        ensures still_none { HasNoneOpen cpu.new }
        ensures done { IsDone ticket.now cpu.new.calls.seen }

        // The job of each receipt that is covered was given out, and its batch is finished.
        ensures finished { AreFinished ticket.now cpu.new.calls.seen }
    {
        for _ in rt.forever() {
            if self.barrier_poll(cpu, ticket) {
                return;
            }
            yield_now();
        }
        unreachable!()
    }
}
