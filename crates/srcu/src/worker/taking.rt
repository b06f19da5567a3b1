//! Callbacks by hand: jobs are taken out and finished, and a barrier is polled or waited for while other threads run them.
ghost use Rattle.std.specs.Prelude.{◌≡◌, ◌<◌, All, IfOk, IfSome, IsTrue, MatchBool, MatchResult};
ghost use Rattle.sections.specs.Calls.{AllClosed};
ghost use Rattle.calls.specs.Barriers.{AreFinished, Hears, IsBehind, IsCallOf, IsDone, IsQueued, Polls};
ghost use Rattle.calls.specs.Calls.{AreHanded, FindsLensIn, FinishesIn, IsOfProcessor, LacksRoomIn, TakesIn, TakesNothingIn};
ghost use Rattle.domain.specs.Views.{callbacks_of, with_cpu, with_calls};
ghost use Rattle.domain.specs.Acting.{loads, finishes, takes, ActsAs};
ghost use Rattle.domain.specs.Barriers.{IsReceiptOf, IsTicketOf, PollsUntilDone};
ghost use Rattle.domain.specs.Calling.{MayFinish};
ghost use Rattle.domain.specs.Limited.{PollsInVain};
ghost use Rattle.srcu.specs.Workers.{IsSameWorker};
ghost use Rattle.srcu.specs.Answers.{pair_of};

use super::Worker;
use crate::answers::Lens;
use domain::{Batch, Memory, Receipt, TakeRefusal, Ticket, TimedOut};
use std::alloc::Allocator;
use std::sync::Wait;
use std::time::{Clock, Duration};

impl<'a, J: Drop, A: Allocator + Copy> Worker<'a, J, A> {
    /// Takes out what is ready on a processor (`srcu_invoke_callbacks`): at most `max` jobs and at most eight, the first ones
    /// first. `None` where nothing is.
    pub fn take_ready<R: Wait>(
        &mut self,
        rt: &R,
        processor: u16,
        max: usize,
    ) -> Result<Option<Batch<J, A>>, TakeRefusal>
        requires { processor < self.old.domain.processors }
        ensures same { IsSameWorker self.old self.new }
        ensures takes { MatchResult result
            (λ taken. TakesIn (callbacks_of self.old.domain) processor max self.old.cpu.cpu self.old.cpu.calls taken self.new.cpu.cpu self.new.cpu.calls)
            (λ refusal. TakesNothingIn processor self.old.cpu.cpu self.old.cpu.calls refusal self.new.cpu.cpu self.new.cpu.calls) }
        ensures acts { MatchResult result
            (λ _. ActsAs (takes self.new.cpu.cpu.changes processor) self.old.cpu self.new.cpu)
            (λ _. ActsAs loads self.old.cpu self.new.cpu) }
        ensures rest { self.new.cpu ≡ with_calls self.new.cpu.calls (with_cpu self.new.cpu.cpu self.old.cpu) }
        ensures batch { IfOk result (λ taken. IfSome taken (λ batch. IsOfProcessor (callbacks_of self.old.domain) processor batch)) }
        ensures handed { IfOk result (λ taken. IfSome taken (λ batch. AreHanded batch.entries self.new.cpu.cpu.seen)) }

        // So no section that began before a job was queued is open when it is given out.
        ensures closed { IfOk result (λ taken. IfSome taken (λ batch. All (λ e. AllClosed e.cookie.seen self.new.cpu.cpu.seen) batch.entries)) }
    {
        self.domain.take_ready(rt, &mut self.cpu, processor, max)
    }

    /// Finishes a batch, which is empty.
    pub fn finish<R: Wait>(&mut self, rt: &R, batch: Batch<J, A>)
        requires { MayFinish self.old.domain batch }
        ensures same { IsSameWorker self.old self.new }
        ensures finishes { FinishesIn (callbacks_of self.old.domain) self.old.cpu.calls batch self.new.cpu.calls }
        ensures acts { ActsAs (finishes batch.processor batch.count) self.old.cpu self.new.cpu }
        ensures rest { self.new.cpu ≡ with_calls self.new.cpu.calls self.old.cpu }
    {
        self.domain.finish(rt, &mut self.cpu, batch);
    }

    /// How many jobs of a processor wait for what.
    pub fn lens<R: Wait>(&mut self, rt: &R, processor: u16) -> Result<Lens, Memory>
        requires { processor < self.old.domain.processors }
        ensures same { IsSameWorker self.old self.new }
        ensures found { MatchResult result
            (λ lens. FindsLensIn processor self.old.cpu.calls (pair_of lens) self.new.cpu.calls)
            (λ _. LacksRoomIn processor self.old.cpu.calls self.new.cpu.calls) }
        ensures acts { ActsAs loads self.old.cpu self.new.cpu }
        ensures rest { self.new.cpu ≡ with_calls self.new.cpu.calls self.old.cpu }
    {
        let (counts, numbers) = self.domain.lens(rt, &mut self.cpu, processor)?;
        Ok(Lens::new(counts, numbers))
    }
}

impl<'a, J, A: Allocator> Worker<'a, J, A> {
    /// Whether the ticket's jobs are finished. It never waits.
    pub fn barrier_poll(&mut self, ticket: &Ticket<J, A>) -> bool
        requires { IsTicketOf self.old.domain ticket.now }
        ensures same { IsSameWorker self.old self.new }
        ensures polls { Polls ticket.now self.old.cpu.calls result self.new.cpu.calls }
        ensures acts { ActsAs loads self.old.cpu self.new.cpu }
        ensures rest { self.new.cpu ≡ with_calls self.new.cpu.calls self.old.cpu }
        ensures done { MatchBool result (IsDone ticket.now self.new.cpu.calls.seen) (IsBehind ticket.now self.old.cpu.calls self.new.cpu.calls) }
        ensures finished { IsTrue result → AreFinished ticket.now self.new.cpu.calls.seen }
    {
        self.domain.barrier_poll(&mut self.cpu, ticket)
    }

    /// Waits until the ticket's jobs are finished (the second half of `srcu_barrier`). Other threads drive and run them: this
    /// call only polls, where [`Worker::serve_until`] works.
    pub fn barrier<R: Wait>(&mut self, rt: &R, ticket: &Ticket<J, A>)
        requires { IsTicketOf self.old.domain ticket.now }
        ensures same { IsSameWorker self.old self.new }
        ensures waits { PollsUntilDone ticket.now self.old.cpu.calls self.new.cpu.calls }
        ensures acts { ActsAs loads self.old.cpu self.new.cpu }
        ensures rest { self.new.cpu ≡ with_calls self.new.cpu.calls self.old.cpu }
        ensures done { IsDone ticket.now self.new.cpu.calls.seen }
        ensures finished { AreFinished ticket.now self.new.cpu.calls.seen }
    {
        self.domain.barrier(rt, &mut self.cpu, ticket);
    }

    /// As [`Worker::barrier`], for so long at most.
    pub fn barrier_for<R: Wait + Clock>(
        &mut self,
        rt: &R,
        ticket: &Ticket<J, A>,
        limit: Duration,
    ) -> Result<(), TimedOut>
        requires { IsTicketOf self.old.domain ticket.now }
        ensures same { IsSameWorker self.old self.new }
        ensures waits { MatchResult result
            (λ _. PollsUntilDone ticket.now self.old.cpu.calls self.new.cpu.calls)
            (λ _. PollsInVain ticket.now self.old.cpu.calls self.new.cpu.calls) }
        ensures acts { ActsAs loads self.old.cpu self.new.cpu }
        ensures rest { self.new.cpu ≡ with_calls self.new.cpu.calls self.old.cpu }
        ensures done { IfOk result (λ _. IsDone ticket.now self.new.cpu.calls.seen × AreFinished ticket.now self.new.cpu.calls.seen) }
    {
        self.domain.barrier_for(rt, &mut self.cpu, ticket, limit)
    }

    /// Learns of the receipt's job: a barrier that this worker starts later covers it, wherever it was queued.
    pub fn hear(&mut self, receipt: &mut Receipt<J>)
        requires { IsReceiptOf self.old.domain receipt.old }
        ensures same { IsSameWorker self.old self.new }
        ensures hears { Hears receipt.old self.old.cpu.calls self.new.cpu.calls }
        ensures acts { ActsAs loads self.old.cpu self.new.cpu }
        ensures rest { self.new.cpu ≡ with_calls self.new.cpu.calls self.old.cpu }
        ensures receipt { receipt.new ≡ receipt.old }
        ensures queued { IsQueued receipt.old self.new.cpu.calls.seen × IsCallOf receipt.old self.new.cpu.calls.seen }
    {
        self.domain.hear(&mut self.cpu, receipt);
    }
}
