//! Callbacks: a job is queued on a processor, and given out after a full grace period.
ghost use Rattle.std.specs.Prelude.{◌≡◌, ◌<◌, All, IfOk, IfSome, MatchResult};
ghost use Rattle.sections.specs.Calls.{IsSameCpu, AllClosed};
ghost use Rattle.calls.specs.Meetings.{SeesOut};
ghost use Rattle.calls.specs.Calls.{IsSameSeat, IsOfProcessor, TakesIn, TakesNothingIn, AreHanded, FinishesIn, LacksRoomIn, FindsLensIn};
ghost use Rattle.domain.specs.Views.{IsOf, IsSameProcessor, callbacks_of, with_cpu, with_calls};
ghost use Rattle.domain.specs.Calling.{CallsIn, RefusesCall, MayFinish};
ghost use Rattle.domain.specs.Acting.{loads, takes, asks_for, finishes, ActsAs, QueuesNone};

use crate::cpu::Cpu;
use crate::domain::Domain;
use calls::{Batch, CallRefusal, Memory, Receipt, TakeRefusal};
use sseq::Number;
use std::alloc::Allocator;
use std::sync::Wait;

impl<J: Drop, A: Allocator + Copy> Domain<J, A> {
    /// Queues a job on this processor (`call_srcu`), and asks for the grace period after which it is given out: whoever
    /// drives the engine may find it. It touches no lock. Where it is refused, the job comes back, nothing is queued, and
    /// nothing asked for.
    pub fn call<R: Wait>(
        &self,
        rt: &R,
        cpu: &mut Cpu<J, A>,
        job: J,
    ) -> Result<Receipt<J>, (J, CallRefusal)>
        requires { IsOf self.now cpu.old }
        ensures here { IsOf self.now cpu.new }
        ensures same { IsSameProcessor cpu.old cpu.new }
        ensures calls { MatchResult result
            (λ receipt. CallsIn self.now cpu.old job receipt cpu.new)
            (λ refused. RefusesCall self.now cpu.old job refused cpu.new) }
        ensures acts { MatchResult result
            (λ receipt. ActsAs (asks_for receipt.cookie.number 1) cpu.old cpu.new)
            (λ refused. QueuesNone refused.1 cpu.old cpu.new) }
    {
        let receipt = self.calls.call(rt, &mut cpu.cpu, &mut cpu.calls, job)?;
        // It is asked for behind the queueing, and by the number of the job's own cookie: for a smaller one the engine
        // might rest while the job waits.
        cpu.needs.ask(Number::new(receipt.cookie()).unwrap());
        // Rung before the asking, a driver would find nothing and sleep on.
        self.ring();
        Ok(receipt)
    }

    /// Takes out what is ready on a processor: at most `max` jobs and at most eight, the first ones first
    /// (`srcu_invoke_callbacks`). `None` where nothing is. Any processor of the domain may do it, for any processor. All
    /// calls that are counted as queued there are moved to the processor's list first. It is refused where a batch is out
    /// there, and where there was no memory for a call that was to be moved: nothing is taken out then, and the processor
    /// that was lent has made one load. It waits while another thread has that processor's list.
    pub fn take_ready<R: Wait>(
        &self,
        rt: &R,
        cpu: &mut Cpu<J, A>,
        processor: u16,
        max: usize,
    ) -> Result<Option<Batch<J, A>>, TakeRefusal>
        requires domain { IsOf self.now cpu.old }
        requires processor { processor < self.now.processors }
        ensures here { IsOf self.now cpu.new }
        ensures takes { MatchResult result
            (λ taken. TakesIn (callbacks_of self.now) processor max cpu.old.cpu cpu.old.calls taken cpu.new.cpu cpu.new.calls)
            (λ refusal. TakesNothingIn processor cpu.old.cpu cpu.old.calls refusal cpu.new.cpu cpu.new.calls) }
        ensures acts { MatchResult result (λ _. ActsAs (takes cpu.new.cpu.changes processor) cpu.old cpu.new) (λ _. ActsAs loads cpu.old cpu.new) }
        ensures same { IsSameCpu cpu.old.cpu cpu.new.cpu × IsSameSeat cpu.old.calls cpu.new.calls }
        ensures rest { cpu.new ≡ with_calls cpu.new.calls (with_cpu cpu.new.cpu cpu.old) }
        ensures batch { IfOk result (λ taken. IfSome taken (λ batch. IsOfProcessor (callbacks_of self.now) processor batch)) }

        // Each job is given out after a full grace period that started behind its queueing.
        ensures handed { IfOk result (λ taken. IfSome taken (λ batch. AreHanded batch.entries cpu.new.cpu.seen)) }

        // So no section that was begun before a job was queued is open when it is given out.
        ensures closed { IfOk result (λ taken. IfSome taken (λ batch. All (λ e. AllClosed e.cookie.seen cpu.new.cpu.seen) batch.entries)) }
    {
        self.calls
            .take_ready(rt, &mut cpu.cpu, &mut cpu.calls, processor, max)
    }

    /// The batch is over, and empty: its count is added to the finished word of its processor. Any processor of the domain
    /// may do it. It waits while another thread has that processor's list.
    pub fn finish<R: Wait>(&self, rt: &R, cpu: &mut Cpu<J, A>, batch: Batch<J, A>)
        requires domain { IsOf self.now cpu.old }
        requires batch { MayFinish self.now batch }
        ensures here { IsOf self.now cpu.new }
        ensures finishes { FinishesIn (callbacks_of self.now) cpu.old.calls batch cpu.new.calls }
        ensures acts { ActsAs (finishes batch.processor batch.count) cpu.old cpu.new }
        ensures same { IsSameSeat cpu.old.calls cpu.new.calls }
        ensures rest { cpu.new ≡ with_calls cpu.new.calls cpu.old }
    {
        self.calls.finish(rt, &mut cpu.calls, batch);
    }

    /// How many calls of a processor are done, wait for the first and for the second number, and have none yet; and the two
    /// numbers, 0 where there is none. What is out isn't counted. All calls that are counted as queued are moved to the
    /// list first; where there is no memory for one, nothing is counted. The processor that is lent has then seen the
    /// moment of which this is told. It waits while another thread has the processor's list.
    pub fn lens<R: Wait>(
        &self,
        rt: &R,
        cpu: &mut Cpu<J, A>,
        processor: u16,
    ) -> Result<([usize; 4], [u64; 2]), Memory>
        requires domain { IsOf self.now cpu.old }
        requires processor { processor < self.now.processors }
        ensures here { IsOf self.now cpu.new }
        ensures found { MatchResult result
            (λ found. FindsLensIn processor cpu.old.calls found cpu.new.calls)
            (λ _. LacksRoomIn processor cpu.old.calls cpu.new.calls) }
        ensures acts { ActsAs loads cpu.old cpu.new }
        ensures same { IsSameSeat cpu.old.calls cpu.new.calls }
        ensures rest { cpu.new ≡ with_calls cpu.new.calls cpu.old }
    {
        self.calls.lens(rt, &mut cpu.calls, processor)
    }
}

// Loads that change nothing: for who has to show how far somebody has seen.
impl<J, A: Allocator> Domain<J, A> {
    /// One load, of the processor's own queued word. The processor has then seen that the batch is out: its jobs were
    /// queued, and none of them is finished. The batch may be of another processor, and stays as it is. It takes no
    /// memory and does not wait.
    pub fn see_out(&self, cpu: &mut Cpu<J, A>, batch: &mut Batch<J, A>)
        requires domain { IsOf self.now cpu.old }
        requires batch { batch.old.tallies ≡ self.now.tallies }
        ensures here { IsOf self.now cpu.new }
        ensures out { SeesOut batch.old cpu.old.calls cpu.new.calls }
        ensures acts { ActsAs loads cpu.old cpu.new }
        ensures rest { cpu.new ≡ with_calls cpu.new.calls cpu.old }
        ensures batch { batch.new ≡ batch.old }
    {
        cpu.calls.see_out(batch);
    }
}
