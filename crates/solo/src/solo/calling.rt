//! Callbacks: a job is queued on a processor, and given out after a full grace period.
ghost use Rattle.std.specs.Prelude.{◌≡◌, ◌^◌, ◌<◌, ◌≤◌, [], IfOk, IfErr, MatchResult};
ghost use Rattle.solo.specs.Calls.{HasSameTables, OnList, IsBatchOf, Queues, QueuesNone, QueuesLast, Takes, TakesNone, Finishes, FinishesOut, TellsLens};

use crate::queued::Queued;
use crate::refusals::queued;
use crate::solo::Solo;
use crate::taking::take_out;
use calls::{Batch, CallRefusal, Memory, TakeRefusal};
use std::alloc::Allocator;
use std::sync::Wait;

impl<J: Drop, A: Allocator + Copy> Solo<J, A> {
    /// Queues a job on a processor (`call_srcu`), with a cookie of now, and asks for a grace period up to it. It is refused
    /// where as many were queued there as may ever be, 2^54, and nothing has changed; or where memory is, and the processor
    /// was given a cookie that nobody waits for. Then the job comes back.
    pub fn call(
        &mut self,
        rt: &impl Wait,
        processor: u64,
        job: J,
    ) -> Result<Queued, (J, CallRefusal)>
        requires { processor < self.old.course.standing.processors }
        ensures domain { HasSameTables self.old self.new }
        ensures list { MatchResult result (λ q. OnList processor (QueuesLast job q.cookie) self.old.lines self.new.lines) (λ _. self.new.lines ≡ self.old.lines) }
        ensures answer { MatchResult result (λ q. Queues processor q self.old.course self.new.course) (λ refused. QueuesNone processor refused.1 self.old.course self.new.course) }
        ensures back { IfErr result (λ refused. refused.0 ≡ job) }
        ensures small { IfOk result (λ q. q.cookie ≤ 2 ^ 61) }
    {
        let cpu = &mut self.members.cpus[processor as usize];
        let answer = self.members.domain.call(rt, cpu, job);
        self.members.settle();
        queued(answer)
    }

    /// Takes out what is ready on a processor, the first jobs first: at most `max`, and at most eight
    /// (`srcu_invoke_callbacks`). They are then queued and not finished. `None` where nothing is ready. It is refused, with
    /// nothing done, where a batch of this processor is out, or where there was no memory for a job that had come in.
    pub fn take_ready(
        &mut self,
        rt: &impl Wait,
        processor: u64,
        max: usize,
    ) -> Result<Option<Batch<J, A>>, TakeRefusal>
        requires { processor < self.old.course.standing.processors }
        ensures same { HasSameTables self.old self.new }
        ensures answer { MatchResult result (λ taken. Takes processor max taken self.old self.new) (λ why. TakesNone processor why self.old.lines × (self.new ≡ self.old)) }
    {
        let taker = &mut self.members.cpus[processor as usize];
        let taken = take_out(&self.members.domain, rt, taker, processor as u16, max);
        self.members.settle();
        taken
    }

    /// The batch is over, and empty, as its own processor says: as many calls as it had are finished.
    pub fn finish(&mut self, rt: &impl Wait, batch: Batch<J, A>)
        requires batch { IsBatchOf self.old batch.processor batch }
        requires empty { batch.entries ≡ [] }
        ensures same { HasSameTables self.old self.new }
        ensures list { OnList batch.processor (FinishesOut batch.count) self.old.lines self.new.lines }
        ensures finishes { Finishes batch.processor batch.count self.old.course self.new.course }
    {
        let processor = usize::from(batch.processor());
        let cpu = &mut self.members.cpus[processor];
        self.members.domain.finish(rt, cpu, batch);
        self.members.settle();
    }

    /// How many jobs of a processor are done, wait for the first and for the second number, and have none yet; and the two
    /// numbers, 0 where there is none. What is out isn't counted. It is refused where there was no memory for a job that had
    /// come in. Nothing has changed then.
    pub fn lens(&mut self, rt: &impl Wait, processor: u64) -> Result<([usize; 4], [u64; 2]), Memory>
        requires { processor < self.old.course.standing.processors }
        ensures after { self.new ≡ self.old }
        ensures told { IfOk result (TellsLens processor self.old.lines) }
    {
        let cpu = &mut self.members.cpus[processor as usize];
        let lens = self.members.domain.lens(rt, cpu, processor as u16);
        self.members.settle();
        lens
    }
}
