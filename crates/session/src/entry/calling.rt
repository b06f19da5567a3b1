//! Callbacks: jobs are queued under their names, and run once a grace period is over.
ghost use Rattle.std.specs.Prelude.{◌≡◌, ◌<◌};
ghost use Rattle.solo.specs.Calls.{HasSameTables};
ghost use Rattle.session.specs.Batches.{AreBatchesOf};
ghost use Rattle.session.specs.States.{IsSameHome};
ghost use Rattle.session.specs.Scripts.{Does, cause_of_taking};

use super::Entry;
use crate::batch_out::{Out, drain};
use calls::{CallRefusal, TakeRefusal};
use lines::Name;
use requests::{Act, Cause, Command, JobNames, Reply, Segments, Waiting};
use solo::Solo;
use std::alloc::Allocator;
use std::sync::Wait;

/// As many jobs are taken at once, at most.
const MOST: usize = 8;

/// Finishes the batches that are out. No section begins or ends.
pub(super) fn finish_all<'a, A: Allocator>(
    rt: &impl Wait,
    domain: &mut Solo<Name, &'a A>,
    mut outs: Vec<Out<&'a A>, &'a A>,
)
    requires { AreBatchesOf domain.old outs.items }
    ensures { HasSameTables domain.old domain.new × (domain.new.course.standing ≡ domain.old.course.standing) }
{
    while let Some(last) = outs.pop() {
        if let Some(batch) = last.into_batch() {
            domain.finish(rt, batch);
        }
    }
    outs.destroy_empty();
}

/// Why nothing was taken.
fn cause_of(why: TakeRefusal) -> Cause
    ensures { result ≡ cause_of_taking why }
{
    match why {
        TakeRefusal::Invoking => Cause::Invoking,
        TakeRefusal::Memory => Cause::Memory,
    }
}

impl<'a, A: Allocator> Entry<&'a A> {
    /// Queues a job on a processor, where it comes last of those that wait; refused where no more may be queued there, or
    /// the domain has no memory.
    pub(super) fn call(&mut self, rt: &impl Wait, processor: u64, name: Name) -> Reply
        requires { processor < self.old.state.course.standing.processors }
        ensures limits { self.new.limits ≡ self.old.limits }
        ensures home { IsSameHome self.old self.new }
        ensures name { self.new.state.name ≡ self.old.state.name }
        ensures does { Does self.old.limits (Act.Call processor name) self.old.state result self.new.state }
    {
        match self.domain.call(rt, processor, name) {
            Ok(queued) => Reply::Queued {
                k: queued.k,
                cookie: queued.cookie,
            },
            Err((_name, CallRefusal::Exhausted)) => {
                Reply::Refused(Command::Call, Cause::Exhausted)
            }
            Err((_name, CallRefusal::Memory)) => Reply::Refused(Command::Call, Cause::Memory),
        }
    }

    /// Takes what is ready on a processor, and finishes it at once; refused, with nothing done, where a batch is out or the
    /// domain has no memory for a job that had come in.
    pub(super) fn run(&mut self, rt: &impl Wait, processor: u64) -> Reply
        requires { processor < self.old.state.course.standing.processors }
        ensures limits { self.new.limits ≡ self.old.limits }
        ensures home { IsSameHome self.old self.new }
        ensures name { self.new.state.name ≡ self.old.state.name }
        ensures does { Does self.old.limits (Act.Run processor) self.old.state result self.new.state }
    {
        match self.domain.take_ready(rt, processor, MOST) {
            Ok(Some(mut batch)) => {
                let names = drain(&mut batch);
                self.domain.finish(rt, batch);
                Reply::Ran(names)
            }
            Ok(None) => Reply::Ran(JobNames::new()),
            Err(why) => Reply::Refused(Command::Run, cause_of(why)),
        }
    }

    /// Takes what is ready on a processor. The batch stays out; none is where nothing was ready. It is refused as `run` is.
    pub(super) fn take_batch(&mut self, rt: &impl Wait, processor: u64) -> Reply
        requires { processor < self.old.state.course.standing.processors }
        ensures limits { self.new.limits ≡ self.old.limits }
        ensures home { IsSameHome self.old self.new }
        ensures name { self.new.state.name ≡ self.old.state.name }
        ensures does { Does self.old.limits (Act.Batch processor) self.old.state result self.new.state }
    {
        match self.domain.take_ready(rt, processor, MOST) {
            Ok(Some(mut batch)) => {
                let names = drain(&mut batch);
                self.outs[processor as usize].put(batch);
                Reply::TookJobs(names)
            }
            Ok(None) => Reply::TookJobs(JobNames::new()),
            Err(why) => Reply::Refused(Command::Batch, cause_of(why)),
        }
    }

    /// Finishes the batch of a processor that is out; refused, with nothing done, where none is.
    pub(super) fn finish_batch(&mut self, rt: &impl Wait, processor: u64) -> Reply
        requires { processor < self.old.state.course.standing.processors }
        ensures limits { self.new.limits ≡ self.old.limits }
        ensures home { IsSameHome self.old self.new }
        ensures name { self.new.state.name ≡ self.old.state.name }
        ensures does { Does self.old.limits (Act.Finish processor) self.old.state result self.new.state }
    {
        let Some(batch) = self.outs[processor as usize].take() else {
            return Reply::Refused(Command::Finish, Cause::NoBatch);
        };
        let count = batch.count();
        self.domain.finish(rt, batch);
        Reply::Finished(count)
    }

    /// How the jobs of a processor wait; refused, with nothing done, where the domain has no memory for a job that had come
    /// in.
    pub(super) fn segs(&mut self, rt: &impl Wait, processor: u64) -> Reply
        requires { processor < self.old.state.course.standing.processors }
        ensures limits { self.new.limits ≡ self.old.limits }
        ensures home { IsSameHome self.old self.new }
        ensures name { self.new.state.name ≡ self.old.state.name }
        ensures does { Does self.old.limits (Act.Segs processor) self.old.state result self.new.state }
    {
        let Ok(lens) = self.domain.lens(rt, processor) else {
            return Reply::Refused(Command::Segs, Cause::Memory);
        };
        let ([done, wait, ready, next], [first, second]) = lens;
        Reply::Segs(Segments {
            done,
            wait: Waiting {
                count: wait,
                number: first,
            },
            ready: Waiting {
                count: ready,
                number: second,
            },
            next,
        })
    }
}
