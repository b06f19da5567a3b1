//! The loops through which jobs go: they are queued on a processor, and come out there behind a grace period.
ghost use Rattle.std.specs.Prelude.{◌≡◌, ◌+◌, ◌^◌, ◌<◌, ◌≤◌, [], length, IfOk, IfSome};
ghost use Rattle.domain.specs.Views.{IsOf};
ghost use Rattle.domain.specs.Waiting.{HasNoneOpen};
ghost use Rattle.srcubench.specs.Calling.{QueuesAll, RunsReady, RunsBatch, RunsAll, PassesAll};

use domain::{AdvanceRefusal, Batch, CallRefusal, Cpu, Domain, PeriodsExhausted, TakeRefusal};
use std::alloc::Allocator;
use std::error::Error;
use std::fmt;
use std::sync::Wait;

/// Why not all jobs went in, or not as many came out.
#[derive(Clone, Copy, Debug, PartialEq, Eq)]
pub enum JobError {
    /// A job was not queued.
    NotQueued(CallRefusal),
    /// There was no grace period.
    NotWaited(PeriodsExhausted),
    /// The engine was refused.
    NotDriven(AdvanceRefusal),
    /// No batch was taken.
    NotTaken(TakeRefusal),
    /// Fewer jobs were ready behind the grace period.
    TooFew,
    /// More jobs came out than went in.
    TooMany,
    /// No thread was started.
    NoThread,
    /// The clock could not be read.
    NoClock,
}

impl fmt::Display for JobError {
    fn fmt<W: fmt::Write>(&self, f: &mut fmt::Formatter<W>) -> fmt::Result {
        match self {
            JobError::NotQueued(refusal) => write!(f, "{refusal}"),
            JobError::NotWaited(exhausted) => write!(f, "{exhausted}"),
            JobError::NotDriven(refusal) => write!(f, "{refusal}"),
            JobError::NotTaken(refusal) => write!(f, "{refusal}"),
            JobError::TooFew => write!(f, "fewer jobs are ready than went in"),
            JobError::TooMany => write!(f, "more jobs came out than went in"),
            JobError::NoThread => write!(f, "no thread could be started"),
            JobError::NoClock => write!(f, "the clock can't be read"),
        }
    }
}

impl Error for JobError {}

/// Queues so many jobs on this processor: the numbers from 0.
pub fn queue_all<R: Wait, A: Allocator + Copy>(
    rt: &R,
    domain: &Domain<u64, A>,
    cpu: &mut Cpu<u64, A>,
    jobs: u64,
) -> Result<(), JobError>
    requires { IsOf domain.now cpu.old }
    ensures here { IsOf domain.now cpu.new }
    ensures queues { IfOk result (λ _. QueuesAll domain.now jobs cpu.old cpu.new) }
{
    for job in 0..jobs {
        if let Err((_, refusal)) = domain.call(rt, cpu, job) {
            return Err(JobError::NotQueued(refusal));
        }
    }
    Ok(())
}

/// Runs all jobs of a batch, and answers how many there were. To run a job is to count it.
fn run_jobs(batch: &mut Batch<u64>) -> u64
    requires { length batch.old.entries ≤ 8 }
    ensures all { result ≡ length batch.old.entries }
    ensures empty { batch.new ≡ record batch.old { entries = [] } }
{
    let mut came = 0;
    while let Some(_job) = batch.next() {
        came += 1;
    }
    came
}

/// Takes a batch of what is ready on a processor, runs it and finishes it. Answers how many jobs came out, and `None` where
/// none was ready.
pub fn run_ready<R: Wait>(
    rt: &R,
    domain: &Domain<u64>,
    cpu: &mut Cpu<u64>,
    processor: u16,
) -> Result<Option<u64>, JobError>
    requires domain { IsOf domain.now cpu.old }
    requires processor { processor < domain.now.processors }
    ensures here { IsOf domain.now cpu.new }
    ensures runs { IfOk result (λ came. RunsReady domain.now processor came cpu.old cpu.new) }
    ensures some { IfOk result (λ came. IfSome came (λ many. (1 ≤ many) × (many ≤ 8))) }
{
    match domain.take_ready(rt, cpu, processor, 8) {
        Ok(Some(mut batch)) => {
            let came = run_jobs(&mut batch);
            domain.finish(rt, cpu, batch);
            Ok(Some(came))
        }
        Ok(None) => Ok(None),
        Err(refusal) => Err(JobError::NotTaken(refusal)),
    }
}

/// The same of what is ready on this processor, on which something has to be.
fn run_batch<R: Wait>(rt: &R, domain: &Domain<u64>, cpu: &mut Cpu<u64>) -> Result<u64, JobError>
    requires { IsOf domain.now cpu.old }
    ensures here { IsOf domain.now cpu.new }
    ensures runs { IfOk result (λ came. RunsBatch domain.now cpu.old.cpu.processor came cpu.old cpu.new) }
    ensures some { IfOk result (λ came. (1 ≤ came) × (came ≤ 8)) }
{
    let processor = cpu.processor();
    match run_ready(rt, domain, cpu, processor)? {
        Some(came) => Ok(came),
        None => Err(JobError::TooFew),
    }
}

/// Runs batches of this processor until so many jobs came out.
fn run_all<R: Wait>(
    rt: &R,
    domain: &Domain<u64>,
    cpu: &mut Cpu<u64>,
    jobs: u64,
) -> Result<(), JobError>
    requires domain { IsOf domain.now cpu.old }
    requires few { jobs ≤ 2 ^ 54 }
    ensures here { IsOf domain.now cpu.new }
    ensures runs { IfOk result (λ _. RunsAll domain.now jobs cpu.old cpu.new) }
{
    let mut came = 0;
    while came < jobs {
        let more = run_batch(rt, domain, cpu)?;
        came += more;
    }
    if came > jobs {
        return Err(JobError::TooMany);
    }
    Ok(())
}

/// Queues so many jobs on this processor, waits for a grace period, and runs as many.
pub fn pass_all<R: Wait>(
    rt: &R,
    domain: &Domain<u64>,
    cpu: &mut Cpu<u64>,
    jobs: u64,
) -> Result<(), JobError>
    requires domain { IsOf domain.now cpu.old }
    requires none { HasNoneOpen cpu.old }
    requires few { jobs ≤ 2 ^ 54 }
    ensures { IfOk result (λ _. PassesAll domain.now jobs cpu.old cpu.new) }
{
    queue_all(rt, domain, cpu, jobs)?;
    if let Err(exhausted) = domain.synchronize(rt, cpu) {
        return Err(JobError::NotWaited(exhausted));
    }
    run_all(rt, domain, cpu, jobs)
}
