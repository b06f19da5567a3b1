//! Jobs that are queued, and run, in a new domain: a thread for each of its processors. And what they take in memory.
ghost use Rattle.std.specs.Prelude.{◌≡◌, ◌*◌, ◌^◌, ◌≤◌, All, IsOk, IfOk, OnOk};
ghost use Rattle.domain.specs.Views.{IsOf};
ghost use Rattle.domain.specs.Waiting.{HasNoneOpen};
ghost use Rattle.srcubench.specs.Calling.{QueuesAll, PassesAll, AreOutcomes, HaveQueued, HavePassed};

use crate::calling::{JobError, pass_all, queue_all};
use crate::work::Timed;
use anyhow::Result;
use domain::{Cpu, Domain, Limits};
use linked_list_allocator::LocalHeap;
use std::alloc::AllocError;
use std::sync::Wait;
use std::thread;
use std::thread::Threads;
use std::time::{Clock, Duration, Instant};

/// As many grace periods as there may be: how many there are is up to the threads.
pub const LIMITS: Limits = Limits {
    sections: 1,
    periods: Limits::MOST_PERIODS,
    cells: 0,
    slots: 2,
};

/// Room for a list of some ten thousand jobs and for one of half the size, from which it grew; and for a domain of as many
/// processors as there may be. In bytes.
const HEAP: usize = 16 * 1024 * 1024;

/// Queues so many jobs on this processor.
fn queue_here<R: Wait>(
    rt: &R,
    domain: &Domain<u64>,
    mut cpu: Cpu<u64>,
    jobs: u64,
) -> Result<Cpu<u64>, JobError>
    requires { IsOf domain.now cpu }
    ensures { IfOk result (λ last. QueuesAll domain.now jobs cpu last) }
{
    queue_all(rt, domain, &mut cpu, jobs)?;
    Ok(cpu)
}

/// The same, and then runs as many, behind a grace period.
fn pass_here<R: Wait>(
    rt: &R,
    domain: &Domain<u64>,
    mut cpu: Cpu<u64>,
    jobs: u64,
) -> Result<Cpu<u64>, JobError>
    requires domain { IsOf domain.now cpu }
    requires none { HasNoneOpen cpu }
    requires few { jobs ≤ 2 ^ 54 }
    ensures { IfOk result (λ last. PassesAll domain.now jobs cpu last) }
{
    pass_all(rt, domain, &mut cpu, jobs)?;
    Ok(cpu)
}

/// Has each processor queue so many jobs in a thread of its own.
pub fn queue_together<R: Threads + Sync + Wait>(
    rt: &R,
    domain: &Domain<u64>,
    cpus: Vec<Cpu<u64>>,
    jobs: u64,
) -> Result<Vec<Result<Cpu<u64>, JobError>>, AllocError>
    requires { All (IsOf domain.now) cpus.items }
    ensures { IfOk result (λ outcomes. AreOutcomes (QueuesAll domain.now jobs) cpus.items outcomes.items) }
{
    thread::map_vec(rt, cpus, &|cpu| queue_here(rt, domain, cpu, jobs))
}

/// Has each processor queue so many jobs, and run as many, in a thread of its own.
pub fn pass_together<R: Threads + Sync + Wait>(
    rt: &R,
    domain: &Domain<u64>,
    cpus: Vec<Cpu<u64>>,
    jobs: u64,
) -> Result<Vec<Result<Cpu<u64>, JobError>>, AllocError>
    requires cpus { All (λ c. IsOf domain.now c × HasNoneOpen c) cpus.items }
    requires few { jobs ≤ 2 ^ 54 }
    ensures { IfOk result (λ outcomes. AreOutcomes (PassesAll domain.now jobs) cpus.items outcomes.items) }
{
    thread::map_vec(rt, cpus, &|cpu| pass_here(rt, domain, cpu, jobs))
}

/// The first error, where there is one.
pub fn first_error<T, E: Copy>(outcomes: &[Result<T, E>]) -> Result<(), E>
    ensures { OnOk result (All IsOk outcomes.now) }
{
    for outcome in outcomes {
        if let Err(error) = outcome {
            return Err(*error);
        }
    }
    Ok(())
}

/// So many jobs in each of so many threads, all of which are counted, and how long they took.
fn timed(threads: usize, jobs: u64, elapsed: Duration) -> Timed
    requires threads { threads ≤ 2 ^ 16 }
    requires few { jobs ≤ 2 ^ 40 }
    ensures { result.done ≡ threads * jobs }
{
    Timed {
        done: threads as u64 * jobs,
        elapsed,
    }
}

/// Queues so many jobs in each of so many threads. The `elapsed` is what the clock told, of which no clause speaks: from
/// before the first thread's start until all had ended.
pub fn run_queueing<R: Threads + Sync + Wait + Clock + AllocGlobal>(
    rt: &R,
    threads: usize,
    jobs: u64,
) -> Result<Timed>
    requires threads { threads ≤ 2 ^ 16 }
    requires few { jobs ≤ 2 ^ 40 }
    ensures done { IfOk result (λ timed. timed.done ≡ threads * jobs) }
    ensures queued { IfOk result (λ _. HaveQueued threads jobs) }
{
    let (domain, cpus, _) = Domain::<u64>::new(rt.alloc(), threads, LIMITS)?;
    let start = Instant::now(rt)?;
    let outcomes = queue_together(rt, &domain, cpus, jobs)?;
    let elapsed = start.elapsed(rt)?;
    first_error(outcomes.as_slice())?;
    Ok(timed(threads, jobs, elapsed))
}

/// The same from the first job's queueing until the last batch was finished.
pub fn run_passing<R: Threads + Sync + Wait + Clock + AllocGlobal>(
    rt: &R,
    threads: usize,
    jobs: u64,
) -> Result<Timed>
    requires threads { threads ≤ 2 ^ 16 }
    requires few { jobs ≤ 2 ^ 40 }
    ensures done { IfOk result (λ timed. timed.done ≡ threads * jobs) }
    ensures passed { IfOk result (λ _. HavePassed threads jobs) }
{
    let (domain, cpus, _) = Domain::<u64>::new(rt.alloc(), threads, LIMITS)?;
    let start = Instant::now(rt)?;
    let outcomes = pass_together(rt, &domain, cpus, jobs)?;
    let elapsed = start.elapsed(rt)?;
    first_error(outcomes.as_slice())?;
    Ok(timed(threads, jobs, elapsed))
}

/// How many bytes of the domain's heap so many jobs take that are queued on this processor.
fn measure_jobs<'h, R: Wait>(
    rt: &R,
    heap: &'h LocalHeap,
    domain: &Domain<u64, &'h LocalHeap>,
    cpu: &mut Cpu<u64, &'h LocalHeap>,
    jobs: u64,
) -> Result<usize>
    requires { IsOf domain.now cpu.old }
{
    let before = heap.used();
    queue_all(rt, domain, cpu, jobs)?;
    Ok(heap.used().saturating_sub(before))
}

/// How many bytes of a heap so many jobs take that are queued on one processor.
pub fn measure_memory<R: Wait + AllocGlobal>(rt: &R, jobs: u64) -> Result<usize> {
    let heap = LocalHeap::new(rt.alloc(), HEAP)?;
    let (domain, mut cpus, _) = Domain::<u64, &LocalHeap>::new(&heap, 1, LIMITS)?;
    let mut cpu = cpus.pop().unwrap();
    measure_jobs(rt, &heap, &domain, &mut cpu, jobs)
}

/// How many bytes of a heap a new domain of so many processors takes, with what each processor holds: no job was queued.
pub fn measure_domain<R: AllocGlobal>(rt: &R, processors: usize) -> Result<usize> {
    let heap = LocalHeap::new(rt.alloc(), HEAP)?;
    let (domain, cpus, _) = Domain::<u64, &LocalHeap>::new(&heap, processors, LIMITS)?;
    let used = heap.used();
    drop(cpus);
    drop(domain);
    Ok(used)
}
