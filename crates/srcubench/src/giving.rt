//! Jobs that are queued on some processors of a domain, each in a thread of its own, while one more thread gives them out.
ghost use Rattle.std.specs.Prelude.{◌≡◌, ◌*◌, ◌^◌, ◌≤◌, All, IfOk, OnOk};
ghost use Rattle.std.specs.Thread.{IsSync};
ghost use Rattle.domain.specs.Views.{IsOf};
ghost use Rattle.srcubench.specs.Calling.{QueuesAll};
ghost use Rattle.srcubench.specs.Founding.{EachBecomes};
ghost use Rattle.srcubench.specs.Giving.{RunsEach, GivesRound, GivesAll, AreGiven, HaveGiven};

use crate::callbacks::{first_error, queue_together};
use crate::calling::{JobError, run_ready};
use crate::driving::turn_once;
use crate::founding::{New, found};
use crate::work::Timed;
use anyhow::Result;
use domain::{Cpu, Domain};
use std::sync::Wait;
use std::sync::atomic::AtomicBool;
use std::sync::atomic::Ordering::SeqCst;
use std::thread::{Threads, join, yield_now};
use std::time::{Clock, Duration, Instant};

/// Runs a batch of what is ready on each of the first so many processors. Answers how many jobs came out.
fn run_each<R: Wait>(
    rt: &R,
    domain: &Domain<u64>,
    cpu: &mut Cpu<u64>,
    queuers: u16,
) -> Result<u64, JobError>
    requires domain { IsOf domain.now cpu.old }
    requires queuers { queuers ≤ domain.now.processors }
    ensures here { IsOf domain.now cpu.new }
    ensures runs { IfOk result (λ came. RunsEach domain.now queuers came cpu.old cpu.new) }
    ensures few { IfOk result (λ came. came ≤ 8 * queuers) }
{
    let mut came = 0;
    for processor in 0..queuers {
        if let Some(more) = run_ready(rt, domain, cpu, processor)? {
            came += more;
        }
    }
    Ok(came)
}

/// A turn of the engine, and then that.
fn give_round<R: Wait>(
    rt: &R,
    domain: &Domain<u64>,
    cpu: &mut Cpu<u64>,
    queuers: u16,
) -> Result<u64, JobError>
    requires domain { IsOf domain.now cpu.old }
    requires queuers { queuers ≤ domain.now.processors }
    ensures here { IsOf domain.now cpu.new }
    ensures gives { IfOk result (λ came. GivesRound domain.now queuers came cpu.old cpu.new) }
    ensures few { IfOk result (λ came. came ≤ 8 * queuers) }
{
    if let Err(refusal) = turn_once(domain, cpu) {
        return Err(JobError::NotDriven(refusal));
    }
    let came = run_each(rt, domain, cpu, queuers)?;
    Ok(came)
}

/// Gives out what is queued on the processors before this one, until so many jobs are out. `failed` tells that fewer were
/// queued.
fn give_all<R: Wait>(
    rt: &R,
    domain: &Domain<u64>,
    cpu: &mut Cpu<u64>,
    jobs: u64,
    failed: &AtomicBool,
) -> Result<(), JobError>
    requires domain { IsOf domain.now cpu.old }
    requires few { jobs ≤ 2 ^ 56 }
    ensures { IfOk result (λ _. GivesAll domain.now jobs cpu.old cpu.new) }
{
    let queuers = cpu.processor();
    let mut came = 0;
    for _ in rt.forever() {
        if came == jobs {
            return Ok(());
        }
        if came > jobs {
            return Err(JobError::TooMany);
        }
        if failed.load(SeqCst) {
            return Err(JobError::TooFew);
        }
        let more = give_round(rt, domain, cpu, queuers)?;
        if more == 0 {
            yield_now();
        }
        came += more;
    }
    unreachable!()
}

/// Does so on this processor.
fn give_here<R: Wait>(
    rt: &R,
    domain: &Domain<u64>,
    mut cpu: Cpu<u64>,
    jobs: u64,
    failed: &AtomicBool,
) -> Result<Cpu<u64>, JobError>
    requires domain { IsOf domain.now cpu }
    requires few { jobs ≤ 2 ^ 56 }
    ensures { IfOk result (λ last. GivesAll domain.now jobs cpu last) }
{
    give_all(rt, domain, &mut cpu, jobs, failed)?;
    Ok(cpu)
}

/// Has each processor queue so many jobs in a thread of its own. Answers how long that took.
fn queue_timed<R: Threads + Sync + Wait + Clock>(
    rt: &R,
    domain: &Domain<u64>,
    cpus: Vec<Cpu<u64>>,
    jobs: u64,
    start: Instant,
) -> Result<Duration, JobError>
    requires { All (IsOf domain.now) cpus.items }
    ensures { OnOk result (EachBecomes (QueuesAll domain.now jobs) cpus.items) }
{
    let Ok(outcomes) = queue_together(rt, domain, cpus, jobs) else {
        return Err(JobError::NoThread);
    };
    let Ok(elapsed) = start.elapsed(rt) else {
        return Err(JobError::NoClock);
    };
    first_error(outcomes.as_slice())?;
    Ok(elapsed)
}

/// The same. Where not all jobs were queued, `failed` tells it to the one who gives out, who would wait for them.
fn queue_beside<R: Threads + Sync + Wait + Clock>(
    rt: &R,
    domain: &Domain<u64>,
    cpus: Vec<Cpu<u64>>,
    jobs: u64,
    start: Instant,
    failed: &AtomicBool,
) -> Result<Duration, JobError>
    requires { All (IsOf domain.now) cpus.items }
    ensures { OnOk result (EachBecomes (QueuesAll domain.now jobs) cpus.items) }
{
    let queued = queue_timed(rt, domain, cpus, jobs, start);
    if queued.is_err() {
        failed.store(true, SeqCst);
    }
    queued
}

/// Has each processor queue so many jobs in a thread of its own, and this one give out `total` in one more.
fn queue_and_give<R: Threads + Sync + Wait + Clock>(
    rt: &R,
    domain: &Domain<u64>,
    cpus: Vec<Cpu<u64>>,
    jobs: u64,
    giver: Cpu<u64>,
    total: u64,
    start: Instant,
) -> (Result<Duration, JobError>, Result<Cpu<u64>, JobError>)
    requires cpus { All (IsOf domain.now) cpus.items }
    requires giver { IsOf domain.now giver }
    requires few { total ≤ 2 ^ 56 }
    ensures queued { OnOk result.0 (EachBecomes (QueuesAll domain.now jobs) cpus.items) }
    ensures given { IfOk result.1 (λ last. GivesAll domain.now total giver last) }
{
    let failed = AtomicBool::new(false);
    join(
        rt,
        || -> Result<Duration, JobError>
            requires { IsSync R.row × All (IsOf domain.now) cpus.items }
            ensures { OnOk result (EachBecomes (QueuesAll domain.entry.now jobs) cpus.items) }
        { queue_beside(rt, domain, cpus, jobs, start, &failed) },
        || give_here(rt, domain, giver, total, &failed),
    )
}

/// Has each of these processors queue so many jobs, while one more gives out `total`. The `elapsed` is what the clock told,
/// of which no clause speaks: from before the first thread's start until all jobs were queued, or where `ended` says so
/// until all were out.
fn time_given<R: Threads + Sync + Wait + Clock>(
    rt: &R,
    domain: &Domain<u64>,
    cpus: Vec<Cpu<u64>>,
    jobs: u64,
    giver: Cpu<u64>,
    total: u64,
    ended: bool,
) -> Result<Timed>
    requires cpus { All (IsOf domain.now) cpus.items }
    requires giver { IsOf domain.now giver }
    requires few { total ≤ 2 ^ 56 }
    ensures done { IfOk result (λ timed. timed.done ≡ total) }
    ensures given { IfOk result (λ _. AreGiven domain.now jobs cpus.items total giver) }
{
    let start = Instant::now(rt)?;
    let (queued, given) = queue_and_give(rt, domain, cpus, jobs, giver, total, start);
    let whole = start.elapsed(rt)?;
    let queued = queued?;
    given?;
    Ok(Timed {
        done: total,
        elapsed: if ended { whole } else { queued },
    })
}

/// Queues so many jobs in each of so many threads of a new domain, while one more gives them out. The `elapsed` is the time
/// until all jobs were queued, or where `ended` says so until all were out.
pub fn run<R: Threads + Sync + Wait + Clock + AllocGlobal>(
    rt: &R,
    threads: usize,
    jobs: u64,
    ended: bool,
) -> Result<Timed>
    requires threads { threads ≤ 2 ^ 16 }
    requires few { jobs ≤ 2 ^ 40 }
    ensures done { IfOk result (λ timed. timed.done ≡ threads * jobs) }
    ensures given { IfOk result (λ _. HaveGiven threads jobs) }
{
    let New {
        domain,
        readers,
        changer,
        ..
    } = found::<u64>(rt.alloc(), threads)?;
    let total = threads as u64 * jobs;
    time_given(rt, &domain, readers, jobs, changer, total, ended)
}
