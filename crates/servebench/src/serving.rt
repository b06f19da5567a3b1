//! Jobs that are queued by some threads, while a driver runs them in one more.
ghost use Rattle.std.specs.Prelude.{◌≡◌, ◌≤◌};
ghost use Rattle.std.specs.Thread.{IsSync};
ghost use Rattle.driver.specs.Pools.{IsIdle, IsLent};

use crate::found;
use crate::miss::Miss;
use anyhow::Result;
use domain::{Cpu, Domain};
use driver::{Pool, Stop, serve};
use std::sync::Wait;
use std::thread::{Threads, for_each_mut, join};
use std::time::{Clock, Duration, Instant};

/// The most threads that queue.
const MOST_THREADS: usize = 4;

/// Queues so many jobs on this processor, the numbers from 0. Answers how many of them were queued.
fn queue<R: Wait>(rt: &R, domain: &Domain<u64>, cpu: &mut Cpu<u64>, jobs: u64) -> u64
    requires { IsIdle domain.now cpu.old }
    ensures idle { IsIdle domain.now cpu.new }
    ensures same { cpu.new.cpu.processor ≡ cpu.old.cpu.processor }
{
    let mut queued: u64 = 0;
    for job in 0..jobs {
        if domain.call(rt, cpu, job).is_ok() {
            queued = queued.saturating_add(1);
        }
    }
    queued
}

/// The same on a processor of the pool.
pub fn queue_on<R: Wait>(rt: &R, domain: &Domain<u64>, pool: &Pool<u64>, jobs: u64) -> u64
    requires { pool.now.domain ≡ domain.now }
{
    pool.with(rt, |cpu| queue(rt, domain, cpu, jobs))
}

/// Has each of so many threads queue so many jobs, each on a processor of the pool. Answers how many were queued.
fn queue_all<R: Wait + Threads + Sync>(
    rt: &R,
    domain: &Domain<u64>,
    pool: &Pool<u64>,
    threads: usize,
    jobs: u64,
) -> u64
    requires pool { pool.now.domain ≡ domain.now }
    requires threads { threads ≤ 4 }
{
    let mut queued = [0; MOST_THREADS];
    let part = |_: usize, queued: &mut u64|
        requires { pool.now.domain ≡ domain.now }
    { *queued = queue_on(rt, domain, pool, jobs) };
    for_each_mut(rt, &mut queued[..threads], MOST_THREADS, &part);
    queued
        .iter()
        .fold(0, |sum: u64, queued| sum.saturating_add(*queued))
}

/// Serves the domain on a processor of the pool until it is told to stop. Answers how many jobs the driver says that it ran.
pub fn serve_on<R: Wait, F: FnMut(u64)>(
    rt: &R,
    domain: &Domain<u64>,
    pool: &Pool<u64>,
    stop: &Stop<u64>,
    work: F,
) -> Result<u64, Miss>
    requires pool { pool.now.domain ≡ domain.now }
    requires stop { stop.now.domain ≡ domain.now }
    requires work { F.IsAlwaysCallable work }
{
    let mut lent = pool.take(rt);
    let served = serve(rt, domain, &mut lent.cpu, stop, work);
    pool.give(rt, lent);
    match served {
        Ok(stopped) => Ok(stopped.served.jobs),
        Err((_, refusal)) => Err(Miss::NotServed(refusal)),
    }
}

/// Gives the sign by this processor, which has to have seen the jobs, or by none.
fn give<R: Wait>(rt: &R, domain: &Domain<u64>, stop: &Stop<u64>, cpu: &mut Cpu<u64>)
    requires idle { IsIdle domain.now cpu.old }
    requires stop { stop.now.domain ≡ domain.now }
    ensures { IsLent domain.now cpu.new cpu.old.cpu.processor }
{
    if stop.give(rt, domain, cpu).is_err() {
        stop.give_alone(rt, domain);
    }
}

/// The same on a processor of the pool.
pub fn tell<R: Wait>(rt: &R, domain: &Domain<u64>, pool: &Pool<u64>, stop: &Stop<u64>)
    requires pool { pool.now.domain ≡ domain.now }
    requires stop { stop.now.domain ≡ domain.now }
{
    pool.with(rt, |cpu| give(rt, domain, stop, cpu));
}

/// Queues so many jobs in each of so many threads, while a driver runs them: to run one is to do nothing, as the driver
/// counts them. Answers how many were queued, and how many the driver says that it ran.
fn queue_and_serve<R: Wait + Threads + Sync>(
    rt: &R,
    domain: &Domain<u64>,
    pool: &Pool<u64>,
    stop: &Stop<u64>,
    threads: usize,
    jobs: u64,
) -> (Result<u64, Miss>, u64)
    requires pool { pool.now.domain ≡ domain.now }
    requires stop { stop.now.domain ≡ domain.now }
    requires threads { threads ≤ 4 }
{
    join(
        rt,
        || serve_on(rt, domain, pool, stop, |_job: u64| {}),
        ||
            requires { IsSync R.row × ((pool.now.domain ≡ domain.now) × (stop.now.domain ≡ domain.now) × (threads ≤ 4)) }
        {
            let queued = queue_all(rt, domain, pool, threads, jobs);
            tell(rt, domain, pool, stop);
            queued
        },
    )
}

/// Does so in a new domain, and compares the two numbers with what they should be. Answers how long it took from before the
/// first thread's start until the driver had ended.
pub fn run<R: Threads + Sync + Wait + Clock + AllocGlobal>(
    rt: &R,
    threads: usize,
    jobs: u64,
) -> Result<Duration>
    requires { threads ≤ 4 }
{
    let (domain, _, cpus) = found(rt.alloc(), threads + 1)?;
    let Ok(mut pool) = Pool::new(rt.alloc(), &domain) else {
        return Err(Miss::Memory.into());
    };
    let _ = pool.fill(rt, cpus); // none is out of a new pool
    let Ok(stop) = Stop::new(rt.alloc(), &domain) else {
        return Err(Miss::Memory.into());
    };
    let start = Instant::now(rt)?;
    let (run, queued) = queue_and_serve(rt, &domain, &pool, &stop, threads, jobs);
    let elapsed = start.elapsed(rt)?;
    let run = run?;
    let all = jobs.saturating_mul(threads as u64);
    if queued != all || run != all {
        return Err(Miss::Jobs { queued, run }.into());
    }
    Ok(elapsed)
}
