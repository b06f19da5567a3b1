//! How long it takes from the end of the last section until a driver in another thread runs a job that waited for it.
ghost use Rattle.std.specs.Prelude.{◌≡◌};
ghost use Rattle.std.specs.Thread.{IsSync};
ghost use Rattle.domain.specs.Views.{IsOf};

use crate::found;
use crate::miss::Miss;
use crate::serving::{queue_on, serve_on};
use anyhow::Result;
use domain::{Cpu, Domain};
use driver::{Pool, Stop};
use std::sync::Wait;
use std::sync::atomic::AtomicU64;
use std::sync::atomic::Ordering::SeqCst;
use std::thread::{Threads, join, sleep};
use std::time::{Clock, Duration, Instant};

/// How long a section stays open behind the queueing of its job, in milliseconds: so long that the driver waits for it.
const NAP: u64 = 15;

/// How often a thread looks whether the job was run, a tenth of a millisecond apart, before it gives up.
const LOOKS: u32 = 100_000;

/// A moment on the clock, in nanoseconds from the start, and at least 1.
fn moment<R: Clock>(rt: &R, start: Instant) -> Result<u64, Miss> {
    let Ok(elapsed) = start.elapsed(rt) else {
        return Err(Miss::NoClock);
    };
    let nanos = u64::try_from(elapsed.as_nanos()).unwrap_or(u64::MAX);
    Ok(nanos.max(1))
}

/// Notes when a job is run. Where the clock can't be read, whoever waits for it gives up.
fn note<R: Clock>(rt: &R, ran: &AtomicU64, start: Instant) {
    if let Ok(moment) = moment(rt, start) {
        ran.store(moment, SeqCst);
    }
}

/// Waits until the job was run. Answers at which moment that was.
fn wait_for<R: Clock>(rt: &R, ran: &AtomicU64) -> Result<u64, Miss> {
    for _ in 0..LOOKS {
        let moment = ran.load(SeqCst);
        if moment != 0 {
            return Ok(moment);
        }
        sleep(rt, Duration::from_micros(100));
    }
    Err(Miss::NotRun)
}

/// Queues a job in a section, on another processor, and ends the section once the driver waits for it. Answers how many
/// nanoseconds it took from just before the end of the section until the job was run.
fn delay_once<R: Wait + Clock>(
    rt: &R,
    domain: &Domain<u64>,
    pool: &Pool<u64>,
    cpu: &mut Cpu<u64>,
    ran: &AtomicU64,
    start: Instant,
) -> Result<u64, Miss>
    requires pool { pool.now.domain ≡ domain.now }
    requires here { IsOf domain.now cpu.old }
    ensures { IsOf domain.now cpu.new }
{
    ran.store(0, SeqCst);
    let Ok(section) = cpu.read_lock() else {
        return Err(Miss::NoSection);
    };
    let queued = queue_on(rt, domain, pool, 1);
    sleep(rt, Duration::from_millis(NAP));
    let ended = moment(rt, start);
    cpu.read_unlock(section);
    if queued != 1 {
        return Err(Miss::Jobs { queued, run: 0 });
    }
    delay_between(ended?, wait_for(rt, ran)?)
}

/// How long it is from the end of the section until the job was run.
fn delay_between(ended: u64, ran: u64) -> Result<u64, Miss> {
    match ran.checked_sub(ended) {
        Some(nanos) => Ok(nanos),
        None => Err(Miss::RunEarly),
    }
}

/// Does so many times, one behind the other.
fn delay_often<R: Wait + Clock + AllocGlobal>(
    rt: &R,
    domain: &Domain<u64>,
    pool: &Pool<u64>,
    mut cpu: Cpu<u64>,
    ran: &AtomicU64,
    start: Instant,
    times: usize,
) -> Result<Vec<u64>>
    requires pool { pool.now.domain ≡ domain.now }
    requires here { IsOf domain.now cpu }
{
    let mut delays = Vec::new(rt.alloc());
    for _ in 0..times {
        delays.push(delay_once(rt, domain, pool, &mut cpu, ran, start)?)?;
    }
    Ok(delays)
}

/// Does so while a driver runs the jobs in another thread.
fn delay_beside<R: Threads + Sync + Wait + Clock + AllocGlobal>(
    rt: &R,
    domain: &Domain<u64>,
    pool: &Pool<u64>,
    stop: &Stop<u64>,
    reader: Cpu<u64>,
    start: Instant,
    times: usize,
) -> (Result<u64, Miss>, Result<Vec<u64>>)
    requires pool { pool.now.domain ≡ domain.now }
    requires stop { stop.now.domain ≡ domain.now }
    requires reader { IsOf domain.now reader }
{
    let ran = AtomicU64::new(0);
    join(
        rt,
        || serve_on(rt, domain, pool, stop, |_job: u64| note(rt, &ran, start)),
        || -> Result<Vec<u64>>
            requires { IsSync R.row × ((pool.now.domain ≡ domain.now) × (stop.now.domain ≡ domain.now) × IsOf domain.now reader) }
        {
            let delays = delay_often(rt, domain, pool, reader, &ran, start, times);
            stop.give_alone(rt, domain);
            delays
        },
    )
}

/// So many of these times, in nanoseconds, in a new domain: one thread reads and queues, and another one serves.
pub fn run<R: Threads + Sync + Wait + Clock + AllocGlobal>(
    rt: &R,
    times: usize,
) -> Result<Vec<u64>> {
    let (domain, reader, cpus) = found(rt.alloc(), 2)?;
    let Ok(mut pool) = Pool::new(rt.alloc(), &domain) else {
        return Err(Miss::Memory.into());
    };
    let _ = pool.fill(rt, cpus); // none is out of a new pool
    let Ok(stop) = Stop::new(rt.alloc(), &domain) else {
        return Err(Miss::Memory.into());
    };
    let start = Instant::now(rt)?;
    let (served, delays) = delay_beside(rt, &domain, &pool, &stop, reader, start, times);
    served?;
    delays
}
