ghost use Rattle.std.specs.Prelude.{◌≡◌, All, IfOk, length};
ghost use Rattle.sections.specs.Words.{cells_in};
ghost use Rattle.driver.specs.Pools.{IsIdle};

mod clocks;
mod edges;
mod lending;
mod reporting;
mod resting;
mod sharing;
mod telling;
mod waking;

use domain::{Cpu, Domain, Limits, MakeError, PeriodsExhausted, Totals};
use driver::{Pool, Served, Stop, Stopped, serve, serve_until};
use std::alloc::Global;
use std::sync::Wait;
use std::test::Fail;
use std::thread::{Threads, join, sleep};
use std::time::{Clock, Duration};

const LIMITS: Limits = Limits {
    sections: Limits::MOST_SECTIONS,
    periods: Limits::MOST_PERIODS,
    cells: 1, // zeros lie there
    slots: 2,
};

/// A new domain of so many processors, and these.
fn made(alloc: Global, processors: usize) -> Result<(Domain<u64>, Vec<Cpu<u64>>), MakeError>
    ensures idle { IfOk result (λ r. All (IsIdle r.0) r.1.items) }
    ensures many { IfOk result (λ r. r.0.processors ≡ processors) }
    ensures count { IfOk result (λ r. length r.1.items ≡ processors) }
    ensures cell { IfOk result (λ r. cells_in r.0.domain ≡ 1) }
{
    let (domain, cpus, _) = Domain::new(alloc, processors, LIMITS)?;
    Ok((domain, cpus))
}

/// A pool of these.
fn pool_of<'a, R: Wait + AllocGlobal>(
    rt: &R,
    domain: &'a Domain<u64>,
    cpus: Vec<Cpu<u64>>,
) -> Result<Pool<'a, u64>, MakeError>
    requires { All (IsIdle domain.now) cpus.items }
    ensures { IfOk result (λ pool. pool.domain ≡ domain.entry.now) }
{
    let Ok(mut pool) = Pool::new(rt.alloc(), domain) else {
        return Err(MakeError::Memory);
    };
    let _ = pool.fill(rt, cpus); // none is out of a new pool
    Ok(pool)
}

/// A sign for its drivers.
fn sign_of<R: AllocGlobal>(rt: &R, domain: &Domain<u64>) -> Result<Stop<u64>, MakeError>
    ensures { IfOk result (λ stop. stop.domain ≡ domain.now) }
{
    match Stop::new(rt.alloc(), domain) {
        Ok(stop) => Ok(stop),
        Err(_) => Err(MakeError::Memory),
    }
}

/// Takes the domain of a pool down.
fn end(domain: Domain<u64>, cpus: Vec<Cpu<u64>>) -> Option<Totals>
    requires { All (IsIdle domain) cpus.items }
{
    domain.cleanup(cpus).ok()
}

/// Queues these jobs, from the first one up to the last. Whether each was queued.
fn queue<R: Wait>(rt: &R, domain: &Domain<u64>, cpu: &mut Cpu<u64>, first: u64, last: u64) -> bool
    requires { IsIdle domain.now cpu.old }
    ensures idle { IsIdle domain.now cpu.new }
    ensures same { cpu.new.cpu.processor ≡ cpu.old.cpu.processor }
{
    let mut queued = true;
    for job in first..last {
        queued &= domain.call(rt, cpu, job).is_ok();
    }
    queued
}

/// What a driver came to on a processor of a pool, behind jobs of its own, and the digits of the jobs that it ran, in
/// their order.
fn drive<R: Wait>(
    rt: &R,
    domain: &Domain<u64>,
    pool: &Pool<u64>,
    stop: &Stop<u64>,
    jobs: (u64, u64),
) -> (bool, Option<Served>, u64)
    requires pool { pool.now.domain ≡ domain.now }
    requires stop { stop.now.domain ≡ domain.now }
{
    let mut lent = pool.take(rt);
    let queued = queue(rt, domain, &mut lent.cpu, jobs.0, jobs.1);
    let mut digits: u64 = 0;
    let served = serve(rt, domain, &mut lent.cpu, stop, |job: u64| {
        digits = digits.wrapping_mul(10).wrapping_add(job);
    });
    pool.give(rt, lent);
    (queued, served_by(served), digits)
}

/// What a driver did that came to its end.
fn served_by(came: Result<Stopped<u64>, (Served, PeriodsExhausted)>) -> Option<Served> {
    match came {
        Ok(stopped) => Some(stopped.served),
        Err(_) => None,
    }
}

/// A driver that was told to stop before it began.
fn drive_in_vain<R: Wait + AllocGlobal>(
    rt: &R,
) -> Result<Option<(bool, Option<Served>, u64)>, MakeError> {
    let (domain, cpus) = made(rt.alloc(), 2)?;
    let pool = pool_of(rt, &domain, cpus)?;
    let stop = sign_of(rt, &domain)?;
    stop.give_alone(rt, &domain);
    Ok(Some(drive(rt, &domain, &pool, &stop, (1, 4))))
}

/// Would catch a driver that stops with jobs left, that runs one twice, or in another order.
#[test]
fn runs_what_waits_before_it_stops(rt: HostRuntime) -> Result<(), Fail> {
    let served = Served {
        periods: 1,
        jobs: 3,
    };
    assert_eq!(rt; drive_in_vain(&rt)?, Some((true, Some(served), 123)));
    Ok(())
}

/// What serving until a barrier is done came to behind jobs of its own thread, and the digits of the jobs that it ran, in their order.
fn wait_for_own<R: Wait + AllocGlobal>(
    rt: &R,
) -> Result<Option<(bool, Option<Served>, u64)>, MakeError> {
    let (domain, cpus) = made(rt.alloc(), 2)?;
    let pool = pool_of(rt, &domain, cpus)?;
    let mut lent = pool.take(rt);
    let queued = queue(rt, &domain, &mut lent.cpu, 1, 4);
    let mut digits: u64 = 0;
    let served = match domain.barrier_start(&mut lent.cpu) {
        Ok(ticket) => serve_until(rt, &domain, &mut lent.cpu, &ticket, |job: u64| {
            digits = digits.wrapping_mul(10).wrapping_add(job);
        })
        .ok(),
        Err(_) => None,
    };
    pool.give(rt, lent);
    Ok(Some((queued, served, digits)))
}

/// Would catch a call that waits for another thread to drive and to run the jobs, and one that is done too early.
#[test]
fn serves_until_a_barrier_is_done(rt: HostRuntime) -> Result<(), Fail> {
    let served = Served {
        periods: 1,
        jobs: 3,
    };
    assert_eq!(rt; wait_for_own(&rt)?, Some((true, Some(served), 123)));
    Ok(())
}

/// What two drivers came to that run at once.
fn drive_two<R: Wait + Threads + AllocGlobal + Sync>(
    rt: &R,
) -> Result<Option<(u64, Option<Totals>)>, MakeError> {
    let (domain, cpus) = made(rt.alloc(), 2)?;
    let pool = pool_of(rt, &domain, cpus)?;
    let stop = sign_of(rt, &domain)?;
    stop.give_alone(rt, &domain);
    let (here, there) = join(
        rt,
        || jobs_of(drive(rt, &domain, &pool, &stop, (0, 20))),
        || jobs_of(drive(rt, &domain, &pool, &stop, (0, 30))),
    );
    let Ok(cpus) = pool.close(rt) else {
        return Ok(None);
    };
    Ok(Some((here.saturating_add(there), end(domain, cpus))))
}

/// How many jobs a driver ran that came to its end.
fn jobs_of(came: (bool, Option<Served>, u64)) -> u64 {
    match came {
        (true, Some(served), _) => served.jobs,
        _ => 0,
    }
}

/// Would catch two drivers that run one job twice, that leave one, or that wait for each other.
#[test]
fn two_drivers(rt: HostRuntime) -> Result<(), Fail> {
    let Some((jobs, Some(totals))) = drive_two(&rt)? else {
        panic!(rt; "nothing is in use any more");
    };
    assert_eq!(rt; (jobs, totals.queued, totals.finished), (50, 50, 50));
    Ok(())
}

/// Sleeps a while, and then tells the others to stop.
fn tell<R: Wait + Clock>(rt: &R, domain: &Domain<u64>, stop: &Stop<u64>)
    requires { stop.now.domain ≡ domain.now }
{
    sleep(rt, Duration::from_millis(5));
    stop.give_alone(rt, domain);
}

/// How many jobs a driver ran that is told to stop after a while.
fn drive_beside<R: Wait + Clock + Threads + Sync>(
    rt: &R,
    domain: &Domain<u64>,
    pool: &Pool<u64>,
    stop: &Stop<u64>,
) -> u64
    requires pool { pool.now.domain ≡ domain.now }
    requires stop { stop.now.domain ≡ domain.now }
{
    let (jobs, ()) = join(
        rt,
        || jobs_of(drive(rt, domain, pool, stop, (0, 7))),
        || tell(rt, domain, stop),
    );
    jobs
}

/// The same in a new domain.
fn drive_until_told<R: Wait + Clock + Threads + AllocGlobal + Sync>(
    rt: &R,
) -> Result<u64, MakeError> {
    let (domain, cpus) = made(rt.alloc(), 2)?;
    let pool = pool_of(rt, &domain, cpus)?;
    let stop = sign_of(rt, &domain)?;
    Ok(drive_beside(rt, &domain, &pool, &stop))
}

/// Would catch a driver that leaves jobs when it is told to stop, and one that sleeps on.
#[test]
fn told_while_it_sleeps(rt: HostRuntime) -> Result<(), Fail> {
    assert_eq!(rt; drive_until_told(&rt)?, 7);
    Ok(())
}
