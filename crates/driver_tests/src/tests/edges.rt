//! A pool that is filled again or closed in vain, signs that agree, a tally with jobs, a domain whose periods are used up, jobs
//! that queue others, and a batch that another thread keeps for a while.
ghost use Rattle.std.specs.Prelude.{◌≡◌};
ghost use Rattle.domain.specs.Views.{IsOf};
ghost use Rattle.driver.specs.Pools.{IsIdle};

use super::sharing::look_for;
use super::{LIMITS, made, pool_of, queue, sign_of};
use domain::{Cpu, Domain, Limits, MakeError, PeriodsExhausted};
use driver::{
    Report, Served, Stall, Stop, Tallied, Tally, run_batch, serve, serve_until, serve_with,
};
use fixtures::two;
use refusing::clocks::Watch;
use std::marker::Model;
use std::sync::Wait;
use std::sync::atomic::AtomicU64;
use std::sync::atomic::Ordering::SeqCst;
use std::test::Fail;
use std::thread::{Threads, join, sleep};
use std::time::{Clock, CpuClock, Duration};

/// Would catch a pool that waits, or is closed, while a processor is out.
#[test]
fn closed_in_vain(rt: HostRuntime) -> Result<(), Fail> {
    let Ok((domain, cpus)) = made(rt.alloc(), 1) else {
        panic!(rt; "there is memory");
    };
    let Ok(pool) = pool_of(&rt, &domain, cpus) else {
        panic!(rt; "there is memory");
    };
    let lent = pool.take(&rt);
    let Err((pool, _home)) = pool.close(&rt) else {
        panic!(rt; "one is out");
    };
    pool.give(&rt, lent);
    assert!(rt; pool.close(&rt).is_ok());
    Ok(())
}

/// Would catch a pool that loses those that were at home when it is filled again.
#[test]
fn filled_again(rt: HostRuntime) -> Result<(), Fail> {
    let (domain, cpus) = made(rt.alloc(), 2)?;
    let mut pool = pool_of(&rt, &domain, cpus)?;
    let Ok(before) = pool.fill(&rt, Vec::new(rt.alloc())) else {
        panic!(rt; "all are at home");
    };
    assert_eq!(rt; before.len(), 2);
    Ok(())
}

/// Would catch a pool that is filled again while a processor is out: it could not be closed once that one is back.
#[test]
fn filled_in_vain(rt: HostRuntime) -> Result<(), Fail> {
    let (domain, cpus) = made(rt.alloc(), 2)?;
    let mut pool = pool_of(&rt, &domain, cpus)?;
    let lent = pool.take(&rt);
    let Err((none, _home)) = pool.fill(&rt, Vec::new(rt.alloc())) else {
        panic!(rt; "one is out");
    };
    pool.give(&rt, lent);
    assert_eq!(rt; none.len(), 0);
    let Ok(cpus) = pool.close(&rt) else {
        panic!(rt; "all are at home");
    };
    assert_eq!(rt; cpus.len(), 2);
    Ok(())
}

/// Would catch a sign that can't be looked at once two have agreed.
#[test]
fn looked_at_after_they_agree(rt: HostRuntime) -> Result<(), Fail> {
    let (domain, _cpus) = made(rt.alloc(), 1)?;
    let stop = sign_of(&rt, &domain)?;
    let told = stop.give_alone(&rt, &domain);
    let again = stop.give_alone(&rt, &domain);
    stop.agree(told, again);
    let (given, _told) = stop.is_given(&rt);
    assert!(rt; given);
    Ok(())
}

fn tally_nine<R: Wait + Clock + AllocGlobal>(rt: &R) -> Result<Option<Tallied>, MakeError> {
    let (domain, mut cpus) = made(rt.alloc(), 2)?;
    let stop = sign_of(rt, &domain)?;
    let (Some(watcher), Some(mut cpu)) = (cpus.pop(), cpus.pop()) else {
        return Ok(None);
    };
    let queued = queue(rt, &domain, &mut cpu, 0, 9);
    stop.give_alone(rt, &domain);
    let tally = Tally::new();
    let after = Duration::from_secs(100);
    let mut report = Report::new(
        rt,
        &tally,
        rt.alloc(),
        watcher,
        after,
        |_stall: Stall<'_>| {},
    );
    let served = serve_with(rt, &domain, &mut cpu, &stop, |_job: u64| {}, &mut report);
    if !queued || served.is_err() {
        return Ok(None);
    }
    Ok(Some(tally.read()))
}

/// Would catch a tally of which turns, jobs or batches are lost, counted twice, or taken for each other.
#[test]
fn tallies_nine_jobs_in_two_batches(rt: HostRuntime) -> Result<(), Fail> {
    let Some(tallied) = tally_nine(&rt)? else {
        panic!(rt; "there is memory");
    };
    let all = Tallied {
        turns: 2,
        periods: 1,
        jobs: 9,
        batches: 2,
        longest: Duration::from_secs(0), // nothing waits for a section
    };
    assert_eq!(rt; tallied, all);
    Ok(())
}

/// Queues a job, and serves until it is done. None where there is no memory.
fn serve_one<R: Wait>(
    rt: &R,
    domain: &Domain<u64>,
    cpu: &mut Cpu<u64>,
) -> Option<Result<Served, (Served, PeriodsExhausted)>>
    requires { IsIdle domain.now cpu.old }
    ensures { IsIdle domain.now cpu.new }
{
    let queued = queue(rt, domain, cpu, 0, 1);
    match domain.barrier_start(cpu) {
        Ok(ticket) if queued => Some(serve_until(rt, domain, cpu, &ticket, |_job: u64| {})),
        _ => None,
    }
}

/// Serves a job, and another one for which no more period may start.
fn serve_second<R: Wait + AllocGlobal>(
    rt: &R,
) -> Result<Option<Result<Served, (Served, PeriodsExhausted)>>, MakeError> {
    let limits = Limits {
        periods: 1,
        ..LIMITS
    };
    let (domain, mut cpus, _) = Domain::new(rt.alloc(), 1, limits)?;
    let Some(mut cpu) = cpus.pop() else {
        return Ok(None);
    };
    let first = serve_one(rt, &domain, &mut cpu);
    let second = serve_one(rt, &domain, &mut cpu);
    Ok(if first.is_some() { second } else { None })
}

/// Would catch a driver that serves for ever where no more periods may start.
#[test]
fn gives_up_where_periods_are_used_up(rt: HostRuntime) -> Result<(), Fail> {
    let Some(Err((served, PeriodsExhausted))) = serve_second(&rt)? else {
        panic!(rt; "a second period may not start");
    };
    assert_eq!(rt; served.jobs, 0);
    Ok(())
}

/// Queues jobs by a processor of its own.
#[derive(Drop)]
struct Queuer<'a> {
    domain: &'a Domain<u64>,
    cpu: Cpu<u64>,
}

impl<'a> Model for Queuer<'a> {
    ghost Value = { Unit {0} };

    ghost view = { λ _. tt };

    ghost invariant = { λ q. IsOf q.domain.now q.cpu };
}

impl Queuer<'_> {
    fn queue<R: Wait>(&mut self, rt: &R, job: u64) {
        let _ = self.domain.call(rt, &mut self.cpu, job);
    }
}

/// Serves, and queues one more job in each one that it runs. Tells whether it was told to stop, and how many jobs it ran.
fn serve_and_queue<R: Wait>(
    rt: &R,
    domain: &Domain<u64>,
    cpu: &mut Cpu<u64>,
    other: Cpu<u64>,
    stop: &Stop<u64>,
) -> (bool, u64)
    requires idle { IsIdle domain.now cpu.old }
    requires other { IsOf domain.now other }
    requires stop { stop.now.domain ≡ domain.now }
{
    let mut queuer = Queuer { domain, cpu: other };
    let served = serve(rt, domain, cpu, stop, |job: u64| {
        if job < 100 {
            queuer.queue(rt, job + 1);
        }
    });
    match served {
        Ok(stopped) => (true, stopped.served.jobs),
        Err((served, PeriodsExhausted)) => (false, served.jobs),
    }
}

/// What a driver came to that was told to stop before it began, where each job queues the next one: whether it ended as it was
/// told, and how many jobs it ran.
fn serve_what_queues<R: Wait + AllocGlobal>(
    rt: &R,
    periods: u64,
) -> Result<Option<(bool, u64)>, MakeError> {
    let limits = Limits { periods, ..LIMITS };
    let (domain, mut cpus, _) = Domain::<u64>::new(rt.alloc(), 2, limits)?;
    let stop = sign_of(rt, &domain)?;
    let (Some(mut other), Some(mut cpu)) = (cpus.pop(), cpus.pop()) else {
        return Ok(None);
    };
    let queued = queue(rt, &domain, &mut other, 0, 1);
    stop.give_alone(rt, &domain);
    let (is_told, jobs) = serve_and_queue(rt, &domain, &mut cpu, other, &stop);
    Ok(Some((queued && is_told, jobs)))
}

/// Would catch a driver that was told to stop, and goes on as long as jobs come in.
#[test]
fn told_while_jobs_come_in(rt: HostRuntime) -> Result<(), Fail> {
    assert_eq!(rt;
        serve_what_queues(&rt, Limits::MOST_PERIODS)?,
        Some((true, 2))
    );
    Ok(())
}

/// Would catch a driver that was told to stop, and waits for ever for a period that may not start.
#[test]
fn told_where_periods_are_used_up(rt: HostRuntime) -> Result<(), Fail> {
    assert_eq!(rt; serve_what_queues(&rt, 1)?, Some((false, 1)));
    Ok(())
}

/// Keeps a batch of eight for a while, beside a driver, and waits until the ninth job was run.
fn keep_a_batch<R: Wait + Clock>(
    rt: &R,
    domain: &Domain<u64>,
    cpu: &mut Cpu<u64>,
    stop: &Stop<u64>,
    ran: &AtomicU64,
    taken: &AtomicU64,
) -> bool
    requires idle { IsIdle domain.now cpu.old }
    requires stop { stop.now.domain ≡ domain.now }
{
    let queued = queue(rt, domain, cpu, 0, 9);
    let period = domain.synchronize(rt, cpu);
    let mut kept = false;
    if let Ok(Some(batch)) = domain.take_ready(rt, cpu, 0, 8) {
        taken.store(1, SeqCst);
        sleep(rt, Duration::from_millis(50));
        run_batch(rt, domain, cpu, batch, &mut |_job: u64| {});
        kept = true;
    }
    taken.store(1, SeqCst);
    let came = look_for(rt, ran, 1);
    stop.give_alone(rt, domain);
    queued && period.is_ok() && kept && came
}

/// Serves once the batch is out. Tells whether it came to its end.
fn serve_once_taken<R: Wait + Clock>(
    rt: &R,
    domain: &Domain<u64>,
    cpu: &mut Cpu<u64>,
    stop: &Stop<u64>,
    ran: &AtomicU64,
    taken: &AtomicU64,
) -> bool
    requires idle { IsIdle domain.now cpu.old }
    requires stop { stop.now.domain ≡ domain.now }
{
    look_for(rt, taken, 1)
        && serve(rt, domain, cpu, stop, |_job: u64| {
            ran.fetch_add(1, SeqCst);
        })
        .is_ok()
}

fn drive_beside_a_batch<R: Wait + Clock + Threads + AllocGlobal + Sync>(
    rt: &R,
) -> Result<bool, MakeError> {
    let (domain, mut first, mut second, _writer) = two(rt.alloc(), 2)?;
    let stop = sign_of(rt, &domain)?;
    let ran = AtomicU64::new(0);
    let taken = AtomicU64::new(0);
    let (served, came) = join(
        rt,
        || serve_once_taken(rt, &domain, &mut second, &stop, &ran, &taken),
        || keep_a_batch(rt, &domain, &mut first, &stop, &ran, &taken),
    );
    Ok(served && came)
}

/// Would catch a driver that sleeps until somebody asks, while a batch is out and a job waits for its end.
#[test]
fn runs_what_waits_behind_a_batch(rt: HostRuntime) -> Result<(), Fail> {
    assert!(rt; drive_beside_a_batch(&rt)?);
    Ok(())
}

/// How many jobs wait at once.
const MANY: u64 = 20_000;

/// How many thousands of jobs the processor queues after these: more than a million.
const THOUSANDS: u64 = 1_001;

/// Queues so many jobs from this one on, and runs them after their period. Tells how many ran, each after the one before it.
fn run_many<R: Wait>(
    rt: &R,
    domain: &Domain<u64>,
    cpu: &mut Cpu<u64>,
    first: u64,
    count: u64,
) -> u64
    requires { IsIdle domain.now cpu.old }
    ensures { IsIdle domain.now cpu.new }
{
    let mut next = first;
    let queued = queue(rt, domain, cpu, first, first.saturating_add(count));
    let served = match domain.barrier_start(cpu) {
        Ok(ticket) => serve_until(rt, domain, cpu, &ticket, |job: u64| {
            if job == next {
                next = next.saturating_add(1);
            }
        })
        .is_ok(),
        Err(_) => false,
    };
    if queued && served {
        next.saturating_sub(first)
    } else {
        0
    }
}

/// Many at once, and then so many thousands, or as many as there is time for: a program with checks is slow. Tells how many were
/// queued, and how many ran.
fn run_thousands<R: Wait + Clock + CpuClock>(
    rt: &R,
    domain: &Domain<u64>,
    cpu: &mut Cpu<u64>,
) -> (u64, u64)
    requires { IsIdle domain.now cpu.old }
{
    let watch = Watch::start(rt);
    let mut asked: u64 = MANY;
    let mut ran = run_many(rt, domain, cpu, 0, MANY);
    for thousand in 0..THOUSANDS {
        if watch.took(rt, 0, 20_000) {
            asked = asked.saturating_add(1_000);
            ran = ran.saturating_add(run_many(rt, domain, cpu, MANY + 1_000 * thousand, 1_000));
        }
    }
    (asked, ran)
}

fn run_a_million<R: Wait + Clock + CpuClock + AllocGlobal>(
    rt: &R,
) -> Result<(u64, u64), MakeError> {
    let (domain, mut cpus) = made(rt.alloc(), 1)?;
    match cpus.pop() {
        Some(mut cpu) => Ok(run_thousands(rt, &domain, &mut cpu)),
        None => Ok((0, 1)),
    }
}

/// Would catch a call that is refused after so many, a list with no room for so many, and a job that is lost or comes in another
/// order.
#[test]
fn more_than_a_million_jobs(rt: HostRuntime) -> Result<(), Fail> {
    let (asked, ran) = run_a_million(&rt)?;
    assert_eq!(rt; ran, asked);
    Ok(())
}
