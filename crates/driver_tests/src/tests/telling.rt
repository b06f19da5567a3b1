//! A driver that is told to stop while a section is open.
ghost use Rattle.std.specs.Prelude.{◌≡◌};
ghost use Rattle.std.specs.Thread.{IsSync};
ghost use Rattle.driver.specs.Pools.{IsIdle, IsLent};
ghost use Rattle.driver.specs.Works.{IsKept};

use super::sharing::look_for;
use super::{made, pool_of, queue, served_by, sign_of};
use domain::{Cpu, Domain, MakeError, Reading};
use driver::{GiveRefusal, Pool, Stop, read, serve};
use std::sync::Wait;
use std::sync::atomic::AtomicU64;
use std::sync::atomic::Ordering::SeqCst;
use std::test::Fail;
use std::thread::{Threads, join, sleep};
use std::time::{Clock, Duration};

/// What the threads tell each other.
#[derive(Drop)]
struct Signs {
    /// How many jobs the driver ran.
    ran: AtomicU64,
    /// 1 from when the section is open.
    opened: AtomicU64,
    /// 1 from when the driver is told to stop.
    told: AtomicU64,
}

impl Signs {
    fn new() -> Signs {
        Signs {
            ran: AtomicU64::new(0),
            opened: AtomicU64::new(0),
            told: AtomicU64::new(0),
        }
    }
}

/// Tells that the section is open, and stays in it until the driver is told to stop, and 20 milliseconds longer.
#[tactic(auto, using(driver::proofs::Keeping::kept_itself))]
fn stay<R: Clock>(rt: &R, signs: &Signs, cpu: &mut Cpu<u64>, section: &mut Reading)
    ensures kept { IsKept cpu.old cpu.new }
    ensures section { section.new ≡ section.old }
{
    signs.opened.store(1, SeqCst);
    if look_for(rt, &signs.told, 1) {
        sleep(rt, Duration::from_millis(20));
    }
}

/// Opens that section once the driver has run a job.
fn read_long<R: Wait + Clock>(rt: &R, pool: &Pool<u64>, signs: &Signs) -> bool {
    let ran = look_for(rt, &signs.ran, 1);
    ran && pool.with(rt, |cpu| {
        read(cpu, |cpu, section| stay(rt, signs, cpu, section)).is_ok()
    })
}

/// Queues a job, and gives the sign by the processor that it is queued on.
fn call_and_give<R: Wait>(
    rt: &R,
    domain: &Domain<u64>,
    stop: &Stop<u64>,
    cpu: &mut Cpu<u64>,
) -> bool
    requires idle { IsIdle domain.now cpu.old }
    requires stop { stop.now.domain ≡ domain.now }
    ensures { IsLent domain.now cpu.new cpu.old.cpu.processor }
{
    let queued = queue(rt, domain, cpu, 2, 3);
    let given = stop.give(rt, domain, cpu).is_ok();
    if !given {
        stop.give_alone(rt, domain);
    }
    queued && given
}

/// Does so once the section is open.
fn queue_and_tell<R: Wait + Clock>(
    rt: &R,
    domain: &Domain<u64>,
    pool: &Pool<u64>,
    stop: &Stop<u64>,
    signs: &Signs,
) -> bool
    requires pool { pool.now.domain ≡ domain.now }
    requires stop { stop.now.domain ≡ domain.now }
{
    let opened = look_for(rt, &signs.opened, 1);
    let told = pool.with(rt, |cpu| call_and_give(rt, domain, stop, cpu));
    signs.told.store(1, SeqCst);
    opened && told
}

/// A driver with one job of its own, which tells how many it ran.
fn drive_beside<R: Wait>(
    rt: &R,
    domain: &Domain<u64>,
    pool: &Pool<u64>,
    stop: &Stop<u64>,
    signs: &Signs,
) -> u64
    requires pool { pool.now.domain ≡ domain.now }
    requires stop { stop.now.domain ≡ domain.now }
{
    let mut lent = pool.take(rt);
    let queued = queue(rt, domain, &mut lent.cpu, 1, 2);
    let served = serve(rt, domain, &mut lent.cpu, stop, |_job: u64| {
        signs.ran.fetch_add(1, SeqCst);
    });
    pool.give(rt, lent);
    match (queued, served_by(served)) {
        (true, Some(served)) => served.jobs,
        _ => 0,
    }
}

/// All three at once.
fn tell_beside<R: Wait + Clock + Threads + Sync>(
    rt: &R,
    domain: &Domain<u64>,
    pool: &Pool<u64>,
    stop: &Stop<u64>,
) -> (u64, (bool, bool))
    requires pool { pool.now.domain ≡ domain.now }
    requires stop { stop.now.domain ≡ domain.now }
{
    let signs = Signs::new();
    join(
        rt,
        || drive_beside(rt, domain, pool, stop, &signs),
        || -> (bool, bool)
            requires { IsSync R.row × ((pool.now.domain ≡ domain.now) × (stop.now.domain ≡ domain.now)) }
        {
            join(
                rt,
                || read_long(rt, pool, &signs),
                || queue_and_tell(rt, domain, pool, stop, &signs),
            )
        },
    )
}

fn tell_in_a_section<R: Wait + Clock + Threads + AllocGlobal + Sync>(
    rt: &R,
) -> Result<(u64, (bool, bool)), MakeError> {
    let (domain, cpus) = made(rt.alloc(), 3)?;
    let pool = pool_of(rt, &domain, cpus)?;
    let stop = sign_of(rt, &domain)?;
    Ok(tell_beside(rt, &domain, &pool, &stop))
}

/// Would catch a driver that leaves what was queued while it served: the second job waits for the section, which is open for 20
/// milliseconds behind the sign.
#[test]
fn told_while_a_job_waits(rt: HostRuntime) -> Result<(), Fail> {
    assert_eq!(rt; tell_in_a_section(&rt)?, (2, (true, true)));
    Ok(())
}

/// Whether a sign is given, before and behind that it is; and whether it can be given once more.
fn give_twice<R: Wait>(
    rt: &R,
    domain: &Domain<u64>,
    stop: &Stop<u64>,
    cpu: &mut Cpu<u64>,
) -> (bool, bool, bool)
    requires idle { IsIdle domain.now cpu.old }
    requires stop { stop.now.domain ≡ domain.now }
    ensures { IsLent domain.now cpu.new cpu.old.cpu.processor }
{
    let (before, _told) = stop.is_given(rt);
    let first = stop.give(rt, domain, cpu);
    let (behind, _told) = stop.is_given(rt);
    let again = match stop.give(rt, domain, cpu) {
        Err(GiveRefusal::Given(_)) => false,
        _ => true,
    };
    (before, behind && first.is_ok(), again)
}

/// The same, on a processor of the pool.
fn give_on<R: Wait>(
    rt: &R,
    domain: &Domain<u64>,
    pool: &Pool<u64>,
    stop: &Stop<u64>,
) -> (bool, bool, bool)
    requires pool { pool.now.domain ≡ domain.now }
    requires stop { stop.now.domain ≡ domain.now }
{
    pool.with(rt, |cpu| give_twice(rt, domain, stop, cpu))
}

fn give_in_a_pool<R: Wait + AllocGlobal>(rt: &R) -> Result<(bool, bool, bool), MakeError> {
    let (domain, cpus) = made(rt.alloc(), 1)?;
    let pool = pool_of(rt, &domain, cpus)?;
    let stop = sign_of(rt, &domain)?;
    Ok(give_on(rt, &domain, &pool, &stop))
}

/// Would catch a sign that is given at once, or never, or twice.
#[test]
fn given_once(rt: HostRuntime) -> Result<(), Fail> {
    assert_eq!(rt; give_in_a_pool(&rt)?, (false, true, false));
    Ok(())
}
