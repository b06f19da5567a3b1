//! Pools, signs and drivers with one allocation refused.
ghost use Rattle.std.specs.Prelude.{◌≡◌, All, IfOk};
ghost use Rattle.driver.specs.Pools.{IsIdle};

use super::calling::Heap;
use domain::{Cpu, Domain, Limits, MakeError};
use driver::{GiveRefusal, Pool, Stop, serve};
use refusing::Refusing;
use std::alloc::AllocError;
use std::sync::Wait;
use std::test::Fail;

const LIMITS: Limits = Limits {
    sections: Limits::MOST_SECTIONS,
    periods: Limits::MOST_PERIODS,
    cells: 0,
    slots: 2,
};

/// How many jobs there are.
const JOBS: u64 = 20;

/// More allocations than all of these calls ask for.
const MOST: u64 = 1_000;

/// A new domain of two processors, and these.
fn made<'a>(
    heap: &'a Heap,
) -> Result<(Domain<u64, &'a Heap>, Vec<Cpu<u64, &'a Heap>, &'a Heap>), MakeError>
    ensures { IfOk result (λ r. All (IsIdle r.0) r.1.items) }
{
    let (domain, cpus, _) = Domain::new(heap, 2, LIMITS)?;
    Ok((domain, cpus))
}

/// Tries once more where memory was refused.
fn pool_of<'d, 'a>(
    heap: &'a Heap,
    domain: &'d Domain<u64, &'a Heap>,
) -> Result<Pool<'d, u64, &'a Heap>, AllocError>
    ensures { IfOk result (λ pool. (pool.domain ≡ domain.entry.now) × (pool.count ≡ 0)) }
{
    match Pool::new(heap, domain) {
        Ok(pool) => Ok(pool),
        Err(_) => Pool::new(heap, domain),
    }
}

/// The same with these in it.
fn filled<'d, 'a, R: Wait>(
    rt: &R,
    heap: &'a Heap,
    domain: &'d Domain<u64, &'a Heap>,
    cpus: Vec<Cpu<u64, &'a Heap>, &'a Heap>,
) -> Result<Pool<'d, u64, &'a Heap>, AllocError>
    requires { All (IsIdle domain.now) cpus.items }
    ensures { IfOk result (λ pool. pool.domain ≡ domain.entry.now) }
{
    let mut pool = pool_of(heap, domain)?;
    let _ = pool.fill(rt, cpus); // none is out of a new pool
    Ok(pool)
}

/// Tries once more where memory was refused.
fn sign_of<'a>(
    heap: &'a Heap,
    domain: &Domain<u64, &'a Heap>,
) -> Result<Stop<u64, &'a Heap>, AllocError>
    ensures { IfOk result (λ stop. stop.domain ≡ domain.now) }
{
    match Stop::new(heap, domain) {
        Ok(stop) => Ok(stop),
        Err(_) => Stop::new(heap, domain),
    }
}

/// Queues a job, once more where it was refused. Whether it is queued.
fn queue_one<'a, R: Wait>(
    rt: &R,
    domain: &Domain<u64, &'a Heap>,
    cpu: &mut Cpu<u64, &'a Heap>,
    job: u64,
) -> bool
    requires { IsIdle domain.now cpu.old }
    ensures idle { IsIdle domain.now cpu.new }
    ensures same { cpu.new.cpu.processor ≡ cpu.old.cpu.processor }
{
    match domain.call(rt, cpu, job) {
        Ok(_) => true,
        Err((job, _)) => domain.call(rt, cpu, job).is_ok(),
    }
}

/// Queues the jobs from 0 on. Whether all are queued.
fn queue<'a, R: Wait>(rt: &R, domain: &Domain<u64, &'a Heap>, cpu: &mut Cpu<u64, &'a Heap>) -> bool
    requires { IsIdle domain.now cpu.old }
    ensures idle { IsIdle domain.now cpu.new }
    ensures same { cpu.new.cpu.processor ≡ cpu.old.cpu.processor }
{
    let mut are_queued = true;
    for job in 0..JOBS {
        are_queued &= queue_one(rt, domain, cpu, job);
    }
    are_queued
}

/// Queues the jobs, tells the driver to stop, and drives. Whether each job ran once, in its order, or how many did.
fn drive<'a, R: Wait>(
    rt: &R,
    domain: &Domain<u64, &'a Heap>,
    cpu: &mut Cpu<u64, &'a Heap>,
    stop: &Stop<u64, &'a Heap>,
) -> (bool, u64)
    requires cpu { IsIdle domain.now cpu.old }
    requires stop { stop.now.domain ≡ domain.now }
    ensures idle { IsIdle domain.now cpu.new }
    ensures same { cpu.new.cpu.processor ≡ cpu.old.cpu.processor }
{
    let are_queued = queue(rt, domain, cpu);
    if let Err(GiveRefusal::Memory) = stop.give(rt, domain, cpu) {
        stop.give_alone(rt, domain);
    }
    let mut next: u64 = 0;
    let served = serve(rt, domain, cpu, stop, |job: u64| {
        next = if job == next {
            job.saturating_add(1)
        } else {
            u64::MAX
        };
    });
    (are_queued && served.is_ok(), next)
}

/// The same on a processor of a pool.
fn drive_in<'a, R: Wait>(
    rt: &R,
    domain: &Domain<u64, &'a Heap>,
    pool: &Pool<'_, u64, &'a Heap>,
    stop: &Stop<u64, &'a Heap>,
) -> (bool, u64)
    requires pool { pool.now.domain ≡ domain.now }
    requires stop { stop.now.domain ≡ domain.now }
{
    let mut lent = pool.take(rt);
    let came = drive(rt, domain, &mut lent.cpu, stop);
    pool.give(rt, lent);
    came
}

/// The same in a new domain, with this allocation refused from when the domain is there.
fn serve_in<R: Wait>(rt: &R, heap: &Heap, nth: u64) -> Result<Option<(bool, u64)>, MakeError> {
    heap.refuse(0);
    let (domain, cpus) = made(heap)?;
    heap.refuse(nth);
    let Ok(pool) = filled(rt, heap, &domain, cpus) else {
        return Ok(None);
    };
    let Ok(stop) = sign_of(heap, &domain) else {
        return Ok(None);
    };
    Ok(Some(drive_in(rt, &domain, &pool, &stop)))
}

/// Would catch a driver that ends, that loses a job, runs one twice or out of order, or that waits for ever, where it is
/// refused memory; and a pool or a sign that can't be made after a refusal.
#[test]
fn refuse_driver(rt: HostRuntime) -> Result<(), Fail> {
    let heap = Refusing::new(rt.alloc());
    for nth in 1..MOST {
        assert_eq!(rt; serve_in(&rt, &heap, nth)?, Some((true, JOBS)), "at {nth}");
        assert_eq!(rt; heap.out(), 0, "at {nth}");
        if !heap.has_refused() {
            assert!(rt; nth > 5);
            return Ok(());
        }
    }
    panic!(rt; "more allocations than any of these calls asks for");
}
