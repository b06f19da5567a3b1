//! Batches that are taken with one allocation refused.
ghost use Rattle.std.specs.Prelude.{◌<◌};
ghost use Rattle.domain.specs.Views.{IsOf};

use super::calling::{Heap, Lens};
use domain::{Cpu, Domain, MakeError, TakeRefusal};
use fixtures::one;
use refusing::Refusing;
use std::alloc::AllocError;
use std::sync::Wait;
use std::test::Fail;

/// How many jobs are in the queue.
const JOBS: u64 = 20;

/// Queues the jobs 1 to 20, and drives a grace period. Whether each was queued.
fn queue<'a, R: Wait>(rt: &R, domain: &Domain<u64, &'a Heap>, cpu: &mut Cpu<u64, &'a Heap>) -> bool
    requires { IsOf domain.now cpu.old }
    ensures { IsOf domain.now cpu.new }
{
    let mut is_queued = true;
    for job in 1..JOBS + 1 {
        is_queued &= domain.call(rt, cpu, job).is_ok();
    }
    for _ in 0..3 {
        is_queued &= domain.advance(cpu).is_ok();
    }
    is_queued
}

/// Takes a batch and finishes it. Tells its jobs, two digits each, in their order.
fn take<'a, R: Wait>(
    rt: &R,
    domain: &Domain<u64, &'a Heap>,
    cpu: &mut Cpu<u64, &'a Heap>,
) -> Result<u64, TakeRefusal>
    requires { IsOf domain.now cpu.old × (0 < domain.now.processors) }
    ensures { IsOf domain.now cpu.new }
{
    let Some(mut batch) = domain.take_ready(rt, cpu, 0, 8)? else {
        return Ok(0);
    };
    let mut digits: u64 = 0;
    while let Some(job) = batch.next() {
        digits = digits.wrapping_mul(100).wrapping_add(job);
    }
    domain.finish(rt, cpu, batch);
    Ok(digits)
}

/// What is told of one run: whether all were queued, what the call answered that may be refused, and the batches after it.
type Taken = (
    bool,
    Result<u64, TakeRefusal>,
    [Result<u64, TakeRefusal>; 4],
);

/// Takes batches, of which the first has this allocation refused.
fn take_all<'a, R: Wait>(
    rt: &R,
    heap: &Heap,
    domain: &Domain<u64, &'a Heap>,
    cpu: &mut Cpu<u64, &'a Heap>,
    nth: u64,
) -> Taken
    requires { IsOf domain.now cpu.old × (0 < domain.now.processors) }
{
    let is_queued = queue(rt, domain, cpu);
    heap.refuse(nth);
    let first = take(rt, domain, cpu);
    heap.refuse(0);
    let second = take(rt, domain, cpu);
    let third = take(rt, domain, cpu);
    let fourth = take(rt, domain, cpu);
    let last = take(rt, domain, cpu);
    (is_queued, first, [second, third, fourth, last])
}

/// More allocations than any of these calls asks for.
const MOST: u64 = 1_000;

fn take_in<R: Wait>(rt: &R, heap: &Heap, nth: u64) -> Result<Taken, MakeError> {
    heap.refuse(0);
    let (domain, mut cpu, _) = one(heap, 2)?;
    Ok(take_all(rt, heap, &domain, &mut cpu, nth))
}

/// The three batches, and one of none.
const BATCHES: [Result<u64, TakeRefusal>; 4] = [
    Ok(102_030_405_060_708),
    Ok(910_111_213_141_516),
    Ok(17_181_920),
    Ok(0),
];

/// Would catch jobs that are lost or come twice where there is no memory to move them, a batch with less than is ready,
/// and a refusal that keeps the batch out.
#[test]
fn refuse_take(rt: HostRuntime) -> Result<(), Fail> {
    let heap = Refusing::new(rt.alloc());
    let [first, second, third, none] = BATCHES;
    let whole = (true, first, [second, third, none, none]);
    for nth in 1..MOST {
        let found = take_in(&rt, &heap, nth)?;
        assert_eq!(rt; heap.out(), 0, "at {nth}");
        if found.1 == first {
            assert!(rt; nth > 2);
            assert_eq!(rt; found, whole);
            return Ok(());
        }
        assert_eq!(rt;
            found,
            (true, Err(TakeRefusal::Memory), BATCHES),
            "at {nth}"
        );
    }
    panic!(rt; "more allocations than any of these calls asks for");
}

/// How the jobs wait with this allocation refused, and then with memory.
fn look_twice<'a, R: Wait>(
    rt: &R,
    heap: &Heap,
    domain: &Domain<u64, &'a Heap>,
    cpu: &mut Cpu<u64, &'a Heap>,
    nth: u64,
) -> (bool, Lens, Lens)
    requires { IsOf domain.now cpu.old × (0 < domain.now.processors) }
{
    let is_queued = queue(rt, domain, cpu);
    heap.refuse(nth);
    let first = domain.lens(rt, cpu, 0);
    heap.refuse(0);
    (is_queued, first, domain.lens(rt, cpu, 0))
}

fn look_in<R: Wait>(rt: &R, heap: &Heap, nth: u64) -> Result<(bool, Lens, Lens), MakeError> {
    heap.refuse(0);
    let (domain, mut cpu, _) = one(heap, 2)?;
    Ok(look_twice(rt, heap, &domain, &mut cpu, nth))
}

/// Would catch jobs that are lost or counted twice where there is no memory to move them.
#[test]
fn refuse_lens(rt: HostRuntime) -> Result<(), Fail> {
    let heap = Refusing::new(rt.alloc());
    let all = Ok(([0, JOBS as usize, 0, 0], [4, 0]));
    for nth in 1..MOST {
        let found = look_in(&rt, &heap, nth)?;
        assert_eq!(rt; heap.out(), 0, "at {nth}");
        if found.1.is_ok() {
            assert!(rt; nth > 2);
            assert_eq!(rt; found, (true, all, all));
            return Ok(());
        }
        assert_eq!(rt; found, (true, Err(AllocError), all), "at {nth}");
    }
    panic!(rt; "more allocations than any of these calls asks for");
}
