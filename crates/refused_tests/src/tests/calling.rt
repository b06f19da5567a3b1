//! Jobs that are queued, and barriers that are started, with one allocation refused.
ghost use Rattle.std.specs.Prelude.{◌<◌};
ghost use Rattle.domain.specs.Views.{IsOf};

use domain::{CallRefusal, Cpu, Domain, MakeError, Memory};
use fixtures::one;
use refusing::Refusing;
use std::alloc::Global;
use std::sync::Wait;
use std::test::Fail;

/// More allocations than any of these calls asks for.
const MOST: u64 = 100;

/// Memory of which one allocation is refused.
pub(super) type Heap = Refusing<Global>;

/// How the jobs of a processor wait: how many in each segment, and the two numbers.
pub(super) type Lens = Result<([usize; 4], [u64; 2]), Memory>;

/// How the jobs of a processor wait, and which need its domain has, asked with memory.
fn look<'a, R: Wait>(
    rt: &R,
    heap: &Heap,
    domain: &Domain<u64, &'a Heap>,
    cpu: &mut Cpu<u64, &'a Heap>,
) -> (Lens, u64)
    requires { IsOf domain.now cpu.old × (0 < domain.now.processors) }
    ensures { IsOf domain.now cpu.new }
{
    heap.refuse(0);
    (domain.lens(rt, cpu, 0), domain.need(cpu).get())
}

/// Queues a job with each allocation refused in turn, until none is. Tells how many were refused; `None` where a refusal
/// didn't give the job back or changed something, or where the job didn't get its number.
fn queue<'a, R: Wait>(
    rt: &R,
    heap: &Heap,
    domain: &Domain<u64, &'a Heap>,
    cpu: &mut Cpu<u64, &'a Heap>,
    job: u64,
) -> Option<u64>
    requires { IsOf domain.now cpu.old × (0 < domain.now.processors) }
    ensures { IsOf domain.now cpu.new }
{
    let before = look(rt, heap, domain, cpu);
    for nth in 1..MOST {
        heap.refuse(nth);
        match domain.call(rt, cpu, job) {
            Ok(receipt) if receipt.k() == job && !heap.has_refused() => return Some(nth - 1),
            Err((back, CallRefusal::Memory)) if back == job => {}
            _ => return None,
        }
        if !heap.has_refused() || look(rt, heap, domain, cpu) != before {
            return None;
        }
    }
    None
}

/// Queues a hundred jobs so, with a grace period before each, so that its own has to be asked for. Tells how many
/// allocations were refused, and how the jobs wait in the end.
fn queue_many<'a, R: Wait>(
    rt: &R,
    heap: &Heap,
    domain: &Domain<u64, &'a Heap>,
    cpu: &mut Cpu<u64, &'a Heap>,
) -> Option<(u64, (Lens, u64))>
    requires { IsOf domain.now cpu.old × (0 < domain.now.processors) }
{
    let mut refused: u64 = 0;
    for job in 0..100 {
        let _period = drive(domain, cpu);
        refused = refused.saturating_add(queue(rt, heap, domain, cpu, job)?);
    }
    Some((refused, look(rt, heap, domain, cpu)))
}

/// Drives a grace period to its end, if one was asked for.
pub(super) fn drive<'a, J>(domain: &Domain<J, &'a Heap>, cpu: &mut Cpu<J, &'a Heap>) -> [bool; 3]
    requires { IsOf domain.now cpu.old }
    ensures { IsOf domain.now cpu.new }
{
    let started = domain.advance(cpu).is_ok();
    let flipped = domain.advance(cpu).is_ok();
    let ended = domain.advance(cpu).is_ok();
    [started, flipped, ended]
}

fn queue_in<R: Wait>(rt: &R, heap: &Heap) -> Result<Option<(u64, (Lens, u64))>, MakeError> {
    let (domain, mut cpu, _) = one(heap, 2)?;
    Ok(queue_many(rt, heap, &domain, &mut cpu))
}

/// Would catch a refused job that is lost, that stays queued or is counted, one for which a grace period is asked, and a
/// call that is refused without need.
#[test]
fn refuse_call(rt: HostRuntime) -> Result<(), Fail> {
    let heap = Refusing::new(rt.alloc());
    let Some((refused, found)) = queue_in(&rt, &heap)? else {
        panic!(rt; "a refusal left something");
    };
    assert!(rt; refused > 1);
    assert_eq!(rt; found, (Ok(([0, 1, 1, 98], [4, 8])), 400));
    assert_eq!(rt; heap.out(), 0);
    Ok(())
}

/// Queues a job, and starts a barrier with each allocation refused in turn, until none is. Tells how many were refused, and
/// whether the barrier is done; `None` where a refusal left something.
fn start<'a, R: Wait>(
    rt: &R,
    heap: &Heap,
    domain: &Domain<u64, &'a Heap>,
    cpu: &mut Cpu<u64, &'a Heap>,
) -> Option<(u64, bool)>
    requires { IsOf domain.now cpu.old × (0 < domain.now.processors) }
{
    domain.call(rt, cpu, 0).ok()?;
    let before = (look(rt, heap, domain, cpu), heap.out());
    for nth in 1..MOST {
        heap.refuse(nth);
        match domain.barrier_start(cpu) {
            Ok(ticket) => return Some((nth - 1, domain.barrier_poll(cpu, &ticket))),
            Err(_) => {}
        }
        if !heap.has_refused() || (look(rt, heap, domain, cpu), heap.out()) != before {
            return None;
        }
    }
    None
}

fn start_in<R: Wait>(rt: &R, heap: &Heap) -> Result<Option<(u64, bool)>, MakeError> {
    let (domain, mut cpu, _) = one(heap, 2)?;
    Ok(start(rt, heap, &domain, &mut cpu))
}

/// Would catch a barrier that is refused without need, one whose refusal changes what waits, and a ticket without its words,
/// which would be done at once.
#[test]
fn refuse_barrier(rt: HostRuntime) -> Result<(), Fail> {
    let heap = Refusing::new(rt.alloc());
    assert_eq!(rt; start_in(&rt, &heap)?, Some((1, false)));
    assert_eq!(rt; heap.out(), 0);
    Ok(())
}
