//! A call that comes in while another thread has a list out of its lock, of the call's processor or of another one.
ghost use Rattle.std.specs.Prelude.{◌≡◌, ◌<◌};
ghost use Rattle.calls.specs.Calls.{FitsIn};

use super::meeting::{fits, pair};
use super::rooms::Lens;
use calls::{CallSeat, Calls};
use refusing::Refusing;
use sections::Cpu;
use std::alloc::Global;
use std::process::Abort;
use std::sync::Wait;
use std::test::Fail;
use std::thread::{Threads, join, yield_now};

/// How often a thread looks whether the other one has the list.
const LOOKS: u32 = 10_000_000;

/// The memory of the callbacks. An allocation that is held keeps the list out of its lock for which it is made.
type Heap = Refusing<Global>;

/// Queues a job once the other thread waits for memory, and lets it go on. The number of the job, and whether the other one
/// waited until then.
fn call_meanwhile<R: Wait>(
    rt: &R,
    heap: &Heap,
    calls: &Calls<u64, &Heap>,
    mut cpu: Cpu,
    mut seat: CallSeat<u64, &Heap>,
) -> Option<(u64, bool)>
    requires { FitsIn calls.now cpu seat }
{
    for _ in 0..LOOKS {
        if heap.asked() > 0 {
            break;
        }
        yield_now();
    }
    let receipt = calls.call(rt, &mut cpu, &mut seat, 7).ok()?;
    Some((receipt.k(), heap.let_go()))
}

/// One thread moves a job to the first processor's list, for which it needs memory, while another one queues a job.
fn call_beside<R: Threads + Wait + Sync>(
    rt: &R,
    heap: &Heap,
    calls: &Calls<u64, &Heap>,
    mut looker: CallSeat<u64, &Heap>,
    cpu: Cpu,
    seat: CallSeat<u64, &Heap>,
) -> (Lens, Option<(u64, bool)>)
    requires looker { (0 < calls.now.processors) × (looker.tallies ≡ calls.now.tallies) }
    requires fits { FitsIn calls.now cpu seat }
{
    heap.hold();
    join(
        rt,
        ||
            requires { (0 < calls.now.processors) × (looker.tallies ≡ calls.now.tallies) }
        { calls.lens(rt, &mut looker, 0) },
        ||
            requires { FitsIn calls.now cpu seat }
        { call_meanwhile(rt, heap, calls, cpu, seat) },
    )
}

/// Queues a job while another thread has the list of its processor, or of another one. The list, and what the call answered.
fn call_while_held<R: Abort + Threads + Wait + AllocGlobal + Sync>(
    rt: &R,
    is_own: bool,
) -> Result<(Lens, Option<(u64, bool)>), Fail> {
    let heap = Refusing::new(rt.alloc());
    let (calls, first, second) = pair(rt.alloc(), &heap)?;
    let (mut cpu, mut seat) = first;
    let (other_cpu, other) = second;
    assert!(rt;
        seat.processor() == 0 && fits(&calls, &cpu, &seat) && fits(&calls, &other_cpu, &other)
    );
    assert!(rt; calls.call(rt, &mut cpu, &mut seat, 6).is_ok());
    Ok(if is_own {
        call_beside(rt, &heap, &calls, other, cpu, seat)
    } else {
        call_beside(rt, &heap, &calls, seat, other_cpu, other)
    })
}

/// Would catch a call that waits for the lock of its processor's list.
#[test]
fn intake_unlocked(rt: HostRuntime) -> Result<(), Fail> {
    let (lens, found) = call_while_held(&rt, true)?;
    assert_eq!(rt; lens, Ok(([0, 1, 0, 0], [4, 0])));
    assert_eq!(rt; found, Some((1, true)));
    Ok(())
}

/// Would catch a call that waits for the lock of another processor's list.
#[test]
fn intake_unlocked_elsewhere(rt: HostRuntime) -> Result<(), Fail> {
    let (lens, found) = call_while_held(&rt, false)?;
    assert_eq!(rt; lens, Ok(([0, 1, 0, 0], [4, 0])));
    assert_eq!(rt; found, Some((0, true)));
    Ok(())
}
