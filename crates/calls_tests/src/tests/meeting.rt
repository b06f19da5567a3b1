//! Seats that meet at the tally words, and what one of them then adds up.
ghost use Rattle.std.specs.Prelude.{◌≡◌, IfOk, IsTrue};
ghost use Rattle.calls.specs.Calls.{FitsIn, MayTakeIn, IsSameSeat};

use super::LIMITS;
use calls::{CallSeat, Calls, Totals};
use sections::{Cpu, Made, make};
use std::alloc::{Allocator, Global};
use std::sync::Wait;
use std::test::Fail;

/// A processor and its seat.
type Caller<A> = (Cpu, CallSeat<u64, A>);

/// The callbacks of a new domain of two processors, in the memory of the heap, and what these need for them.
pub(super) fn pair<A: Allocator + Copy>(
    alloc: Global,
    heap: A,
) -> Result<(Calls<u64, A>, Caller<A>, Caller<A>), Fail>
    ensures first { IfOk result (λ r. MayTakeIn r.0 r.1.0 r.1.1 r.1.1.processor × (r.1.1.domain ≡ r.0.domain)) }
    ensures second { IfOk result (λ r. MayTakeIn r.0 r.2.0 r.2.1 r.2.1.processor × (r.2.1.domain ≡ r.0.domain)) }
{
    let Made {
        mut cpus,
        mut engine,
        ..
    } = make(alloc, 2, LIMITS)?;
    let (calls, mut seats) = Calls::make(heap, &mut engine)?;
    let second = (cpus.pop().unwrap(), seats.pop().unwrap());
    let first = (cpus.pop().unwrap(), seats.pop().unwrap());
    Ok((calls, first, second))
}

/// Whether the two are of one processor.
pub(super) fn fits<A: Allocator + Copy>(
    calls: &Calls<u64, A>,
    cpu: &Cpu,
    seat: &CallSeat<u64, A>,
) -> bool
    requires { MayTakeIn calls.now cpu.now seat.now seat.now.processor × (seat.now.domain ≡ calls.now.domain) }
    ensures { IsTrue result → FitsIn calls.now cpu.now seat.now }
{
    let _ = calls;
    cpu.processor() == seat.processor()
}

/// Queues so many jobs. Tells whether each got its number, and the cookie of the first period.
fn queue_many<R: Wait>(
    rt: &R,
    calls: &Calls<u64>,
    cpu: &mut Cpu,
    seat: &mut CallSeat<u64>,
    jobs: u64,
) -> bool
    requires { FitsIn calls.now cpu.old seat.old }
    ensures { FitsIn calls.now cpu.new seat.new }
{
    let mut in_order = true;
    for job in 0..jobs {
        match calls.call(rt, cpu, seat, job) {
            Ok(receipt) => in_order &= receipt.k() == job && receipt.cookie() == 4,
            Err(_) => in_order = false,
        }
    }
    in_order
}

/// The totals that the first seat finds once it has covered the other, which is then admitted to what it has seen.
fn meet(calls: &Calls<u64>, seat: &mut CallSeat<u64>, other: &mut CallSeat<u64>) -> Totals
    requires { (seat.old.tallies ≡ calls.now.tallies) × (other.old.tallies ≡ calls.now.tallies) }
    ensures { IsSameSeat seat.old seat.new × IsSameSeat other.old other.new }
{
    let _ = calls;
    seat.cover(other);
    let totals = seat.totals();
    seat.admit(other);
    totals
}

/// Would catch totals of one processor alone, a finished word that counts what is only queued, and loads that change a
/// count.
#[test]
fn totals_of_two(rt: HostRuntime) -> Result<(), Fail> {
    let (calls, (mut cpu, mut seat), (mut other_cpu, mut other)) = pair(rt.alloc(), rt.alloc())?;
    assert!(rt; fits(&calls, &cpu, &seat) && fits(&calls, &other_cpu, &other));
    let queued = queue_many(&rt, &calls, &mut cpu, &mut seat, 3);
    let queued_there = queue_many(&rt, &calls, &mut other_cpu, &mut other, 2);
    let here = meet(&calls, &mut seat, &mut other);
    let there = meet(&calls, &mut other, &mut seat);
    assert!(rt; queued && queued_there);
    assert_eq!(rt; (here.queued, here.finished), (5, 0));
    assert_eq!(rt; (there.queued, there.finished), (5, 0));
    Ok(())
}
