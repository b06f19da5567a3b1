ghost use Rattle.std.specs.Prelude.{◌≡◌, IfOk};
ghost use Rattle.calls.specs.Calls.{FitsIn};

use super::LIMITS;
use calls::{CallRefusal, CallSeat, Calls, Memory};
use linked_list_allocator::LocalHeap;
use sections::{Cpu, EngineSeat, Made, MakeError, make};
use std::alloc::{AllocError, Global};
use std::process::Abort;
use std::sync::Wait;
use std::test::Fail;

/// Makes callbacks in the heap's room, and drops them. Tells how many seats there were, and how much of the heap was used.
fn make_and_drop(heap: &LocalHeap, engine: &mut EngineSeat) -> Option<(usize, usize)> {
    let (calls, seats) = Calls::<u64, _>::make(heap, engine).ok()?;
    let made = (seats.len(), heap.used());
    drop(calls);
    drop(seats);
    Some(made)
}

/// Would catch a refused allocation that leaves something allocated. There are several: the tally words, the table, the
/// lines, the seats, the locks.
#[test]
fn new_in_little_room(rt: HostRuntime) -> Result<(), Fail> {
    let Made {
        cpus: _,
        mut engine,
        ..
    } = make(rt.alloc(), 2, LIMITS)?;
    for room in 0..200 {
        let heap = LocalHeap::new(rt.alloc(), 64 + 256 * room)?;
        let made = make_and_drop(&heap, &mut engine);
        assert_eq!(rt; heap.used(), 0);
        if let Some((seats, used)) = made {
            assert!(rt; room > 0 && seats == 2 && used > 0);
            return Ok(());
        }
    }
    panic!(rt; "it never fits")
}

/// The processor of a new domain, and the domain's engine.
fn new_domain(alloc: Global) -> Result<(Cpu, EngineSeat), MakeError>
    ensures { IfOk result (λ r. (r.0.domain ≡ r.1.domain) × (r.0.processor ≡ 0) × (r.1.processors ≡ 1)) }
{
    let Made {
        mut cpus,
        engine,
        ..
    } = make(alloc, 1, LIMITS)?;
    let cpu = cpus.pop().unwrap();
    Ok((cpu, engine))
}

/// The callbacks of the domain of this one processor, in the memory of the heap, and the processor's seat.
fn make_in<'a>(
    heap: &'a LocalHeap,
    engine: &mut EngineSeat,
    cpu: &Cpu,
) -> Result<(Calls<u64, &'a LocalHeap>, CallSeat<u64, &'a LocalHeap>), AllocError>
    requires engine { (engine.old.processors ≡ 1) × (cpu.now.domain ≡ engine.old.domain) }
    requires cpu { cpu.now.processor ≡ 0 }
    ensures { IfOk result (λ r. FitsIn r.0 cpu.now r.1) }
{
    let (calls, mut seats) = Calls::make(heap, engine)?;
    let seat = seats.pop().unwrap();
    Ok((calls, seat))
}

/// Takes what room there is in the heap.
fn stuff(alloc: Global, heap: &LocalHeap) -> Result<Vec<Vec<u8, &LocalHeap>>, AllocError> {
    let mut all = Vec::new(alloc);
    for size in [1024, 256, 64, 16, 8] {
        for _ in 0..100 {
            let Ok(room) = Vec::with_capacity(heap, size) else {
                break;
            };
            all.push(room)?;
        }
    }
    Ok(all)
}

/// Queues the jobs from the first to the end until one is refused, and looks whether that one comes back. Tells which one was
/// refused, or else the end.
fn fill<R: Wait + Abort>(
    rt: &R,
    calls: &Calls<u64, &LocalHeap>,
    cpu: &mut Cpu,
    seat: &mut CallSeat<u64, &LocalHeap>,
    first: u64,
    end: u64,
) -> u64
    requires { FitsIn calls.now cpu.old seat.old }
    ensures { FitsIn calls.now cpu.new seat.new }
{
    for job in first..end {
        match calls.call(rt, cpu, seat, job) {
            Ok(receipt) => assert_eq!(rt; receipt.k(), job),
            Err(refused) => {
                assert_eq!(rt; refused, (job, CallRefusal::Memory));
                return job;
            }
        }
    }
    end
}

/// What a list is found to be: how many jobs are in each segment, and the two numbers.
pub(super) type Lens = Result<([usize; 4], [u64; 2]), Memory>;

/// Queues jobs from this one on, up to the hundredth, and looks at the list, while there is no room in the heap. Tells which
/// job was refused, and the list.
fn fill_without_room<R: Wait + Abort + AllocGlobal>(
    rt: &R,
    heap: &LocalHeap,
    calls: &Calls<u64, &LocalHeap>,
    cpu: &mut Cpu,
    seat: &mut CallSeat<u64, &LocalHeap>,
    first: u64,
) -> Result<(u64, Lens), AllocError>
    requires { FitsIn calls.now cpu.old seat.old }
    ensures { FitsIn calls.now cpu.new seat.new }
{
    let full = stuff(rt.alloc(), heap)?;
    let refused = fill(rt, calls, cpu, seat, first, 100);
    let lens = calls.lens(rt, seat, 0);
    drop(full);
    Ok((refused, lens))
}

/// Queues a hundred jobs: while there is no room in the heap, then one while there is, and the same again with the rest. Tells
/// which job was refused each time, and the list after it.
fn fill_by_turns<R: Wait + Abort + AllocGlobal>(
    rt: &R,
    heap: &LocalHeap,
    calls: &Calls<u64, &LocalHeap>,
    cpu: &mut Cpu,
    seat: &mut CallSeat<u64, &LocalHeap>,
) -> Result<([u64; 4], [Lens; 3]), AllocError>
    requires { FitsIn calls.now cpu.old seat.old }
{
    let (none, empty) = fill_without_room(rt, heap, calls, cpu, seat, 0)?;
    let one = fill(rt, calls, cpu, seat, none, 1);
    let (some, full) = fill_without_room(rt, heap, calls, cpu, seat, one)?;
    let all = fill(rt, calls, cpu, seat, some, 100);
    Ok((
        [none, one, some, all],
        [empty, full, calls.lens(rt, seat, 0)],
    ))
}

/// Would catch a refused job that stays, or that is counted, and a list that loses what it has no room for. Would catch a list
/// that wants room where nothing came in, and a processor that takes no more jobs once its first one was refused.
#[test]
fn call_in_little_room(rt: HostRuntime) -> Result<(), Fail> {
    let (mut cpu, mut engine) = new_domain(rt.alloc())?;
    let heap = LocalHeap::new(rt.alloc(), 32 * 1024)?;
    let (calls, mut seat) = make_in(&heap, &mut engine, &cpu)?;
    let (refused, lens) = fill_by_turns(&rt, &heap, &calls, &mut cpu, &mut seat)?;
    drop(calls);
    drop(seat);
    let [none, one, some, all] = refused;
    assert_eq!(rt; (none, one, all), (0, 1, 100));
    assert!(rt; some > 1 && some < 100);
    let [empty, full, last] = lens;
    assert_eq!(rt; empty, Ok(([0; 4], [0; 2])));
    assert!(rt; full.is_err());
    assert_eq!(rt; last, Ok(([0, 100, 0, 0], [4, 0])));
    assert_eq!(rt; heap.used(), 0);
    Ok(())
}
