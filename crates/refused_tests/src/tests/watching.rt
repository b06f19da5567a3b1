//! Watching a domain, with each allocation refused in turn.
ghost use Rattle.domain.specs.Views.{IsOf};

use super::calling::Heap;
use domain::{Cpu, Domain, Index};
use fixtures::one;
use refusing::Refusing;
use std::test::Fail;

/// More allocations than any of these calls asks for.
const MOST: u64 = 20;

/// How many allocations a snapshot asks for. `None` where it came without one of them, or didn't come with all.
fn snapshot_after<'a>(
    heap: &'a Heap,
    domain: &Domain<u64, &'a Heap>,
    cpu: &mut Cpu<u64, &'a Heap>,
) -> Option<u64>
    requires { IsOf domain.now cpu.old }
    ensures { IsOf domain.now cpu.new }
{
    for nth in 1..MOST {
        heap.refuse(nth);
        let came = domain.snapshot(heap, cpu).is_ok();
        if came {
            return if heap.has_refused() {
                None
            } else {
                Some(nth - 1)
            };
        }
    }
    None
}

/// The same of the holders of index 0.
fn holders_after<'a>(
    heap: &'a Heap,
    domain: &Domain<u64, &'a Heap>,
    cpu: &mut Cpu<u64, &'a Heap>,
) -> Option<u64>
    requires { IsOf domain.now cpu.old }
    ensures { IsOf domain.now cpu.new }
{
    for nth in 1..MOST {
        heap.refuse(nth);
        let came = domain.holders(heap, cpu, Index::Zero).is_ok();
        if came {
            return if heap.has_refused() {
                None
            } else {
                Some(nth - 1)
            };
        }
    }
    None
}

/// Would catch a snapshot or a list of holders that isn't whole, or that keeps memory where one of its allocations is
/// refused.
#[test]
fn refuse_watching(rt: HostRuntime) -> Result<(), Fail> {
    let heap = Refusing::new(rt.alloc());
    let (domain, mut cpu, _) = one(&heap, 2)?;
    let before = heap.out();
    let snapshot = snapshot_after(&heap, &domain, &mut cpu);
    let holders = holders_after(&heap, &domain, &mut cpu);
    assert_eq!(rt; (snapshot, holders), (Some(4), Some(3)));
    assert_eq!(rt; heap.out(), before);
    Ok(())
}
