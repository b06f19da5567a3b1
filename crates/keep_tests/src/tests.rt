ghost use Rattle.std.specs.Prelude.{◌≡◌, ◌<◌, IfOk};

use keep::{Keep, Keyed};
use linked_list_allocator::LocalHeap;
use std::alloc::{AllocError, Allocator, Global};
use std::sync::Wait;
use std::test::Fail;
use std::thread::join;

/// A count that has a parity.
#[derive(Drop)]
struct Count {
    value: u64,
}

impl Keyed<u64> for Count {
    ghost use Rattle.std.specs.Prelude.{◌%◌};

    ghost key = { λ c. c.value % 2 };
}

/// A lock round an even count.
fn even<A: Allocator>(alloc: A, other: Global) -> Result<Keep<Count, u64, A>, AllocError>
    ensures { IfOk result (λ keep. keep.key ≡ 0) }
{
    Keep::new(alloc, other, Count { value: 0 }, &0)
}

const TURNS: u64 = 1_000;

/// Adds 2 so often. Answers whether each count that it took was even.
fn add<R: Wait>(rt: &R, keep: &Keep<Count, u64>) -> bool
    requires { keep.now.key ≡ 0 }
{
    for _ in 0..TURNS {
        let (count, loan) = keep.take(rt);
        // Proved: the count is even.
        let odd = count.value % 2 == 1;
        prove!(!odd);
        let value = if count.value < 1 << 60 {
            count.value + 2
        } else {
            0
        };
        keep.put_back(Count { value }, loan);
    }
    true
}

/// Would catch a value that two threads have at once, or that is lost.
#[test]
fn two_threads(rt: HostRuntime) -> Result<(), Fail> {
    let keep = even(rt.alloc(), rt.alloc())?;
    let (here, there) = join(&rt, || add(&rt, &keep), || add(&rt, &keep));
    assert!(rt; here && there);
    let (count, loan) = keep.take(&rt);
    assert_eq!(rt; count.value, 4 * TURNS);
    keep.put_back(count, loan);
    Ok(())
}

/// Would catch a refused allocation that leaves something allocated.
#[test]
fn new_in_little_room(rt: HostRuntime) -> Result<(), Fail> {
    for room in 0..100 {
        let heap = LocalHeap::new(rt.alloc(), 16 + 8 * room)?;
        if let Ok(keep) = even(&heap, rt.alloc()) {
            assert!(rt; room > 0 && heap.used() > 0);
            let (count, loan) = keep.take(&rt);
            assert_eq!(rt; count.value, 0);
            keep.put_back(count, loan);
            drop(keep);
            assert_eq!(rt; heap.used(), 0);
            return Ok(());
        }
        assert_eq!(rt; heap.used(), 0);
    }
    panic!(rt; "it never fits")
}
