//! A place through which one value goes once.
ghost use Rattle.std.specs.Prelude.{◌≡◌, IfOk};

use intake::{Fitting, Giver, Handover};
use linked_list_allocator::LocalHeap;
use std::alloc::{AllocError, Allocator};
use std::test::Fail;
use std::thread::join;

/// A count that has a parity.
#[derive(Drop)]
struct Count {
    value: u64,
}

impl Fitting<u64> for Count {
    ghost use Rattle.std.specs.Prelude.{◌≡◌, ◌%◌};

    ghost fits = { λ c key. c.value % 2 ≡ key };
}

/// A place for an even count.
fn place<A: Allocator>(alloc: A) -> Result<(Handover<Count, u64, A>, Giver<Count, u64>), AllocError>
    ensures key { IfOk result (λ made. made.0.key ≡ 0) }
    ensures giver { IfOk result (λ made. made.1 ≡ made.0.place) }
{
    Handover::new(alloc, &0)
}

/// Would catch a value that is lost on its way to another thread, or taken before it was given.
#[test]
fn one_gives_and_one_takes(rt: HostRuntime) -> Result<(), Fail> {
    for value in 0..100 {
        let (place, giver) = place(rt.alloc())?;
        let count = Count { value: 2 * value };
        let (taken, _) = join(&rt, || place.take(&rt), || place.give(count, giver));
        // Proved: the count is even.
        let odd = taken.value % 2 == 1;
        prove!(!odd);
        assert_eq!(rt; taken.value, 2 * value);
    }
    Ok(())
}

/// Would catch a refused allocation that leaves something allocated, and a value that was given, not taken, and not
/// dropped with its place.
#[test]
fn place_in_little_room(rt: HostRuntime) -> Result<(), Fail> {
    for room in 0..20 {
        let heap = LocalHeap::new(rt.alloc(), 16 + 8 * room)?;
        if let Ok((place, giver)) = place(&heap) {
            assert!(rt; room > 0 && heap.used() > 0);
            place.give(Count { value: 2 }, giver);
            drop(place);
            assert_eq!(rt; heap.used(), 0);
            return Ok(());
        }
        assert_eq!(rt; heap.used(), 0);
    }
    panic!(rt; "it never fits")
}
