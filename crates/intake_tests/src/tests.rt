//! Lines with two ends.
ghost use Rattle.std.specs.Prelude.{◌≡◌, length, Some, IfOk};

mod handover;

use intake::{Inlet, Item, LazyInlet, LazyOutlet, Outlet, Refused, open, open_lazily};
use linked_list_allocator::LocalHeap;
use std::alloc::Allocator;
use std::process::Abort;
use std::sync::Wait;
use std::test::Fail;
use std::thread::{Threads, join, yield_now};

/// A value that has its number among all that were pushed, counted from the line's key on.
#[derive(Drop)]
struct Numbered {
    number: u64,
}

impl Item<u64> for Numbered {
    ghost use Rattle.std.specs.Prelude.{◌≡◌, ◌+◌, length};

    ghost follows = { λ key front x. x.number ≡ key + length front };
}

/// The number of the first value.
const FIRST: u64 = 7;

/// A new line of numbered values.
fn line<A: Allocator + Copy>(
    alloc: A,
) -> Result<(Inlet<Numbered, u64, A>, Outlet<Numbered, u64, A>), Refused>
    ensures inlet { IfOk result (λ r. (r.0.key ≡ Some 7) × (length r.0.pushed ≡ 0)) }
    ensures outlet { IfOk result (λ r. (r.1.key ≡ Some 7) × (length r.1.taken ≡ 0)) }
{
    open(alloc, &FIRST)
}

const COUNT: u64 = 2_000;

/// Pushes so many values. Tells how many were.
fn push_many<R: Wait>(rt: &R, mut inlet: Inlet<Numbered, u64>) -> u64
    requires { (inlet.key ≡ Some 7) × (length inlet.pushed ≡ 0) }
{
    for pushed in 0..COUNT {
        let number = FIRST + pushed;
        if inlet.push(rt, Numbered { number }).is_err() {
            return pushed;
        }
    }
    COUNT
}

/// Takes so many values out. Tells how many were. Each one has the number of its turn, which is proved.
fn take_many<R: Wait>(rt: &R, mut outlet: Outlet<Numbered, u64>) -> u64
    requires { (outlet.key ≡ Some 7) × (length outlet.taken ≡ 0) }
{
    let mut taken = 0;
    for _ in rt.forever() {
        if taken >= COUNT {
            return taken;
        }
        match outlet.pop(rt) {
            Some(Numbered { number }) => {
                prove!(number == FIRST + taken);
                taken += 1;
            }
            None => yield_now(),
        }
    }
    unreachable!()
}

/// Pushes into two lines, in two threads.
fn push_both<R: Threads + Wait + Sync>(
    rt: &R,
    first: Inlet<Numbered, u64>,
    second: Inlet<Numbered, u64>,
) -> (u64, u64)
    requires first { (first.key ≡ Some 7) × (length first.pushed ≡ 0) }
    requires second { (second.key ≡ Some 7) × (length second.pushed ≡ 0) }
{
    join(
        rt,
        move || push_many(rt, first),
        move || push_many(rt, second),
    )
}

/// Takes out of two lines, in two threads.
fn take_both<R: Threads + Wait + Sync>(
    rt: &R,
    first: Outlet<Numbered, u64>,
    second: Outlet<Numbered, u64>,
) -> (u64, u64)
    requires first { (first.key ≡ Some 7) × (length first.taken ≡ 0) }
    requires second { (second.key ≡ Some 7) × (length second.taken ≡ 0) }
{
    join(
        rt,
        move || take_many(rt, first),
        move || take_many(rt, second),
    )
}

/// Would catch a value that is lost, that comes twice or in another order: two lines, whose four ends are in four threads.
#[test]
fn four_threads(rt: HostRuntime) -> Result<(), Fail> {
    let (first, first_end) = line(rt.alloc())?;
    let (second, second_end) = line(rt.alloc())?;
    let (pushed, taken) = join(
        &rt,
        move || push_both(&rt, first, second),
        move || take_both(&rt, first_end, second_end),
    );
    assert_eq!(rt; pushed, (COUNT, COUNT));
    assert_eq!(rt; taken, (COUNT, COUNT));
    Ok(())
}

/// Pushes as long as there is room, and tells how many there were. What was refused came back.
fn fill<R: Wait + Abort, A: Allocator>(rt: &R, inlet: &mut Inlet<Numbered, u64, A>) -> u64
    requires { (inlet.old.key ≡ Some 7) × (length inlet.old.pushed ≡ 0) }
    ensures { length inlet.new.pushed ≡ result }
{
    for pushed in 0..COUNT {
        let number = FIRST + pushed;
        if let Err(refused) = inlet.push(rt, Numbered { number }) {
            assert_eq!(rt; refused.number, number);
            return pushed;
        }
    }
    COUNT
}

/// Would catch a push that was refused and loses its value, or that changes the line; values that are left in a line and
/// are not dropped with it; and a new line that keeps memory where it was refused.
#[test]
fn in_little_room(rt: HostRuntime) -> Result<(), Fail> {
    for room in 0..200 {
        let heap = LocalHeap::new(rt.alloc(), 64 + 64 * room)?;
        match line(&heap) {
            Ok((mut inlet, mut outlet)) => {
                assert!(rt; room > 10);
                let pushed = fill(&rt, &mut inlet);
                assert!(rt; pushed >= 30 && pushed < COUNT);
                assert!(rt; outlet.pop(&rt).is_some());
                drop(inlet);
                drop(outlet);
            }
            Err(_) => assert!(rt; room < 100),
        }
        assert_eq!(rt; heap.used(), 0);
    }
    Ok(())
}

/// Would catch an end that says that nothing waits while something does: in one thread, it takes all that was pushed.
#[test]
fn takes_what_is_there(rt: HostRuntime) -> Result<(), Fail> {
    let (mut inlet, mut outlet) = line(rt.alloc())?;
    assert_eq!(rt; fill(&rt, &mut inlet), COUNT);
    assert_eq!(rt; empty(&rt, &mut outlet), COUNT);
    Ok(())
}

/// Takes out what there is, and counts it.
fn empty<R: Wait>(rt: &R, outlet: &mut Outlet<Numbered, u64>) -> u64 {
    let mut taken = 0;
    for _ in 0..COUNT + 1 {
        if outlet.pop(rt).is_none() {
            break;
        }
        taken += 1;
    }
    taken
}

/// A new line whose queue is made at the first push.
fn lazy_line<A: Allocator + Copy>(
    alloc: A,
) -> Result<(LazyInlet<Numbered, u64, A>, LazyOutlet<Numbered, u64, A>), Refused>
    ensures inlet { IfOk result (λ r. (r.0.key ≡ Some 7) × (length r.0.pushed ≡ 0)) }
    ensures outlet { IfOk result (λ r. (r.1.key ≡ Some 7) × (length r.1.taken ≡ 0)) }
{
    open_lazily(alloc, &FIRST)
}

/// Pushes as long as there is room. Tells how many were.
fn push_lazily<R: Wait, A: Allocator + Copy>(rt: &R, inlet: &mut LazyInlet<Numbered, u64, A>) -> u64
    requires { (inlet.old.key ≡ Some 7) × (length inlet.old.pushed ≡ 0) }
{
    for pushed in 0..COUNT {
        let number = FIRST + pushed;
        if inlet.push(rt, Numbered { number }).is_err() {
            return pushed;
        }
    }
    COUNT
}

/// Takes so many values out, each of which has the number of its turn.
fn take_lazily<R: Wait, A: Allocator>(rt: &R, outlet: &mut LazyOutlet<Numbered, u64, A>) -> u64
    requires { (outlet.old.key ≡ Some 7) × (length outlet.old.taken ≡ 0) }
{
    for taken in 0..COUNT {
        let Numbered { number } = outlet.wait(rt);
        prove!(number == FIRST + taken);
    }
    COUNT
}

/// Would catch a second end that never comes to the taker, and a value that is lost or comes twice: the taker waits before
/// there is a queue.
#[test]
fn lazy_threads(rt: HostRuntime) -> Result<(), Fail> {
    let (mut inlet, mut outlet) = lazy_line(rt.alloc())?;
    let (taken, pushed) = join(
        &rt,
        || take_lazily(&rt, &mut outlet),
        || push_lazily(&rt, &mut inlet),
    );
    assert_eq!(rt; (taken, pushed), (COUNT, COUNT));
    Ok(())
}

/// Would catch a line that takes its queue's memory before the first push, one that can't be used again once there was no
/// memory for the queue, and values or a queue that are not dropped with the line.
#[test]
fn lazy_in_little_room(rt: HostRuntime) -> Result<(), Fail> {
    let mut refused = false;
    let mut served = false;
    for room in 0..200 {
        let heap = LocalHeap::new(rt.alloc(), 256 + 16 * room)?;
        let (mut inlet, outlet) = lazy_line(&heap)?;
        assert!(rt; heap.used() <= 160);
        let before = heap.used();
        let pushed = push_lazily(&rt, &mut inlet);
        if pushed == 0 {
            assert_eq!(rt; heap.used(), before);
            refused = true;
        } else {
            served = true;
        }
        drop(outlet);
        drop(inlet);
        assert_eq!(rt; heap.used(), 0);
    }
    assert!(rt; refused && served);
    Ok(())
}
