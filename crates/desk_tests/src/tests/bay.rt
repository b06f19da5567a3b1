//! A value that lies in a bay, and those who take it.
ghost use Rattle.std.specs.Prelude.{◌≡◌, true, false, IfOk, IfSome, is_some};
ghost use Rattle.desk.specs.BayCalls.{holds, new_bay_seat, IsLikeFirst};

use desk::{Alike, Bay, BaySeat};
use linked_list_allocator::LocalHeap;
use sections::{EngineSeat, Home, Limits, Made, MakeError, Token, make};
use std::alloc::{AllocError, Global};
use std::test::Fail;
use std::thread::join;

/// A value that is known by its mark.
#[derive(Drop)]
struct Marked {
    home: Home,
    mark: u64,
}

impl Token for Marked {
    ghost domain = { λ m. m.home };
}

impl Alike for Marked {
    ghost like = { λ m n. n.home ≡ m.home };
}

/// The engine's seat of a new domain.
fn new_engine(alloc: Global) -> Result<EngineSeat, MakeError> {
    let limits = Limits {
        sections: 8,
        periods: 1,
        cells: 0,
        slots: 2,
    };
    let Made {
        cpus: _,
        engine,
        ..
    } = make(alloc, 1, limits)?;
    Ok(engine)
}

/// A bay with one seat.
fn sole(
    alloc: Global,
    engine: &mut EngineSeat,
    mark: u64,
) -> Result<(Bay<Marked>, BaySeat<Marked>), AllocError>
    ensures { IfOk result (λ r. r.1 ≡ new_bay_seat r.0 0) }
{
    let value = Marked {
        home: engine.home(),
        mark,
    };
    let (bay, mut seats) = Bay::new(alloc, value, 1, engine.home())?;
    let seat = seats.pop().unwrap();
    Ok((bay, seat))
}

/// A bay with two seats.
fn pair(
    alloc: Global,
    engine: &mut EngineSeat,
    mark: u64,
) -> Result<(Bay<Marked>, BaySeat<Marked>, BaySeat<Marked>), AllocError>
    ensures { IfOk result (λ r. (r.0.seats ≡ 2) × (r.1 ≡ new_bay_seat r.0 0) × (r.2 ≡ new_bay_seat r.0 1)) }
{
    let value = Marked {
        home: engine.home(),
        mark,
    };
    let (bay, mut seats) = Bay::new(alloc, value, 2, engine.home())?;
    let second = seats.pop().unwrap();
    let first = seats.pop().unwrap();
    Ok((bay, first, second))
}

/// Would catch a value that stays in the bay when it is taken, and a put that forgets what it was given.
#[test]
fn one_seat(rt: HostRuntime) -> Result<(), Fail> {
    let mut engine = new_engine(rt.alloc())?;
    let (bay, mut seat) = sole(rt.alloc(), &mut engine, 7)?;
    let Some(value) = seat.take(&bay) else {
        panic!(rt; "it lies there from the start");
    };
    assert_eq!(rt; value.mark, 7);
    let other = Marked {
        home: value.home,
        mark: 8,
    };
    seat.put(&bay, other);
    let Some(value) = seat.take(&bay) else {
        panic!(rt; "it was put back");
    };
    assert_eq!(rt; value.mark, 8);
    Ok(())
}

/// Would catch a take that gives the value twice, or that still answers `None` when it was put back.
#[test]
fn two_seats(rt: HostRuntime) -> Result<(), Fail> {
    let mut engine = new_engine(rt.alloc())?;
    let (bay, mut first, mut second) = pair(rt.alloc(), &mut engine, 3)?;
    let Some(value) = first.take(&bay) else {
        panic!(rt; "it lies there from the start");
    };
    assert!(rt; second.take(&bay).is_none());
    assert!(rt; second.take(&bay).is_none());
    first.put(&bay, value);
    let Some(value) = second.take(&bay) else {
        panic!(rt; "it was put back");
    };
    assert_eq!(rt; value.mark, 3);
    assert!(rt; first.take(&bay).is_none());
    Ok(())
}

/// With both seats in hand, of which neither holds, a take finds what lies there. Where it found nothing both would
/// tie again, and then nobody could hold.
fn take_with_both(
    first: &mut BaySeat<Marked>,
    second: &mut BaySeat<Marked>,
    bay: &Bay<Marked>,
) -> Marked
    requires first { (first.old.bay ≡ bay.now.bay) × (first.old.number ≡ 0) × (first.old.seats ≡ 2) × (holds first.old ≡ false) }
    requires second { (second.old.bay ≡ bay.now.bay) × (second.old.number ≡ 1) × (holds second.old ≡ false) }
    ensures first { (first.new.bay ≡ bay.now.bay) × (holds first.new ≡ true) }
    ensures second { (second.new.bay ≡ bay.now.bay) × (holds second.new ≡ false) }
{
    first.tie(second, bay);
    match first.take(bay) {
        Some(value) => value,
        None => {
            first.tie(second, bay);
            unreachable!()
        }
    }
}

/// Would catch a tie after which a seat takes in vain, or that loses what was swapped.
#[test]
fn all_in_hand(rt: HostRuntime) -> Result<(), Fail> {
    let mut engine = new_engine(rt.alloc())?;
    let (bay, mut first, mut second) = pair(rt.alloc(), &mut engine, 5)?;
    let value = take_with_both(&mut first, &mut second, &bay);
    assert_eq!(rt; value.mark, 5);
    second.tie(&mut first, &bay);
    assert!(rt; second.take(&bay).is_none());
    Ok(())
}

/// Takes what lies there and puts it back. Tells whether something did.
fn look(mut seat: BaySeat<Marked>, bay: &Bay<Marked>) -> (BaySeat<Marked>, bool)
    requires bay { (seat.bay ≡ bay.now.bay) × (holds seat ≡ false) }
    ensures seat { (result.0.bay ≡ seat.bay) × (result.0.domain ≡ seat.domain) × (holds result.0 ≡ false) }
{
    match seat.take(bay) {
        Some(value) => {
            seat.put(bay, value);
            (seat, true)
        }
        None => (seat, false),
    }
}

/// One thread looks while another has the value. Would catch a value that two threads have.
#[test]
fn one_thread_finds_nothing(rt: HostRuntime) -> Result<(), Fail> {
    let mut engine = new_engine(rt.alloc())?;
    let (bay, mut first, second) = pair(rt.alloc(), &mut engine, 3)?;
    let Some(value) = first.take(&bay) else {
        panic!(rt; "it lies there from the start");
    };
    let shared = &bay;
    let (mark, (second, found)) = join(&rt, move || value.mark, move || look(second, shared));
    assert_eq!(rt; (mark, found), (3, false));
    let (_, found) = look(second, shared);
    assert!(rt; !found);
    Ok(())
}

const TRIES: u32 = 1_000_000;

/// Takes what lies there, as soon as something does.
fn wait(seat: &mut BaySeat<Marked>, bay: &Bay<Marked>) -> Option<Marked>
    requires bay { (seat.old.bay ≡ bay.now.bay) × (holds seat.old ≡ false) }
    ensures seat { (seat.new.bay ≡ seat.old.bay) × (seat.new.domain ≡ seat.old.domain) × (holds seat.new ≡ is_some result) }
    ensures domain { IfSome result (λ x. x.home ≡ seat.old.domain) }
    ensures alike { IfSome result (λ x. IsLikeFirst (λ m n. n.home ≡ m.home) seat.new x) }
{
    for _ in 0..TRIES {
        if let Some(value) = seat.take(bay) {
            return Some(value);
        }
    }
    None
}

const ROUNDS: u64 = 1000;

/// Adds one to the mark so often. Tells how often it came to it.
fn count(mut seat: BaySeat<Marked>, bay: &Bay<Marked>) -> u64
    requires bay { (seat.bay ≡ bay.now.bay) × (holds seat ≡ false) }
{
    for round in 0..ROUNDS {
        let Some(value) = wait(&mut seat, bay) else {
            return round;
        };
        let next = Marked {
            home: value.home,
            mark: value.mark.wrapping_add(1),
        };
        seat.put(bay, next);
    }
    ROUNDS
}

/// A bay with three seats.
fn trio(
    alloc: Global,
    engine: &mut EngineSeat,
) -> Result<
    (
        Bay<Marked>,
        BaySeat<Marked>,
        BaySeat<Marked>,
        BaySeat<Marked>,
    ),
    AllocError,
>
    ensures { IfOk result (λ r. (r.1 ≡ new_bay_seat r.0 0) × (r.2 ≡ new_bay_seat r.0 1) × (r.3 ≡ new_bay_seat r.0 2)) }
{
    let value = Marked {
        home: engine.home(),
        mark: 0,
    };
    let (bay, mut seats) = Bay::new(alloc, value, 3, engine.home())?;
    let third = seats.pop().unwrap();
    let second = seats.pop().unwrap();
    let first = seats.pop().unwrap();
    Ok((bay, first, second, third))
}

/// Two threads add to one number, which has no other guard. Would catch an addition that is lost, as where both have
/// the value at once.
#[test]
fn two_threads(rt: HostRuntime) -> Result<(), Fail> {
    let mut engine = new_engine(rt.alloc())?;
    let (bay, first, second, mut third) = trio(rt.alloc(), &mut engine)?;
    let shared = &bay;
    let (here, there) = join(
        &rt,
        move || count(first, shared),
        move || count(second, shared),
    );
    assert!(rt; here > 0 && there > 0);
    let Some(value) = third.take(&bay) else {
        panic!(rt; "each of them put it back");
    };
    assert_eq!(rt; value.mark, here.wrapping_add(there));
    Ok(())
}

/// A value with memory of its own.
#[derive(Drop)]
struct Load<'a> {
    home: Home,
    bytes: Vec<u8, &'a LocalHeap>,
}

impl<'a> Token for Load<'a> {
    ghost domain = { λ l. l.home };
}

impl<'a> Alike for Load<'a> {
    ghost like = { λ l m. m.home ≡ l.home };
}

/// A bay with one seat, where a value lies that has memory of this heap.
fn loaded<'a>(
    alloc: Global,
    heap: &'a LocalHeap,
    engine: &mut EngineSeat,
) -> Result<(Bay<Load<'a>>, BaySeat<Load<'a>>), AllocError>
    ensures { IfOk result (λ r. r.1 ≡ new_bay_seat r.0 0) }
{
    let bytes = Vec::with_capacity(heap, 16)?;
    let value = Load {
        home: engine.home(),
        bytes,
    };
    let (bay, mut seats) = Bay::new(alloc, value, 1, engine.home())?;
    let seat = seats.pop().unwrap();
    Ok((bay, seat))
}

/// Would catch a bay that keeps what lies there when it is dropped, or that drops what a seat holds.
#[test]
fn drops_what_lies_there(rt: HostRuntime) -> Result<(), Fail> {
    let mut engine = new_engine(rt.alloc())?;
    let heap = LocalHeap::new(rt.alloc(), 1024)?;
    let (bay, seat) = loaded(rt.alloc(), &heap, &mut engine)?;
    drop(seat);
    assert!(rt; heap.used() > 0);
    drop(bay);
    assert_eq!(rt; heap.used(), 0);
    let (bay, mut seat) = loaded(rt.alloc(), &heap, &mut engine)?;
    let held = seat.take(&bay);
    drop(seat);
    drop(bay);
    assert!(rt; heap.used() > 0);
    drop(held);
    assert_eq!(rt; heap.used(), 0);
    Ok(())
}

/// Would catch a refused allocation that leaves something allocated, or that keeps the value. There are four: the
/// seats, the list of slots, the words and the slots.
#[test]
fn new_in_little_room(rt: HostRuntime) -> Result<(), Fail> {
    let mut engine = new_engine(rt.alloc())?;
    let heap = LocalHeap::new(rt.alloc(), 1024)?;
    for room in 0..100 {
        let small = LocalHeap::new(rt.alloc(), 64 + 16 * room)?;
        let bytes = Vec::with_capacity(&heap, 16)?;
        let value = Load {
            home: engine.home(),
            bytes,
        };
        if let Ok((bay, seats)) = Bay::new(&small, value, 2, engine.home()) {
            assert!(rt; room > 0 && small.used() > 0 && heap.used() > 0);
            drop(seats);
            drop(bay);
            assert_eq!(rt; (small.used(), heap.used()), (0, 0));
            return Ok(());
        }
        assert_eq!(rt; (small.used(), heap.used()), (0, 0));
    }
    panic!(rt; "it never fits")
}
