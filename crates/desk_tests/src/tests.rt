ghost use Rattle.std.specs.Prelude.{◌≡◌, IfOk, IfSome};
ghost use Rattle.desk.specs.Swaps.{lies_behind};
ghost use Rattle.desk.specs.Calls.{new_seat};
ghost use Rattle.sections.specs.Calls.{IsHere};

mod bay;

use desk::{Desk, DeskSeat};
use linked_list_allocator::LocalHeap;
use sections::{Cpu, EngineSeat, Home, Limits, Made, MakeError, Reading, make};
use std::alloc::{AllocError, Global};
use std::process::Abort;
use std::test::Fail;
use std::thread::join;

/// The two processors of a new domain, and its engine's seat.
fn new_domain(alloc: Global) -> Result<(Cpu, Cpu, EngineSeat), MakeError>
    ensures { IfOk result (λ r. (r.0.domain ≡ r.2.domain) × (r.1.domain ≡ r.2.domain)) }
{
    let limits = Limits {
        sections: 8,
        periods: 1,
        cells: 0,
        slots: 2,
    };
    let Made {
        mut cpus,
        engine,
        ..
    } = make(alloc, 2, limits)?;
    let there = cpus.pop().unwrap();
    let here = cpus.pop().unwrap();
    Ok((here, there, engine))
}

/// A desk with one seat.
fn sole(alloc: Global, home: Home) -> Result<(Desk<Reading>, DeskSeat<Reading>), AllocError>
    ensures { IfOk result (λ r. (r.0.domain ≡ home) × (r.0.seats ≡ 1) × (r.1 ≡ new_seat r.0 0)) }
{
    let (desk, mut seats) = Desk::new(alloc, 1, home)?;
    let seat = seats.pop().unwrap();
    seats.destroy_empty();
    Ok((desk, seat))
}

/// A desk with two seats.
fn pair(
    alloc: Global,
    home: Home,
) -> Result<(Desk<Reading>, DeskSeat<Reading>, DeskSeat<Reading>), AllocError>
    ensures { IfOk result (λ r. (r.0.domain ≡ home) × (r.0.seats ≡ 2) × (r.1 ≡ new_seat r.0 0) × (r.2 ≡ new_seat r.0 1)) }
{
    let (desk, mut seats) = Desk::new(alloc, 2, home)?;
    let second = seats.pop().unwrap();
    let first = seats.pop().unwrap();
    seats.destroy_empty();
    Ok((desk, first, second))
}

/// The end of a desk with one seat.
fn close_sole<R: Abort + Alloc>(
    rt: &R,
    desk: Desk<Reading>,
    seat: DeskSeat<Reading>,
) -> Option<Reading>
    requires sole { (desk.seats ≡ 1) × (seat.seats ≡ 1) }
    requires seat { (seat.desk ≡ desk.desk) × (seat.number ≡ 0) }
    ensures { result ≡ lies_behind seat.seen }
{
    let mut seats = Vec::with_capacity(rt.alloc(), 1).expect(rt, "there is room");
    seats.push_reserved(seat);
    desk.close(seats)
}

/// The end of a desk with two seats, handed in in their order.
fn close_pair<R: Abort + Alloc>(
    rt: &R,
    desk: Desk<Reading>,
    first: DeskSeat<Reading>,
    second: DeskSeat<Reading>,
) -> Option<Reading>
    requires pair { desk.seats ≡ 2 }
    requires first { (first.desk ≡ desk.desk) × (first.number ≡ 0) }
    requires second { (second.desk ≡ desk.desk) × (second.number ≡ 1) }
    ensures { IfSome result (λ reading. reading.domain ≡ desk.domain) }
{
    let mut seats = Vec::with_capacity(rt.alloc(), 2).expect(rt, "there is room");
    seats.push_reserved(first);
    seats.push_reserved(second);
    desk.close(seats)
}

/// Opens a section.
fn begin<R: Abort>(rt: &R, cpu: &mut Cpu) -> Reading
    ensures reading { (result.domain ≡ cpu.old.domain) × (result.processor ≡ cpu.old.processor) }
    ensures same { (cpu.new.domain ≡ cpu.old.domain) × (cpu.new.processor ≡ cpu.old.processor) }
{
    match cpu.read_lock() {
        Ok(reading) => reading,
        Err(_) => panic!(rt; "there is room"),
    }
}

/// Opens two sections, has them lie on the desk in turn, and closes it while the first one lies there. Gives both back, the
/// first one first: each swap is known to find just what was put before.
fn swap_in_turn<R: Abort + Alloc>(
    rt: &R,
    cpu: &mut Cpu,
    desk: Desk<Reading>,
    mut seat: DeskSeat<Reading>,
) -> (Reading, Reading)
    requires sole { (desk.seats ≡ 1) × (seat ≡ new_seat desk 0) }
    requires domain { cpu.old.domain ≡ desk.domain }
    ensures { IsHere cpu.new result.0 × IsHere cpu.new result.1 }
{
    let nothing = seat.take(&desk);
    let None = nothing else { unreachable!() };
    let first = begin(rt, cpu);
    let nothing = seat.put(&desk, first);
    let None = nothing else { unreachable!() };
    let second = begin(rt, cpu);
    let found = seat.put(&desk, second);
    let Some(first) = found else { unreachable!() };
    let found = seat.take(&desk);
    let Some(second) = found else { unreachable!() };
    let nothing = seat.take(&desk);
    let None = nothing else { unreachable!() };
    let nothing = seat.put(&desk, first);
    let None = nothing else { unreachable!() };
    let found = close_sole(rt, desk, seat);
    let Some(first) = found else { unreachable!() };
    (first, second)
}

/// Would catch a value that is dropped, kept or given back twice: each section is known to be the one that was put.
#[test]
fn one_seat(rt: HostRuntime) -> Result<(), Fail> {
    let (mut cpu, _, mut engine) = new_domain(rt.alloc())?;
    let (desk, seat) = sole(rt.alloc(), engine.home())?;
    let (first, second) = swap_in_turn(&rt, &mut cpu, desk, seat);
    assert_eq!(rt; cpu.open_here(), 2);
    cpu.read_unlock(first);
    cpu.read_unlock(second);
    assert_eq!(rt; cpu.open_here(), 0);
    Ok(())
}

const TRIES: u32 = 100_000;

/// Opens a section and puts it on the desk. Gives back what lay there.
fn give(
    mut cpu: Cpu,
    mut seat: DeskSeat<Reading>,
    desk: &Desk<Reading>,
) -> (Cpu, DeskSeat<Reading>, Option<Reading>)
    requires desk { seat.desk ≡ desk.now.desk }
    requires domain { (seat.domain ≡ desk.now.domain) × (cpu.domain ≡ desk.now.domain) }
    ensures seat { (result.1.desk ≡ seat.desk) × (result.1.number ≡ seat.number) }
    ensures domain { (result.0.domain ≡ cpu.domain) × IfSome result.2 (λ r. r.domain ≡ cpu.domain) }
{
    match cpu.read_lock() {
        Ok(reading) => {
            let found = seat.put(desk, reading);
            (cpu, seat, found)
        }
        Err(_) => (cpu, seat, None),
    }
}

/// Takes what lies on the desk, as soon as something does.
fn wait(seat: &mut DeskSeat<Reading>, desk: &Desk<Reading>) -> Option<Reading>
    requires desk { seat.old.desk ≡ desk.now.desk }
    ensures seat { (seat.new.desk ≡ seat.old.desk) × (seat.new.number ≡ seat.old.number) }
    ensures domain { IfSome result (λ r. r.domain ≡ seat.old.domain) }
{
    for _ in 0..TRIES {
        if let Some(reading) = seat.take(desk) {
            return Some(reading);
        }
    }
    None
}

/// Closes a section on its own processor. Gives back those of another one.
fn end(cpu: &mut Cpu, found: Option<Reading>) -> Option<Reading>
    requires { IfSome found (λ r. r.domain ≡ cpu.old.domain) }
    ensures domain { IfSome result (λ r. r.domain ≡ cpu.old.domain) }
    ensures same { cpu.new.domain ≡ cpu.old.domain }
{
    let Some(reading) = found else { return None };
    if reading.processor() != cpu.processor() {
        return Some(reading);
    }
    cpu.read_unlock(reading);
    None
}

/// Closes a section on that one of the two processors where it was begun.
fn settle<R: Abort>(rt: &R, here: &mut Cpu, there: &mut Cpu, found: Option<Reading>)
    requires { (there.old.domain ≡ here.old.domain) × IfSome found (λ r. r.domain ≡ here.old.domain) }
    ensures { (here.new.domain ≡ here.old.domain) × (there.new.domain ≡ there.old.domain) }
{
    let left = end(here, found);
    if let Some(_reading) = end(there, left) {
        panic!(rt; "a section of neither processor");
    }
}

/// Takes a section, and closes it if it was begun here.
fn receive(
    mut cpu: Cpu,
    mut seat: DeskSeat<Reading>,
    desk: &Desk<Reading>,
) -> (Cpu, DeskSeat<Reading>, Option<Reading>)
    requires desk { seat.desk ≡ desk.now.desk }
    requires domain { seat.domain ≡ cpu.domain }
    ensures seat { (result.1.desk ≡ seat.desk) × (result.1.number ≡ seat.number) }
    ensures domain { (result.0.domain ≡ cpu.domain) × IfSome result.2 (λ r. r.domain ≡ cpu.domain) }
{
    let found = wait(&mut seat, desk);
    let left = end(&mut cpu, found);
    (cpu, seat, left)
}

/// Each thread's section is closed on its own processor. Would catch a value that is lost or doubled on its way from
/// one thread to another.
#[test]
fn two_threads(rt: HostRuntime) -> Result<(), Fail> {
    let (here, mut there, mut engine) = new_domain(rt.alloc())?;
    let (desk, first, mut second) = pair(rt.alloc(), engine.home())?;
    let reading = begin(&rt, &mut there);
    let early = second.put(&desk, reading);
    let shared = &desk;
    let ((mut here, first, given), (mut there, second, taken)) = join(
        &rt,
        move || give(here, first, shared),
        move || receive(there, second, shared),
    );
    let last = close_pair(&rt, desk, first, second);
    settle(&rt, &mut here, &mut there, early);
    settle(&rt, &mut here, &mut there, given);
    settle(&rt, &mut here, &mut there, taken);
    settle(&rt, &mut here, &mut there, last);
    assert_eq!(rt; (here.open_here(), there.open_here()), (0, 0));
    Ok(())
}

/// Would catch a refused allocation that leaves something allocated. There are three: the words, the slots and the
/// seats.
#[test]
fn new_in_little_room(rt: HostRuntime) -> Result<(), Fail> {
    let (_, _, mut engine) = new_domain(rt.alloc())?;
    for room in 0..100 {
        let heap = LocalHeap::new(rt.alloc(), 64 + 16 * room)?;
        let home = engine.home();
        if let Ok((desk, seats)) = Desk::<Reading, _>::new(&heap, 2, home) {
            assert!(rt; room > 0 && heap.used() > 0);
            let nothing = desk.close(seats);
            let None = nothing else {
                panic!(rt; "nothing was put there");
            };
            assert_eq!(rt; heap.used(), 0);
            return Ok(());
        }
        assert_eq!(rt; heap.used(), 0);
    }
    panic!(rt; "it never fits")
}
