//! Several threads at one domain, each with a processor of its own.
ghost use Rattle.std.specs.Prelude.{◌≡◌, IfOk, IfSome};
ghost use Rattle.desk.specs.Calls.{new_seat};
ghost use Rattle.domain.specs.Views.{IsOf};
ghost use Rattle.domain.specs.Waiting.{HasNoneOpen};

use desk::{Desk, DeskSeat};
use domain::{AdvanceRefusal, Cpu, Domain, Held, Home, Index, Number, Progress};
use fixtures::{Four, five, two};
use std::alloc::{AllocError, Global};
use std::process::Abort;
use std::sync::Wait;
use std::sync::atomic::AtomicU64;
use std::sync::atomic::Ordering::SeqCst;
use std::test::Fail;
use std::thread::{Threads, join, sleep, yield_now};
use std::time::{Clock, Duration};

/// How often a thread looks for what another one does, with a sleep of a millisecond behind each look.
const LOOKS: u32 = 20_000;

/// How many turns of the engine are enough for a whole grace period behind the one that runs.
const TURNS: u32 = 8;

/// A desk and its two seats.
fn two_seats(
    alloc: Global,
    home: Home,
) -> Result<(Desk<Held>, DeskSeat<Held>, DeskSeat<Held>), AllocError>
    ensures { IfOk result (λ r. (r.0.domain ≡ home) × (r.0.seats ≡ 2) × (r.1 ≡ new_seat r.0 0) × (r.2 ≡ new_seat r.0 1)) }
{
    let (desk, mut seats) = Desk::new(alloc, 2, home)?;
    let second = seats.pop().unwrap();
    let first = seats.pop().unwrap();
    seats.destroy_empty();
    Ok((desk, first, second))
}

/// The end of a desk with two seats. Gives what lay there.
fn close_two<R: Abort + Alloc>(
    rt: &R,
    desk: Desk<Held>,
    first: DeskSeat<Held>,
    second: DeskSeat<Held>,
) -> Option<Held>
    requires seats { desk.seats ≡ 2 }
    requires first { (first.desk ≡ desk.desk) × (first.number ≡ 0) }
    requires second { (second.desk ≡ desk.desk) × (second.number ≡ 1) }
    ensures { IfSome result (λ held. held.domain ≡ desk.domain) }
{
    let mut seats = Vec::with_capacity(rt.alloc(), 2).expect(rt, "there is room");
    seats.push_reserved(first);
    seats.push_reserved(second);
    desk.close(seats)
}

/// What threads tell each other of their sections.
#[derive(Drop)]
struct Tally {
    /// How many were opened, each counted just behind that.
    opened: AtomicU64,
    /// How many were closed, each counted just before that.
    closing: AtomicU64,
    /// How many threads have done their part.
    finished: AtomicU64,
}

impl Tally {
    fn new() -> Tally {
        Tally {
            opened: AtomicU64::new(0),
            closing: AtomicU64::new(0),
            finished: AtomicU64::new(0),
        }
    }
}

/// So many times: opens a section, puts it on the desk, and closes what lay there.
fn hand_on(
    mut cpu: Cpu<()>,
    mut seat: DeskSeat<Held>,
    desk: &Desk<Held>,
    tally: &Tally,
    times: u32,
) -> DeskSeat<Held>
    requires desk { seat.desk ≡ desk.now.desk }
    requires domain { cpu.cpu.domain ≡ seat.domain }
    ensures { (result.desk ≡ seat.desk) × (result.number ≡ seat.number) }
{
    for _ in 0..times {
        let Ok(held) = cpu.down_read() else { break };
        tally.opened.fetch_add(1, SeqCst);
        if let Some(found) = seat.put(desk, held) {
            tally.closing.fetch_add(1, SeqCst);
            cpu.up_read(found);
        }
        yield_now();
    }
    tally.finished.fetch_add(1, SeqCst);
    seat
}

/// Takes what lies on the desk, as soon as something does.
fn wait_at_desk<R: Clock>(rt: &R, seat: &mut DeskSeat<Held>, desk: &Desk<Held>) -> Option<Held>
    requires { seat.old.desk ≡ desk.now.desk }
    ensures seat { (seat.new.desk ≡ seat.old.desk) × (seat.new.number ≡ seat.old.number) }
    ensures domain { IfSome result (λ held. held.domain ≡ seat.old.domain) }
{
    for _ in 0..LOOKS {
        if let Some(held) = seat.take(desk) {
            return Some(held);
        }
        sleep(rt, Duration::from_millis(1));
    }
    None
}

/// What a thread found that closed a section of another one.
#[derive(Drop)]
struct Crossing {
    opened_on: u16,
    closed_on: u16,
    /// The engine's answer, and the poll's, just before the section was closed.
    before: (Result<Progress, AdvanceRefusal>, bool),
    /// And just behind that.
    behind: (Result<Progress, AdvanceRefusal>, bool),
}

/// Takes a section from the desk, and closes it in the middle of a grace period.
fn close_from_desk<R: Clock>(
    rt: &R,
    domain: &Domain<()>,
    mut cpu: Cpu<()>,
    mut seat: DeskSeat<Held>,
    desk: &Desk<Held>,
) -> (DeskSeat<Held>, Option<Crossing>)
    requires cpu { IsOf domain.now cpu }
    requires desk { seat.desk ≡ desk.now.desk }
    requires home { seat.domain ≡ domain.now.domain }
    ensures { (result.0.desk ≡ seat.desk) × (result.0.number ≡ seat.number) }
{
    let Some(held) = wait_at_desk(rt, &mut seat, desk) else {
        return (seat, None);
    };
    let (opened_on, closed_on) = (held.processor(), cpu.processor());
    let mut cookie = domain.start_poll(&mut cpu);
    let _started = domain.advance(&mut cpu);
    let _flipped = domain.advance(&mut cpu);
    let waiting = domain.advance(&mut cpu);
    let early = cpu.poll(&mut cookie);
    cpu.up_read(held);
    let ended = domain.advance(&mut cpu);
    let late = cpu.poll(&mut cookie);
    let crossing = Crossing {
        opened_on,
        closed_on,
        before: (waiting, early),
        behind: (ended, late),
    };
    (seat, Some(crossing))
}

/// Would catch a section that is lost on its way to another thread, a grace period that doesn't wait for one that lies
/// on a desk, and one that waits for ever as the section's end isn't found on another processor.
#[test]
fn desk_cross(rt: HostRuntime) -> Result<(), Fail> {
    let (domain, opener, mut closer, _) = two(rt.alloc(), 2)?;
    let (desk, first, second) = two_seats(rt.alloc(), closer.home())?;
    let tally = Tally::new();
    let (first, (second, crossing)) = join(
        &rt,
        || hand_on(opener, first, &desk, &tally, 1),
        || close_from_desk(&rt, &domain, closer, second, &desk),
    );
    let nothing = close_two(&rt, desk, first, second);
    let None = nothing else {
        panic!(rt; "the section was taken");
    };
    let Some(crossing) = crossing else {
        panic!(rt; "the section came");
    };
    let ended = Number::new(4).unwrap_or(Number::zero());
    let sections = (tally.opened.load(SeqCst), tally.closing.load(SeqCst));
    assert_eq!(rt;
        (crossing.opened_on, crossing.closed_on, sections),
        (0, 1, (1, 0))
    );
    assert_eq!(rt;
        [crossing.before, crossing.behind],
        [
            (Ok(Progress::Waiting(Index::Zero)), false),
            (Ok(Progress::Ended(ended)), true)
        ]
    );
    Ok(())
}

/// What two threads tell each other, of which one opens sections and the other waits for their ends.
#[derive(Drop)]
struct Rounds {
    /// The last section that is certainly open, or was: 0 before the first.
    opened: AtomicU64,
    /// The last section that is about to be closed.
    closing: AtomicU64,
}

const ROUNDS: u64 = 10;

/// Opens so many sections, one behind the other, and sleeps in each of them.
fn sleep_in_sections<R: Clock>(rt: &R, mut cpu: Cpu<()>, rounds: &Rounds) {
    for round in 1..=ROUNDS {
        let Ok(section) = cpu.read_lock() else { break };
        rounds.opened.store(round, SeqCst);
        sleep(rt, Duration::from_millis(2));
        rounds.closing.store(round, SeqCst);
        cpu.read_unlock(section);
    }
}

/// Waits until a section behind this one was opened. Gives the last one, or 0 where none came.
fn wait_for_section<R: Clock>(rt: &R, rounds: &Rounds, last: u64) -> u64 {
    for _ in 0..LOOKS {
        let opened = rounds.opened.load(SeqCst);
        if opened > last {
            return opened;
        }
        sleep(rt, Duration::from_millis(1));
    }
    0
}

/// Waits for the end of each section that it finds open. Gives the last one, and whether each was about to be closed
/// when the call came back.
fn wait_for_ends<R: Wait + Clock>(
    rt: &R,
    domain: &Domain<()>,
    mut cpu: Cpu<()>,
    rounds: &Rounds,
) -> (u64, bool)
    requires { IsOf domain.now cpu × HasNoneOpen cpu }
{
    let mut last = 0;
    let mut closed = true;
    for _ in 0..ROUNDS {
        if last == ROUNDS {
            break;
        }
        last = wait_for_section(rt, rounds, last);
        closed &= domain.synchronize(rt, &mut cpu).is_ok();
        closed &= rounds.closing.load(SeqCst) >= last;
    }
    (last, closed)
}

/// Would catch a `synchronize` that comes back while a section is open that another thread opened before the call.
#[test]
fn sync_threads(rt: HostRuntime) -> Result<(), Fail> {
    let (domain, reader, updater, _) = two(rt.alloc(), 2)?;
    let rounds = Rounds {
        opened: AtomicU64::new(0),
        closing: AtomicU64::new(0),
    };
    let ((), (last, closed)) = join(
        &rt,
        || sleep_in_sections(&rt, reader, &rounds),
        || wait_for_ends(&rt, &domain, updater, &rounds),
    );
    assert_eq!(rt; (last, closed), (ROUNDS, true));
    Ok(())
}

/// The four seats of a desk.
#[derive(Drop)]
struct Seats {
    first: DeskSeat<Held>,
    second: DeskSeat<Held>,
    third: DeskSeat<Held>,
    fourth: DeskSeat<Held>,
}

/// A desk and its four seats.
fn four_seats(alloc: Global, home: Home) -> Result<(Desk<Held>, Seats), AllocError>
    ensures desk { IfOk result (λ r. (r.0.domain ≡ home) × (r.0.seats ≡ 4)) }
    ensures first { IfOk result (λ r. (r.1.first ≡ new_seat r.0 0) × (r.1.second ≡ new_seat r.0 1)) }
    ensures last { IfOk result (λ r. (r.1.third ≡ new_seat r.0 2) × (r.1.fourth ≡ new_seat r.0 3)) }
{
    let (desk, mut seats) = Desk::new(alloc, 4, home)?;
    let fourth = seats.pop().unwrap();
    let third = seats.pop().unwrap();
    let second = seats.pop().unwrap();
    let first = seats.pop().unwrap();
    seats.destroy_empty();
    let seats = Seats {
        first,
        second,
        third,
        fourth,
    };
    Ok((desk, seats))
}

/// The end of a desk with four seats. Gives what lay there.
fn close_four<R: Abort + Alloc>(rt: &R, desk: Desk<Held>, seats: Seats) -> Option<Held>
    requires seats { desk.seats ≡ 4 }
    requires first { (seats.first.desk ≡ desk.desk) × (seats.first.number ≡ 0) }
    requires second { (seats.second.desk ≡ desk.desk) × (seats.second.number ≡ 1) }
    requires third { (seats.third.desk ≡ desk.desk) × (seats.third.number ≡ 2) }
    requires fourth { (seats.fourth.desk ≡ desk.desk) × (seats.fourth.number ≡ 3) }
    ensures { IfSome result (λ held. held.domain ≡ desk.domain) }
{
    let mut all = Vec::with_capacity(rt.alloc(), 4).expect(rt, "there is room");
    all.push_reserved(seats.first);
    all.push_reserved(seats.second);
    all.push_reserved(seats.third);
    all.push_reserved(seats.fourth);
    desk.close(all)
}

const THREADS: u64 = 4;

/// How many sections each of them opens.
const TIMES: u32 = 250;

/// Two threads hand sections on, each with a processor and a seat of its own.
fn hand_on_by_two<R: Threads + Sync>(
    rt: &R,
    first_cpu: Cpu<()>,
    second_cpu: Cpu<()>,
    first: DeskSeat<Held>,
    second: DeskSeat<Held>,
    desk: &Desk<Held>,
    tally: &Tally,
) -> (DeskSeat<Held>, DeskSeat<Held>)
    requires first { (first.desk ≡ desk.now.desk) × (first_cpu.cpu.domain ≡ first.domain) }
    requires second { (second.desk ≡ desk.now.desk) × (second_cpu.cpu.domain ≡ second.domain) }
    ensures first { (result.0.desk ≡ first.desk) × (result.0.number ≡ first.number) }
    ensures second { (result.1.desk ≡ second.desk) × (result.1.number ≡ second.number) }
{
    join(
        rt,
        || hand_on(first_cpu, first, desk, tally, TIMES),
        || hand_on(second_cpu, second, desk, tally, TIMES),
    )
}

/// Four threads hand sections on.
fn hand_on_by_four<R: Threads + Sync>(
    rt: &R,
    cpus: Four<()>,
    seats: Seats,
    desk: &Desk<Held>,
    tally: &Tally,
) -> Seats
    requires first { (seats.first.desk ≡ desk.now.desk) × (cpus.first.cpu.domain ≡ seats.first.domain) }
    requires second { (seats.second.desk ≡ desk.now.desk) × (cpus.second.cpu.domain ≡ seats.second.domain) }
    requires third { (seats.third.desk ≡ desk.now.desk) × (cpus.third.cpu.domain ≡ seats.third.domain) }
    requires fourth { (seats.fourth.desk ≡ desk.now.desk) × (cpus.fourth.cpu.domain ≡ seats.fourth.domain) }
    ensures first { (result.first.desk ≡ seats.first.desk) × (result.first.number ≡ seats.first.number) }
    ensures second { (result.second.desk ≡ seats.second.desk) × (result.second.number ≡ seats.second.number) }
    ensures third { (result.third.desk ≡ seats.third.desk) × (result.third.number ≡ seats.third.number) }
    ensures fourth { (result.fourth.desk ≡ seats.fourth.desk) × (result.fourth.number ≡ seats.fourth.number) }
{
    let ((first, second), (third, fourth)) = join(
        rt,
        ||
            requires first { (seats.first.desk ≡ desk.now.desk) × (cpus.first.cpu.domain ≡ seats.first.domain) }
            requires second { (seats.second.desk ≡ desk.now.desk) × (cpus.second.cpu.domain ≡ seats.second.domain) }
        {
            hand_on_by_two(
                rt,
                cpus.first,
                cpus.second,
                seats.first,
                seats.second,
                desk,
                tally,
            )
        },
        ||
            requires third { (seats.third.desk ≡ desk.now.desk) × (cpus.third.cpu.domain ≡ seats.third.domain) }
            requires fourth { (seats.fourth.desk ≡ desk.now.desk) × (cpus.fourth.cpu.domain ≡ seats.fourth.domain) }
        {
            hand_on_by_two(
                rt,
                cpus.third,
                cpus.fourth,
                seats.third,
                seats.fourth,
                desk,
                tally,
            )
        },
    );
    Seats {
        first,
        second,
        third,
        fourth,
    }
}

/// Asks for a grace period and drives the engine until it has ended. Tells whether it ended while threads were at work.
fn drive_period<R: Wait>(rt: &R, domain: &Domain<()>, cpu: &mut Cpu<()>, tally: &Tally) -> bool
    requires { IsOf domain.now cpu.old }
    ensures { IsOf domain.now cpu.new }
{
    let mut cookie = domain.start_poll(cpu);
    for _ in rt.forever() {
        if tally.finished.load(SeqCst) == THREADS || domain.advance(cpu).is_err() {
            return false;
        }
        if cpu.poll(&mut cookie) {
            return true;
        }
    }
    unreachable!()
}

/// Drives one grace period behind the other while threads are at work. Tells whether none of them ended before each
/// section was about to be closed that had been opened before it was asked for.
fn drive_beside<R: Wait>(
    rt: &R,
    domain: &Domain<()>,
    mut cpu: Cpu<()>,
    tally: &Tally,
) -> (Cpu<()>, bool)
    requires { IsOf domain.now cpu }
    ensures { IsOf domain.now result.0 }
{
    let mut in_time = true;
    for _ in rt.forever() {
        let opened = tally.opened.load(SeqCst);
        if !drive_period(rt, domain, &mut cpu, tally) {
            return (cpu, in_time);
        }
        in_time &= tally.closing.load(SeqCst) >= opened;
    }
    unreachable!()
}

/// Asks for a grace period, and tells whether it has ended after some turns of the engine.
fn ends_in_some_turns(domain: &Domain<()>, cpu: &mut Cpu<()>) -> bool
    requires { IsOf domain.now cpu.old }
    ensures { IsOf domain.now cpu.new }
{
    let mut cookie = domain.start_poll(cpu);
    for _ in 0..TURNS {
        let _answer = domain.advance(cpu);
    }
    cpu.poll(&mut cookie)
}

/// Four threads hand sections on, while this one drives grace periods beside them.
fn hand_on_beside<R: Wait + Threads + Sync>(
    rt: &R,
    domain: &Domain<()>,
    driver: Cpu<()>,
    cpus: Four<()>,
    seats: Seats,
    desk: &Desk<Held>,
    tally: &Tally,
) -> (Seats, (Cpu<()>, bool))
    requires driver { IsOf domain.now driver }
    requires first { (seats.first.desk ≡ desk.now.desk) × (cpus.first.cpu.domain ≡ seats.first.domain) }
    requires second { (seats.second.desk ≡ desk.now.desk) × (cpus.second.cpu.domain ≡ seats.second.domain) }
    requires third { (seats.third.desk ≡ desk.now.desk) × (cpus.third.cpu.domain ≡ seats.third.domain) }
    requires fourth { (seats.fourth.desk ≡ desk.now.desk) × (cpus.fourth.cpu.domain ≡ seats.fourth.domain) }
    ensures driver { IsOf domain.now result.1.0 }
    ensures first { (result.0.first.desk ≡ seats.first.desk) × (result.0.first.number ≡ seats.first.number) }
    ensures second { (result.0.second.desk ≡ seats.second.desk) × (result.0.second.number ≡ seats.second.number) }
    ensures third { (result.0.third.desk ≡ seats.third.desk) × (result.0.third.number ≡ seats.third.number) }
    ensures fourth { (result.0.fourth.desk ≡ seats.fourth.desk) × (result.0.fourth.number ≡ seats.fourth.number) }
{
    join(
        rt,
        ||
            requires first { (seats.first.desk ≡ desk.now.desk) × (cpus.first.cpu.domain ≡ seats.first.domain) }
            requires second { (seats.second.desk ≡ desk.now.desk) × (cpus.second.cpu.domain ≡ seats.second.domain) }
            requires third { (seats.third.desk ≡ desk.now.desk) × (cpus.third.cpu.domain ≡ seats.third.domain) }
            requires fourth { (seats.fourth.desk ≡ desk.now.desk) × (cpus.fourth.cpu.domain ≡ seats.fourth.domain) }
        { hand_on_by_four(rt, cpus, seats, desk, tally) },
        || drive_beside(rt, domain, driver, tally),
    )
}

/// Closes a section that was handed on last. Tells whether a grace period ends that is asked for before, and two behind.
fn close_last(domain: &Domain<()>, driver: &mut Cpu<()>, held: Held) -> [bool; 3]
    requires driver { IsOf domain.now driver.old }
    requires held { held.domain ≡ domain.now.domain }
{
    let early = ends_in_some_turns(domain, driver);
    driver.up_read(held);
    let late = ends_in_some_turns(domain, driver);
    [early, late, ends_in_some_turns(domain, driver)]
}

/// Would catch a desk that loses or doubles what lies there, a section's end that is lost among those of other
/// processors, and a grace period that ends while a section is open that was handed on.
#[test]
fn desk_of_a_thousand(rt: HostRuntime) -> Result<(), Fail> {
    let (domain, cpus, mut driver, _) = five(rt.alloc(), 2)?;
    let (desk, seats) = four_seats(rt.alloc(), driver.home())?;
    let tally = Tally::new();
    let (seats, (mut driver, in_time)) = hand_on_beside(
        &rt, &domain, driver, cpus, seats, &desk, &tally,
    );
    let Some(held) = close_four(&rt, desk, seats) else {
        panic!(rt; "the last one lies there");
    };
    let ended = close_last(&domain, &mut driver, held);
    let sections = (tally.opened.load(SeqCst), tally.closing.load(SeqCst));
    assert_eq!(rt;
        (sections, in_time, ended),
        ((1000, 999), true, [false, true, true])
    );
    Ok(())
}
