//! The engine in its place, from which two seats drive it.
ghost use Rattle.std.specs.Prelude.{◌≡◌, false, IfOk};
ghost use Rattle.desk.specs.BayCalls.{holds, new_bay_seat};

use super::Asks;
use scan::refusals::{AdvanceRefusal, Busy, StartRefusal};
use scan::{GracePeriods, Pace, Progress, Station, StationSeat};
use sections::{Cpu, Limits, Made, MakeError, make};
use sseq::{Index, Needs, Number};
use std::alloc::Global;
use std::sync::atomic::AtomicBool;
use std::sync::atomic::Ordering::SeqCst;
use std::test::Fail;
use std::thread::{join, sleep};
use std::time::{Clock, Duration};

/// How often a thread looks for what another one does, with a sleep of a millisecond behind each look.
const LOOKS: u32 = 10_000;

const LIMITS: Limits = Limits {
    sections: 8,
    periods: 1,
    cells: 0,
    slots: 2,
};

fn number(value: u64) -> Number {
    Number::new(value).unwrap_or(Number::zero())
}

/// Looks until the sign is given, or a while. Tells whether it was.
fn look_for<R: Clock>(rt: &R, sign: &AtomicBool) -> bool {
    for _ in 0..LOOKS {
        if sign.load(SeqCst) {
            return true;
        }
        sleep(rt, Duration::from_millis(1));
    }
    false
}

/// What two threads tell each other.
#[derive(Drop)]
struct Signs {
    /// One of them has the engine, and loads its needs.
    inside: AtomicBool,
    /// The other one was told that the engine is busy.
    busy: AtomicBool,
}

/// Needs that ask for nothing, of a thread whose load waits until another thread was told that the engine is busy.
#[derive(Drop)]
struct Waits<'a, R> {
    rt: &'a R,
    signs: &'a Signs,
    /// Whether that thread was told so in time.
    told: bool,
}

impl<'a, R: Clock> Needs for Waits<'a, R> {
    ghost loads = { λ a found b. Unit {0} };

    fn root_need(&mut self) -> Number {
        self.signs.inside.store(true, SeqCst);
        self.told = look_for(self.rt, &self.signs.busy);
        Number::zero()
    }
}

/// A new domain's processors, its engine's place, and two seats there.
fn two_seats(alloc: Global) -> Result<(Cpu, Cpu, Station, StationSeat, StationSeat), MakeError>
    ensures seats { IfOk result (λ r. (r.3 ≡ new_bay_seat r.2 0) × (r.4 ≡ new_bay_seat r.2 1)) }
    ensures cpus { IfOk result (λ r. (r.0.domain ≡ r.2.domain) × (r.1.domain ≡ r.2.domain)) }
{
    let Made {
        mut cpus,
        engine,
        ..
    } = make(alloc, 2, LIMITS)?;
    let Ok((station, mut seats)) = Station::new(alloc, GracePeriods::new(engine), 2) else {
        return Err(MakeError::Memory);
    };
    let second = cpus.pop().unwrap();
    let first = cpus.pop().unwrap();
    let right = seats.pop().unwrap();
    let left = seats.pop().unwrap();
    Ok((first, second, station, left, right))
}

/// Advances once the other thread has the engine, and gives the sign. Tells what it was answered.
fn advance_beside<'a, R: Clock>(
    rt: &R,
    station: &Station,
    seat: &mut StationSeat,
    cpu: &mut Cpu,
    needs: &mut Waits<'a, R>,
) -> Result<Progress, AdvanceRefusal>
    requires seat { (seat.old.bay ≡ station.now.bay) × (cpu.old.domain ≡ seat.old.domain) × (holds seat.old ≡ false) }
    ensures seat { (seat.new.bay ≡ station.now.bay) × (cpu.new.domain ≡ seat.new.domain) × (holds seat.new ≡ false) }
{
    look_for(rt, &needs.signs.inside);
    let answer = seat.advance(station, cpu, needs);
    needs.signs.busy.store(true, SeqCst);
    answer
}

/// One thread's `advance` has the engine until another thread's has answered that it is busy. Would catch a call that
/// waits for the engine, one that drives what another one has, and an engine that isn't put back.
#[test]
fn engine_busy(rt: HostRuntime) -> Result<(), Fail> {
    let signs = Signs {
        inside: AtomicBool::new(false),
        busy: AtomicBool::new(false),
    };
    let needs = || Waits {
        rt: &rt,
        signs: &signs,
        told: false,
    };
    let (mut first, mut second, station, mut left, mut right) = two_seats(rt.alloc())?;
    let mut here = needs();
    let mut there = needs();
    let (idle, busy) = join(
        &rt,
        || left.advance(&station, &mut first, &mut here),
        || advance_beside(&rt, &station, &mut right, &mut second, &mut there),
    );
    assert_eq!(rt;
        (idle, busy),
        (Ok(Progress::Idle), Err(AdvanceRefusal::Busy))
    );
    assert_eq!(rt; (here.told, there.told), (true, false));
    Ok(())
}

/// Advances from a seat with a processor.
fn advance(
    seat: &mut StationSeat,
    station: &Station,
    cpu: &mut Cpu,
    need: u64,
) -> Result<Progress, AdvanceRefusal>
    requires seat { (seat.old.bay ≡ station.now.bay) × (cpu.old.domain ≡ seat.old.domain) × (holds seat.old ≡ false) }
    ensures seat { (seat.new.bay ≡ station.now.bay) × (cpu.new.domain ≡ seat.new.domain) × (holds seat.new ≡ false) }
{
    seat.advance(station, cpu, &mut Asks(number(need)))
}

/// Has the engine go on from answer to answer, from a seat with a processor.
fn carry_on(
    seat: &mut StationSeat,
    station: &Station,
    cpu: &mut Cpu,
    need: u64,
) -> Result<Progress, AdvanceRefusal>
    requires seat { (seat.old.bay ≡ station.now.bay) × (cpu.old.domain ≡ seat.old.domain) × (holds seat.old ≡ false) }
    ensures seat { (seat.new.bay ≡ station.now.bay) × (cpu.new.domain ≡ seat.new.domain) × (holds seat.new ≡ false) }
{
    seat.drive(station, cpu, &mut Asks(number(need)), Pace::Period)
}

/// Starts a period from a seat with a processor.
fn start(seat: &mut StationSeat, station: &Station, cpu: &mut Cpu) -> Result<Number, StartRefusal>
    requires seat { (seat.old.bay ≡ station.now.bay) × (cpu.old.domain ≡ seat.old.domain) × (holds seat.old ≡ false) }
    ensures seat { (seat.new.bay ≡ station.now.bay) × (cpu.new.domain ≡ seat.new.domain) × (holds seat.new ≡ false) }
{
    seat.start(station, cpu)
}

/// Would catch a refusal behind which the engine does not lie there, and an answer that no clause tells apart from another.
#[test]
fn taken_in_turn(rt: HostRuntime) -> Result<(), Fail> {
    let (mut first, mut second, station, mut left, mut right) = two_seats(rt.alloc())?;
    let started = advance(&mut left, &station, &mut first, 8);
    let running = start(&mut right, &station, &mut second);
    let flipped = advance(&mut left, &station, &mut first, 0);
    let ended = advance(&mut right, &station, &mut second, 0);
    let exhausted = start(&mut left, &station, &mut first);
    let refused = advance(&mut right, &station, &mut second, 8);
    let idle = advance(&mut left, &station, &mut first, 4);
    assert_eq!(rt;
        (running, exhausted),
        (Err(StartRefusal::Running), Err(StartRefusal::Exhausted))
    );
    assert_eq!(rt;
        [started, flipped, ended, refused, idle],
        [
            Ok(Progress::Started(number(1))),
            Ok(Progress::Flipped(Index::One)),
            Ok(Progress::Ended(number(4))),
            Err(AdvanceRefusal::Exhausted),
            Ok(Progress::Idle),
        ]
    );
    Ok(())
}

/// Would catch a call that puts the engine back in the middle of a period, and one that goes on behind its end: that one
/// would find that no more may start.
#[test]
fn whole_period_at_once(rt: HostRuntime) -> Result<(), Fail> {
    let (mut first, mut second, station, mut left, mut right) = two_seats(rt.alloc())?;
    let ended = carry_on(&mut left, &station, &mut first, 8);
    let refused = carry_on(&mut right, &station, &mut second, 8);
    let idle = carry_on(&mut left, &station, &mut first, 4);
    assert_eq!(rt;
        [ended, refused, idle],
        [
            Ok(Progress::Ended(number(4))),
            Err(AdvanceRefusal::Exhausted),
            Ok(Progress::Idle),
        ]
    );
    Ok(())
}

/// Would catch a tie that is refused while nobody has the engine, and a step that makes more than one.
#[test]
fn steps_from_a_station(rt: HostRuntime) -> Result<(), Fail> {
    let (mut first, mut second, station, mut left, mut right) = two_seats(rt.alloc())?;
    let tied = left.tie(&station, &mut first);
    let wanted = right.step(&station, &mut second, &mut Asks(number(4)));
    let started = left.start(&station, &mut first);
    assert_eq!(rt;
        (tied, wanted, started),
        (Ok(()), Ok(Progress::Step), Ok(number(1)))
    );
    Ok(())
}

/// Would catch a call that has an answer while another seat has the engine.
#[test]
fn busy_while_it_is_out(rt: HostRuntime) -> Result<(), Fail> {
    let (mut first, mut second, station, mut left, mut right) = two_seats(rt.alloc())?;
    let mut needs = Asks(number(4));
    let Some(engine) = left.take(&station) else {
        panic!(rt; "it lies there from the start");
    };
    let step = right.step(&station, &mut second, &mut needs);
    let advance = right.advance(&station, &mut second, &mut needs);
    let start = right.start(&station, &mut second);
    let tie = right.tie(&station, &mut second);
    left.put(&station, engine);
    assert_eq!(rt;
        [step, advance],
        [Err(AdvanceRefusal::Busy), Err(AdvanceRefusal::Busy)]
    );
    assert_eq!(rt; (start, tie), (Err(StartRefusal::Busy), Err(Busy)));
    left.tie_seat(&mut right, &station);
    assert_eq!(rt; left.start(&station, &mut first), Ok(number(1)));
    Ok(())
}

/// Would catch another number or another text of a refusal: callers hand both on.
#[test]
fn numbers_and_texts_of_refusals(rt: HostRuntime) -> Result<(), Fail> {
    let advance = [AdvanceRefusal::Busy as u8, AdvanceRefusal::Exhausted as u8];
    let start = [
        StartRefusal::Busy as u8,
        StartRefusal::Running as u8,
        StartRefusal::Exhausted as u8,
    ];
    assert_eq!(rt; (advance, start), ([1, 2], [1, 2, 3]));
    let advance = format!(in rt.alloc();
        "{}; {}",
        AdvanceRefusal::Busy,
        AdvanceRefusal::Exhausted
    )?;
    assert_eq!(rt;
        advance.as_str(),
        "another call has the engine: call again; no more grace periods may start: make a new domain"
    );
    let (busy, running, exhausted) = (
        StartRefusal::Busy,
        StartRefusal::Running,
        StartRefusal::Exhausted,
    );
    let start = format!(in rt.alloc(); "{busy}; {running}; {exhausted}")?;
    assert_eq!(rt;
        start.as_str(),
        "another call has the engine: call again; a grace period runs: drive it to its end before; \
         no more grace periods may start: make a new domain"
    );
    Ok(())
}
