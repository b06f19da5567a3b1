//! Grace periods that are driven through a domain, and waited for.
ghost use Rattle.std.specs.Prelude.{◌≡◌, IfOk};
ghost use Rattle.domain.specs.Views.{IsOf};
ghost use Rattle.domain.specs.Turns.{AdvancesIn};
ghost use Rattle.domain.specs.Waiting.{HasNoneOpen};
ghost use Rattle.srcubench.specs.Driving.{TurnsOnce, DrivesPeriod, DrivesPeriods, DrivesAtOnce, DrivesAllAtOnce, WaitsAll, HaveWaited, HaveDriven, HaveDrivenAtOnce};

use crate::work::Timed;
use anyhow::Result;
use domain::{AdvanceRefusal, Cpu, Domain, Limits, PeriodsExhausted, Progress, StartRefusal};
use std::alloc::Allocator;
use std::error::Error;
use std::fmt;
use std::sync::Wait;
use std::time::{Clock, Instant};

/// What stopped the engine where nobody reads and nobody else drives it.
#[derive(Clone, Copy, Debug, PartialEq, Eq)]
pub enum Halt {
    /// No grace period was started.
    NotStarted(StartRefusal),
    /// The engine was refused.
    Refused(AdvanceRefusal),
    /// The engine answered something else than what comes next.
    Answered(Progress),
}

impl fmt::Display for Halt {
    fn fmt<W: fmt::Write>(&self, f: &mut fmt::Formatter<W>) -> fmt::Result {
        match self {
            Halt::NotStarted(refusal) => write!(f, "{refusal}"),
            Halt::Refused(refusal) => write!(f, "{refusal}"),
            Halt::Answered(other) => write!(f, "the engine answered {other:?}"),
        }
    }
}

impl Error for Halt {}

/// The engine's next answer.
fn answer<A: Allocator>(domain: &Domain<(), A>, cpu: &mut Cpu<(), A>) -> Result<Progress, Halt>
    requires { IsOf domain.now cpu.old }
    ensures here { IsOf domain.now cpu.new }
    ensures advances { IfOk result (λ answer. AdvancesIn cpu.old answer cpu.new) }
{
    match domain.advance(cpu) {
        Ok(answer) => Ok(answer),
        Err(refusal) => Err(Halt::Refused(refusal)),
    }
}

/// One turn of the engine, whatever it answers.
pub fn turn_once<J, A: Allocator>(
    domain: &Domain<J, A>,
    cpu: &mut Cpu<J, A>,
) -> Result<(), AdvanceRefusal>
    requires { IsOf domain.now cpu.old }
    ensures here { IsOf domain.now cpu.new }
    ensures turns { IfOk result (λ _. TurnsOnce cpu.old cpu.new) }
{
    domain.advance(cpu)?;
    Ok(())
}

/// Starts a grace period, and has the engine carry it to its end: three turns of the engine.
pub fn drive_period<A: Allocator>(domain: &Domain<(), A>, cpu: &mut Cpu<(), A>) -> Result<(), Halt>
    requires { IsOf domain.now cpu.old }
    ensures here { IsOf domain.now cpu.new }
    ensures drives { IfOk result (λ _. DrivesPeriod cpu.old cpu.new) }
{
    if let Err(refusal) = domain.start(cpu) {
        return Err(Halt::NotStarted(refusal));
    }
    match answer(domain, cpu)? {
        Progress::Flipped(_) => {}
        other => return Err(Halt::Answered(other)),
    }
    match answer(domain, cpu)? {
        Progress::Ended(_) => Ok(()),
        other => Err(Halt::Answered(other)),
    }
}

/// The same, for who hands on whatever stopped it.
pub fn drive_one<A: Allocator>(domain: &Domain<(), A>, cpu: &mut Cpu<(), A>) -> Result<()>
    requires { IsOf domain.now cpu.old }
    ensures here { IsOf domain.now cpu.new }
    ensures drives { IfOk result (λ _. DrivesPeriod cpu.old cpu.new) }
{
    drive_period(domain, cpu)?;
    Ok(())
}

/// Drives so many grace periods, one behind the other.
pub fn drive_periods<A: Allocator>(
    domain: &Domain<(), A>,
    cpu: &mut Cpu<(), A>,
    periods: u64,
) -> Result<(), Halt>
    requires { IsOf domain.now cpu.old }
    ensures here { IsOf domain.now cpu.new }
    ensures drives { IfOk result (λ _. DrivesPeriods periods cpu.old cpu.new) }
{
    for _ in 0..periods {
        drive_period(domain, cpu)?;
    }
    Ok(())
}

/// Asks for a grace period, and has the engine carry it to its end in one turn.
fn drive_at_once<A: Allocator>(domain: &Domain<(), A>, cpu: &mut Cpu<(), A>) -> Result<(), Halt>
    requires { IsOf domain.now cpu.old }
    ensures here { IsOf domain.now cpu.new }
    ensures drives { IfOk result (λ _. DrivesAtOnce cpu.old cpu.new) }
{
    domain.start_poll(cpu);
    match domain.drive(cpu) {
        Ok(Progress::Ended(_)) => Ok(()),
        Ok(other) => Err(Halt::Answered(other)),
        Err(refusal) => Err(Halt::Refused(refusal)),
    }
}

/// Drives so many grace periods, each in one turn.
fn drive_all_at_once<A: Allocator>(
    domain: &Domain<(), A>,
    cpu: &mut Cpu<(), A>,
    times: u64,
) -> Result<(), Halt>
    requires { IsOf domain.now cpu.old }
    ensures here { IsOf domain.now cpu.new }
    ensures drives { IfOk result (λ _. DrivesAllAtOnce times cpu.old cpu.new) }
{
    for _ in 0..times {
        drive_at_once(domain, cpu)?;
    }
    Ok(())
}

/// Waits so many times, one behind the other.
pub fn wait_often<R: Wait, A: Allocator>(
    rt: &R,
    domain: &Domain<(), A>,
    cpu: &mut Cpu<(), A>,
    times: u64,
) -> Result<(), PeriodsExhausted>
    requires domain { IsOf domain.now cpu.old }
    requires none { HasNoneOpen cpu.old }
    ensures here { IsOf domain.now cpu.new }
    ensures waits { IfOk result (λ _. WaitsAll times cpu.old cpu.new) }
{
    for _ in 0..times {
        domain.synchronize(rt, cpu)?;
    }
    Ok(())
}

/// Drives so many periods. The `elapsed` is what the clock told, of which no clause speaks.
fn time_periods<R: Clock>(
    rt: &R,
    domain: &Domain<()>,
    cpu: &mut Cpu<()>,
    periods: u64,
) -> Result<Timed>
    requires { IsOf domain.now cpu.old }
    ensures done { IfOk result (λ timed. timed.done ≡ periods) }
    ensures drives { IfOk result (λ _. DrivesPeriods periods cpu.old cpu.new) }
{
    let start = Instant::now(rt)?;
    drive_periods(domain, cpu, periods)?;
    let elapsed = start.elapsed(rt)?;
    Ok(Timed {
        done: periods,
        elapsed,
    })
}

/// The same, with each period asked for and driven in one turn.
fn time_drives<R: Clock>(
    rt: &R,
    domain: &Domain<()>,
    cpu: &mut Cpu<()>,
    periods: u64,
) -> Result<Timed>
    requires { IsOf domain.now cpu.old }
    ensures done { IfOk result (λ timed. timed.done ≡ periods) }
    ensures drives { IfOk result (λ _. DrivesAllAtOnce periods cpu.old cpu.new) }
{
    let start = Instant::now(rt)?;
    drive_all_at_once(domain, cpu, periods)?;
    let elapsed = start.elapsed(rt)?;
    Ok(Timed {
        done: periods,
        elapsed,
    })
}

/// The same with `synchronize`.
fn time_waits<R: Wait + Clock>(
    rt: &R,
    domain: &Domain<()>,
    cpu: &mut Cpu<()>,
    times: u64,
) -> Result<Timed>
    requires domain { IsOf domain.now cpu.old }
    requires none { HasNoneOpen cpu.old }
    ensures done { IfOk result (λ timed. timed.done ≡ times) }
    ensures waits { IfOk result (λ _. WaitsAll times cpu.old cpu.new) }
{
    let start = Instant::now(rt)?;
    wait_often(rt, domain, cpu, times)?;
    let elapsed = start.elapsed(rt)?;
    Ok(Timed {
        done: times,
        elapsed,
    })
}

/// Drives so many periods in a new domain of so many processors.
pub fn run_periods<R: Clock + AllocGlobal>(rt: &R, processors: usize, periods: u64) -> Result<Timed>
    ensures done { IfOk result (λ timed. timed.done ≡ periods) }
    ensures driven { IfOk result (λ _. HaveDriven processors periods) }
{
    let limits = Limits {
        sections: 1,
        periods,
        cells: 0,
        slots: 2,
    };
    let (domain, mut cpus, _) = Domain::<()>::new(rt.alloc(), processors, limits)?;
    let mut cpu = cpus.pop().unwrap();
    time_periods(rt, &domain, &mut cpu, periods)
}

/// The same, with each period asked for and driven in one turn.
pub fn run_drives<R: Clock + AllocGlobal>(rt: &R, processors: usize, periods: u64) -> Result<Timed>
    ensures done { IfOk result (λ timed. timed.done ≡ periods) }
    ensures driven { IfOk result (λ _. HaveDrivenAtOnce processors periods) }
{
    let limits = Limits {
        sections: 1,
        periods,
        cells: 0,
        slots: 2,
    };
    let (domain, mut cpus, _) = Domain::<()>::new(rt.alloc(), processors, limits)?;
    let mut cpu = cpus.pop().unwrap();
    time_drives(rt, &domain, &mut cpu, periods)
}

/// The same with `synchronize`, by one processor.
pub fn run_waits<R: Wait + Clock + AllocGlobal>(
    rt: &R,
    processors: usize,
    times: u64,
) -> Result<Timed>
    ensures done { IfOk result (λ timed. timed.done ≡ times) }
    ensures waited { IfOk result (λ _. HaveWaited processors times) }
{
    let limits = Limits {
        sections: 1,
        periods: times,
        cells: 0,
        slots: 2,
    };
    let (domain, mut cpus, _) = Domain::<()>::new(rt.alloc(), processors, limits)?;
    let mut cpu = cpus.pop().unwrap();
    time_waits(rt, &domain, &mut cpu, times)
}
