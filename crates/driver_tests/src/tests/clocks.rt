//! A driver whose report goes by a clock that the test sets: on time, beside another driver, and with no clock.
ghost use Rattle.std.specs.Prelude.{◌≡◌};
ghost use Rattle.std.specs.Thread.{IsSync};
ghost use Rattle.driver.specs.Pools.{IsIdle};

use super::reporting::{four, look_for_period};
use super::sharing::{LOOKS, look_for};
use super::sign_of;
use domain::{Cpu, Domain, MakeError};
use driver::{Report, Stall, Stop, Tally, serve_with};
use refusing::clocks::Ticks;
use std::sync::Wait;
use std::sync::atomic::AtomicU64;
use std::sync::atomic::Ordering::SeqCst;
use std::test::Fail;
use std::thread::{Threads, join, sleep};
use std::time::{Clock, Duration};

/// What the threads tell each other.
#[derive(Drop)]
struct Signs {
    /// 1 from when the section is open.
    opened: AtomicU64,
    /// How many reports there were.
    reports: AtomicU64,
    /// After how many milliseconds of the driver's clock the last one came.
    waited: AtomicU64,
    /// 1 from when the driver is told to stop.
    told: AtomicU64,
    /// How many other drivers are at work.
    beside: AtomicU64,
    /// What the driver has come to.
    tally: Tally,
}

impl Signs {
    fn new() -> Signs {
        Signs {
            opened: AtomicU64::new(0),
            reports: AtomicU64::new(0),
            waited: AtomicU64::new(0),
            told: AtomicU64::new(0),
            beside: AtomicU64::new(0),
            tally: Tally::new(),
        }
    }
}

/// Asks for a grace period once the section is open, and drives until it is told to stop. Its report goes by this clock.
fn drive_by_clock<R: Wait + Clock + AllocGlobal, C: Clock>(
    rt: &R,
    clock: &C,
    domain: &Domain<u64>,
    mut cpu: Cpu<u64>,
    watcher: Cpu<u64>,
    stop: &Stop<u64>,
    signs: &Signs,
    after: Duration,
) -> bool
    requires cpu { IsIdle domain.now cpu }
    requires watcher { IsIdle domain.now watcher }
    requires stop { stop.now.domain ≡ domain.now }
{
    let hear = |stall: Stall<'_>| {
        let millis = u64::try_from(stall.waited.as_millis()).unwrap_or(u64::MAX);
        signs.waited.store(millis, SeqCst);
        signs.reports.fetch_add(1, SeqCst);
    };
    let mut report = Report::new(clock, &signs.tally, rt.alloc(), watcher, after, hear);
    let opened = look_for(rt, &signs.opened, 1);
    domain.start_poll(&mut cpu);
    let served = serve_with(rt, domain, &mut cpu, stop, |_job: u64| {}, &mut report);
    opened && served.is_ok()
}

/// Looks until the driver has made so many turns. Answers whether it came to that.
fn look_for_turns<R: Clock>(rt: &R, tally: &Tally, turns: u64) -> bool {
    for _ in 0..LOOKS {
        if tally.read().turns >= turns {
            return true;
        }
        sleep(rt, Duration::from_micros(100));
    }
    false
}

/// Looks until no other driver is at work. Answers whether it came to that.
fn look_for_none<R: Clock>(rt: &R, beside: &AtomicU64) -> bool {
    for _ in 0..LOOKS {
        if beside.load(SeqCst) == 0 {
            return true;
        }
        sleep(rt, Duration::from_micros(100));
    }
    false
}

/// Stays in a section until there were so many reports, and so many turns. Then the driver ends the period, and is told to
/// stop.
fn stay_for<R: Wait + Clock>(
    rt: &R,
    domain: &Domain<u64>,
    mut cpu: Cpu<u64>,
    stop: &Stop<u64>,
    signs: &Signs,
    least: (u64, u64),
) -> bool
    requires { stop.now.domain ≡ domain.now }
{
    let section = cpu.read_lock();
    signs.opened.store(1, SeqCst);
    let heard = look_for(rt, &signs.reports, least.0);
    let turned = look_for_turns(rt, &signs.tally, least.1);
    signs.told.store(1, SeqCst);
    // Before the section is closed: another driver would end the period that this one is to end.
    let alone = look_for_none(rt, &signs.beside);
    if let Ok(section) = section {
        cpu.read_unlock(section);
    }
    let ended = look_for_period(rt, &signs.tally);
    stop.give_alone(rt, domain);
    heard && turned && alone && ended
}

/// What a driver comes to beside a section that stays for so many reports and turns: whether both ended, how many reports
/// there were, when the last one came, and the longest wait.
type Told = (bool, u64, u64, Duration);

fn drive_beside<R: Wait + Clock + Threads + AllocGlobal + Sync>(
    rt: &R,
    most: u64,
    after: u64,
    least: (u64, u64),
) -> Result<Told, MakeError> {
    let (domain, reader, driver, (watcher, _other)) = four(rt.alloc())?;
    let stop = sign_of(rt, &domain)?;
    let signs = Signs::new();
    let clock = Ticks::new(rt, most);
    let after = Duration::from_millis(after);
    let (ended, stayed) = join(
        rt,
        || drive_by_clock(rt, &clock, &domain, driver, watcher, &stop, &signs, after),
        || stay_for(rt, &domain, reader, &stop, &signs, least),
    );
    let reports = signs.reports.load(SeqCst);
    let waited = signs.waited.load(SeqCst);
    Ok((ended && stayed, reports, waited, signs.tally.read().longest))
}

/// Would catch a report that is early or late, or tells another wait than the one that was over its limit: the driver looks
/// at the clock once as it begins to wait, and once in each turn.
#[test]
fn reports_on_time(rt: HostRuntime) -> Result<(), Fail> {
    for after in [1, 20, 100] {
        let (ended, reports, waited, longest) = drive_beside(&rt, u64::MAX, after, (1, 0))?;
        assert_eq!(rt; (ended, reports, waited), (true, 1, after), "at {after}");
        assert!(rt; longest >= Duration::from_millis(after), "at {after}");
    }
    Ok(())
}

/// Would catch a driver that stops, or tells of a wait, where the clock can't be read: from the start on, or from then on.
#[test]
fn reports_nothing_without_a_clock(rt: HostRuntime) -> Result<(), Fail> {
    let none = Duration::from_millis(0);
    for (most, longest) in [(0, none), (1, none), (6, Duration::from_millis(5))] {
        let told = drive_beside(&rt, most, 10, (0, 100))?;
        assert_eq!(rt; told, (true, 0, 0, longest), "at {most}");
    }
    Ok(())
}

/// Takes the engine again and again, until the driver is told to stop.
fn drive_again(domain: &Domain<u64>, mut cpu: Cpu<u64>, signs: &Signs)
    requires { IsIdle domain.now cpu }
{
    for _ in 0..1_000_000_000_u64 {
        if signs.told.load(SeqCst) == 1 {
            break;
        }
        let _answer = domain.drive(&mut cpu);
    }
    signs.beside.store(0, SeqCst);
}

/// The section, and one that takes the engine.
fn stay_beside<R: Wait + Clock + Threads + Sync>(
    rt: &R,
    domain: &Domain<u64>,
    reader: Cpu<u64>,
    other: Cpu<u64>,
    stop: &Stop<u64>,
    signs: &Signs,
    least: (u64, u64),
) -> bool
    requires other { IsIdle domain.now other }
    requires stop { stop.now.domain ≡ domain.now }
{
    let (stayed, ()) = join(
        rt,
        || stay_for(rt, domain, reader, stop, signs, least),
        || drive_again(domain, other, signs),
    );
    stayed
}

/// Whether a driver reports the wait beside one that has the engine most of the time.
fn drive_beside_another<R: Wait + Clock + Threads + AllocGlobal + Sync>(
    rt: &R,
) -> Result<(bool, u64), MakeError> {
    let (domain, reader, driver, (watcher, other)) = four(rt.alloc())?;
    let stop = sign_of(rt, &domain)?;
    let signs = Signs::new();
    let clock = Ticks::new(rt, u64::MAX);
    let after = Duration::from_millis(200);
    signs.beside.store(1, SeqCst);
    let (ended, stayed) = join(
        rt,
        || drive_by_clock(rt, &clock, &domain, driver, watcher, &stop, &signs, after),
        || -> bool
            requires { IsSync R.row × (IsIdle domain other × (stop.domain ≡ domain)) }
        { stay_beside(rt, &domain, reader, other, &stop, &signs, (1, 0)) },
    );
    Ok((ended && stayed, signs.waited.load(SeqCst)))
}

/// Would catch a driver that forgets since when a period waits, as often as another one has the engine.
#[test]
fn reports_beside_another_driver(rt: HostRuntime) -> Result<(), Fail> {
    assert_eq!(rt; drive_beside_another(&rt)?, (true, 200));
    Ok(())
}
