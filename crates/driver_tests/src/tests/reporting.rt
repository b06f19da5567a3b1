//! A driver with a report: of a section that sleeps, of none, of two periods, and where nothing is asked for.
ghost use Rattle.std.specs.Prelude.{◌≡◌, IfOk};
ghost use Rattle.driver.specs.Pools.{IsIdle};

use super::sharing::{LOOKS, look_for};
use super::{made, sign_of};
use domain::{Cpu, Domain, Index, MakeError, Pair, Progress};
use driver::{Report, Stall, Stop, Tallied, Tally, serve_with};
use std::alloc::Global;
use std::sync::Wait;
use std::sync::atomic::AtomicU64;
use std::sync::atomic::Ordering::SeqCst;
use std::test::Fail;
use std::thread::{Threads, join, sleep};
use std::time::{Clock, Duration, Instant};

/// After how many milliseconds a grace period that waits is reported, in the test where one waits for longer.
const AFTER: u64 = 5;

/// For how many milliseconds the section sleeps after the reports that are waited for.
const ASLEEP: u64 = 30;

/// What the threads tell each other.
#[derive(Drop)]
struct Signs {
    /// 1 from when the section is open.
    opened: AtomicU64,
    /// How many reports there were.
    reports: AtomicU64,
    /// Of these, how many had one open section, on processor 0 with index 0.
    named: AtomicU64,
    /// The index of the last report, and 2 before the first.
    index: AtomicU64,
    /// The longest wait that a report told, in microseconds.
    waited: AtomicU64,
    /// 1 from when the driver may go on after a report.
    free: AtomicU64,
    /// What the driver has come to.
    tally: Tally,
}

impl Signs {
    fn new(free: u64) -> Signs {
        Signs {
            opened: AtomicU64::new(0),
            reports: AtomicU64::new(0),
            named: AtomicU64::new(0),
            index: AtomicU64::new(2),
            waited: AtomicU64::new(0),
            free: AtomicU64::new(free),
            tally: Tally::new(),
        }
    }
}

/// Looks until a driver's tally has a grace period, which it adds while it runs. Answers whether it came to that.
pub(super) fn look_for_period<R: Clock>(rt: &R, tally: &Tally) -> bool {
    for _ in 0..LOOKS {
        if tally.read().periods > 0 {
            return true;
        }
        sleep(rt, Duration::from_micros(100));
    }
    false
}

/// Sleeps in a section until there were so many reports, and a while longer. Once the driver has ended a grace period, it is
/// told to stop. Answers whether it came to all of that.
fn sleep_in_section<R: Wait + Clock>(
    rt: &R,
    domain: &Domain<u64>,
    mut cpu: Cpu<u64>,
    stop: &Stop<u64>,
    signs: &Signs,
    reports: u64,
) -> bool
    requires { stop.now.domain ≡ domain.now }
{
    let section = cpu.read_lock();
    signs.opened.store(1, SeqCst);
    let heard = look_for(rt, &signs.reports, reports);
    sleep(rt, Duration::from_millis(ASLEEP));
    if let Ok(section) = section {
        cpu.read_unlock(section);
    }
    let ended = look_for_period(rt, &signs.tally);
    stop.give_alone(rt, domain);
    heard && ended
}

/// Notes what a report says.
fn note(signs: &Signs, stall: Stall<'_>) {
    let index = match stall.index {
        Index::Zero => 0,
        Index::One => 1,
    };
    signs.index.store(index, SeqCst);
    let micros = u64::try_from(stall.waited.as_micros()).unwrap_or(u64::MAX);
    signs.waited.fetch_max(micros, SeqCst);
    let open = Pair {
        locks: 1,
        unlocks: 0,
    };
    let none = Pair {
        locks: 0,
        unlocks: 0,
    };
    if (stall.glance.zero.sums(), stall.glance.one.sums()) == (open, none)
        && stall.glance.zero.pair(0) == Some(open)
        && stall.index == Index::Zero
        && stall.waited >= Duration::from_millis(AFTER)
    {
        signs.named.fetch_add(1, SeqCst);
    }
    signs.reports.fetch_add(1, SeqCst);
}

/// Asks for a grace period once the section is open, and drives until it is told to stop. Tells whether it came to its end,
/// and what it tallied.
fn drive_with_report<R: Wait + Clock + AllocGlobal>(
    rt: &R,
    domain: &Domain<u64>,
    mut cpu: Cpu<u64>,
    watcher: Cpu<u64>,
    stop: &Stop<u64>,
    signs: &Signs,
    after: Duration,
) -> (bool, Tallied)
    requires cpu { IsIdle domain.now cpu }
    requires watcher { IsIdle domain.now watcher }
    requires stop { stop.now.domain ≡ domain.now }
{
    let hear = |stall: Stall<'_>| {
        note(signs, stall);
        look_for(rt, &signs.free, 1);
    };
    let mut report = Report::new(rt, &signs.tally, rt.alloc(), watcher, after, hear);
    let opened = look_for(rt, &signs.opened, 1);
    domain.start_poll(&mut cpu);
    let served = serve_with(rt, domain, &mut cpu, stop, |_job: u64| {}, &mut report);
    (opened && served.is_ok(), signs.tally.read())
}

/// A new domain and its four processors.
pub(super) fn four(
    alloc: Global,
) -> Result<(Domain<u64>, Cpu<u64>, Cpu<u64>, (Cpu<u64>, Cpu<u64>)), MakeError>
    ensures first { IfOk result (λ r. IsIdle r.0 r.1 × IsIdle r.0 r.2) }
    ensures rest { IfOk result (λ r. IsIdle r.0 r.3.0 × IsIdle r.0 r.3.1) }
{
    let (domain, mut cpus) = made(alloc, 4)?;
    let fourth = cpus.pop().unwrap();
    let third = cpus.pop().unwrap();
    let second = cpus.pop().unwrap();
    let first = cpus.pop().unwrap();
    Ok((domain, first, second, (third, fourth)))
}

/// What a driver told and tallied, beside a section that sleeps until there were so many reports; and the longest wait of one.
type Told = (bool, Tallied, (u64, u64), Duration);

fn drive_beside_a_section<R: Wait + Clock + Threads + AllocGlobal + Sync>(
    rt: &R,
    after: Duration,
    reports: u64,
) -> Result<Told, MakeError> {
    let (domain, reader, driver, (watcher, _other)) = four(rt.alloc())?;
    let stop = sign_of(rt, &domain)?;
    let signs = Signs::new(1);
    let ((ended, tallied), seen) = join(
        rt,
        || drive_with_report(rt, &domain, driver, watcher, &stop, &signs, after),
        || sleep_in_section(rt, &domain, reader, &stop, &signs, reports),
    );
    let heard = (signs.reports.load(SeqCst), signs.named.load(SeqCst));
    let waited = Duration::from_micros(signs.waited.load(SeqCst));
    Ok((ended && seen, tallied, heard, waited))
}

/// Would catch a report that never comes, comes in each round, or names another processor or index. Also a tally that isn't kept
/// while the driver runs, or tells of a longer wait than there was, and a driver that never sleeps.
#[test]
fn reports_a_section_that_sleeps_once(rt: HostRuntime) -> Result<(), Fail> {
    let after = Duration::from_millis(AFTER);
    let Ok(start) = Instant::now(&rt) else {
        panic!(rt; "there is a clock");
    };
    let (ended, tallied, heard, waited) = drive_beside_a_section(&rt, after, 1)?;
    let Ok(whole) = start.elapsed(&rt) else {
        panic!(rt; "there is a clock");
    };
    assert_eq!(rt; (ended, heard), (true, (1, 1)));
    assert_eq!(rt; (tallied.periods, tallied.jobs, tallied.batches), (1, 0, 0));
    assert!(rt; tallied.turns > 1 && tallied.turns < 10_000);
    assert!(rt; after <= waited && waited <= tallied.longest && tallied.longest <= whole);
    Ok(())
}

/// Would catch a report before its time.
#[test]
fn reports_none_before_its_time(rt: HostRuntime) -> Result<(), Fail> {
    let (ended, tallied, heard, _waited) = drive_beside_a_section(
        &rt,
        Duration::from_secs(100),
        0,
    )?;
    assert_eq!(rt; (ended, heard), (true, (0, 0)));
    assert_eq!(rt; (tallied.periods, tallied.jobs, tallied.batches), (1, 0, 0));
    Ok(())
}

/// Closes its section after the first report, ends the period, and has a second one wait for another section, all before the
/// driver goes on. Closes that one after the second report. Answers whether it came to all of that.
fn sleep_in_two_periods<R: Wait + Clock>(
    rt: &R,
    domain: &Domain<u64>,
    mut reader: Cpu<u64>,
    mut other: Cpu<u64>,
    stop: &Stop<u64>,
    signs: &Signs,
) -> bool
    requires other { IsIdle domain.now other }
    requires stop { stop.now.domain ≡ domain.now }
{
    let first = reader.read_lock();
    signs.opened.store(1, SeqCst);
    let heard = look_for(rt, &signs.reports, 1);
    if let Ok(section) = first {
        reader.read_unlock(section);
    }
    let ended = domain.drive(&mut other);
    let second = reader.read_lock();
    domain.start_poll(&mut other);
    let waiting = domain.drive(&mut other);
    signs.free.store(1, SeqCst);
    let again = look_for(rt, &signs.reports, 2);
    if let Ok(section) = second {
        reader.read_unlock(section);
    }
    stop.give_alone(rt, domain);
    let two = matches!(
        (ended, waiting),
        (Ok(Progress::Ended(_)), Ok(Progress::Waiting(_)))
    );
    heard && two && again
}

/// What a driver with a report came to beside that, how many reports there were, and the index of the last.
fn drive_beside_two_periods<R: Wait + Clock + Threads + AllocGlobal + Sync>(
    rt: &R,
) -> Result<(bool, u64, u64), MakeError> {
    let (domain, reader, driver, (watcher, other)) = four(rt.alloc())?;
    let stop = sign_of(rt, &domain)?;
    let signs = Signs::new(0);
    let after = Duration::from_millis(AFTER);
    let ((ended, _tallied), seen) = join(
        rt,
        || drive_with_report(rt, &domain, driver, watcher, &stop, &signs, after),
        || sleep_in_two_periods(rt, &domain, reader, other, &stop, &signs),
    );
    let reports = signs.reports.load(SeqCst);
    Ok((ended && seen, reports, signs.index.load(SeqCst)))
}

/// Would catch a delay that is taken over from another period, which another driver ended meanwhile: it would be reported
/// already. And a report that always says index 0.
#[test]
fn reports_each_of_two_periods(rt: HostRuntime) -> Result<(), Fail> {
    assert_eq!(rt; drive_beside_two_periods(&rt)?, (true, 2, 1));
    Ok(())
}

/// Sleeps in a section until there was a report, and a while longer. Then has a second period wait for another section, which ends
/// as soon as that is reported. Answers whether it came to all of that.
fn sleep_long_and_short<R: Wait + Clock>(
    rt: &R,
    domain: &Domain<u64>,
    mut reader: Cpu<u64>,
    mut other: Cpu<u64>,
    stop: &Stop<u64>,
    signs: &Signs,
) -> bool
    requires other { IsIdle domain.now other }
    requires stop { stop.now.domain ≡ domain.now }
{
    let first = reader.read_lock();
    signs.opened.store(1, SeqCst);
    let heard = look_for(rt, &signs.reports, 1);
    sleep(rt, Duration::from_millis(ASLEEP));
    if let Ok(section) = first {
        reader.read_unlock(section);
    }
    let ended = look_for_period(rt, &signs.tally);
    let second = reader.read_lock();
    domain.start_poll(&mut other);
    let again = look_for(rt, &signs.reports, 2);
    if let Ok(section) = second {
        reader.read_unlock(section);
    }
    stop.give_alone(rt, domain);
    heard && ended && again
}

/// The longest wait that a driver tallied beside that, and whether it came to all of it.
fn drive_beside_long_and_short<R: Wait + Clock + Threads + AllocGlobal + Sync>(
    rt: &R,
) -> Result<(bool, Duration), MakeError> {
    let (domain, reader, driver, (watcher, other)) = four(rt.alloc())?;
    let stop = sign_of(rt, &domain)?;
    let signs = Signs::new(1);
    let after = Duration::from_millis(AFTER);
    let ((ended, tallied), seen) = join(
        rt,
        || drive_with_report(rt, &domain, driver, watcher, &stop, &signs, after),
        || sleep_long_and_short(rt, &domain, reader, other, &stop, &signs),
    );
    Ok((ended && seen, tallied.longest))
}

/// Would catch a tally that has the last wait in place of the longest.
#[test]
fn tallies_the_longest_wait(rt: HostRuntime) -> Result<(), Fail> {
    let (came, longest) = drive_beside_long_and_short(&rt)?;
    assert!(rt; came && longest >= Duration::from_millis(ASLEEP));
    Ok(())
}

/// Lets a driver alone for 20 milliseconds, and then tells it to stop.
fn tell_later<R: Wait + Clock>(rt: &R, domain: &Domain<u64>, stop: &Stop<u64>)
    requires { stop.now.domain ≡ domain.now }
{
    sleep(rt, Duration::from_millis(20));
    stop.give_alone(rt, domain);
}

/// What a driver with a report came to that ends a grace period which nothing holds up, and has nothing to do then.
fn drive_alone<R: Wait + Clock + Threads + AllocGlobal + Sync>(
    rt: &R,
) -> Result<(bool, Tallied), MakeError> {
    let (domain, _reader, driver, (watcher, _other)) = four(rt.alloc())?;
    let stop = sign_of(rt, &domain)?;
    let signs = Signs::new(1);
    signs.opened.store(1, SeqCst);
    let after = Duration::from_millis(AFTER);
    let (found, ()) = join(
        rt,
        || drive_with_report(rt, &domain, driver, watcher, &stop, &signs, after),
        || tell_later(rt, &domain, &stop),
    );
    Ok(found)
}

/// Would catch a driver that looks again and again where nothing is asked for.
#[test]
fn rests_where_nothing_is_asked(rt: HostRuntime) -> Result<(), Fail> {
    let (ended, tallied) = drive_alone(&rt)?;
    assert_eq!(rt; (ended, tallied.periods), (true, 1));
    assert!(rt; tallied.turns <= 20);
    Ok(())
}
