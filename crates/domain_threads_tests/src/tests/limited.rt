//! Waits up to a limit of time, each beside a thread that ends what it waits for.
ghost use Rattle.domain.specs.Views.{IsOf};
ghost use Rattle.domain.specs.Waiting.{HasNoneOpen};

use super::barriers::queue;
use domain::{Cpu, Domain, TimedOut, WaitRefusal};
use fixtures::two;
use std::sync::Wait;
use std::sync::atomic::AtomicU64;
use std::sync::atomic::Ordering::SeqCst;
use std::test::Fail;
use std::thread::{join, sleep};
use std::time::{Clock, Duration, Instant};

/// How often a thread looks for the other, with a sleep of a tenth of a millisecond after each look.
const LOOKS: u32 = 100_000;

/// What the two threads tell each other.
#[derive(Drop)]
struct Signs {
    /// 1 from when there is something to wait for.
    begun: AtomicU64,
    /// 1 from just before that ends.
    ending: AtomicU64,
}

impl Signs {
    fn new() -> Signs {
        Signs {
            begun: AtomicU64::new(0),
            ending: AtomicU64::new(0),
        }
    }
}

/// Looks until there is something to wait for. Answers whether it came to that.
fn look_for_begin<R: Clock>(rt: &R, signs: &Signs) -> bool {
    for _ in 0..LOOKS {
        if signs.begun.load(SeqCst) == 1 {
            return true;
        }
        sleep(rt, Duration::from_micros(100));
    }
    false
}

/// Sleeps as long as what is waited for takes.
fn take_a_while<R: Clock>(rt: &R) {
    sleep(rt, Duration::from_millis(20));
}

/// Holds a section for a while.
fn hold_section<R: Clock>(rt: &R, mut cpu: Cpu<()>, signs: &Signs) {
    let Ok(section) = cpu.read_lock() else {
        return;
    };
    signs.begun.store(1, SeqCst);
    take_a_while(rt);
    signs.ending.store(1, SeqCst);
    cpu.read_unlock(section);
}

/// Waits for the section's end once it is open. Tells whether the wait went well, and whether the section was about to close when
/// it came back.
fn wait_for_section<R: Wait + Clock>(
    rt: &R,
    domain: &Domain<()>,
    mut cpu: Cpu<()>,
    signs: &Signs,
) -> (bool, bool)
    requires { IsOf domain.now cpu × HasNoneOpen cpu }
{
    let begun = look_for_begin(rt, signs);
    let waited = domain.synchronize_for(rt, &mut cpu, long()).is_ok();
    (begun && waited, signs.ending.load(SeqCst) == 1)
}

/// Would catch a wait that takes its limit for over at once, or that comes back as if its period had ended.
#[test]
fn waits_for_a_section(rt: HostRuntime) -> Result<(), Fail> {
    let (domain, reader, updater, _) = two(rt.alloc(), 2)?;
    let signs = Signs::new();
    let ((), waited) = join(
        &rt,
        || hold_section(&rt, reader, &signs),
        || wait_for_section(&rt, &domain, updater, &signs),
    );
    assert_eq!(rt; waited, (true, true));
    Ok(())
}

/// Queues a job and waits until it is finished. Tells whether the wait went well, and whether the job was about to run when it came
/// back.
fn wait_for_job<R: Wait + Clock>(
    rt: &R,
    domain: &Domain<()>,
    mut cpu: Cpu<()>,
    signs: &Signs,
) -> (bool, bool)
    requires { IsOf domain.now cpu × HasNoneOpen cpu }
{
    let queued = queue(rt, domain, &mut cpu);
    let Ok(ticket) = domain.barrier_start(&mut cpu) else {
        return (false, false);
    };
    signs.begun.store(1, SeqCst);
    let waited = domain.barrier_for(rt, &mut cpu, &ticket, long()).is_ok();
    (queued && waited, signs.ending.load(SeqCst) == 1)
}

/// Runs what is ready on the first processor. Tells how many jobs there were.
fn run_ready<R: Wait>(rt: &R, domain: &Domain<()>, cpu: &mut Cpu<()>) -> usize
    requires { IsOf domain.now cpu.old }
    ensures { IsOf domain.now cpu.new }
{
    let Ok(Some(mut batch)) = domain.take_ready(rt, cpu, 0, 8) else {
        return 0;
    };
    let count = batch.count();
    while let Some(()) = batch.next() {}
    domain.finish(rt, cpu, batch);
    count
}

/// Drives, and runs the job after a while. Tells how many it ran.
fn run_later<R: Wait + Clock>(rt: &R, domain: &Domain<()>, mut cpu: Cpu<()>, signs: &Signs) -> usize
    requires { IsOf domain.now cpu × HasNoneOpen cpu }
{
    if !look_for_begin(rt, signs) {
        return 0;
    }
    take_a_while(rt);
    if domain.synchronize(rt, &mut cpu).is_err() {
        return 0;
    }
    signs.ending.store(1, SeqCst);
    run_ready(rt, domain, &mut cpu)
}

/// The same of a barrier, and one that drives or runs nothing itself.
#[test]
fn waits_for_a_job(rt: HostRuntime) -> Result<(), Fail> {
    let (domain, waiter, runner, _) = two(rt.alloc(), 2)?;
    let signs = Signs::new();
    let (waited, count) = join(
        &rt,
        || wait_for_job(&rt, &domain, waiter, &signs),
        || run_later(&rt, &domain, runner, &signs),
    );
    assert_eq!(rt; (waited, count), ((true, true), 1));
    Ok(())
}

/// A time that is over before a section ends that waits for it.
fn short() -> Duration {
    Duration::from_millis(3)
}

/// And one that isn't over in any of these tests.
pub(super) fn long() -> Duration {
    Duration::from_secs(100)
}

/// Whether a wait that began then took as long as the short time, and less than four seconds.
fn took_short<R: Clock>(rt: &R, start: Option<Instant>) -> bool {
    let Some(start) = start else {
        return false;
    };
    match start.elapsed(rt) {
        Ok(elapsed) => short() <= elapsed && elapsed < Duration::from_secs(4),
        Err(_) => false,
    }
}

/// Waits with a section open on another processor, and polls the cookie then, before and after the section's end and another
/// wait. Tells whether the first wait timed out in time and the second did not, and what the polls answer.
fn wait_beside_a_section<R: Wait + Clock>(
    rt: &R,
    domain: &Domain<()>,
    reader: &mut Cpu<()>,
    updater: &mut Cpu<()>,
) -> Option<([bool; 2], [bool; 2])>
    requires reader { IsOf domain.now reader.old }
    requires updater { IsOf domain.now updater.old × HasNoneOpen updater.old }
{
    let Ok(section) = reader.read_lock() else {
        return None;
    };
    let start = Instant::now(rt).ok();
    let waited = domain.synchronize_for(rt, updater, short());
    let in_time = took_short(rt, start);
    reader.read_unlock(section);
    let Err(WaitRefusal::TimedOut(mut cookie)) = waited else {
        return None;
    };
    let early = updater.poll(&mut cookie);
    let driven = domain.synchronize_for(rt, updater, long()).is_ok();
    let late = updater.poll(&mut cookie);
    Some(([in_time, driven], [early, late]))
}

/// Would catch a wait that comes back as if its grace period had ended, too early or too late, or whose cookie is another one,
/// and one that gives up where nothing holds it up.
#[test]
fn waits_no_longer(rt: HostRuntime) -> Result<(), Fail> {
    let (domain, mut reader, mut updater, _) = two(rt.alloc(), 2)?;
    let told = wait_beside_a_section(&rt, &domain, &mut reader, &mut updater);
    assert_eq!(rt; told, Some(([true, true], [false, true])));
    Ok(())
}

/// Waits for a job on the first processor, before it is run and after. Tells what the waits answer, whether the first one took its
/// time, and how many jobs were run.
fn wait_beside_a_job<R: Wait + Clock>(
    rt: &R,
    domain: &Domain<()>,
    runner: &mut Cpu<()>,
    waiter: &mut Cpu<()>,
) -> Option<([Result<(), TimedOut>; 2], bool, usize)>
    requires runner { IsOf domain.now runner.old }
    requires waiter { IsOf domain.now waiter.old × HasNoneOpen waiter.old }
{
    let Ok(_receipt) = domain.call(rt, runner, ()) else {
        return None;
    };
    let Ok(ticket) = domain.barrier_start(runner) else {
        return None;
    };
    let start = Instant::now(rt).ok();
    let early = domain.barrier_for(rt, waiter, &ticket, short());
    let in_time = took_short(rt, start);
    let Ok(()) = domain.synchronize(rt, waiter) else {
        return None;
    };
    let count = run_ready(rt, domain, runner);
    let late = domain.barrier_for(rt, waiter, &ticket, long());
    Some(([early, late], in_time, count))
}

/// Would catch a barrier that comes back as if its job was run, too early or too late, or that gives up where it is done.
#[test]
fn waits_no_longer_for_a_job(rt: HostRuntime) -> Result<(), Fail> {
    let (domain, mut runner, mut waiter, _) = two(rt.alloc(), 2)?;
    let told = wait_beside_a_job(&rt, &domain, &mut runner, &mut waiter);
    assert_eq!(rt; told, Some(([Err(TimedOut), Ok(())], true, 1)));
    Ok(())
}
