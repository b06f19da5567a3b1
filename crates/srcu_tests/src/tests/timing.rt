//! Limits of a worker's waits, by a clock that the tests set and by the machine's.
ghost use Rattle.std.specs.Prelude.{◌≡◌};

use refusing::clocks::{Ticks, Watch};
use srcu::{Refusal, Team, WIDEST, WaitRefusal, Worker, make};
use std::sync::Wait;
use std::sync::atomic::Ordering::SeqCst;
use std::test::Fail;
use std::time::{Clock, CpuClock, Duration};

/// How often the clock can be looked at: more often than any of these waits looks.
const LOOKS: u64 = 5_000;

/// Waits so long beside an open section of another worker. Tells whether the time was over.
fn wait_for_section<R: Wait + Clock>(
    rt: &R,
    worker: &mut Worker<'_, u64>,
    other: &mut Worker<'_, u64>,
    limit: Duration,
) -> Result<bool, Refusal>
    requires { other.old.domain ≡ worker.old.domain }
    ensures worker { worker.new.domain ≡ worker.old.domain }
{
    let held = other.down_read()?;
    let waited = worker.synchronize_for(rt, limit);
    other.up_read(held);
    match waited {
        Ok(()) => Ok(false),
        Err(WaitRefusal::TimedOut(_)) => Ok(true),
        Err(WaitRefusal::Exhausted) => Err(Refusal::Periods),
    }
}

/// Waits so long for a job that stays queued. Tells whether the time was over.
fn wait_for_job<R: Wait + Clock>(
    rt: &R,
    worker: &mut Worker<'_, u64>,
    limit: Duration,
) -> Result<bool, Refusal> {
    worker.call(rt, 7)?;
    let ticket = worker.barrier_start()?;
    Ok(worker.barrier_for(rt, &ticket, limit).is_err())
}

/// Both waits, each with how often it looked at a clock that can be read so often.
type Both = [(bool, u64); 2];

fn wait_for_both<R: Wait + AllocGlobal>(
    rt: &R,
    limit: Duration,
    most: u64,
) -> Result<Both, Refusal> {
    let (domain, cpus, writers) = make(rt.alloc(), 2, WIDEST)?;
    let mut team = Team::new(&domain, cpus, writers);
    let mut one = team.worker().ok_or(Refusal::NoWorker)?;
    let mut other = team.worker().ok_or(Refusal::NoWorker)?;
    let clock = Ticks::new(rt, most);
    let section = wait_for_section(&clock, &mut one, &mut other, limit)?;
    let looks = clock.looks.swap(0, SeqCst);
    let job = wait_for_job(&clock, &mut one, limit)?;
    Ok([(section, looks), (job, clock.looks.load(SeqCst))])
}

/// Would catch a limit that is a hundredfold or endless, or over at once: the first look is the call's begin.
#[test]
fn a_limit_is_as_long_as_it_says(rt: HostRuntime) -> Result<(), Fail> {
    for limit in [0, 1, 10, 200] {
        match wait_for_both(&rt, Duration::from_millis(limit), LOOKS) {
            Ok(waited) => assert_eq!(rt; waited, [(true, limit.max(1) + 1); 2], "at {limit}"),
            Err(refusal) => panic!(rt; "{refusal}"),
        }
    }
    Ok(())
}

/// Would catch a wait that goes on where the clock can't be read.
#[test]
fn without_a_clock(rt: HostRuntime) -> Result<(), Fail> {
    match wait_for_both(&rt, Duration::from_secs(1_000_000_000), 3) {
        Ok(waited) => assert_eq!(rt; waited, [(true, 4); 2]),
        Err(refusal) => panic!(rt; "{refusal}"),
    }
    Ok(())
}

/// How both waits ended by the machine's clock, and whether each took a tenth of a second or longer, and less than half a minute.
fn wait_for_a_while<R: Wait + Clock + CpuClock + AllocGlobal>(
    rt: &R,
) -> Result<[(bool, bool); 2], Refusal> {
    let (domain, cpus, writers) = make(rt.alloc(), 2, WIDEST)?;
    let mut team = Team::new(&domain, cpus, writers);
    let mut one = team.worker().ok_or(Refusal::NoWorker)?;
    let mut other = team.worker().ok_or(Refusal::NoWorker)?;
    let limit = Duration::from_millis(100);
    let first = Watch::start(rt);
    let section = wait_for_section(rt, &mut one, &mut other, limit)?;
    let after_section = first.took(rt, 100, 30_000);
    let second = Watch::start(rt);
    let job = wait_for_job(rt, &mut one, limit)?;
    Ok([
        (section, after_section),
        (job, second.took(rt, 100, 30_000)),
    ])
}

/// The same, of time that passes.
#[test]
fn a_limit_is_time(rt: HostRuntime) -> Result<(), Fail> {
    match wait_for_a_while(&rt) {
        Ok(waited) => assert_eq!(rt; waited, [(true, true); 2]),
        Err(refusal) => panic!(rt; "{refusal}"),
    }
    Ok(())
}
