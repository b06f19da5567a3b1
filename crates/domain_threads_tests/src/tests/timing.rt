//! Limits of time by a clock that the tests set, and what a thread does while it waits.
ghost use Rattle.domain.specs.Views.{IsOf};
ghost use Rattle.domain.specs.Waiting.{HasNoneOpen};

use super::barriers::queue;
use super::limited::long;
use domain::{Cpu, Domain, MakeError, WaitRefusal};
use fixtures::two;
use refusing::clocks::{Ticks, Watch};
use std::sync::Wait;
use std::sync::atomic::AtomicU64;
use std::sync::atomic::Ordering::SeqCst;
use std::test::Fail;
use std::thread::{join, sleep};
use std::time::{Clock, CpuClock, Duration};

/// How often the clock can be looked at: more often than any of these waits looks.
const LOOKS: u64 = 5_000;

/// How often a thread looks for the other, with a sleep of a tenth of a millisecond after each look.
const TIMES: u32 = 100_000;

/// Waits so long beside an open section. Tells whether the time was over.
fn wait_for_section<R: Wait + Clock>(
    rt: &R,
    domain: &Domain<()>,
    reader: &mut Cpu<()>,
    cpu: &mut Cpu<()>,
    limit: Duration,
) -> Option<bool>
    requires reader { IsOf domain.now reader.old }
    requires cpu { IsOf domain.now cpu.old × HasNoneOpen cpu.old }
{
    let Ok(section) = reader.read_lock() else {
        return None;
    };
    let waited = domain.synchronize_for(rt, cpu, limit);
    reader.read_unlock(section);
    Some(match waited {
        Err(WaitRefusal::TimedOut(_)) => true,
        _ => false,
    })
}

/// Waits so long for a job that stays queued. Tells whether the time was over.
fn wait_for_job<R: Wait + Clock>(
    rt: &R,
    domain: &Domain<()>,
    cpu: &mut Cpu<()>,
    limit: Duration,
) -> Option<bool>
    requires { IsOf domain.now cpu.old × HasNoneOpen cpu.old }
{
    let queued = queue(rt, domain, cpu);
    let Ok(ticket) = domain.barrier_start(cpu) else {
        return None;
    };
    let waited = domain.barrier_for(rt, cpu, &ticket, limit);
    Some(queued && waited.is_err())
}

/// Both waits in a new domain, each with how often it looked at a clock that can be read so often.
type Both = [(Option<bool>, u64); 2];

fn wait_for_both<R: Wait + AllocGlobal>(
    rt: &R,
    limit: Duration,
    most: u64,
) -> Result<Both, MakeError> {
    let (domain, mut reader, mut cpu, _) = two(rt.alloc(), 2)?;
    let clock = Ticks::new(rt, most);
    let section = wait_for_section(&clock, &domain, &mut reader, &mut cpu, limit);
    let looks = clock.looks.swap(0, SeqCst);
    let (domain, _reader, mut cpu, _) = two(rt.alloc(), 2)?;
    let job = wait_for_job(&clock, &domain, &mut cpu, limit);
    Ok([(section, looks), (job, clock.looks.load(SeqCst))])
}

/// Would catch a limit that is a hundredfold or endless, or over at once: the first look is the call's begin.
#[test]
fn a_limit_is_as_long_as_it_says(rt: HostRuntime) -> Result<(), Fail> {
    for limit in [0, 1, 10, 200] {
        let waited = wait_for_both(&rt, Duration::from_millis(limit), LOOKS)?;
        let looks = limit.max(1) + 1;
        assert_eq!(rt; waited, [(Some(true), looks); 2], "at {limit}");
    }
    Ok(())
}

/// Would catch a wait that goes on where the clock can't be read, from the start on or from then on.
#[test]
fn without_a_clock(rt: HostRuntime) -> Result<(), Fail> {
    for most in [0, 1, 7] {
        let waited = wait_for_both(&rt, long(), most)?;
        assert_eq!(rt; waited, [(Some(true), most + 1); 2], "at {most}");
    }
    Ok(())
}

/// Waits by such a clock for so many looks. Tells whether the thread slept meanwhile, and how it ended.
fn wait_for_looks<R: Wait + Clock + CpuClock + AllocGlobal>(
    rt: &R,
    looks: u64,
) -> Result<(Option<bool>, bool, bool), MakeError> {
    let (domain, mut reader, mut cpu, _) = two(rt.alloc(), 2)?;
    let clock = Ticks::new(rt, LOOKS);
    let watch = Watch::start(rt);
    let limit = Duration::from_millis(looks);
    let waited = wait_for_section(&clock, &domain, &mut reader, &mut cpu, limit);
    Ok((waited, watch.has_slept(rt), watch.took(rt, 500, 30_000)))
}

/// Would catch a wait that never sleeps, whose sleeps don't grow, or grow to a minute.
#[test]
fn sleeps_a_millisecond_in_the_end(rt: HostRuntime) -> Result<(), Fail> {
    assert_eq!(rt; wait_for_looks(&rt, 3_000)?, (Some(true), true, true));
    Ok(())
}

/// Holds a section for a while.
fn hold_section<R: Clock>(rt: &R, mut cpu: Cpu<()>, begun: &AtomicU64) {
    let section = cpu.read_lock();
    begun.store(1, SeqCst);
    sleep(rt, Duration::from_millis(300));
    if let Ok(section) = section {
        cpu.read_unlock(section);
    }
}

/// Looks until there is a section to wait for. Answers whether it came to that.
fn look_for_begin<R: Clock>(rt: &R, begun: &AtomicU64) -> bool {
    for _ in 0..TIMES {
        if begun.load(SeqCst) == 1 {
            return true;
        }
        sleep(rt, Duration::from_micros(100));
    }
    false
}

/// Waits for that section's end. Tells whether it slept meanwhile.
fn wait_asleep<R: Wait + Clock + CpuClock>(
    rt: &R,
    domain: &Domain<()>,
    mut cpu: Cpu<()>,
    begun: &AtomicU64,
) -> bool
    requires { IsOf domain.now cpu × HasNoneOpen cpu }
{
    let begun = look_for_begin(rt, begun);
    let watch = Watch::start(rt);
    let waited = domain.synchronize(rt, &mut cpu).is_ok();
    begun && waited && watch.has_slept(rt)
}

/// Would catch a `synchronize` that is at work as long as a reader is.
#[test]
fn synchronize_sleeps(rt: HostRuntime) -> Result<(), Fail> {
    let (domain, reader, updater, _) = two(rt.alloc(), 2)?;
    let begun = AtomicU64::new(0);
    let ((), slept) = join(
        &rt,
        || hold_section(&rt, reader, &begun),
        || wait_asleep(&rt, &domain, updater, &begun),
    );
    assert!(rt; slept);
    Ok(())
}
