//! What drivers and takers do while there is nothing to do: they sleep, and whoever has something for them wakes them.
ghost use Rattle.std.specs.Prelude.{◌≡◌};
ghost use Rattle.std.specs.Thread.{IsSync};
ghost use Rattle.driver.specs.Pools.{IsIdle};

use super::sharing::look_for;
use super::{made, pool_of, queue, sign_of};
use domain::{Cpu, Domain, MakeError};
use driver::{Pool, Stop, serve, serve_until};
use fixtures::two;
use refusing::clocks::Watch;
use std::sync::Wait;
use std::sync::atomic::AtomicU64;
use std::sync::atomic::Ordering::SeqCst;
use std::test::Fail;
use std::thread::{Threads, join, sleep};
use std::time::{Clock, CpuClock, Duration};

/// How long the others wait, in milliseconds: so long that a driver or a taker sleeps.
const NAP: u64 = 300;

/// How long a section stays open, in milliseconds: a driver's first sleeps are short.
const STAY: u64 = 2_000;

/// Serves until it is told to stop, and then counts itself. Tells whether it slept most of the time.
fn serve_asleep<R: Wait + Clock + CpuClock>(
    rt: &R,
    domain: &Domain<u64>,
    cpu: &mut Cpu<u64>,
    stop: &Stop<u64>,
    back: &AtomicU64,
) -> bool
    requires idle { IsIdle domain.now cpu.old }
    requires stop { stop.now.domain ≡ domain.now }
{
    let watch = Watch::start(rt);
    let served = serve(rt, domain, cpu, stop, |_job: u64| {}).is_ok();
    let slept = watch.has_slept(rt);
    back.fetch_add(1, SeqCst);
    served && slept
}

/// Tells two drivers to stop, once both sleep. Whether both were back before long; one that wasn't is woken.
fn tell_two<R: Wait + Clock>(
    rt: &R,
    domain: &Domain<u64>,
    stop: &Stop<u64>,
    back: &AtomicU64,
) -> bool
    requires { stop.now.domain ≡ domain.now }
{
    sleep(rt, Duration::from_millis(NAP));
    stop.give_alone(rt, domain);
    let came = look_for(rt, back, 2);
    let _heard = domain.listen();
    domain.ring();
    came
}

/// Two drivers.
fn serve_two<R: Wait + Clock + CpuClock + Threads + Sync>(
    rt: &R,
    domain: &Domain<u64>,
    first: &mut Cpu<u64>,
    second: &mut Cpu<u64>,
    stop: &Stop<u64>,
    back: &AtomicU64,
) -> (bool, bool)
    requires first { IsIdle domain.now first.old }
    requires second { IsIdle domain.now second.old }
    requires stop { stop.now.domain ≡ domain.now }
{
    join(
        rt,
        || serve_asleep(rt, domain, first, stop, back),
        || serve_asleep(rt, domain, second, stop, back),
    )
}

/// Two drivers with nothing to do, and one that tells both to stop. Whether both slept, and whether both were back.
fn stop_two<R: Wait + Clock + CpuClock + Threads + AllocGlobal + Sync>(
    rt: &R,
) -> Result<((bool, bool), bool), MakeError> {
    let (domain, mut first, mut second, _writer) = two(rt.alloc(), 2)?;
    let stop = sign_of(rt, &domain)?;
    let back = AtomicU64::new(0);
    Ok(join(
        rt,
        || serve_two(rt, &domain, &mut first, &mut second, &stop, &back),
        || tell_two(rt, &domain, &stop, &back),
    ))
}

/// Would catch a bell that wakes one of two that sleep, and a driver that is at work where there is nothing to do.
#[test]
fn wakes_both_of_two(rt: HostRuntime) -> Result<(), Fail> {
    assert_eq!(rt; stop_two(&rt)?, ((true, true), true));
    Ok(())
}

/// Stays in a section for a while, and then tells the driver to stop.
fn stay_and_tell<R: Wait + Clock>(
    rt: &R,
    domain: &Domain<u64>,
    cpu: &mut Cpu<u64>,
    stop: &Stop<u64>,
    opened: &AtomicU64,
)
    requires { stop.now.domain ≡ domain.now }
{
    let section = cpu.read_lock();
    opened.store(1, SeqCst);
    sleep(rt, Duration::from_millis(STAY));
    if let Ok(section) = section {
        cpu.read_unlock(section);
    }
    stop.give_alone(rt, domain);
}

/// Which driver waits for the section.
#[derive(Clone, Copy)]
enum Driving {
    /// One that is told to stop.
    UntilTold,
    /// One that serves until its own job has run.
    UntilDone,
}

/// Serves until a job of its own has run. Tells whether it slept most of the time.
fn serve_own<R: Wait + Clock + CpuClock>(rt: &R, domain: &Domain<u64>, cpu: &mut Cpu<u64>) -> bool
    requires idle { IsIdle domain.now cpu.old }
{
    let queued = queue(rt, domain, cpu, 0, 1);
    let Ok(ticket) = domain.barrier_start(cpu) else {
        return false;
    };
    let watch = Watch::start(rt);
    let served = serve_until(rt, domain, cpu, &ticket, |_job: u64| {}).is_ok();
    queued && served && watch.has_slept(rt)
}

/// Asks for a period once the section is open, and drives it. Tells whether it slept most of the time.
fn drive_beside_section<R: Wait + Clock + CpuClock>(
    rt: &R,
    domain: &Domain<u64>,
    cpu: &mut Cpu<u64>,
    stop: &Stop<u64>,
    opened: &AtomicU64,
    driving: Driving,
) -> bool
    requires idle { IsIdle domain.now cpu.old }
    requires stop { stop.now.domain ≡ domain.now }
{
    let begun = look_for(rt, opened, 1);
    let back = AtomicU64::new(0);
    let slept = match driving {
        Driving::UntilTold => {
            domain.start_poll(cpu);
            serve_asleep(rt, domain, cpu, stop, &back)
        }
        Driving::UntilDone => serve_own(rt, domain, cpu),
    };
    begun && slept
}

/// A driver beside a section that stays for a while. Whether it slept most of the time.
fn drive_and_stay<R: Wait + Clock + CpuClock + Threads + AllocGlobal + Sync>(
    rt: &R,
    driving: Driving,
) -> Result<bool, MakeError> {
    let (domain, mut reader, mut driver, _writer) = two(rt.alloc(), 2)?;
    let stop = sign_of(rt, &domain)?;
    let opened = AtomicU64::new(0);
    let (slept, ()) = join(
        rt,
        || drive_beside_section(rt, &domain, &mut driver, &stop, &opened, driving),
        || stay_and_tell(rt, &domain, &mut reader, &stop, &opened),
    );
    Ok(slept)
}

/// Would catch a driver that is at work as long as a reader is.
#[test]
fn sleeps_beside_a_section(rt: HostRuntime) -> Result<(), Fail> {
    assert!(rt; drive_and_stay(&rt, Driving::UntilTold)?);
    assert!(rt; drive_and_stay(&rt, Driving::UntilDone)?);
    Ok(())
}

/// Keeps a pool's only processor for a while.
fn keep<R: Wait + Clock>(rt: &R, pool: &Pool<u64>, taken: &AtomicU64) {
    let lent = pool.take(rt);
    taken.store(1, SeqCst);
    sleep(rt, Duration::from_millis(NAP));
    pool.give(rt, lent);
}

/// Takes it once it is out, and gives it back. Tells whether it slept most of the time.
fn take_asleep<R: Wait + Clock + CpuClock>(rt: &R, pool: &Pool<u64>, taken: &AtomicU64) -> bool {
    let out = look_for(rt, taken, 1);
    let watch = Watch::start(rt);
    let lent = pool.take(rt);
    let slept = watch.has_slept(rt);
    pool.give(rt, lent);
    out && slept
}

fn take_and_keep<R: Wait + Clock + CpuClock + Threads + AllocGlobal + Sync>(
    rt: &R,
) -> Result<bool, MakeError> {
    let (domain, cpus) = made(rt.alloc(), 1)?;
    let pool = pool_of(rt, &domain, cpus)?;
    let taken = AtomicU64::new(0);
    let (slept, ()) = join(
        rt,
        || take_asleep(rt, &pool, &taken),
        || keep(rt, &pool, &taken),
    );
    Ok(slept)
}

/// Would catch a pool whose takers are at work while all processors are out.
#[test]
fn takers_sleep(rt: HostRuntime) -> Result<(), Fail> {
    assert!(rt; take_and_keep(&rt)?);
    Ok(())
}

/// In how many rounds a processor goes from one thread to the other, and how many of these are quick at least.
const ROUNDS: u64 = 200;

const QUICK: u64 = 20;

/// What the two threads of a round tell each other.
#[derive(Drop)]
struct Rounds {
    /// In how many rounds the processor is out.
    out: AtomicU64,
    /// In how many it was about to be taken.
    waiting: AtomicU64,
    /// In how many it was had.
    had: AtomicU64,
    /// When it was given back last, in microseconds of the clock.
    given: AtomicU64,
}

/// The clock, in microseconds.
fn micros<R: Clock>(rt: &R) -> u64 {
    match rt.monotonic() {
        Ok(time) => u64::try_from(time.as_micros()).unwrap_or(0),
        Err(_) => 0,
    }
}

/// Takes the processor in each round, and gives it back once the other thread waits for it.
fn give_often<R: Wait + Clock>(rt: &R, pool: &Pool<u64>, rounds: &Rounds) {
    for round in 1..=ROUNDS {
        let lent = pool.take(rt);
        rounds.out.store(round, SeqCst);
        look_for(rt, &rounds.waiting, round);
        sleep(rt, Duration::from_micros(200));
        rounds.given.store(micros(rt), SeqCst);
        pool.give(rt, lent);
        look_for(rt, &rounds.had, round);
    }
}

/// Takes it in each round. Tells how often it had it within 300 microseconds.
fn take_often<R: Wait + Clock>(rt: &R, pool: &Pool<u64>, rounds: &Rounds) -> u64 {
    let mut quick: u64 = 0;
    for round in 1..=ROUNDS {
        look_for(rt, &rounds.out, round);
        rounds.waiting.store(round, SeqCst);
        let lent = pool.take(rt);
        let now = micros(rt);
        if now.saturating_sub(rounds.given.load(SeqCst)) < 300 {
            quick = quick.saturating_add(1);
        }
        pool.give(rt, lent);
        rounds.had.store(round, SeqCst);
    }
    quick
}

fn give_and_take<R: Wait + Clock + Threads + AllocGlobal + Sync>(rt: &R) -> Result<u64, MakeError> {
    let (domain, cpus) = made(rt.alloc(), 1)?;
    let pool = pool_of(rt, &domain, cpus)?;
    let rounds = Rounds {
        out: AtomicU64::new(0),
        waiting: AtomicU64::new(0),
        had: AtomicU64::new(0),
        given: AtomicU64::new(0),
    };
    let (quick, ()) = join(
        rt,
        || take_often(rt, &pool, &rounds),
        || give_often(rt, &pool, &rounds),
    );
    Ok(quick)
}

/// Would catch a pool that wakes no thread: a taker would wait for its sleep's end, a millisecond after it began. On a busy
/// machine most rounds may be slow, and so may a whole try.
#[test]
fn wakes_a_taker(rt: HostRuntime) -> Result<(), Fail> {
    for _ in 0..20 {
        if give_and_take(&rt)? >= QUICK {
            return Ok(());
        }
    }
    panic!(rt; "no taker is woken");
}
