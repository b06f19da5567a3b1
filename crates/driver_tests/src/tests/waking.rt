//! A driver that sleeps until somebody asks for a grace period.
ghost use Rattle.std.specs.Prelude.{◌≡◌};
ghost use Rattle.driver.specs.Pools.{IsIdle};

use super::sharing::look_for;
use super::{served_by, sign_of};
use domain::{Cpu, Domain, MakeError, Writer, claim, publish};
use driver::{Stop, serve};
use fixtures::two;
use std::sync::Wait;
use std::sync::atomic::AtomicU64;
use std::sync::atomic::Ordering::SeqCst;
use std::test::Fail;
use std::thread::{Threads, join, sleep, yield_now};
use std::time::{Clock, Duration};

/// How long the others wait before they ask: so long that the driver sleeps.
const NAP: u64 = 20;

/// How often a thread looks whether its grace period has ended, a tenth of a millisecond apart.
const LOOKS: u32 = 100_000;

/// The number once the first grace period has ended.
const FIRST: u64 = 4;

/// In how many rounds a thread asks that doesn't sleep.
const ROUNDS: u64 = 10_000;

/// How often it yields before it asks: from never up to once less than this.
const STAGES: u64 = 64;

/// How often it looks whether its job ran, with a yield after each look.
const YIELDS: u32 = 5_000_000;

/// By which call somebody asks.
#[derive(Clone, Copy)]
enum Asking {
    Call,
    StartPoll,
    Publish,
    Start,
    /// It tells the driver to stop.
    Tell,
}

/// Whether the cookie of this number is done before long.
fn ends_soon<R: Clock>(rt: &R, cpu: &mut Cpu<u64>, cookie: u64) -> bool {
    for _ in 0..LOOKS {
        if cpu.poll_number(cookie) == Ok(true) {
            return true;
        }
        sleep(rt, Duration::from_micros(100));
    }
    false
}

/// Puts zeros as the next version, and answers the number of the cookie that was asked for.
fn put(domain: &Domain<u64>, cpu: &mut Cpu<u64>, writer: &mut Writer) -> Option<u64>
    requires idle { IsIdle domain.now cpu.old }
    requires writer { writer.old.domain ≡ domain.now.domain }
{
    let slot = claim(writer, cpu)?;
    Some(publish(writer, domain, cpu, slot, &[0; 16]))
}

/// Has the driver run a job, so that it is there, and tells it to stop once it sleeps again. Whether it was back before long.
fn tell_once_it_sleeps<R: Wait + Clock>(
    rt: &R,
    domain: &Domain<u64>,
    cpu: &mut Cpu<u64>,
    ran: &AtomicU64,
    stop: &Stop<u64>,
) -> bool
    requires idle { IsIdle domain.now cpu.old }
    requires stop { stop.now.domain ≡ domain.now }
{
    let is_there = domain.call(rt, cpu, 1).is_ok() && look_for(rt, ran, 1);
    sleep(rt, Duration::from_millis(5 * NAP));
    is_there && stop.give(rt, domain, cpu).is_ok() && look_for(rt, ran, 2)
}

/// Asks once the driver sleeps. Whether what was asked for came before long, though no other thread drives.
fn ask<R: Wait + Clock>(
    rt: &R,
    domain: &Domain<u64>,
    cpu: &mut Cpu<u64>,
    writer: &mut Writer,
    ran: &AtomicU64,
    stop: &Stop<u64>,
    asking: Asking,
) -> bool
    requires idle { IsIdle domain.now cpu.old }
    requires writer { writer.old.domain ≡ domain.now.domain }
    requires stop { stop.now.domain ≡ domain.now }
{
    sleep(rt, Duration::from_millis(NAP));
    match asking {
        Asking::Call => domain.call(rt, cpu, 1).is_ok() && look_for(rt, ran, 1),
        Asking::StartPoll => {
            let cookie = domain.start_poll(cpu).number();
            ends_soon(rt, cpu, cookie)
        }
        Asking::Publish => match put(domain, cpu, writer) {
            Some(cookie) => ends_soon(rt, cpu, cookie),
            None => false,
        },
        Asking::Start => domain.start(cpu).is_ok() && ends_soon(rt, cpu, FIRST),
        Asking::Tell => tell_once_it_sleeps(rt, domain, cpu, ran, stop),
    }
}

/// The same, and then the driver is told to stop.
fn ask_and_tell<R: Wait + Clock>(
    rt: &R,
    domain: &Domain<u64>,
    cpu: &mut Cpu<u64>,
    writer: &mut Writer,
    ran: &AtomicU64,
    stop: &Stop<u64>,
    asking: Asking,
) -> bool
    requires idle { IsIdle domain.now cpu.old }
    requires writer { writer.old.domain ≡ domain.now.domain }
    requires stop { stop.now.domain ≡ domain.now }
{
    let came = ask(rt, domain, cpu, writer, ran, stop, asking);
    stop.give_alone(rt, domain);
    came
}

/// A driver with nothing to do, beside one thread that asks and then tells it to stop. Whether both came to their end, and
/// what was asked for came before long.
fn wake<R: Wait + Clock + Threads + AllocGlobal + Sync>(
    rt: &R,
    asking: Asking,
) -> Result<bool, MakeError> {
    let (domain, mut driver, mut asker, mut writer) = two(rt.alloc(), 2)?;
    let stop = sign_of(rt, &domain)?;
    let ran = AtomicU64::new(0);
    let (served, came) = join(
        rt,
        || {
            let served = served_by(serve(rt, &domain, &mut driver, &stop, |_job: u64| {
                ran.fetch_add(1, SeqCst);
            }));
            ran.fetch_add(1, SeqCst); // it is back
            served.is_some()
        },
        || ask_and_tell(rt, &domain, &mut asker, &mut writer, &ran, &stop, asking),
    );
    Ok(served && came)
}

/// Would catch a call that does not ring, and a driver that sleeps without listening: the job would wait for ever.
#[test]
fn woken_by_a_call(rt: HostRuntime) -> Result<(), Fail> {
    assert!(rt; wake(&rt, Asking::Call)?);
    Ok(())
}

/// The same where a grace period is asked for, where a version is put, and where a period is started unasked.
#[test]
fn woken_by_asking(rt: HostRuntime) -> Result<(), Fail> {
    assert!(rt; wake(&rt, Asking::StartPoll)?);
    assert!(rt; wake(&rt, Asking::Publish)?);
    assert!(rt; wake(&rt, Asking::Start)?);
    Ok(())
}

/// Would catch a sign whose giver wakes no driver, where a processor is at hand.
#[test]
fn woken_by_the_sign(rt: HostRuntime) -> Result<(), Fail> {
    assert!(rt; wake(&rt, Asking::Tell)?);
    Ok(())
}

/// Yields so often.
fn yield_often(times: u64) {
    for _ in 0..times {
        yield_now();
    }
}

/// Looks until a sign is at this number, and yields after each look. Answers whether it came to that.
fn yield_for(sign: &AtomicU64, number: u64) -> bool {
    for _ in 0..YIELDS {
        if sign.load(SeqCst) >= number {
            return true;
        }
        yield_now();
    }
    false
}

/// Queues a job so many yields after the job before ran. Whether this one ran before long.
fn ask_after<R: Wait>(
    rt: &R,
    domain: &Domain<u64>,
    cpu: &mut Cpu<u64>,
    ran: &AtomicU64,
    round: u64,
) -> bool
    requires { IsIdle domain.now cpu.old }
    ensures { IsIdle domain.now cpu.new }
{
    yield_often(round % STAGES);
    domain.call(rt, cpu, round).is_ok() && yield_for(ran, round)
}

/// Asks in each round, and then tells the driver to stop. Answers in how many rounds the job ran before long.
fn ask_at_every_moment<R: Wait>(
    rt: &R,
    domain: &Domain<u64>,
    cpu: &mut Cpu<u64>,
    ran: &AtomicU64,
    stop: &Stop<u64>,
) -> u64
    requires idle { IsIdle domain.now cpu.old }
    requires stop { stop.now.domain ≡ domain.now }
{
    let mut last = 0;
    for round in 1..=ROUNDS {
        if !ask_after(rt, domain, cpu, ran, round) {
            break;
        }
        last = round;
    }
    stop.give_alone(rt, domain);
    last
}

/// A driver beside that thread. Answers how many jobs it ran, and in how many rounds one ran before long.
fn wake_at_every_moment<R: Wait + Clock + Threads + AllocGlobal + Sync>(
    rt: &R,
) -> Result<(u64, u64), MakeError> {
    let (domain, mut driver, mut asker, _writer) = two(rt.alloc(), 2)?;
    let stop = sign_of(rt, &domain)?;
    let ran = AtomicU64::new(0);
    let (served, last) = join(
        rt,
        || {
            served_by(serve(rt, &domain, &mut driver, &stop, |_job: u64| {
                ran.fetch_add(1, SeqCst);
            }))
        },
        || ask_at_every_moment(rt, &domain, &mut asker, &ran, &stop),
    );
    match served {
        Some(served) => Ok((served.jobs, last)),
        None => Ok((0, last)),
    }
}

/// Would catch a driver that listens only after its last look: what is asked in between would wait for ever. The rounds differ in
/// how long after a job the next one is queued, so some of them hit each moment before the driver sleeps.
#[test]
fn woken_at_every_moment(rt: HostRuntime) -> Result<(), Fail> {
    assert_eq!(rt; wake_at_every_moment(&rt)?, (ROUNDS, ROUNDS));
    Ok(())
}
