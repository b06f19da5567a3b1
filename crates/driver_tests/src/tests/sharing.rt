//! Many threads that wait for a grace period at once, beside a reader.
ghost use Rattle.std.specs.Prelude.{◌≡◌};
ghost use Rattle.driver.specs.Works.{IsKept};

use super::{end, made, pool_of};
use domain::{Cpu, Domain, MakeError, Reading, Totals};
use driver::{Pool, read};
use std::sync::Wait;
use std::sync::atomic::AtomicU64;
use std::sync::atomic::Ordering::SeqCst;
use std::test::Fail;
use std::thread::{Threads, for_each_mut, join, sleep};
use std::time::{Clock, Duration};

/// How many threads wait.
const THREADS: usize = 8;

/// How many rounds there are. In each of them every thread waits once.
const ROUNDS: u64 = 1_000;

/// How often a thread looks for the others, with a sleep of a tenth of a millisecond after each look.
pub(super) const LOOKS: u32 = 200_000;

/// What the threads tell each other.
#[derive(Drop)]
struct Signs {
    /// How often a thread came to its next round.
    came: AtomicU64,
    /// In how many rounds the reader has opened its section.
    opened: AtomicU64,
    /// How often a thread was about to wait.
    waiting: AtomicU64,
}

impl Signs {
    fn new() -> Signs {
        Signs {
            came: AtomicU64::new(0),
            opened: AtomicU64::new(0),
            waiting: AtomicU64::new(0),
        }
    }
}

/// Looks until a sign is at this number. Answers whether it came to that.
pub(super) fn look_for<R: Clock>(rt: &R, sign: &AtomicU64, number: u64) -> bool {
    for _ in 0..LOOKS {
        if sign.load(SeqCst) >= number {
            return true;
        }
        sleep(rt, Duration::from_micros(100));
    }
    false
}

/// Waits for a grace period in each round, once the reader is in its section. Answers how often that went well.
fn wait_often<R: Wait + Clock>(rt: &R, domain: &Domain<u64>, pool: &Pool<u64>, signs: &Signs) -> u64
    requires { pool.now.domain ≡ domain.now }
{
    let mut waited: u64 = 0;
    for round in 1..=ROUNDS {
        signs.came.fetch_add(1, SeqCst);
        if !look_for(rt, &signs.opened, round) {
            break;
        }
        signs.waiting.fetch_add(1, SeqCst);
        if pool.with(rt, |cpu| domain.synchronize(rt, cpu).is_ok()) {
            waited = waited.saturating_add(1);
        }
    }
    waited
}

/// Has each of so many threads wait. Answers how often that went well.
fn wait_all<R: Wait + Clock + Threads + Sync>(
    rt: &R,
    domain: &Domain<u64>,
    pool: &Pool<u64>,
    signs: &Signs,
) -> u64
    requires { pool.now.domain ≡ domain.now }
{
    let mut all = [0; THREADS];
    let part = |_: usize, waited: &mut u64|
        requires { pool.now.domain ≡ domain.now }
    { *waited = wait_often(rt, domain, pool, signs) };
    for_each_mut(rt, &mut all, THREADS, &part);
    all.iter()
        .fold(0, |sum: u64, waited| sum.saturating_add(*waited))
}

/// Tells that the section is open, and stays in it until so many calls were about to wait, and a millisecond longer.
#[tactic(auto, using(driver::proofs::Keeping::kept_itself))]
fn stay<R: Clock>(
    rt: &R,
    signs: &Signs,
    round: u64,
    calls: u64,
    cpu: &mut Cpu<u64>,
    section: &mut Reading,
)
    ensures kept { IsKept cpu.old cpu.new }
    ensures section { section.new ≡ section.old }
{
    signs.opened.store(round, SeqCst);
    if look_for(rt, &signs.waiting, calls) {
        sleep(rt, Duration::from_millis(1));
    }
}

/// Opens a section in each round, once every thread has come to it.
fn read_often<R: Wait + Clock>(rt: &R, pool: &Pool<u64>, signs: &Signs) {
    for round in 1..=ROUNDS {
        let calls = THREADS as u64 * round;
        if !look_for(rt, &signs.came, calls) {
            break;
        }
        let _stayed = pool.with(rt, |cpu| {
            read(
                cpu,
                |cpu, section| stay(rt, signs, round, calls, cpu, section),
            )
            .is_ok()
        });
    }
}

/// Eight threads that wait beside one that reads, and then the domain is taken down.
fn wait_and_end<R: Wait + Clock + Threads + AllocGlobal + Sync>(
    rt: &R,
) -> Result<Option<(u64, Option<Totals>)>, MakeError> {
    let (domain, cpus) = made(rt.alloc(), THREADS + 1)?;
    let pool = pool_of(rt, &domain, cpus)?;
    let signs = Signs::new();
    let (waited, ()) = join(
        rt,
        ||
            requires { pool.domain ≡ domain }
        { wait_all(rt, &domain, &pool, &signs) },
        || read_often(rt, &pool, &signs),
    );
    let Ok(cpus) = pool.close(rt) else {
        return Ok(None);
    };
    Ok(Some((waited, end(domain, cpus))))
}

/// Would catch a `synchronize` that starts a period of its own where others wait as well. Whoever asks while a period
/// waits for the reader needs just the next one, so two periods are enough for a round.
#[test]
fn eight_wait_and_share(rt: HostRuntime) -> Result<(), Fail> {
    let Some((waited, Some(totals))) = wait_and_end(&rt)? else {
        panic!(rt; "nothing is in use any more");
    };
    assert_eq!(rt; waited, 8 * ROUNDS);
    assert!(rt; totals.periods < 8 * ROUNDS / 3);
    Ok(())
}
