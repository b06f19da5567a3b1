//! Jobs that four threads queue at one domain, while a fifth one drives the engine and takes them out.
ghost use Rattle.std.specs.Prelude.{◌≡◌, ◌<◌};
ghost use Rattle.domain.specs.Views.{IsOf};

use domain::{Cpu, Domain};
use fixtures::{Four, five};
use std::sync::Wait;
use std::sync::atomic::AtomicU64;
use std::sync::atomic::Ordering::SeqCst;
use std::test::Fail;
use std::thread::{Threads, join, sleep};
use std::time::{Clock, Duration};

/// A job tells where it was queued.
#[derive(Drop)]
struct Job {
    processor: u16,
    /// Its number among the jobs of its processor, from 0.
    number: u64,
}

/// How many jobs each of the four queues: more than a thousand, and than 1024.
const JOBS: u64 = 1_100;

/// How many of them it queues in one section.
const GROUP: u64 = 10;

/// How often the fifth looks for jobs, with a sleep of a millisecond behind each look that finds none.
const LOOKS: u32 = 10_000;

/// How many turns of the engine are enough for two whole grace periods.
const TURNS: u32 = 8;

/// How many jobs each of the four has queued whose sections are closed, or are about to be.
#[derive(Drop)]
struct Closing {
    first: AtomicU64,
    second: AtomicU64,
    third: AtomicU64,
    fourth: AtomicU64,
}

impl Closing {
    fn new() -> Closing {
        Closing {
            first: AtomicU64::new(0),
            second: AtomicU64::new(0),
            third: AtomicU64::new(0),
            fourth: AtomicU64::new(0),
        }
    }

    fn store(&self, processor: u16, jobs: u64) {
        match processor {
            0 => self.first.store(jobs, SeqCst),
            1 => self.second.store(jobs, SeqCst),
            2 => self.third.store(jobs, SeqCst),
            _ => self.fourth.store(jobs, SeqCst),
        }
    }

    fn load(&self, processor: u16) -> u64 {
        match processor {
            0 => self.first.load(SeqCst),
            1 => self.second.load(SeqCst),
            2 => self.third.load(SeqCst),
            _ => self.fourth.load(SeqCst),
        }
    }
}

/// Queues the jobs from this one on in one section, and stays in it for a while. Before it closes the section it stores
/// how many jobs there are by then. Tells whether each job got its number.
fn queue_in_section<R: Wait + Clock>(
    rt: &R,
    domain: &Domain<Job>,
    cpu: &mut Cpu<Job>,
    first: u64,
    closing: &Closing,
) -> bool
    requires here { IsOf domain.now cpu.old }
    requires room { first < JOBS }
    ensures { IsOf domain.now cpu.new }
{
    let processor = cpu.processor();
    let Ok(held) = cpu.down_read() else {
        return false;
    };
    let mut in_order = true;
    for number in first..first + GROUP {
        match domain.call(rt, cpu, Job { processor, number }) {
            Ok(receipt) => in_order &= receipt.processor() == processor && receipt.k() == number,
            Err(_) => in_order = false,
        }
    }
    sleep(rt, Duration::from_millis(1));
    closing.store(processor, first + GROUP);
    cpu.up_read(held);
    in_order
}

/// Queues all jobs of a processor. Tells whether each got its number.
fn queue_all<R: Wait + Clock>(
    rt: &R,
    domain: &Domain<Job>,
    mut cpu: Cpu<Job>,
    closing: &Closing,
) -> bool
    requires { IsOf domain.now cpu }
{
    let mut in_order = true;
    for group in 0..JOBS / GROUP {
        in_order &= queue_in_section(rt, domain, &mut cpu, group * GROUP, closing);
    }
    in_order
}

/// Two processors queue their jobs, each in a thread of its own. Tells whether each job got its number.
fn queue_by_two<R: Wait + Clock + Threads + Sync>(
    rt: &R,
    domain: &Domain<Job>,
    first: Cpu<Job>,
    second: Cpu<Job>,
    closing: &Closing,
) -> bool
    requires { IsOf domain.now first × IsOf domain.now second }
{
    let (first, second) = join(
        rt,
        || queue_all(rt, domain, first, closing),
        || queue_all(rt, domain, second, closing),
    );
    first && second
}

/// Four processors queue their jobs, each in a thread of its own. Tells whether each job got its number.
fn queue_by_four<R: Wait + Clock + Threads + Sync>(
    rt: &R,
    domain: &Domain<Job>,
    cpus: Four<Job>,
    closing: &Closing,
) -> bool
    requires first { IsOf domain.now cpus.first × IsOf domain.now cpus.second }
    requires last { IsOf domain.now cpus.third × IsOf domain.now cpus.fourth }
{
    let (first, last) = join(
        rt,
        ||
            requires first { IsOf domain.now cpus.first × IsOf domain.now cpus.second }
        { queue_by_two(rt, domain, cpus.first, cpus.second, closing) },
        ||
            requires last { IsOf domain.now cpus.third × IsOf domain.now cpus.fourth }
        { queue_by_two(rt, domain, cpus.third, cpus.fourth, closing) },
    );
    first && last
}

/// The number of the job that has to come behind this one. `None` where another one had to come, or where the section of
/// this one was not about to be closed.
fn next_behind(job: Job, processor: u16, next: Option<u64>, closed: u64) -> Option<u64> {
    if job.processor == processor && next == Some(job.number) && job.number < closed {
        Some(job.number + 1)
    } else {
        None
    }
}

/// Takes what is ready on a processor, and finishes the batch. Gives the number of the job that has to come next there, or
/// `None` where a wrong one came.
fn take_of<R: Wait>(
    rt: &R,
    domain: &Domain<Job>,
    cpu: &mut Cpu<Job>,
    processor: u16,
    next: u64,
    closing: &Closing,
) -> Option<u64>
    requires here { IsOf domain.now cpu.old }
    requires there { processor < domain.now.processors }
    ensures { IsOf domain.now cpu.new }
{
    // It is loaded before the jobs are taken: nobody else drives the engine, so their sections have ended by now.
    let closed = closing.load(processor);
    let Ok(taken) = domain.take_ready(rt, cpu, processor, 8) else {
        return None;
    };
    let Some(mut batch) = taken else {
        return Some(next);
    };
    let mut next = Some(next);
    while let Some(job) = batch.next() {
        next = next_behind(job, processor, next, closed);
    }
    domain.finish(rt, cpu, batch);
    next
}

/// The same for each of the four.
fn take_of_four<R: Wait>(
    rt: &R,
    domain: &Domain<Job>,
    cpu: &mut Cpu<Job>,
    mut next: [u64; 4],
    closing: &Closing,
) -> Option<[u64; 4]>
    requires here { IsOf domain.now cpu.old }
    requires five { domain.now.processors ≡ 5 }
    ensures { IsOf domain.now cpu.new }
{
    for processor in 0..4 {
        let at = processor as usize;
        next[at] = take_of(rt, domain, cpu, processor, next[at], closing)?;
    }
    Some(next)
}

/// Drives the engine and takes what is ready on the four, so many times at most, until this one has to come next on each.
/// Gives which one has to come next on each, or `None` where a wrong one came.
fn take_until<R: Wait + Clock>(
    rt: &R,
    domain: &Domain<Job>,
    mut cpu: Cpu<Job>,
    mut next: [u64; 4],
    end: u64,
    looks: u32,
    closing: &Closing,
) -> (Cpu<Job>, Option<[u64; 4]>)
    requires here { IsOf domain.now cpu }
    requires five { domain.now.processors ≡ 5 }
    ensures { IsOf domain.now result.0 }
{
    for _ in 0..looks {
        if next == [end; 4] {
            break;
        }
        let _progress = domain.advance(&mut cpu);
        let Some(then) = take_of_four(rt, domain, &mut cpu, next, closing) else {
            return (cpu, None);
        };
        if then == next {
            sleep(rt, Duration::from_millis(1));
        }
        next = then;
    }
    (cpu, Some(next))
}

/// Would catch a job that is lost, doubled or out of its order, in a schedule that no test on one thread has, and one that
/// comes while a section is open that was open at its queueing.
#[test]
fn four_queue_and_a_fifth_takes(rt: HostRuntime) -> Result<(), Fail> {
    let (domain, four, fifth, _) = five(rt.alloc(), 2)?;
    let closing = Closing::new();
    let (in_order, (fifth, came)) = join(
        &rt,
        || queue_by_four(&rt, &domain, four, &closing),
        || take_until(&rt, &domain, fifth, [0; 4], JOBS, LOOKS, &closing),
    );
    let (_, more) = take_until(&rt, &domain, fifth, [JOBS; 4], JOBS + 1, TURNS, &closing);
    assert!(rt; in_order);
    assert_eq!(rt; came, Some([JOBS; 4]));
    assert_eq!(rt; more, Some([JOBS; 4]));
    Ok(())
}

/// How many jobs each of the four queues that queues them without a pause.
const FEW: u64 = 100;

/// Queues so many jobs on a processor, without a pause. Tells whether each got its number.
fn queue_at_once<R: Wait>(rt: &R, domain: &Domain<Job>, mut cpu: Cpu<Job>) -> bool
    requires { IsOf domain.now cpu }
{
    let processor = cpu.processor();
    let mut in_order = true;
    for number in 0..FEW {
        match domain.call(rt, &mut cpu, Job { processor, number }) {
            Ok(receipt) => in_order &= receipt.processor() == processor && receipt.k() == number,
            Err(_) => in_order = false,
        }
    }
    in_order
}

/// Two processors do, each in a thread of its own. Tells whether each job got its number.
fn queue_two_at_once<R: Wait + Threads + Sync>(
    rt: &R,
    domain: &Domain<Job>,
    first: Cpu<Job>,
    second: Cpu<Job>,
) -> bool
    requires { IsOf domain.now first × IsOf domain.now second }
{
    let (first, second) = join(
        rt,
        || queue_at_once(rt, domain, first),
        || queue_at_once(rt, domain, second),
    );
    first && second
}

/// Four processors do. Tells whether each job got its number.
fn queue_four_at_once<R: Wait + Threads + Sync>(
    rt: &R,
    domain: &Domain<Job>,
    cpus: Four<Job>,
) -> bool
    requires first { IsOf domain.now cpus.first × IsOf domain.now cpus.second }
    requires last { IsOf domain.now cpus.third × IsOf domain.now cpus.fourth }
{
    let (first, last) = join(
        rt,
        ||
            requires first { IsOf domain.now cpus.first × IsOf domain.now cpus.second }
        { queue_two_at_once(rt, domain, cpus.first, cpus.second) },
        ||
            requires last { IsOf domain.now cpus.third × IsOf domain.now cpus.fourth }
        { queue_two_at_once(rt, domain, cpus.third, cpus.fourth) },
    );
    first && last
}

/// Would catch a job that is lost, doubled or out of its order on its way into the list, where many come in while the list
/// is in another thread's hand.
#[test]
fn intake_threads(rt: HostRuntime) -> Result<(), Fail> {
    let (domain, four, fifth, _) = five(rt.alloc(), 2)?;
    let closing = Closing::new();
    for processor in 0..4 {
        // No section is opened here.
        closing.store(processor, FEW);
    }
    let (in_order, (fifth, came)) = join(
        &rt,
        || queue_four_at_once(&rt, &domain, four),
        || take_until(&rt, &domain, fifth, [0; 4], FEW, LOOKS, &closing),
    );
    let (_, more) = take_until(&rt, &domain, fifth, [FEW; 4], FEW + 1, TURNS, &closing);
    assert!(rt; in_order);
    assert_eq!(rt; came, Some([FEW; 4]));
    assert_eq!(rt; more, Some([FEW; 4]));
    Ok(())
}
