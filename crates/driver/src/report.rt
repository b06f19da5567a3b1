//! Reports of a grace period that waits for long, and counts that others read while a driver runs.
ghost use Rattle.std.specs.Prelude.{◌≡◌, None};
ghost use Rattle.driver.specs.Pools.{IsIdle};

use crate::counts::Came;
use crate::watcher::Watcher;
use domain::{Cpu, Domain, Glance, Index, Progress, Snapshot};
use sseq::completed;
use std::alloc::Allocator;
use std::sync::atomic::AtomicU64;
use std::sync::atomic::Ordering::SeqCst;
use std::time::{Clock, Duration, Instant};

/// What a driver has come to so far. Threads share it by reference: the driver adds to it after each round, and others read
/// it meanwhile. Several drivers may add to one.
#[derive(Drop)]
pub struct Tally {
    turns: AtomicU64,
    periods: AtomicU64,
    jobs: AtomicU64,
    batches: AtomicU64,
    /// In microseconds.
    longest: AtomicU64,
}

/// What was read of a tally, each count at a moment of its own.
#[derive(Clone, Copy, Debug, PartialEq, Eq)]
pub struct Tallied {
    /// Turns of the engine that were tried, one in each round.
    pub turns: u64,
    /// Grace periods that ended by one of these.
    pub periods: u64,
    /// Jobs that were run.
    pub jobs: u64,
    /// Batches in which they came, of eight jobs at most.
    pub batches: u64,
    /// The longest time for which a grace period was seen to wait for sections.
    pub longest: Duration,
}

impl Tally {
    /// A tally of nothing.
    pub fn new() -> Tally {
        Tally {
            turns: AtomicU64::new(0),
            periods: AtomicU64::new(0),
            jobs: AtomicU64::new(0),
            batches: AtomicU64::new(0),
            longest: AtomicU64::new(0),
        }
    }

    /// Reads each count once.
    pub fn read(&self) -> Tallied {
        Tallied {
            turns: self.turns.load(SeqCst),
            periods: self.periods.load(SeqCst),
            jobs: self.jobs.load(SeqCst),
            batches: self.batches.load(SeqCst),
            longest: Duration::from_micros(self.longest.load(SeqCst)),
        }
    }

    /// Adds what a round came to.
    fn add(&self, came: &Came) {
        self.turns.fetch_add(1, SeqCst);
        if let Ok(Progress::Ended(_)) = came.answer {
            self.periods.fetch_add(1, SeqCst);
        }
        if came.jobs > 0 {
            self.jobs.fetch_add(came.jobs as u64, SeqCst);
            self.batches.fetch_add(came.batches as u64, SeqCst);
        }
    }

    /// Notes how long a grace period has waited.
    fn note(&self, waited: Duration) {
        let micros = u64::try_from(waited.as_micros()).unwrap_or(u64::MAX);
        self.longest.fetch_max(micros, SeqCst);
    }
}

/// A grace period that has waited for longer than a report's limit.
#[derive(Clone, Copy)]
pub struct Stall<'s> {
    /// For how long it was seen to wait so far.
    pub waited: Duration,
    /// The index whose sections it waits for.
    pub index: Index,
    /// The domain then.
    pub glance: Glance<'s>,
}

/// A grace period that is seen to wait.
#[derive(Clone, Copy)]
pub struct Delay {
    /// How many had ended before it.
    period: u64,
    since: Instant,
    /// Whether it was reported.
    told: bool,
}

/// Reports each grace period that waits for sections for longer than `after`, once, as a kernel's stall report does: see
/// [`serve_with`](crate::serve_with). It has a processor of its own for its snapshots, so a driver does the same with and
/// without it. A grace period waits from the first turn of the driver that found it waiting.
#[derive(Drop)]
pub struct Report<'a, J, C, H, A: Allocator> {
    /// Tells how long a grace period waits. Where it can't be read, nothing is reported.
    pub clock: &'a C,
    /// What the driver comes to is added here.
    pub tally: &'a Tally,
    /// Gives the memory of a snapshot. Where there isn't enough, the next turn tries again.
    pub alloc: A,
    /// Makes the snapshots. No reading is open on it.
    pub cpu: Cpu<J, A>,
    /// How long a grace period may wait unreported.
    pub after: Duration,
    /// Hears of each grace period that waits for too long. The driver waits for it, and goes on then.
    pub hear: H,
    /// The grace period that waits: none at first.
    pub delay: Option<Delay>,
}

impl<'a, J, C, H, A: Allocator> Report<'a, J, C, H, A> {
    /// A report by this processor, of grace periods that wait for longer than `after`. None is seen to wait yet.
    pub fn new(
        clock: &'a C,
        tally: &'a Tally,
        alloc: A,
        cpu: Cpu<J, A>,
        after: Duration,
        hear: H,
    ) -> Report<'a, J, C, H, A>
        ensures cpu { result.cpu ≡ cpu }
        ensures after { result.after ≡ after }
        ensures hear { result.hear ≡ hear }
        ensures delay { result.delay ≡ None }
    {
        Report {
            clock,
            tally,
            alloc,
            cpu,
            after,
            hear,
            delay: None,
        }
    }
}

/// The number of grace periods that have ended.
fn ended<J, A: Allocator>(domain: &Domain<J, A>, cpu: &mut Cpu<J, A>) -> u64
    requires { IsIdle domain.now cpu.old }
    ensures { IsIdle domain.now cpu.new }
{
    completed(cpu.number())
}

/// A snapshot of the domain. None without memory.
fn snapshot<J, A: Allocator + Copy>(
    domain: &Domain<J, A>,
    alloc: A,
    cpu: &mut Cpu<J, A>,
) -> Option<Snapshot<A>>
    requires { IsIdle domain.now cpu.old }
    ensures { IsIdle domain.now cpu.new }
{
    match domain.snapshot(alloc, cpu) {
        Ok(snapshot) => Some(snapshot),
        Err(_) => None,
    }
}

impl<'a, J, C: Clock, H: FnMut(Stall<'_>), A: Allocator + Copy> Report<'a, J, C, H, A> {
    /// The grace period that waits now, with what is known of it.
    fn waiting(&mut self, domain: &Domain<J, A>) -> Option<Delay>
        requires idle { IsIdle domain.now self.old.cpu }
        requires hear { H.IsAlwaysCallable self.old.hear }
        ensures idle { IsIdle domain.now self.new.cpu }
        ensures hear { H.IsAlwaysCallable self.new.hear }
    {
        let period = ended(domain, &mut self.cpu);
        match self.delay {
            Some(delay) if delay.period == period => Some(delay),
            _ => {
                let since = Instant::now(self.clock).ok()?;
                Some(Delay {
                    period,
                    since,
                    told: false,
                })
            }
        }
    }

    /// Reports the grace period, if it waits for too long and wasn't reported.
    fn tell_of(&mut self, domain: &Domain<J, A>, delay: Delay, index: Index) -> Delay
        requires idle { IsIdle domain.now self.old.cpu }
        requires hear { H.IsAlwaysCallable self.old.hear }
        ensures idle { IsIdle domain.now self.new.cpu }
        ensures hear { H.IsAlwaysCallable self.new.hear }
    {
        let Ok(waited) = delay.since.elapsed(self.clock) else {
            return delay;
        };
        self.tally.note(waited);
        if delay.told || waited < self.after {
            return delay;
        }
        let Some(snapshot) = snapshot(domain, self.alloc, &mut self.cpu) else {
            return delay;
        };
        (self.hear)(Stall {
            waited,
            index,
            glance: snapshot.glance(),
        });
        Delay {
            told: true,
            ..delay
        }
    }
}

impl<'a, J, C: Clock, H: FnMut(Stall<'_>), A: Allocator + Copy> Watcher<J, A>
    for Report<'a, J, C, H, A> {
    ghost watches = { λ domain r. IsIdle domain r.cpu × H.IsAlwaysCallable r.hear };

    fn look(&mut self, domain: &Domain<J, A>, came: &Came) {
        self.tally.add(came);
        match came.answer {
            Ok(Progress::Waiting(index)) => {
                self.delay = match self.waiting(domain) {
                    Some(delay) => Some(self.tell_of(domain, delay, index)),
                    None => None,
                };
            }
            Ok(_) => self.delay = None,
            // Another driver has the engine: the grace period may wait on.
            Err(_) => {}
        }
    }
}
