//! What is measured, and how often.
ghost use Rattle.std.specs.Prelude.{ℕ, ◌^◌, ◌≤◌, List, IfOk};
ghost use Rattle.srcubench.specs.declared.work.Queues.TheVariants.{Asks};
ghost use Rattle.srcubench.specs.declared.work.Reads.TheVariants.{Pairs, Finds};
ghost use Rattle.srcubench.specs.Done.{CanRead, CanPass, CanQueue, CanChange, CanRun, IsRead, IsPassed, IsQueued, IsChanged, IsDone};
ghost use Rattle.srcubench.specs.Samples.{AreOfRuns};
ghost use Rattle.srcubench.specs.Spreads.{IsSpreadOf};

use crate::passage::Way;
use crate::spread::{Spread, cost_of_one};
use crate::{
    asking, boxing, callbacks, driving, finding, giving, held, installing, looking, notifying,
    passage, putting, quiet, registering, trial, waiting,
};
use anyhow::Result;
use std::sync::Wait;
use std::thread::Threads;
use std::time::{Clock, Duration};

/// Sections that are begun and ended, and what is read in them.
#[derive(Clone, Copy, Debug)]
pub enum Reads {
    /// Pairs of `read_lock` and `read_unlock`: so many in each of so many threads, which are processors of one domain.
    Pairs {
        threads: usize,
        pairs: u64,
    },
    /// Held sections that begin on one processor and end on another, in one thread.
    HeldPairs {
        pairs: u64,
    },
    /// Sections in which a version is found and so many words of it are read: so many in each of so many threads, which
    /// are processors of one domain.
    Finds {
        threads: usize,
        words: usize,
        times: u64,
    },
    /// Sections in which a box is found and read: so many in each of so many threads, which are processors of one domain.
    Boxes {
        threads: usize,
        times: u64,
    },
    /// Calls of a notifier chain with so many handlers that do nothing: so many in each of so many threads, which are
    /// processors of one domain.
    ChainCalls {
        threads: usize,
        blocks: u64,
        times: u64,
    },
    /// One key of a table of fifteen that is looked up, or read through a lease: so many times in each of so many
    /// threads, which are processors of one domain.
    Looks {
        threads: usize,
        leased: bool,
        times: u64,
    },
}

/// Grace periods that are driven or waited for.
#[derive(Clone, Copy, Debug)]
pub enum Periods {
    /// Grace periods in a domain of so many processors, in which nobody reads.
    QuietPeriods { processors: usize, periods: u64 },
    /// Grace periods of a domain of so many processors, in which nobody reads, driven by one of them.
    DrivenPeriods { processors: usize, periods: u64 },
    /// The same, each asked for and driven in one turn.
    DrivenAtOnce { processors: usize, periods: u64 },
    /// Calls of `synchronize` by a processor of a domain of so many, in which nobody reads.
    Waits { processors: usize, times: u64 },
    /// Calls of `synchronize`: so many in each of so many threads, which are processors of one domain, in which nobody
    /// reads.
    WaitsAtOnce { threads: usize, times: u64 },
}

/// What is asked for, or queued.
#[derive(Clone, Copy, Debug)]
pub enum Queues {
    /// Asks for grace periods at a tree of needs: so many in each of so many threads, each for a number that is new, or
    /// each for the same, which is there.
    Asks {
        threads: usize,
        asks: u64,
        new: bool,
    },
    /// Asks for grace periods by one processor of a tree of needs of so many, each for a number that is new, or each for
    /// the same, which is there.
    AsksAlone {
        processors: usize,
        asks: u64,
        new: bool,
    },
    /// Batches of entries that go through a list or a queue.
    Entries {
        way: Way,
        batches: u64,
    },
    /// Jobs that are queued: so many in each of so many threads, which are processors of one domain.
    Queueing {
        threads: usize,
        jobs: u64,
    },
    /// The same, and then each thread runs as many, behind a grace period.
    Callbacks {
        threads: usize,
        jobs: u64,
    },
    /// Jobs that are queued while one more thread gives them out: so many in each of so many threads, which are processors
    /// of one domain. Its time ends when all are queued, or where `ended` says so when all are out.
    Given {
        threads: usize,
        jobs: u64,
        ended: bool,
    },
}

/// Changes that a grace period follows.
#[derive(Clone, Copy, Debug)]
pub enum Changes {
    /// Values that are put, each with the grace period behind which the one before it can't be read, in one thread.
    Puts { times: u64 },
    /// Rounds in which a block of a chain of four is unregistered and registered again, each behind a grace period, in
    /// one thread.
    ChainChanges { rounds: u64 },
    /// Plugs that are installed for one key of a table of fifteen, each with a grace period behind it, in one thread.
    Installs { times: u64 },
}

/// A thing that is measured, with how often one run does it.
#[derive(Clone, Copy, Debug)]
pub enum Work {
    Read(Reads),
    Period(Periods),
    Queue(Queues),
    Change(Changes),
}

/// What one run did.
#[derive(Clone, Copy, Debug)]
pub struct Timed {
    /// How often the thing was done that is measured; in each thread, where there are several. All jobs, where it was jobs.
    pub done: u64,
    /// How long that took, by the clock.
    pub elapsed: Duration,
}

/// What a trial of pairs did in each thread.
fn time_pairs<R: Threads + Sync + Clock + AllocGlobal>(
    rt: &R,
    threads: usize,
    pairs: u64,
) -> Result<Timed>
    ensures { IfOk result (λ timed. IsRead (Pairs threads pairs) timed.done) }
{
    let trial = trial::run(rt, threads, pairs)?;
    Ok(Timed {
        done: pairs,
        elapsed: trial.elapsed,
    })
}

/// What a trial of asks did in each thread.
fn time_asks<R: Threads + Sync + Clock + AllocGlobal>(
    rt: &R,
    threads: usize,
    asks: u64,
    new: bool,
) -> Result<Timed>
    requires few { asks ≤ 2 ^ 54 }
    requires threads { threads ≤ 2 ^ 16 }
    ensures { IfOk result (λ timed. IsQueued (Asks threads asks new) timed.done) }
{
    let trial = asking::run(rt, threads, asks, new)?;
    Ok(Timed {
        done: asks,
        elapsed: trial.elapsed,
    })
}

/// What a trial of finds did in each thread.
fn time_finds<R: Threads + Sync + Clock + AllocGlobal>(
    rt: &R,
    threads: usize,
    words: usize,
    times: u64,
) -> Result<Timed>
    requires { words ≤ 16 }
    ensures { IfOk result (λ timed. IsRead (Finds threads words times) timed.done) }
{
    let trial = finding::run(rt, threads, words, times)?;
    Ok(Timed {
        done: times,
        elapsed: trial.elapsed,
    })
}

/// Reads, in a new domain.
fn run_reads<R: Threads + Sync + Wait + Clock + AllocGlobal>(rt: &R, reads: Reads) -> Result<Timed>
    requires { CanRead reads }
    ensures done { IfOk result (λ timed. IsRead reads timed.done) }
    ensures some { IfOk result (λ timed. 1 ≤ timed.done) }
{
    match reads {
        Reads::Pairs { threads, pairs } => time_pairs(rt, threads, pairs),
        Reads::HeldPairs { pairs } => held::run(rt, pairs),
        Reads::Finds {
            threads,
            words,
            times,
        } => time_finds(rt, threads, words, times),
        Reads::Boxes { threads, times } => boxing::run(rt, threads, times),
        Reads::ChainCalls {
            threads,
            blocks,
            times,
        } => notifying::run(rt, threads, blocks, times),
        Reads::Looks {
            threads,
            leased,
            times,
        } => looking::run(rt, threads, leased, times),
    }
}

/// Has grace periods, in a new domain.
fn run_periods<R: Threads + Sync + Wait + Clock + AllocGlobal>(
    rt: &R,
    periods: Periods,
) -> Result<Timed>
    requires { CanPass periods }
    ensures done { IfOk result (λ timed. IsPassed periods timed.done) }
    ensures some { IfOk result (λ timed. 1 ≤ timed.done) }
{
    match periods {
        Periods::QuietPeriods {
            processors,
            periods,
        } => quiet::run(rt, processors, periods),
        Periods::DrivenPeriods {
            processors,
            periods,
        } => driving::run_periods(rt, processors, periods),
        Periods::DrivenAtOnce {
            processors,
            periods,
        } => driving::run_drives(rt, processors, periods),
        Periods::Waits { processors, times } => driving::run_waits(rt, processors, times),
        Periods::WaitsAtOnce { threads, times } => waiting::run(rt, threads, times),
    }
}

/// Asks or queues, in a new domain, tree or list.
fn run_queues<R: Threads + Sync + Wait + Clock + AllocGlobal>(
    rt: &R,
    queues: Queues,
) -> Result<Timed>
    requires { CanQueue queues }
    ensures done { IfOk result (λ timed. IsQueued queues timed.done) }
    ensures some { IfOk result (λ timed. 1 ≤ timed.done) }
{
    match queues {
        Queues::Asks { threads, asks, new } => time_asks(rt, threads, asks, new),
        Queues::AsksAlone {
            processors,
            asks,
            new,
        } => asking::run_alone(rt, processors, asks, new),
        Queues::Entries { way, batches } => passage::run(rt, way, batches),
        Queues::Queueing { threads, jobs } => callbacks::run_queueing(rt, threads, jobs),
        Queues::Callbacks { threads, jobs } => callbacks::run_passing(rt, threads, jobs),
        Queues::Given {
            threads,
            jobs,
            ended,
        } => giving::run(rt, threads, jobs, ended),
    }
}

/// Changes what lies in the cell of a new domain.
fn run_changes<R: Threads + Sync + Wait + Clock + AllocGlobal>(
    rt: &R,
    changes: Changes,
) -> Result<Timed>
    requires { CanChange changes }
    ensures done { IfOk result (λ timed. IsChanged changes timed.done) }
    ensures some { IfOk result (λ timed. 1 ≤ timed.done) }
{
    match changes {
        Changes::Puts { times } => putting::run(rt, times),
        Changes::ChainChanges { rounds } => registering::run(rt, rounds),
        Changes::Installs { times } => installing::run(rt, times),
    }
}

/// Does the work, in a new domain or a new list. The `elapsed` is what the clock told, of which no clause speaks.
pub fn run<R: Threads + Sync + Wait + Clock + AllocGlobal>(rt: &R, work: Work) -> Result<Timed>
    requires { CanRun work }
    ensures done { IfOk result (λ timed. IsDone work timed.done) }
    ensures some { IfOk result (λ timed. 1 ≤ timed.done) }
{
    match work {
        Work::Read(reads) => run_reads(rt, reads),
        Work::Period(periods) => run_periods(rt, periods),
        Work::Queue(queues) => run_queues(rt, queues),
        Work::Change(changes) => run_changes(rt, changes),
    }
}

/// What one of them took in each of so many runs, in hundredths of a nanosecond.
fn samples<R: Threads + Sync + Wait + Clock + AllocGlobal>(
    rt: &R,
    work: Work,
    repetitions: u64,
) -> Result<Vec<u64>>
    requires { CanRun work }
    ensures { IfOk result (λ samples. AreOfRuns (IsDone work) repetitions samples.items) }
{
    let mut samples = Vec::new(rt.alloc());
    for _ in 0..repetitions {
        let timed = run(rt, work)?;
        samples.push(cost_of_one(timed.elapsed, timed.done))?;
    }
    Ok(samples)
}

/// The spread of what one of them took in each of so many runs.
pub fn measure<R: Threads + Sync + Wait + Clock + AllocGlobal>(
    rt: &R,
    work: Work,
    repetitions: u64,
) -> Result<Spread>
    requires work { CanRun work }
    requires repetitions { 1 ≤ repetitions }
    ensures { IfOk result (λ spread. (samples : List ℕ) × AreOfRuns (IsDone work) repetitions samples × IsSpreadOf samples spread) }
{
    Ok(Spread::of(samples(rt, work, repetitions)?)?)
}
