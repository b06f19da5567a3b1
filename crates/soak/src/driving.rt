//! The thread that carries grace periods and runs the jobs of all processors. It waits for no section and for no job, as
//! long as a worker is left.
ghost use Rattle.std.specs.Prelude.{◌≡◌};
ghost use Rattle.driver.specs.Pools.{IsIdle};
ghost use Rattle.soak.specs.Counts.{one_more};
ghost use Rattle.soak.specs.Checks.{counted, turn_of};
ghost use Rattle.soak.specs.Starts.{AreIdle};

use crate::counts::{Counts, count};
use crate::signs::{Signs, WORKERS};
use crate::worker::Job;
use domain::{Cpu, Domain};
use driver::{Report, Stall, Stop, Tally, serve_with};
use std::sync::Wait;
use std::time::{Clock, Duration};

/// For how long a grace period may wait in a run: no section lasts nearly as long.
const MOST_SECONDS: u64 = 100;

/// The thread's processors.
#[derive(Drop)]
pub struct Cpus {
    /// The one that drives.
    pub serving: Cpu<Job>,
    /// The one that would make a report.
    pub watching: Cpu<Job>,
}

/// What the thread has in the end.
#[derive(Drop)]
pub struct Driver {
    pub cpu: Cpu<Job>,
    pub watching: Cpu<Job>,
    pub counts: Counts,
}

/// What was run of the workers' jobs.
#[derive(Clone, Copy)]
struct Ran {
    /// How many jobs of each worker's processor, which is the number of the one whose turn it is there.
    turns: [u64; WORKERS],
    counts: Counts,
}

/// Runs a job: counts it, and counts it as misplaced where it is another one's turn on its processor. Answers how many jobs
/// of that processor were run.
fn run(ran: &mut Ran, job: &Job) -> u64
    ensures answer { result ≡ one_more (turn_of job.now ran.old) }
    ensures ran { ran.new ≡ counted job.now ran.old }
{
    let place = usize::from(job.processor) % WORKERS;
    let turn = ran.turns[place];
    count(&mut ran.counts.run);
    if job.number != turn {
        count(&mut ran.counts.misplaced);
    }
    let next = turn.saturating_add(1);
    ran.turns[place] = next;
    next
}

/// Serves the domain until no worker is left, and all jobs are run. How many there were it counts itself, and what the
/// driver tells has to be the same, and what it tallied too. A report counts as a wait that was too long.
pub fn drive<R: Wait + Clock + AllocGlobal>(
    rt: &R,
    domain: &Domain<Job>,
    cpus: Cpus,
    signs: &Signs,
    stop: &Stop<Job>,
) -> Driver
    requires idle { AreIdle domain.now cpus }
    requires stop { stop.now.domain ≡ domain.now }
    ensures cpu { IsIdle domain.now result.cpu }
    ensures watching { IsIdle domain.now result.watching }
{
    let mut ran = Ran {
        turns: [0; WORKERS],
        counts: Counts::default(),
    };
    let Cpus {
        serving: mut cpu,
        watching,
    } = cpus;
    let tally = Tally::new();
    let mut stalled = false;
    let hear = |_stall: Stall<'_>| stalled = true;
    let after = Duration::from_secs(MOST_SECONDS);
    let mut report = Report::new(rt, &tally, rt.alloc(), watching, after, hear);
    let work = |job: Job| {
        signs.set_run(job.processor, run(&mut ran, &job));
    };
    let served = serve_with(rt, domain, &mut cpu, stop, work, &mut report);
    let Report { cpu: watching, .. } = report;
    match served {
        Ok(stopped) => {
            let tallied = tally.read();
            let told = (stopped.served.jobs, stopped.served.periods);
            if told.0 != ran.counts.run || told != (tallied.jobs, tallied.periods) {
                count(&mut ran.counts.misplaced);
            }
        }
        Err(_exhausted) => count(&mut ran.counts.refused),
    }
    if stalled {
        count(&mut ran.counts.early);
    }
    Driver {
        cpu,
        watching,
        counts: ran.counts,
    }
}
