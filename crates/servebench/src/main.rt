//! `servebench` measures a driver: what a job costs that is queued by some threads while a driver runs them in one more, and
//! how long it takes from the end of the last section until a driver runs a job that waited for it. `servebench idle` has a
//! driver that has nothing to do for two seconds.
#![tactic(auto)]

ghost use Rattle.std.specs.Prelude.{◌≡◌, ◌≤◌, All, IfOk};
ghost use Rattle.driver.specs.Pools.{IsIdle};

mod delaying;
mod idling;
mod miss;
mod serving;

use anyhow::Result;
use domain::{Cpu, Domain, Limits, MakeError};
use std::alloc::Global;
use std::env;
use std::process::ExitCode;
use std::rt::Env;
use std::sync::Wait;
use std::thread::Threads;
use std::time::{Clock, Duration};

/// How many jobs are queued, by one thread or by several together.
const JOBS: u64 = 20_000;

/// How many jobs wait for a section, and how many where that is only counted.
const DELAYS: usize = 100;

const COUNTED_DELAYS: usize = 5;

/// How long a driver has nothing to do, in seconds, while whoever started the program measures its processor time.
const IDLE: u64 = 2;

/// The status of a run whose command line can't be read.
const MISUSED: u8 = 2;

const LIMITS: Limits = Limits {
    sections: Limits::MOST_SECTIONS,
    periods: Limits::MOST_PERIODS,
    cells: 0,
    slots: 2,
};

/// A new domain, a processor of it, and so many more.
fn found(alloc: Global, more: usize) -> Result<(Domain<u64>, Cpu<u64>, Vec<Cpu<u64>>), MakeError>
    ensures one { IfOk result (λ r. IsIdle r.0 r.1) }
    ensures more { IfOk result (λ r. All (IsIdle r.0) r.2.items) }
{
    let (domain, mut cpus, _) = Domain::new(alloc, more.saturating_add(1), LIMITS)?;
    let one = cpus.pop().unwrap();
    Ok((domain, one, cpus))
}

/// Prints how many jobs so many threads queued, where each queues so many, and a driver ran.
fn count_jobs<R: Threads + Sync + Wait + Clock + Print + AllocGlobal>(
    rt: &R,
    threads: usize,
    jobs: u64,
) -> Result<()>
    requires { threads ≤ 4 }
{
    serving::run(rt, threads, jobs)?;
    println!(rt; "threads {threads}: {jobs} jobs queued in each, and run by a driver")?;
    Ok(())
}

/// Prints how many jobs were run, which is the same on every machine.
fn count<R: Threads + Sync + Wait + Clock + Print + AllocGlobal>(rt: &R) -> Result<()> {
    count_jobs(rt, 1, JOBS)?;
    count_jobs(rt, 2, JOBS / 2)?;
    count_jobs(rt, 4, JOBS / 4)?;
    let delays = delaying::run(rt, COUNTED_DELAYS)?.len();
    println!(rt; "a driver: {delays} jobs that waited for a section")?;
    Ok(())
}

/// Prints a time in nanoseconds, in the form in which the medians of several are printed.
fn tell<R: Print + AllocGlobal>(rt: &R, name: &str, size: usize, nanos: u128) -> Result<()> {
    println!(rt; "{name} {size} median {nanos} least {nanos} most {nanos}")?;
    Ok(())
}

/// Prints what one of all jobs took, where each of so many threads queues so many.
fn time_jobs<R: Threads + Sync + Wait + Clock + Print + AllocGlobal>(
    rt: &R,
    threads: usize,
    jobs: u64,
) -> Result<()>
    requires { threads ≤ 4 }
{
    let elapsed: Duration = serving::run(rt, threads, jobs)?;
    tell(
        rt,
        "servebench-callbacks",
        threads,
        elapsed.as_nanos() / u128::from(JOBS),
    )
}

/// Prints how long it took until a job was run that waited for a section: the median of so many times, and the one that 99
/// of 100 don't exceed.
fn time_delays<R: Threads + Sync + Wait + Clock + Print + AllocGlobal>(rt: &R) -> Result<()> {
    let mut delays = delaying::run(rt, DELAYS)?;
    delays.sort()?;
    let sorted = delays.as_slice();
    if let (Some(median), Some(late)) = (sorted.get(DELAYS / 2), sorted.get(DELAYS - 2)) {
        tell(rt, "servebench-delay", 1, u128::from(*median))?;
        tell(rt, "servebench-delay-late", 1, u128::from(*late))?;
    }
    Ok(())
}

/// Prints both.
fn time<R: Threads + Sync + Wait + Clock + Print + AllocGlobal>(rt: &R) -> Result<()> {
    time_jobs(rt, 1, JOBS)?;
    time_jobs(rt, 2, JOBS / 2)?;
    time_jobs(rt, 4, JOBS / 4)?;
    time_delays(rt)
}

/// Does what the words of the command line ask for.
fn act<R: Threads + Sync + Wait + Clock + Env + Print + Eprint + AllocGlobal>(
    rt: &R,
) -> Result<ExitCode> {
    let words: Vec<String> = env::args(rt)?.skip(1).collect(rt.alloc())?;
    match words.as_slice() {
        [] => count(rt)?,
        [word] if word.as_str() == "time" => time(rt)?,
        [word] if word.as_str() == "idle" => {
            let jobs = idling::run(rt, Duration::from_secs(IDLE))?;
            println!(rt; "a driver with nothing to do: {jobs} jobs in {IDLE} seconds")?;
        }
        _ => {
            eprintln!(rt; "usage: servebench [time | idle]")?;
            return Ok(ExitCode::from(MISUSED));
        }
    }
    Ok(ExitCode::SUCCESS)
}

fn main(rt: HostRuntime) -> Result<ExitCode> {
    act(&rt)
}
