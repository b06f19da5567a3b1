//! `copybench` measures what `left_right` costs beside a box: a read of a number that lies in two copies, in several threads at
//! once, and a change of it that all later reads see.
#![tactic(auto)]

mod miss;
mod number;

use anyhow::Result;
use miss::Miss;
use number::Number;
use std::env;
use std::process::ExitCode;
use std::rt::Env;
use std::sync::Wait;
use std::thread::Threads;
use std::time::{Clock, Duration};

/// The numbers of threads to measure with.
const THREADS: [usize; 3] = [1, 2, 4];

/// How often each thread reads where reads are only counted.
const COUNTED: u64 = 1_000;

/// A change is measured so many times less often than a read, since it takes longer.
const LESS_OFTEN: u64 = 4;

/// The most reads of a thread, and the most repetitions of one measurement.
const MOST_READS: u64 = 1 << 40;

const MOST_REPETITIONS: u64 = 1_000;

/// The status of a run whose command line can't be read.
const MISUSED: u8 = 2;

/// What is measured.
#[derive(Clone, Copy)]
enum Work {
    /// Reads: so many in each of so many threads.
    Reads { threads: usize, times: u64 },
    /// Changes by one thread, with a reader that is idle.
    Changes { times: u64 },
}

/// Does it once. The time is what the clock told, of which no clause speaks.
fn run<R: Threads + Sync + Wait + Clock + AllocGlobal + Copy + Drop>(
    rt: R,
    work: Work,
) -> Result<Duration> {
    match work {
        Work::Reads { threads, times } => number::read_together(rt, threads, times),
        Work::Changes { times } => number::change(rt, times),
    }
}

/// What one of so many took, in hundredths of a nanosecond, or the largest number where that is more.
fn cost_of_one(elapsed: Duration, count: u64) -> u64 {
    let hundredths = elapsed.as_nanos() * 100 / u128::from(count.max(1));
    u64::try_from(hundredths).unwrap_or(u64::MAX)
}

/// Prints what one of so many took: the median, the least and the most of so many repetitions.
fn tell<R: Threads + Sync + Wait + Clock + Print + AllocGlobal + Copy + Drop>(
    rt: R,
    name: &str,
    work: Work,
    repetitions: u64,
) -> Result<()> {
    let (size, count) = match work {
        Work::Reads { threads, times } => (threads, times),
        Work::Changes { times } => (1, times),
    };
    let mut samples = Vec::new(rt.alloc());
    for _ in 0..repetitions {
        samples.push(cost_of_one(run(rt, work)?, count))?;
    }
    samples.sort()?;
    let sorted = samples.as_slice();
    if let (Some(median), Some(least), Some(most)) = (
        sorted.get(sorted.len() / 2),
        sorted.first(),
        sorted.last(),
    ) {
        println!(rt;
            "{name} {size} median {}.{:02} least {}.{:02} most {}.{:02}",
            median / 100,
            median % 100,
            least / 100,
            least % 100,
            most / 100,
            most % 100
        )?;
    }
    Ok(())
}

/// Prints what a read and a change took, where each thread reads so many times.
fn time<R: Threads + Sync + Wait + Clock + Print + AllocGlobal + Copy + Drop>(
    rt: R,
    times: u64,
    repetitions: u64,
) -> Result<()> {
    for threads in THREADS {
        let work = Work::Reads { threads, times };
        tell(rt, "left-right-read", work, repetitions)?;
    }
    let work = Work::Changes {
        times: times / LESS_OFTEN,
    };
    tell(rt, "left-right-publish", work, repetitions)
}

/// Prints how many reads and changes were made, which is the same on every machine.
fn count<R: Threads + Sync + Wait + Clock + Print + AllocGlobal + Copy + Drop>(
    rt: R,
) -> Result<()> {
    for threads in THREADS {
        let work = Work::Reads {
            threads,
            times: COUNTED,
        };
        run(rt, work)?;
        println!(rt; "threads {threads}: {COUNTED} reads in each")?;
    }
    run(rt, Work::Changes { times: COUNTED })?;
    println!(rt; "{COUNTED} changes")?;
    Ok(())
}

fn number_up_to(word: &str, most: u64) -> Option<u64> {
    word.parse::<u64>()
        .ok()
        .filter(|number| 1 <= *number && *number <= most)
}

/// Does what the words of the command line ask for.
fn act<R: Threads + Sync + Wait + Clock + Env + Print + Eprint + AllocGlobal + Copy + Drop>(
    rt: R,
) -> Result<ExitCode> {
    let words: Vec<String> = env::args(&rt)?.skip(1).collect(rt.alloc())?;
    match words.as_slice() {
        [] => count(rt)?,
        [reads, repetitions] => {
            let (Some(reads), Some(repetitions)) = (
                number_up_to(reads, MOST_READS),
                number_up_to(repetitions, MOST_REPETITIONS),
            ) else {
                return Err(Miss::Words.into());
            };
            time(rt, reads, repetitions)?;
        }
        _ => {
            eprintln!(rt; "usage: copybench [READS REPETITIONS]")?;
            return Ok(ExitCode::from(MISUSED));
        }
    }
    Ok(ExitCode::SUCCESS)
}

fn main(rt: HostRuntime) -> Result<ExitCode> {
    act(rt)
}
