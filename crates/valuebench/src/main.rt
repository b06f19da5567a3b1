//! `valuebench` measures a live value that threads show and update, and a registry in which threads look devices up and one
//! removes and inserts them.
#![tactic(auto)]

mod keys;
mod live;

use anyhow::{Result, bail};
use std::process::ExitCode;
use std::rt::Env;
use std::sync::Wait;
use std::thread::Threads;
use std::time::{Clock, Duration};
use std::{env, fmt};

/// The numbers of threads to measure with, and how many read while others update.
const THREADS: [usize; 3] = [1, 2, 4];

const READERS: usize = 4;

/// How often each thread does a thing where that is only counted, and the most that it may do.
const COUNTED: u64 = 100;

const MOST: u64 = 1 << 40;

/// What is measured, in a registry with so many keys.
#[derive(Clone, Copy)]
enum Thing {
    Show,
    Update,
    Find(u64),
    Remove(u64),
    Insert(u64),
}

impl fmt::Display for Thing {
    fn fmt<W: fmt::Write>(&self, f: &mut fmt::Formatter<W>) -> fmt::Result {
        match self {
            Thing::Show => write!(f, "show"),
            Thing::Update => write!(f, "update"),
            Thing::Find(keys) => write!(f, "find-{keys}"),
            Thing::Remove(keys) => write!(f, "remove-{keys}"),
            Thing::Insert(keys) => write!(f, "insert-{keys}"),
        }
    }
}

impl Thing {
    const FEW: [Thing; 5] = [
        Thing::Show,
        Thing::Update,
        Thing::Find(15),
        Thing::Remove(15),
        Thing::Insert(15),
    ];

    /// What is only timed.
    const MANY: [Thing; 3] = [
        Thing::Find(1_000),
        Thing::Remove(1_000),
        Thing::Insert(1_000),
    ];

    /// Whether only one thread does it, and how many times less often than a show, since it takes longer.
    fn plan(self) -> (bool, u64) {
        match self {
            Thing::Show => (false, 1),
            Thing::Update => (false, 1_024),
            Thing::Find(_) => (false, 4),
            Thing::Remove(keys) | Thing::Insert(keys) => (true, keys.saturating_mul(4)),
        }
    }

    /// Does it so many times in each of so many threads. The time is what the clock told, of which no clause speaks.
    fn run<R: Threads + Sync + Wait + Clock + AllocGlobal>(
        self,
        rt: &R,
        threads: usize,
        times: u64,
    ) -> Result<Duration> {
        match self {
            Thing::Show => live::run(rt, 0, threads, times),
            Thing::Update => live::run(rt, threads, READERS, times),
            Thing::Find(keys) => keys::find(rt, keys, threads, times),
            Thing::Remove(keys) => Ok(keys::change(rt, keys, times)?.0),
            Thing::Insert(keys) => Ok(keys::change(rt, keys, times)?.1),
        }
    }
}

/// Hundredths of a nanosecond, printed as nanoseconds.
#[derive(Clone, Copy)]
struct Nanos(u64);

impl fmt::Display for Nanos {
    fn fmt<W: fmt::Write>(&self, f: &mut fmt::Formatter<W>) -> fmt::Result {
        write!(f, "{}.{:02}", self.0 / 100, self.0 % 100)
    }
}

/// Prints what a thing took: the median, the least and the most of so many repetitions.
fn time<R: Threads + Sync + Wait + Clock + Print + AllocGlobal>(
    rt: &R,
    thing: Thing,
    threads: usize,
    times: u64,
    repetitions: u64,
) -> Result<()> {
    let mut samples = Vec::new(rt.alloc());
    for _ in 0..repetitions {
        let hundredths = thing.run(rt, threads, times)?.as_nanos() * 100;
        let one = hundredths / u128::from(times.max(1));
        samples.push(u64::try_from(one).unwrap_or(u64::MAX))?;
    }
    samples.sort()?;
    let at = |place: usize| Nanos(samples.get(place).copied().unwrap_or(0));
    let (median, most) = (samples.len() / 2, samples.len().saturating_sub(1));
    println!(rt;
        "valuebench-{thing} {threads} median {} least {} most {}",
        at(median),
        at(0),
        at(most)
    )?;
    Ok(())
}

/// Does each of these things in 1, 2 and 4 threads, or in one. Prints the times if it is told how often, and else what was done,
/// which is the same on every machine.
fn act<R: Threads + Sync + Wait + Clock + Print + AllocGlobal>(
    rt: &R,
    things: &[Thing],
    measured: Option<(u64, u64)>,
) -> Result<()> {
    for thing in things.iter().copied() {
        let (is_alone, less_often) = thing.plan();
        let most = if is_alone { 1 } else { THREADS.len() };
        for threads in THREADS.into_iter().take(most) {
            if let Some((times, repetitions)) = measured {
                let times = (times / less_often.max(1)).saturating_add(1);
                time(rt, thing, threads, times, repetitions)?;
            } else {
                thing.run(rt, threads, COUNTED)?;
                println!(rt; "{thing}, threads {threads}: {COUNTED} in each")?;
            }
        }
    }
    Ok(())
}

/// The number that a word of the command line is.
fn number_of(word: &str) -> Option<u64> {
    word.parse::<u64>()
        .ok()
        .filter(|number| 1 <= *number && *number <= MOST)
}

fn main(rt: HostRuntime) -> Result<ExitCode> {
    let words: Vec<String> = env::args(&rt)?.skip(1).collect(rt.alloc())?;
    let measured = match words.as_slice() {
        [] => None,
        [times, repetitions] => number_of(times).zip(number_of(repetitions)),
        _ => None,
    };
    if measured.is_none() && !words.is_empty() {
        bail!("usage: valuebench [TIMES REPETITIONS]");
    }
    act(&rt, &Thing::FEW, measured)?;
    if measured.is_some() {
        act(&rt, &Thing::MANY, measured)?;
    }
    Ok(ExitCode::SUCCESS)
}
