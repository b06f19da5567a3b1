//! `srcubench` measures what a pair of `read_lock` and `read_unlock` costs, on one processor and on several at once, what
//! a held section costs that begins on one processor and ends on another, what a grace period costs with nobody
//! reading, what it costs to ask for one, what an entry of a callback list costs, what a job costs that is queued and run
//! behind a grace period, what a version costs that is found or put, what it costs to call a notifier chain and to change
//! one, and to look a plug up, to lease a table, and to change one.
#![tactic(auto)]

ghost use Rattle.std.specs.Prelude.{◌*◌, ◌≤◌, ◌^◌};

mod alone;
mod asking;
mod boxing;
mod callbacks;
mod calling;
mod command_line;
mod driving;
mod finding;
mod founding;
mod giving;
mod held;
mod installing;
mod lists;
mod looking;
mod miss;
mod notifying;
mod pairs;
mod passage;
mod periods;
mod putting;
mod quiet;
mod registering;
mod spread;
mod trial;
mod waiting;
mod work;

use anyhow::Result;
use asking::Asker;
use command_line::{Job, job_of};
use lists::BATCH;
use pairs::Reader;
use passage::Way;
use std::env;
use std::process::ExitCode;
use std::rt::Env;
use std::sync::Wait;
use std::thread::Threads;
use std::time::Clock;
use work::{Changes, Periods, Queues, Reads, Work, measure};

/// The numbers of threads to measure with.
const THREADS: [usize; 3] = [1, 2, 4];

/// The numbers of processors of the domains whose grace periods are measured.
const PROCESSORS: [usize; 5] = [1, 2, 4, 64, 256];

/// How many threads wait for grace periods at once.
const WAITERS: usize = 8;

/// How often each of them waits where waits are only counted.
const COUNTED_WAITS: u64 = 100;

/// How many pairs each thread makes where they are only counted.
const COUNTED_PAIRS: u64 = 1_000;

/// How many grace periods a domain has where they are only counted.
const COUNTED_PERIODS: u64 = 1_000;

/// How often each thread asks where asks are only counted.
const COUNTED_ASKS: u64 = 1_000;

/// How many words of a version are read.
const WORDS: [usize; 2] = [1, 16];

/// How often a version is found, and how many are put, where they are only counted.
const COUNTED_VERSIONS: u64 = 1_000;

/// How many blocks a chain has that is called.
const BLOCKS: [u64; 2] = [4, 15];

/// How often a chain is called or a table read in each thread, and how often they are changed, where that is only counted.
const COUNTED_READS: u64 = 1_000;

/// How many batches of entries go through a list where they are only counted.
const COUNTED_BATCHES: u64 = 100;

/// A grace period is measured so many times less often than a pair, since it takes longer.
const LESS_OFTEN: u64 = 4;

/// A wait beside others that wait is measured so many times less often than a pair.
const LESS_OFTEN_AT_ONCE: u64 = 256;

/// An entry goes through a list so many times less often than a pair is made, since all entries lie in memory at once.
const LESS_OFTEN_IN_LISTS: u64 = 8;

/// How many jobs are queued in a domain.
const JOBS: u64 = 20_000;

/// The status of a run whose command line can't be read.
const MISUSED: u8 = 2;

/// Prints how many pairs and grace periods were made, which is the same on every machine.
fn count<R: Threads + Sync + Wait + Clock + Print + AllocGlobal>(rt: &R) -> Result<()> {
    for threads in THREADS {
        count_pairs(rt, threads)?;
    }
    println!(rt; "held: {} pairs", held::run(rt, COUNTED_PAIRS)?.done)?;
    count_periods(rt)?;
    count_all_asks(rt)?;
    for way in Way::ALL {
        let timed = passage::run(rt, way, COUNTED_BATCHES)?;
        println!(rt; "{way}: {} entries", timed.done)?;
    }
    count_jobs(rt)?;
    count_versions(rt)?;
    count_boxes(rt)?;
    count_chains(rt)?;
    count_tables(rt)
}

/// Prints how many grace periods domains had, and how often their processors waited for them.
fn count_periods<R: Threads + Sync + Wait + Clock + Print + AllocGlobal>(rt: &R) -> Result<()> {
    for processors in PROCESSORS {
        count_by_processors(rt, processors)?;
    }
    let timed = waiting::run(rt, WAITERS, COUNTED_WAITS)?;
    println!(rt; "threads {WAITERS}: {} waits in each at once", timed.done)?;
    Ok(())
}

/// Prints how many pairs each of so many threads made.
fn count_pairs<R: Threads + Sync + Clock + Print + AllocGlobal>(
    rt: &R,
    threads: usize,
) -> Result<()> {
    let trial = trial::run(rt, threads, COUNTED_PAIRS)?;
    print_pairs(rt, threads, trial.readers.as_slice())
}

/// Prints how often threads asked, for new numbers and for known ones.
fn count_all_asks<R: Threads + Sync + Clock + Print + AllocGlobal>(rt: &R) -> Result<()> {
    for threads in THREADS {
        for new in [true, false] {
            count_asks(rt, threads, new)?;
        }
    }
    Ok(())
}

/// Prints how often each of so many threads asked.
fn count_asks<R: Threads + Sync + Clock + Print + AllocGlobal>(
    rt: &R,
    threads: usize,
    new: bool,
) -> Result<()>
    requires { threads ≤ 2 ^ 16 }
{
    let trial = asking::run(rt, threads, COUNTED_ASKS, new)?;
    print_asks(rt, threads, new, trial.askers.as_slice())
}

/// Prints how often each of so many threads found a version.
fn count_finds<R: Threads + Sync + Clock + Print + AllocGlobal>(
    rt: &R,
    threads: usize,
    words: usize,
) -> Result<()>
    requires { words ≤ 16 }
{
    let trial = finding::run(rt, threads, words, COUNTED_VERSIONS)?;
    print_finds(rt, threads, words, trial.readers.as_slice())
}

/// Prints how many pairs each thread made.
fn print_pairs<R: Print>(rt: &R, threads: usize, readers: &[Reader]) -> Result<()> {
    for (thread, reader) in readers.iter().enumerate() {
        println!(rt; "thread {thread} of {threads}: {} pairs", reader.made)?;
    }
    Ok(())
}

/// Prints how often each thread asked.
fn print_asks<R: Print>(rt: &R, threads: usize, new: bool, askers: &[Asker]) -> Result<()> {
    let numbers = if new { "new" } else { "known" };
    for (thread, asker) in askers.iter().enumerate() {
        println!(rt;
            "thread {thread} of {threads}: {} asks, {numbers} numbers",
            asker.asked
        )?;
    }
    Ok(())
}

/// Prints how often each thread found a version.
fn print_finds<R: Print>(rt: &R, threads: usize, words: usize, readers: &[Reader]) -> Result<()> {
    for (thread, reader) in readers.iter().enumerate() {
        println!(rt;
            "thread {thread} of {threads}: {} versions found, words: {words}",
            reader.made
        )?;
    }
    Ok(())
}

/// Prints how many grace periods a domain of so many processors had, and how often one of them waited or asked for one.
fn count_by_processors<R: Wait + Clock + Print + AllocGlobal>(
    rt: &R,
    processors: usize,
) -> Result<()>
    requires { (1 ≤ processors) × (processors ≤ 2 ^ 16) }
{
    let timed = quiet::run(rt, processors, COUNTED_PERIODS)?;
    println!(rt; "processors {processors}: {} quiet periods", timed.done)?;
    let timed = driving::run_periods(rt, processors, COUNTED_PERIODS)?;
    println!(rt; "processors {processors}: {} periods driven", timed.done)?;
    let timed = driving::run_drives(rt, processors, COUNTED_PERIODS)?;
    println!(rt;
        "processors {processors}: {} periods driven, each in one turn",
        timed.done
    )?;
    let timed = driving::run_waits(rt, processors, COUNTED_PERIODS)?;
    println!(rt; "processors {processors}: {} waits", timed.done)?;
    for new in [true, false] {
        let timed = asking::run_alone(rt, processors, COUNTED_ASKS, new)?;
        let numbers = if new { "new" } else { "known" };
        println!(rt;
            "processors {processors}: {} asks by one, {numbers} numbers",
            timed.done
        )?;
    }
    Ok(())
}

/// Prints how often a version was found, and how many were put.
fn count_versions<R: Threads + Sync + Wait + Clock + Print + AllocGlobal>(rt: &R) -> Result<()> {
    for threads in THREADS {
        for words in WORDS {
            count_finds(rt, threads, words)?;
        }
    }
    println!(rt;
        "put: {} versions",
        putting::run(rt, COUNTED_VERSIONS)?.done
    )?;
    Ok(())
}

/// Prints how often a box was found in each thread.
fn count_boxes<R: Threads + Sync + Clock + Print + AllocGlobal>(rt: &R) -> Result<()> {
    for threads in THREADS {
        let timed = boxing::run(rt, threads, COUNTED_VERSIONS)?;
        println!(rt; "threads {threads}: {} boxes found in each", timed.done)?;
    }
    Ok(())
}

/// Prints how often a chain was called in each thread, and how often one was changed.
fn count_chains<R: Threads + Sync + Wait + Clock + Print + AllocGlobal>(rt: &R) -> Result<()> {
    for threads in THREADS {
        for blocks in BLOCKS {
            let timed = notifying::run(rt, threads, blocks, COUNTED_READS)?;
            println!(rt;
                "threads {threads}: {} calls of a chain of {blocks} in each",
                timed.done
            )?;
        }
    }
    println!(rt;
        "chain: {} changes",
        registering::run(rt, COUNTED_READS)?.done
    )?;
    Ok(())
}

/// Prints how often a key was looked up or leased in each thread, and how often one was installed.
fn count_tables<R: Threads + Sync + Wait + Clock + Print + AllocGlobal>(rt: &R) -> Result<()> {
    for threads in THREADS {
        for leased in [false, true] {
            let timed = looking::run(rt, threads, leased, COUNTED_READS)?;
            let looks = if leased { "leases" } else { "lookups" };
            println!(rt; "threads {threads}: {} {looks} in each", timed.done)?;
        }
    }
    println!(rt;
        "table: {} installs",
        installing::run(rt, COUNTED_READS)?.done
    )?;
    Ok(())
}

/// Prints how many jobs were queued, how many came out, how many bytes the queued ones took, and what a domain takes before.
fn count_jobs<R: Threads + Sync + Wait + Clock + Print + AllocGlobal>(rt: &R) -> Result<()> {
    count_jobs_of(rt, 1, JOBS)?;
    count_jobs_of(rt, 2, JOBS / 2)?;
    count_jobs_of(rt, 4, JOBS / 4)?;
    let bytes = callbacks::measure_memory(rt, JOBS)?;
    println!(rt; "memory: {bytes} bytes for {JOBS} queued jobs")?;
    for processors in [1, 64, 256] {
        let bytes = callbacks::measure_domain(rt, processors)?;
        println!(rt; "memory: {bytes} bytes for a domain of {processors} processors")?;
    }
    Ok(())
}

/// Prints how many jobs so many threads queued, and how many came out, where each queues so many.
fn count_jobs_of<R: Threads + Sync + Wait + Clock + Print + AllocGlobal>(
    rt: &R,
    threads: usize,
    jobs: u64,
) -> Result<()>
    requires threads { threads ≤ 2 ^ 16 }
    requires few { jobs ≤ 2 ^ 40 }
{
    let queued = callbacks::run_queueing(rt, threads, jobs)?.done;
    println!(rt; "threads {threads}: {queued} jobs queued")?;
    let run = callbacks::run_passing(rt, threads, jobs)?.done;
    println!(rt; "threads {threads}: {run} jobs run")?;
    let given = giving::run(rt, threads, jobs, true)?.done;
    println!(rt; "threads {threads}: {given} jobs queued and given out by one more")?;
    Ok(())
}

/// Prints for each number of threads what one pair took, and for each number of processors what one grace period took
/// with nobody reading, what asking for one took, and for each way through a list what one entry took, in nanoseconds.
fn time<R: Threads + Sync + Wait + Clock + Print + AllocGlobal>(
    rt: &R,
    pairs: u64,
    repetitions: u64,
) -> Result<()>
    requires pairs { 1 ≤ pairs }
    requires few { pairs ≤ 2 ^ 54 }
    requires repetitions { 1 ≤ repetitions }
{
    for threads in THREADS {
        let spread = measure(rt, Work::Read(Reads::Pairs { threads, pairs }), repetitions)?;
        println!(rt; "srcubench {threads} {spread}")?;
    }
    let spread = measure(rt, Work::Read(Reads::HeldPairs { pairs }), repetitions)?;
    println!(rt; "srcubench-held 1 {spread}")?;
    for processors in PROCESSORS {
        time_by_processors(rt, processors, pairs, repetitions)?;
    }
    let work = Work::Period(Periods::WaitsAtOnce {
        threads: WAITERS,
        times: pairs / LESS_OFTEN_AT_ONCE + 1,
    });
    let spread = measure(rt, work, repetitions)?;
    println!(rt; "srcubench-synchronize-at-once {WAITERS} {spread}")?;
    for threads in THREADS {
        for new in [true, false] {
            let asks = pairs;
            let spread = measure(
                rt,
                Work::Queue(Queues::Asks { threads, asks, new }),
                repetitions,
            )?;
            let numbers = if new { "new" } else { "known" };
            println!(rt; "srcubench-ask-{numbers} {threads} {spread}")?;
        }
    }
    let batches = pairs / (LESS_OFTEN_IN_LISTS * BATCH) + 1;
    for way in Way::ALL {
        let spread = measure(
            rt,
            Work::Queue(Queues::Entries { way, batches }),
            repetitions,
        )?;
        println!(rt; "srcubench-{way} 1 {spread}")?;
    }
    time_jobs(rt, 1, JOBS, repetitions)?;
    time_jobs(rt, 2, JOBS / 2, repetitions)?;
    time_jobs(rt, 4, JOBS / 4, repetitions)?;
    time_versions(rt, pairs, repetitions)?;
    time_chains(rt, pairs, repetitions)?;
    time_tables(rt, pairs, repetitions)
}

/// Prints what a grace period took in a domain of so many processors without a reader, and what it took one of them to wait
/// or to ask for one.
fn time_by_processors<R: Threads + Sync + Wait + Clock + Print + AllocGlobal>(
    rt: &R,
    processors: usize,
    asks: u64,
    repetitions: u64,
) -> Result<()>
    requires processors { (1 ≤ processors) × (processors ≤ 2 ^ 16) }
    requires asks { (1 ≤ asks) × (asks ≤ 2 ^ 54) }
    requires repetitions { 1 ≤ repetitions }
{
    let periods = asks / LESS_OFTEN + 1;
    let work = Work::Period(Periods::QuietPeriods {
        processors,
        periods,
    });
    let spread = measure(rt, work, repetitions)?;
    println!(rt; "srcubench-quiet-period {processors} {spread}")?;
    let work = Work::Period(Periods::DrivenPeriods {
        processors,
        periods,
    });
    let spread = measure(rt, work, repetitions)?;
    println!(rt; "srcubench-domain-period {processors} {spread}")?;
    let work = Work::Period(Periods::DrivenAtOnce {
        processors,
        periods,
    });
    let spread = measure(rt, work, repetitions)?;
    println!(rt; "srcubench-drive {processors} {spread}")?;
    let times = periods;
    let spread = measure(
        rt,
        Work::Period(Periods::Waits { processors, times }),
        repetitions,
    )?;
    println!(rt; "srcubench-synchronize {processors} {spread}")?;
    for new in [true, false] {
        let work = Work::Queue(Queues::AsksAlone {
            processors,
            asks,
            new,
        });
        let spread = measure(rt, work, repetitions)?;
        let numbers = if new { "new" } else { "known" };
        println!(rt; "srcubench-ask-{numbers}-alone {processors} {spread}")?;
    }
    Ok(())
}

/// Prints what it took to find a version and read words of it, where each thread does so many, and what a put took.
fn time_versions<R: Threads + Sync + Wait + Clock + Print + AllocGlobal>(
    rt: &R,
    times: u64,
    repetitions: u64,
) -> Result<()>
    requires some { 1 ≤ times }
    requires repetitions { 1 ≤ repetitions }
{
    for threads in THREADS {
        for words in WORDS {
            let work = Work::Read(Reads::Finds {
                threads,
                words,
                times,
            });
            let spread = measure(rt, work, repetitions)?;
            println!(rt; "srcubench-find-{words} {threads} {spread}")?;
        }
    }
    for threads in THREADS {
        let spread = measure(rt, Work::Read(Reads::Boxes { threads, times }), repetitions)?;
        println!(rt; "srcubench-box {threads} {spread}")?;
    }
    let times = times / LESS_OFTEN + 1;
    let spread = measure(rt, Work::Change(Changes::Puts { times }), repetitions)?;
    println!(rt; "srcubench-put 1 {spread}")?;
    Ok(())
}

/// Prints what a call of a chain took, where each thread does so many, and what a change of one took.
fn time_chains<R: Threads + Sync + Wait + Clock + Print + AllocGlobal>(
    rt: &R,
    times: u64,
    repetitions: u64,
) -> Result<()>
    requires some { 1 ≤ times }
    requires few { times ≤ 2 ^ 54 }
    requires repetitions { 1 ≤ repetitions }
{
    for threads in THREADS {
        for blocks in BLOCKS {
            let work = Work::Read(Reads::ChainCalls {
                threads,
                blocks,
                times,
            });
            let spread = measure(rt, work, repetitions)?;
            println!(rt; "srcubench-chain-call-{blocks} {threads} {spread}")?;
        }
    }
    let rounds = times / (2 * LESS_OFTEN) + 1;
    let spread = measure(
        rt,
        Work::Change(Changes::ChainChanges { rounds }),
        repetitions,
    )?;
    println!(rt; "srcubench-chain-change 1 {spread}")?;
    Ok(())
}

/// Prints what it took to look a key up and to read it through a lease, where each thread does so many, and what a change
/// of the table took.
fn time_tables<R: Threads + Sync + Wait + Clock + Print + AllocGlobal>(
    rt: &R,
    times: u64,
    repetitions: u64,
) -> Result<()>
    requires some { 1 ≤ times }
    requires repetitions { 1 ≤ repetitions }
{
    for threads in THREADS {
        for leased in [false, true] {
            let work = Work::Read(Reads::Looks {
                threads,
                leased,
                times,
            });
            let spread = measure(rt, work, repetitions)?;
            let looks = if leased { "lease" } else { "lookup" };
            println!(rt; "srcubench-{looks} {threads} {spread}")?;
        }
    }
    let times = times / LESS_OFTEN + 1;
    let spread = measure(rt, Work::Change(Changes::Installs { times }), repetitions)?;
    println!(rt; "srcubench-install 1 {spread}")?;
    Ok(())
}

/// Prints what queueing a job took, and what it took from there until it was run, where each of so many threads queues so
/// many.
fn time_jobs<R: Threads + Sync + Wait + Clock + Print + AllocGlobal>(
    rt: &R,
    threads: usize,
    jobs: u64,
    repetitions: u64,
) -> Result<()>
    requires some { 1 ≤ threads * jobs }
    requires threads { threads ≤ 2 ^ 16 }
    requires few { jobs ≤ 2 ^ 40 }
    requires repetitions { 1 ≤ repetitions }
{
    let spread = measure(
        rt,
        Work::Queue(Queues::Queueing { threads, jobs }),
        repetitions,
    )?;
    println!(rt; "srcubench-call {threads} {spread}")?;
    let spread = measure(
        rt,
        Work::Queue(Queues::Callbacks { threads, jobs }),
        repetitions,
    )?;
    println!(rt; "srcubench-callbacks {threads} {spread}")?;
    for ended in [false, true] {
        let work = Work::Queue(Queues::Given {
            threads,
            jobs,
            ended,
        });
        let spread = measure(rt, work, repetitions)?;
        let name = if ended { "callbacks" } else { "call" };
        println!(rt; "srcubench-{name}-given {threads} {spread}")?;
    }
    Ok(())
}

/// Does what the words of the command line ask for.
fn act<R: Threads + Sync + Wait + Clock + Env + Print + Eprint + AllocGlobal>(
    rt: &R,
) -> Result<ExitCode> {
    let words: Vec<String> = env::args(rt)?.skip(1).collect(rt.alloc())?;
    match job_of(words.as_slice()) {
        Some(Job::Count) => count(rt)?,
        Some(Job::Time { pairs, repetitions }) => time(rt, pairs, repetitions)?,
        Some(Job::Alone { which, times }) => {
            measure(rt, which.work(times), 1)?;
        }
        None => {
            eprintln!(rt; "usage: srcubench [PAIRS REPETITIONS | alone LOOP TIMES]")?;
            return Ok(ExitCode::from(MISUSED));
        }
    }
    Ok(ExitCode::SUCCESS)
}

fn main(rt: HostRuntime) -> Result<ExitCode> {
    act(&rt)
}
