//! A pool that many threads use, and sections that close themselves.
ghost use Rattle.std.specs.Prelude.{◌≡◌, ◌<◌};
ghost use Rattle.std.specs.Thread.{IsSync};
ghost use Rattle.sections.specs.Words.{cells_in};
ghost use Rattle.driver.specs.Pools.{IsIdle, IsLent};
ghost use Rattle.driver.specs.Works.{IsKept};

use super::{drive, end, jobs_of, made, pool_of, queue, sign_of};
use domain::{Cpu, Domain, Exhausted, MakeError, Reading, Totals};
use driver::{Pool, Stop, read};
use std::sync::Wait;
use std::test::Fail;
use std::thread::{Threads, for_each_mut, join};

/// How many threads come for a processor, and how often each does.
const THREADS: usize = 16;

const TIMES: u64 = 1_000;

/// Comes so often for a processor of a pool of three, and has it make a load. Answers how often that went well.
fn come<R: Wait>(rt: &R, domain: &Domain<u64>, pool: &Pool<u64>) -> u64
    requires pool { pool.now.domain ≡ domain.now }
    requires many { domain.now.processors ≡ 3 }
{
    let mut came: u64 = 0;
    for _ in 0..TIMES {
        if pool.with(rt, |cpu| domain.lens(rt, cpu, 0).is_ok()) {
            came = came.saturating_add(1);
        }
    }
    came
}

/// Adds up what threads counted.
fn sum_of(counts: &[u64]) -> u64 {
    counts
        .iter()
        .fold(0, |sum: u64, count| sum.saturating_add(*count))
}

/// Has each of so many threads come. Answers how often that went well.
fn come_all<R: Wait + Threads + Sync>(rt: &R, domain: &Domain<u64>, pool: &Pool<u64>) -> u64
    requires pool { pool.now.domain ≡ domain.now }
    requires many { domain.now.processors ≡ 3 }
{
    let mut all = [0; THREADS];
    let part = |_: usize, came: &mut u64|
        requires { (pool.now.domain ≡ domain.now) × (domain.now.processors ≡ 3) }
    { *came = come(rt, domain, pool) };
    for_each_mut(rt, &mut all, THREADS, &part);
    sum_of(&all)
}

/// Sixteen threads at a pool of three, and then the domain is taken down.
fn come_and_end<R: Wait + Threads + AllocGlobal + Sync>(
    rt: &R,
) -> Result<Option<(u64, Option<Totals>)>, MakeError> {
    let (domain, cpus) = made(rt.alloc(), 3)?;
    let pool = pool_of(rt, &domain, cpus)?;
    let came = come_all(rt, &domain, &pool);
    let Ok(cpus) = pool.close(rt) else {
        return Ok(None);
    };
    Ok(Some((came, end(domain, cpus))))
}

/// Would catch a processor that two threads have at once, and one that is lost.
#[test]
fn sixteen_threads_at_three_processors(rt: HostRuntime) -> Result<(), Fail> {
    let Some((came, Some(totals))) = come_and_end(&rt)? else {
        panic!(rt; "nothing is in use any more");
    };
    assert_eq!(rt; (came, totals.queued), (16 * TIMES, 0));
    Ok(())
}

/// Whether one is refused while the only one is out, and whether the pool can't be closed then.
fn try_twice<R: Wait>(rt: &R, pool: &Pool<u64>) -> (bool, bool) {
    let lent = pool.take(rt);
    let refused = pool.try_with(rt, |cpu| cpu.processor());
    pool.give(rt, lent);
    let behind = pool.try_with(rt, |cpu| cpu.processor());
    (refused.is_err(), behind.ok() == Some(0))
}

/// Whether one is refused while the only one is out, and there again behind that.
fn take_the_last<R: Wait + AllocGlobal>(rt: &R) -> Result<Option<(bool, bool)>, MakeError> {
    let (domain, cpus) = made(rt.alloc(), 1)?;
    let pool = pool_of(rt, &domain, cpus)?;
    Ok(Some(try_twice(rt, &pool)))
}

/// Would catch a call that waits where none is there, that gives one twice, and that keeps one.
#[test]
fn all_out(rt: HostRuntime) -> Result<(), Fail> {
    assert_eq!(rt; take_the_last(&rt)?, Some((true, true)));
    Ok(())
}

/// The first word of what lies in the cell. It is there as long as the section is.
fn first_word(cpu: &mut Cpu<u64>, section: &mut Reading) -> u64
    requires here { section.old.domain ≡ cpu.old.cpu.domain }
    requires cell { 0 < cells_in cpu.old.cpu.domain }
    ensures kept { IsKept cpu.old cpu.new }
    ensures section { section.new ≡ section.old }
{
    let mut version = cpu.find(section, 0);
    cpu.word(&mut version, 0)
}

/// Reads it, on whichever processor is free.
fn look_up<R: Wait>(rt: &R, pool: &Pool<u64>) -> Result<u64, Exhausted>
    requires { 0 < cells_in pool.now.domain.domain }
{
    pool.with(rt, |cpu| read(cpu, |cpu, section| first_word(cpu, section)))
}

/// Reads it, and once more in a section within this one. `?` may stand in a section, which ends all the same.
#[tactic(auto, using(driver::proofs::Keeping::kept_trans))]
fn two_words(cpu: &mut Cpu<u64>, section: &mut Reading) -> Result<(u64, u64), Exhausted>
    requires here { section.old.domain ≡ cpu.old.cpu.domain }
    requires cell { 0 < cells_in cpu.old.cpu.domain }
    ensures kept { IsKept cpu.old cpu.new }
    ensures section { section.new ≡ section.old }
{
    let outer = first_word(cpu, section);
    let inner = read(cpu, |cpu, section| first_word(cpu, section))?;
    Ok((outer, inner))
}

/// Both, in a section of its own.
fn look_twice(cpu: &mut Cpu<u64>) -> Result<(u64, u64), Exhausted>
    requires { 0 < cells_in cpu.old.cpu.domain }
    ensures { IsKept cpu.old cpu.new }
{
    read(cpu, |cpu, section| two_words(cpu, section))?
}

/// What is read so, and how many readings are open behind that.
fn look_within<R: Wait + AllocGlobal>(
    rt: &R,
) -> Result<Option<(Option<(u64, u64)>, u64)>, MakeError> {
    let (domain, cpus) = made(rt.alloc(), 1)?;
    let pool = pool_of(rt, &domain, cpus)?;
    Ok(Some(pool.with(rt, |cpu| (look_twice(cpu).ok(), cpu.open_here()))))
}

/// Would catch a section that is refused where there is room, and one that stays open.
#[test]
fn a_section_within_a_section(rt: HostRuntime) -> Result<(), Fail> {
    assert_eq!(rt; look_within(&rt)?, Some((Some((0, 0)), 0)));
    Ok(())
}

/// How often each reader reads, and how many jobs each updater queues.
const READS: u64 = 200;

const JOBS: u64 = 20;

/// Reads so often. Answers how often it found what lies there.
fn read_often<R: Wait>(rt: &R, pool: &Pool<u64>) -> u64
    requires { 0 < cells_in pool.now.domain.domain }
{
    let mut found: u64 = 0;
    for _ in 0..READS {
        if look_up(rt, pool) == Ok(0) {
            found = found.saturating_add(1);
        }
    }
    found
}

/// Four readers.
fn read_all<R: Wait + Threads + Sync>(rt: &R, pool: &Pool<u64>) -> u64
    requires { 0 < cells_in pool.now.domain.domain }
{
    let mut all = [0; 4];
    let part = |_: usize, found: &mut u64|
        requires { 0 < cells_in pool.now.domain.domain }
    { *found = read_often(rt, pool) };
    for_each_mut(rt, &mut all, 4, &part);
    sum_of(&all)
}

/// Queues jobs on whichever processor is free. Whether each was queued.
fn update<R: Wait>(rt: &R, domain: &Domain<u64>, pool: &Pool<u64>) -> bool
    requires { pool.now.domain ≡ domain.now }
{
    pool.with(rt, |cpu| queue(rt, domain, cpu, 0, JOBS))
}

/// Four readers at one pool, and two updaters at another.
fn read_and_update<R: Wait + Threads + Sync>(
    rt: &R,
    domain: &Domain<u64>,
    readers: &Pool<u64>,
    others: &Pool<u64>,
) -> (u64, (bool, bool))
    requires readers { 0 < cells_in readers.now.domain.domain }
    requires others { others.now.domain ≡ domain.now }
{
    join(
        rt,
        || -> u64
            requires { IsSync R.row × (0 < cells_in readers.now.domain.domain) }
        { read_all(rt, readers) },
        || -> (bool, bool)
            requires { IsSync R.row × (others.now.domain ≡ domain.now) }
        {
            join(
                rt,
                || update(rt, domain, others),
                || update(rt, domain, others),
            )
        },
    )
}

/// Gives the sign by this processor, or by none.
fn tell<R: Wait>(rt: &R, domain: &Domain<u64>, stop: &Stop<u64>, cpu: &mut Cpu<u64>) -> bool
    requires idle { IsIdle domain.now cpu.old }
    requires stop { stop.now.domain ≡ domain.now }
    ensures { IsLent domain.now cpu.new cpu.old.cpu.processor }
{
    let given = stop.give(rt, domain, cpu).is_ok();
    if !given {
        stop.give_alone(rt, domain);
    }
    given
}

/// The same, with a driver at the other pool that is told to stop in the end.
fn read_update_and_drive<R: Wait + Threads + Sync>(
    rt: &R,
    domain: &Domain<u64>,
    readers: &Pool<u64>,
    others: &Pool<u64>,
    stop: &Stop<u64>,
) -> ((u64, (bool, bool)), u64)
    requires readers { 0 < cells_in readers.now.domain.domain }
    requires others { others.now.domain ≡ domain.now }
    requires stop { stop.now.domain ≡ domain.now }
{
    join(
        rt,
        || -> (u64, (bool, bool))
            requires { IsSync R.row × (0 < cells_in readers.now.domain.domain) × ((others.now.domain ≡ domain.now) × (stop.now.domain ≡ domain.now)) }
        {
            let told = read_and_update(rt, domain, readers, others);
            let _given = others.with(rt, |cpu| tell(rt, domain, stop, cpu));
            told
        },
        ||
            requires { (others.now.domain ≡ domain.now) × (stop.now.domain ≡ domain.now) }
        { jobs_of(drive(rt, domain, others, stop, (0, 0))) },
    )
}

/// Four readers at a pool of two, two updaters, and a driver.
fn use_at_once<R: Wait + Threads + AllocGlobal + Sync>(
    rt: &R,
) -> Result<Option<((u64, (bool, bool)), u64)>, MakeError> {
    let (domain, mut cpus) = made(rt.alloc(), 5)?;
    let at = cpus.len().min(2);
    let Ok(rest) = cpus.split_off(at) else {
        return Ok(None);
    };
    let readers = pool_of(rt, &domain, cpus)?;
    let others = pool_of(rt, &domain, rest)?;
    let stop = sign_of(rt, &domain)?;
    Ok(Some(read_update_and_drive(rt, &domain, &readers, &others, &stop)))
}

/// Would catch a section that stays open, a job that is lost, and threads that wait for each other.
#[test]
fn readers_updaters_and_a_driver(rt: HostRuntime) -> Result<(), Fail> {
    let told = ((4 * READS, (true, true)), 2 * JOBS);
    assert_eq!(rt; use_at_once(&rt)?, Some(told));
    Ok(())
}
