//! Watching a domain: what its counters are, who holds a period up, and how it is printed.
ghost use Rattle.domain.specs.Views.{IsOf};

use super::alone::{AMPLE, last_two};
use super::calling::drive;
use super::edges::run_on;
use domain::{Counts, Cpu, Domain, Holder, Index, Limits, Pair, Progress};
use std::alloc::{AllocError, Global};
use std::sync::Wait;
use std::test::Fail;

const NONE: Pair = Pair {
    locks: 0,
    unlocks: 0,
};

/// The counters of a processor where index 1 is unused.
fn of_zero(locks: u64, unlocks: u64) -> Counts {
    Counts {
        zero: Pair { locks, unlocks },
        one: NONE,
    }
}

/// The counters of the first two processors.
fn watch_both(domain: &Domain<()>, cpu: &mut Cpu<()>) -> Option<[Counts; 2]>
    requires { IsOf domain.now cpu.old }
    ensures { IsOf domain.now cpu.new }
{
    if domain.processors() < 2 {
        return None;
    }
    Some([domain.watch(cpu, 0), domain.watch(cpu, 1)])
}

/// Three sections of the first processor, two of which the second one ends. Tells what is found after each step.
fn watch_steps(
    domain: &Domain<()>,
    first: &mut Cpu<()>,
    second: &mut Cpu<()>,
) -> Option<[[Counts; 2]; 4]>
    requires first { IsOf domain.now first.old }
    requires second { IsOf domain.now second.old }
{
    let new = watch_both(domain, second)?;
    let Ok(held) = first.down_read() else {
        return None;
    };
    let open = watch_both(domain, second);
    second.up_read(held);
    let ended = watch_both(domain, second);
    let Ok(other) = first.down_read() else {
        return None;
    };
    second.up_read(other);
    let again = watch_both(domain, second);
    Some([new, open?, ended?, again?])
}

/// Would catch words that are another index's or processor's, that are not loaded, or that are the other kind's.
#[test]
fn counts_what_was_done(rt: HostRuntime) -> Result<(), Fail> {
    let (domain, mut first, mut second) = last_two(rt.alloc(), 2, AMPLE)?;
    let found = watch_steps(&domain, &mut first, &mut second);
    assert_eq!(rt;
        found,
        Some([
            [of_zero(0, 0), of_zero(0, 0)],
            [of_zero(1, 0), of_zero(0, 0)],
            [of_zero(1, 0), of_zero(0, 1)],
            [of_zero(2, 0), of_zero(0, 2)],
        ])
    );
    Ok(())
}

/// How many processors hold an index up, and the first of them.
fn name_holders(
    alloc: Global,
    domain: &Domain<()>,
    cpu: &mut Cpu<()>,
    index: Index,
) -> Result<(usize, Option<Holder>), AllocError>
    requires { IsOf domain.now cpu.old }
    ensures { IsOf domain.now cpu.new }
{
    let holders = domain.holders(alloc, cpu, index)?;
    Ok((holders.len(), holders.first().copied()))
}

/// Who holds both indexes up where a section of index 0 is open on the second processor: as the first one finds.
fn name_with_a_section(
    alloc: Global,
    domain: &Domain<()>,
    first: &mut Cpu<()>,
    second: &mut Cpu<()>,
) -> Option<[Result<(usize, Option<Holder>), AllocError>; 3]>
    requires first { IsOf domain.now first.old }
    requires second { IsOf domain.now second.old }
    ensures first { IsOf domain.now first.new }
    ensures second { IsOf domain.now second.new }
{
    let Ok(section) = second.read_lock() else {
        return None;
    };
    let zero = name_holders(alloc, domain, first, Index::Zero);
    let one = name_holders(alloc, domain, first, Index::One);
    second.read_unlock(section);
    let closed = name_holders(alloc, domain, first, Index::Zero);
    Some([zero, one, closed])
}

/// Begins a section on the first processor and ends it on the second.
fn hand_over(domain: &Domain<()>, first: &mut Cpu<()>, second: &mut Cpu<()>) -> bool
    requires first { IsOf domain.now first.old }
    requires second { IsOf domain.now second.old }
    ensures first { IsOf domain.now first.new }
    ensures second { IsOf domain.now second.new }
{
    let Ok(held) = first.down_read() else {
        return false;
    };
    second.up_read(held);
    true
}

fn holder(processor: u16, locks: u64, unlocks: u64) -> Option<Holder> {
    Some(Holder {
        processor,
        pair: Pair { locks, unlocks },
    })
}

/// Would catch a holder of an index on which nothing is open, one that isn't named or is another processor, and one that is
/// named since held sections end elsewhere, where the sums are equal.
#[test]
fn names_who_holds_it_up(rt: HostRuntime) -> Result<(), Fail> {
    let (domain, mut first, mut second) = last_two(rt.alloc(), 2, AMPLE)?;
    let alone = name_with_a_section(rt.alloc(), &domain, &mut first, &mut second);
    assert_eq!(rt;
        alone,
        Some([Ok((1, holder(1, 1, 0))), Ok((0, None)), Ok((0, None))])
    );
    assert!(rt; hand_over(&domain, &mut first, &mut second));
    let handed = name_holders(rt.alloc(), &domain, &mut first, Index::Zero);
    assert_eq!(rt; handed, Ok((0, None)));
    let beside = name_with_a_section(rt.alloc(), &domain, &mut first, &mut second);
    assert_eq!(rt;
        beside,
        Some([Ok((1, holder(0, 1, 0))), Ok((0, None)), Ok((0, None))])
    );
    Ok(())
}

/// What is printed after a grace period and its job, where another job is queued, two sections went from the first processor to
/// the second, and one is open there.
const LINES: &str = "number 4 idle, index 1, need 8, queued 2, finished 1
processor 0: 0 +2
processor 1: 0 -1
all: 0 +1";

/// The same as a table.
const COLUMNS: &str = "number 4 idle, index 1, need 8, queued 2, finished 1
processor    unlocks 0      locks 0    unlocks 1      locks 1 open
        0            0            0            0            2 0 +2
        1            0            0            2            1 0 -1
      all            0            0            2            3 0 +1";

/// Queues a job on the first processor, runs it, and queues another one. Tells whether it came to all of that.
fn run_one_of_two<R: Wait>(rt: &R, domain: &Domain<()>, cpu: &mut Cpu<()>) -> bool
    requires { IsOf domain.now cpu.old }
    ensures { IsOf domain.now cpu.new }
{
    let first = domain.call(rt, cpu, ()).is_ok();
    let _period = drive(domain, cpu);
    let count = run_on(rt, domain, cpu, 0);
    let second = domain.call(rt, cpu, ()).is_ok();
    first && count == 1 && second
}

/// Both texts of a snapshot by the first processor, with a section that is open on the second.
fn print_with_a_section(
    alloc: Global,
    domain: &Domain<()>,
    first: &mut Cpu<()>,
    second: &mut Cpu<()>,
) -> Result<(String, String), AllocError>
    requires first { IsOf domain.now first.old }
    requires second { IsOf domain.now second.old }
{
    let section = second.read_lock();
    let snapshot = domain.snapshot(alloc, first);
    if let Ok(section) = section {
        second.read_unlock(section);
    }
    let snapshot = snapshot?;
    let lines = format!(in alloc; "{snapshot}")?;
    let columns = format!(in alloc; "{}", snapshot.table())?;
    Ok((lines, columns))
}

/// Would catch a count of another processor or index, jobs that are queued or finished and taken for the other, a wrong sign, and
/// a sum that isn't one.
#[test]
fn prints_itself(rt: HostRuntime) -> Result<(), Fail> {
    let (domain, mut first, mut second) = last_two(rt.alloc(), 2, AMPLE)?;
    let ran = run_one_of_two(&rt, &domain, &mut first);
    let both = hand_over(&domain, &mut first, &mut second)
        & hand_over(&domain, &mut first, &mut second);
    let (lines, columns) = print_with_a_section(rt.alloc(), &domain, &mut first, &mut second)?;
    assert!(rt; ran && both);
    assert_eq!(rt; lines.as_str(), LINES);
    assert_eq!(rt; columns.as_str(), COLUMNS);
    Ok(())
}

/// What is printed where a section went from the first processor to the second before the index was flipped, and another one is
/// open on the second since.
const FLIPPED: &str = "number 2 scan2, index 1, need 4, queued 0, finished 0
processor 0: +1 0
processor 1: -1 +1
all: 0 +1";

/// The same as a table.
const FLIPPED_COLUMNS: &str = "number 2 scan2, index 1, need 4, queued 0, finished 0
processor    unlocks 0      locks 0    unlocks 1      locks 1 open
        0            0            1            0            0 +1 0
        1            1            0            0            1 -1 +1
      all            1            1            0            1 0 +1";

/// Flips the index, as far as the engine gets in two turns.
fn flip(domain: &Domain<()>, cpu: &mut Cpu<()>) -> bool
    requires { IsOf domain.now cpu.old }
    ensures { IsOf domain.now cpu.new }
{
    domain.start_poll(cpu);
    let started = domain.advance(cpu);
    let flipped = domain.advance(cpu);
    matches!(started, Ok(Progress::Started(_))) && flipped == Ok(Progress::Flipped(Index::One))
}

/// The counters of both processors, as the first one finds them with a section open on the second, and both texts of a snapshot
/// then.
fn watch_and_print(
    alloc: Global,
    domain: &Domain<()>,
    first: &mut Cpu<()>,
    second: &mut Cpu<()>,
) -> Result<(Option<[Counts; 2]>, String, String), AllocError>
    requires first { IsOf domain.now first.old }
    requires second { IsOf domain.now second.old }
{
    let section = second.read_lock();
    let counts = watch_both(domain, first);
    let snapshot = domain.snapshot(alloc, first);
    if let Ok(section) = section {
        second.read_unlock(section);
    }
    let snapshot = snapshot?;
    let text = format!(in alloc; "{snapshot}")?;
    let columns = format!(in alloc; "{}", snapshot.table())?;
    Ok((counts, text, columns))
}

/// Would catch a section of index 1 that is counted as one of index 0, or on the processor that looks.
#[test]
fn counts_behind_a_flip(rt: HostRuntime) -> Result<(), Fail> {
    let (domain, mut first, mut second) = last_two(rt.alloc(), 2, AMPLE)?;
    let ready = hand_over(&domain, &mut first, &mut second) & flip(&domain, &mut first);
    let (counts, text, columns) = watch_and_print(rt.alloc(), &domain, &mut first, &mut second)?;
    let one = Pair {
        locks: 1,
        unlocks: 0,
    };
    let second_zero = Pair {
        locks: 0,
        unlocks: 1,
    };
    assert!(rt; ready);
    assert_eq!(rt;
        counts,
        Some([
            of_zero(1, 0),
            Counts {
                zero: second_zero,
                one,
            },
        ])
    );
    assert_eq!(rt; text.as_str(), FLIPPED);
    assert_eq!(rt; columns.as_str(), FLIPPED_COLUMNS);
    Ok(())
}

/// What a new domain of three processors prints.
const NEW: &str = "number 0 idle, index 0, need 0, queued 0, finished 0
processor 0: 0 0
processor 1: 0 0
processor 2: 0 0
all: 0 0";

fn print_three(alloc: Global) -> Result<String, Fail> {
    let (domain, mut cpus, _) = Domain::<()>::new(alloc, 3, Limits::default())?;
    let mut cpu = cpus.pop().unwrap();
    let snapshot = domain.snapshot(alloc, &mut cpu)?;
    Ok(format!(in alloc; "{snapshot}")?)
}

/// Would catch a snapshot of the first two processors alone, and one of index 1 whichever it is.
#[test]
fn prints_three(rt: HostRuntime) -> Result<(), Fail> {
    assert_eq!(rt; print_three(rt.alloc())?.as_str(), NEW);
    Ok(())
}

/// Would catch a holder that is printed as another processor, or with a wrong sign.
#[test]
fn prints_a_holder(rt: HostRuntime) -> Result<(), Fail> {
    let held = Holder {
        processor: 2,
        pair: Pair {
            locks: 1,
            unlocks: 4,
        },
    };
    let text = format!(in rt.alloc(); "{held}")?;
    assert_eq!(rt; text.as_str(), "processor 2: -3");
    Ok(())
}
