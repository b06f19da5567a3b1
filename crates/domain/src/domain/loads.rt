//! Loads of counters: a row of one counter of each processor, and the two sums of an index.
ghost use Rattle.std.specs.Prelude.{◌≡◌, ◌<◌, ◌≤◌, length};
ghost use Rattle.domain.specs.Loads.{FindsCount, LoadsEach, LoadsSums};

use sseq::Index;
use std::alloc::Allocator;

/// Which counter of a processor.
#[derive(Clone, Copy)]
enum Counter {
    Unlocks,
    Locks,
}

fn load<A: Allocator>(
    cpu: &mut sections::Cpu<A>,
    counter: Counter,
    processor: u16,
    index: Index,
) -> u64
    requires { processor < cpu.old.processors }
    ensures { FindsCount counter processor index result cpu.old cpu.new }
{
    match counter {
        Counter::Unlocks => cpu.unlocks(processor, index),
        Counter::Locks => cpu.locks(processor, index),
    }
}

/// Loads this counter of each processor into its place of the row, and returns their sum.
fn load_row<A: Allocator>(
    cpu: &mut sections::Cpu<A>,
    processors: u16,
    counter: Counter,
    index: Index,
    row: &mut [u64],
) -> u64
    requires all { processors ≡ cpu.old.processors }
    requires some { 1 ≤ processors }
    requires row { length row.old ≡ processors }
    ensures { LoadsEach counter index row.new result cpu.old cpu.new }
{
    let mut total = 0;
    for processor in 0..processors {
        let found = load(cpu, counter, processor, index);
        total += found;
        row[usize::from(processor)] = found;
    }
    total
}

/// All unlock counters of an index, and then all of its lock counters: how many sections have ended, and how many were begun.
pub(super) fn load_sums<A: Allocator>(
    cpu: &mut sections::Cpu<A>,
    processors: u16,
    index: Index,
    unlocks: &mut [u64],
    locks: &mut [u64],
) -> (u64, u64)
    requires all { processors ≡ cpu.old.processors }
    requires some { 1 ≤ processors }
    requires unlocks { length unlocks.old ≡ processors }
    requires locks { length locks.old ≡ processors }
    ensures { LoadsSums index unlocks.new result.0 locks.new result.1 cpu.old cpu.new }
{
    // The other way round a section that begins and ends between the two sums hides an open one: the sums are equal.
    let ended = load_row(cpu, processors, Counter::Unlocks, index, unlocks);
    let begun = load_row(cpu, processors, Counter::Locks, index, locks);
    (ended, begun)
}
