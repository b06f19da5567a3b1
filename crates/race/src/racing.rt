//! A whole race.
ghost use Rattle.std.specs.Prelude.{◌<◌, ◌≤◌, IfOk};
ghost use Rattle.sections.specs.Limits.{most_processors};
ghost use Rattle.race.specs.Totals.{AreTotals};

use crate::ending::end;
use crate::gate::Gate;
use crate::making::{Start, prepare};
use crate::totals::RaceTotals;
use crate::workers::run_all;
use domain::Memory;
use std::alloc::AllocGlobal;
use std::sync::Wait;
use std::thread::Threads;

/// Has so many readers and one updater at work at once, each for so many rounds, in a domain of their own with one table
/// of plug-ins. In each of its rounds, which count from 0, a reader leases the version that is there, asks the lease for
/// the plug of a key, which is the round's number modulo 15, and lays the lease on a desk that all readers share. There
/// it finds the lease of another reader or one of its own, and releases it. After its rounds it releases what still lies
/// there. The updater installs the round's number as the plug of that key, and queues a callback. As long as no slot is
/// free for a version it drives grace periods, and after its rounds too, and runs callbacks, until all of them are
/// finished.
///
/// There are 1 to 255 readers and 1 to 1000 rounds. Each reader has a thread of its own. It stands at a line until all
/// others do, and goes with them and the updater. It passes the gate at the line, and twice in each round. The call waits
/// for all of them, and so for as long as the gate holds one up.
///
/// [`Memory`] where memory was wanting, or a thread could not be started. A reader without a thread counts as standing,
/// and makes its rounds once the others go. Then, too, all threads have ended, and all leases are released.
pub fn race<R: Threads + Sync + Wait + AllocGlobal, G: Gate + Sync>(
    rt: &R,
    readers: usize,
    rounds: u64,
    gate: &G,
) -> Result<RaceTotals, Memory>
    requires readers { (1 ≤ readers) × (readers < most_processors) }
    requires rounds { (1 ≤ rounds) × (rounds ≤ 1000) }
    ensures { IfOk result (AreTotals readers rounds) }
{
    let Start {
        course,
        workers,
        parts,
    } = prepare(rt.alloc(), readers, rounds)?;
    let (workers, result) = run_all(rt, &course, gate, workers);
    let totals = end(course, workers, parts);
    result?;
    Ok(totals)
}
