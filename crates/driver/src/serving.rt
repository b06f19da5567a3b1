//! One round of a driver: a turn of the engine, and a look at each processor's list.
ghost use Rattle.std.specs.Prelude.{◌≡◌, true, ◌<◌, ◌≤◌, List, length};
ghost use Rattle.std.specs.Mem.{FitsInMemory};
ghost use Rattle.calls.specs.Tallies.{IsBeginning};
ghost use Rattle.domain.specs.Views.{IsOf, IsSameProcessor};
ghost use Rattle.domain.specs.Waiting.{HasNoneOpen};
ghost use Rattle.driver.specs.Serving.{IsBatchOf, BatchesFit, RunsIn, LooksAfter, LooksAfterAll, Round};

use crate::counts::{Came, Looked};
use domain::{Batch, Cpu, Domain};
use std::alloc::Allocator;
use std::mem::size_of_val;
use std::sync::Wait;

/// Whether values of this type fit in memory. They always do, which is known when it is compiled; it tells the proof so.
fn fits<T>(none: &Option<T>) -> bool
    ensures { result ≡ true → FitsInMemory T.row }
{
    size_of_val(none) < 0x8000_0000_0000_0000
}

/// Tells the proof of whoever moves a batch that it fits in memory. So does a value of every type that is compiled, but of a type
/// with parameters only a comparison says so: the compiler drops all of this.
fn know_that_batches_fit<R: Wait, J, A: Allocator>(rt: &R)
    ensures { BatchesFit J.row A.row A.Allocator }
{
    let none: Option<Batch<J, A>> = None;
    if !fits(&none) {
        for _ in rt.forever() {}
        unreachable!()
    }
    match none {
        None => {}
        Some(_) => unreachable!(),
    }
}

/// Runs all jobs of a batch, the first one first, and then finishes it.
pub fn run_batch<R: Wait, J: Drop, A: Allocator + Copy, F: FnMut(J)>(
    rt: &R,
    domain: &Domain<J, A>,
    cpu: &mut Cpu<J, A>,
    mut batch: Batch<J, A>,
    work: &mut F,
)
    requires here { IsOf domain.now cpu.old }
    requires batch { IsBatchOf domain.now batch }
    requires work { F.IsAlwaysCallable work.old }
    ensures here { IsOf domain.now cpu.new }
    ensures runs { RunsIn (λ p x q. F.step p x tt q) domain.now batch work.old cpu.old work.new cpu.new }
    ensures later { IsBeginning cpu.old.calls.seen cpu.new.calls.seen }
    ensures same { IsSameProcessor cpu.old cpu.new }
    ensures work { F.IsAlwaysCallable work.new }
{
    while let Some(job) = batch.next() {
        work(job);
    }
    domain.finish(rt, cpu, batch);
}

/// Takes what is ready on a processor, runs it and finishes it: from 0 to 8 jobs.
fn look_after<R: Wait, J: Drop, A: Allocator + Copy, F: FnMut(J)>(
    rt: &R,
    domain: &Domain<J, A>,
    cpu: &mut Cpu<J, A>,
    processor: u16,
    work: &mut F,
) -> Looked
    requires here { IsOf domain.now cpu.old }
    requires none { HasNoneOpen cpu.old }
    requires processor { processor < domain.now.processors }
    requires work { F.IsAlwaysCallable work.old }
    ensures here { IsOf domain.now cpu.new }
    ensures none { HasNoneOpen cpu.new }
    ensures later { IsBeginning cpu.old.calls.seen cpu.new.calls.seen }
    ensures same { IsSameProcessor cpu.old cpu.new }
    ensures looks { (jobs : List J) × (length jobs ≡ result.jobs) × LooksAfter (λ p x q. F.step p x tt q) domain.now processor work.old cpu.old jobs work.new cpu.new }
    ensures few { result.jobs ≤ 8 }
    ensures work { F.IsAlwaysCallable work.new }
{
    know_that_batches_fit::<R, J, A>(rt);
    match domain.take_ready(rt, cpu, processor, 8) {
        Ok(Some(batch)) => {
            let count = batch.count();
            run_batch(rt, domain, cpu, batch, work);
            Looked {
                jobs: count,
                batches: 1,
                refused: false,
            }
        }
        Ok(None) => Looked {
            jobs: 0,
            batches: 0,
            refused: false,
        },
        // A batch of the processor is out, and somebody else runs it; or there was no memory, and what came in waits.
        Err(_) => Looked {
            jobs: 0,
            batches: 0,
            refused: true,
        },
    }
}

/// The same for all processors, in order.
fn look_after_all<R: Wait, J: Drop, A: Allocator + Copy, F: FnMut(J)>(
    rt: &R,
    domain: &Domain<J, A>,
    cpu: &mut Cpu<J, A>,
    processors: u16,
    work: &mut F,
) -> Looked
    requires here { IsOf domain.now cpu.old }
    requires none { HasNoneOpen cpu.old }
    requires processors { processors ≡ domain.now.processors }
    requires work { F.IsAlwaysCallable work.old }
    ensures here { IsOf domain.now cpu.new }
    ensures none { HasNoneOpen cpu.new }
    ensures later { IsBeginning cpu.old.calls.seen cpu.new.calls.seen }
    ensures same { IsSameProcessor cpu.old cpu.new }
    ensures looks { (jobs : List J) × (length jobs ≡ result.jobs) × LooksAfterAll (λ p x q. F.step p x tt q) domain.now processors work.old cpu.old jobs work.new cpu.new }
    ensures work { F.IsAlwaysCallable work.new }
{
    let mut jobs = 0;
    let mut batches: usize = 0;
    let mut refused = false;
    for processor in 0..processors {
        let looked = look_after(rt, domain, cpu, processor, work);
        jobs += looked.jobs;
        batches = batches.saturating_add(looked.batches);
        refused |= looked.refused;
    }
    Looked {
        jobs,
        batches,
        refused,
    }
}

/// A turn of the engine, and then a look at the list of each processor.
pub fn round<R: Wait, J: Drop, A: Allocator + Copy, F: FnMut(J)>(
    rt: &R,
    domain: &Domain<J, A>,
    cpu: &mut Cpu<J, A>,
    processors: u16,
    work: &mut F,
) -> Came
    requires here { IsOf domain.now cpu.old }
    requires none { HasNoneOpen cpu.old }
    requires processors { processors ≡ domain.now.processors }
    requires work { F.IsAlwaysCallable work.old }
    ensures here { IsOf domain.now cpu.new }
    ensures none { HasNoneOpen cpu.new }
    ensures later { IsBeginning cpu.old.calls.seen cpu.new.calls.seen }
    ensures same { IsSameProcessor cpu.old cpu.new }
    ensures round { (jobs : List J) × (length jobs ≡ result.jobs) × Round (λ p x q. F.step p x tt q) domain.now work.old cpu.old result.answer jobs work.new cpu.new }
    ensures work { F.IsAlwaysCallable work.new }
{
    let answer = domain.drive(cpu);
    let Looked {
        jobs,
        batches,
        refused,
    } = look_after_all(rt, domain, cpu, processors, work);
    Came {
        answer,
        jobs,
        batches,
        refused,
    }
}
