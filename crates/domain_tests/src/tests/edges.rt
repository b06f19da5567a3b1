//! Domains of one processor up to 256, with as many cells and slots as there may be: each call that takes memory finds it.
ghost use Rattle.std.specs.Prelude.{◌<◌, IfOk};
ghost use Rattle.domain.specs.Views.{IsOf};

use super::calling::drive;
use domain::{Cpu, Domain, Limits, MakeError, Pair};
use std::alloc::Global;
use std::sync::Wait;
use std::test::Fail;

const LIMITS: Limits = Limits {
    sections: Limits::MOST_SECTIONS,
    periods: Limits::MOST_PERIODS,
    cells: 4,
    slots: 8,
};

/// A new domain, its last processor, and how many processors and writers there are.
fn last_of(alloc: Global, processors: usize) -> Result<(Domain<()>, Cpu<()>, [usize; 2]), MakeError>
    requires { 0 < processors }
    ensures { IfOk result (λ r. IsOf r.0 r.1) }
{
    let (domain, mut cpus, writers) = Domain::<()>::new(alloc, processors, LIMITS)?;
    let counts = [cpus.len(), writers.len()];
    let cpu = cpus.pop().unwrap();
    Ok((domain, cpu, counts))
}

/// Takes what is ready on a processor, and finishes it. Tells how many jobs there were.
pub(super) fn run_on<R: Wait>(
    rt: &R,
    domain: &Domain<()>,
    cpu: &mut Cpu<()>,
    processor: u16,
) -> usize
    requires here { IsOf domain.now cpu.old }
    requires there { processor < domain.now.processors }
    ensures { IsOf domain.now cpu.new }
{
    let Ok(Some(mut batch)) = domain.take_ready(rt, cpu, processor, 8) else {
        return 0;
    };
    let count = batch.count();
    while let Some(()) = batch.next() {}
    domain.finish(rt, cpu, batch);
    count
}

/// Queues a job on this processor, starts a barrier, and runs the job after its period. Tells how jobs waited there before
/// that, how many ran, and whether the barrier was done.
fn run_one<R: Wait>(
    rt: &R,
    domain: &Domain<()>,
    cpu: &mut Cpu<()>,
) -> Option<([usize; 4], usize, bool)>
    requires { IsOf domain.now cpu.old }
    ensures { IsOf domain.now cpu.new }
{
    let processor = cpu.processor();
    if processor >= domain.processors() || domain.call(rt, cpu, ()).is_err() {
        return None;
    }
    let ticket = domain.barrier_start(cpu).ok()?;
    let (lens, _numbers) = domain.lens(rt, cpu, processor).ok()?;
    let _period = drive(domain, cpu);
    let count = run_on(rt, domain, cpu, processor);
    Some((lens, count, domain.barrier_poll(cpu, &ticket)))
}

/// Who holds up a section on this processor, and what a snapshot has of it.
type Held = (usize, Option<u16>, Option<Pair>);

fn name_holder(alloc: Global, domain: &Domain<()>, cpu: &mut Cpu<()>) -> Option<Held>
    requires { IsOf domain.now cpu.old }
{
    let processor = cpu.processor();
    let reading = cpu.read_lock().ok()?;
    let index = reading.index();
    let holders = domain.holders(alloc, cpu, index);
    let snapshot = domain.snapshot(alloc, cpu);
    cpu.read_unlock(reading);
    let holders = holders.ok()?;
    let pair = snapshot.ok()?.of(index).pair(processor);
    let first = holders.first().map(|holder| holder.processor);
    Some((holders.len(), first, pair))
}

/// What comes of that on the last of so many processors.
type Used = ([usize; 2], Option<([usize; 4], usize, bool)>, Option<Held>);

fn use_last<R: Wait + AllocGlobal>(rt: &R, processors: usize) -> Result<Used, MakeError>
    requires { 0 < processors }
{
    let (domain, mut cpu, counts) = last_of(rt.alloc(), processors)?;
    let ran = run_one(rt, &domain, &mut cpu);
    Ok((counts, ran, name_holder(rt.alloc(), &domain, &mut cpu)))
}

/// Would catch a call that says there is no memory in a large domain, and one that doesn't look at the last processors.
#[test]
fn uses_the_last_processor(rt: HostRuntime) -> Result<(), Fail> {
    for processors in [1, 2, 65, 256] {
        let used = use_last(&rt, processors)?;
        let pair = Pair {
            locks: 1,
            unlocks: 0,
        };
        let last = (processors - 1) as u16;
        let ran = Some(([0, 1, 0, 0], 1, true));
        let held = Some((1, Some(last), Some(pair)));
        assert_eq!(rt; used, ([processors, 4], ran, held), "at {processors}");
    }
    Ok(())
}
