//! Workers of the first and the last processors of the largest domain: each call that takes memory finds it.
ghost use Rattle.std.specs.Prelude.{◌≡◌, IfOk};
ghost use Rattle.srcu.specs.Words.{AreBoxesOf, IsBoxWriterOf};

use super::boxing::{Cell, cell_of, first_in, put};
use srcu::{Boxes, Held, Index, Limits, Memory, Pair, Refusal, Stop, Team, WIDEST, Worker, make};
use std::alloc::Global;
use std::sync::Wait;
use std::test::Fail;

/// How many processors hold an index up, and what a snapshot has of the worker's own.
fn look(
    alloc: Global,
    worker: &mut Worker<'_, u64>,
    index: Index,
) -> Result<(usize, Option<Pair>), Memory>
    ensures { worker.new.domain ≡ worker.old.domain }
{
    let processor = worker.processor();
    let holders = worker.holders(alloc, index)?;
    let snapshot = worker.snapshot(alloc)?;
    Ok((holders.len(), snapshot.of(index).pair(processor)))
}

/// The first rule of the table that a held section finds, or 0.
fn find_in(worker: &mut Worker<'_, u64>, boxes: &mut Boxes<Vec<u64>>, held: Held) -> (u64, Held)
    requires held { held.domain ≡ worker.old.domain.domain }
    requires boxes { AreBoxesOf worker.old.domain boxes.old }
    ensures worker { worker.new.domain ≡ worker.old.domain }
    ensures held { result.1.domain ≡ worker.old.domain.domain }
{
    match worker.find_held_box(boxes, held) {
        Ok(pin) => {
            let first = first_in(pin.get());
            let held = worker.release_held_box(boxes, pin);
            (first, held)
        }
        Err(held) => (0, held),
    }
}

/// A worker's processor, how many hold its section up, what a snapshot has of it, and the first rule that it finds.
type Used = (u16, usize, Option<Pair>, u64);

/// Queues a job, starts a barrier, gives a sign and puts a table. Then holds a section, and looks at it.
fn use_one<R: Wait>(
    rt: &R,
    worker: &mut Worker<'_, u64>,
    cell: &mut Cell,
    number: u64,
) -> Result<Used, Refusal>
    requires cell { IsBoxWriterOf worker.old.domain cell.old.writer × AreBoxesOf worker.old.domain cell.old.boxes }
    ensures worker { worker.new.domain ≡ worker.old.domain }
    ensures cell { IfOk result (λ _. IsBoxWriterOf worker.old.domain cell.new.writer × AreBoxesOf worker.old.domain cell.new.boxes) }
{
    let stop = Stop::new(cell.alloc, worker.domain())?;
    worker.call(rt, number)?;
    worker.barrier_start()?;
    if !worker.tell(rt, &stop).0 {
        return Err(Refusal::Memory);
    }
    put(rt, worker, &mut cell.writer, cell.alloc, number)?;
    let mut boxes = worker.another(&mut cell.boxes)?;
    let held = worker.down_read()?;
    let looked = look(cell.alloc, worker, held.index());
    let (first, held) = find_in(worker, &mut boxes, held);
    worker.up_read(held);
    let (holders, pair) = looked?;
    Ok((worker.processor(), holders, pair, first))
}

/// The same with the next worker of the team but so many.
fn use_next<R: Wait>(
    rt: &R,
    team: &mut Team<'_, u64>,
    cell: &mut Cell,
    others: u64,
) -> Result<Used, Refusal>
    requires cell { IsBoxWriterOf team.old.domain cell.old.writer × AreBoxesOf team.old.domain cell.old.boxes }
    ensures team { team.new.domain ≡ team.old.domain }
    ensures cell { IfOk result (λ _. IsBoxWriterOf team.old.domain cell.new.writer × AreBoxesOf team.old.domain cell.new.boxes) }
{
    for _ in 0..others {
        drop(team.worker());
    }
    let mut worker = team.worker().ok_or(Refusal::NoWorker)?;
    use_one(rt, &mut worker, cell, 7)
}

/// Workers 255, 64, 1 and 0 of a team, which gives out the last one first.
fn use_four<R: Wait + AllocGlobal>(rt: &R, team: &mut Team<'_, u64>) -> Result<[Used; 4], Refusal> {
    let writer = team.writer().ok_or(Refusal::NoWriter)?;
    let mut worker = team.worker().ok_or(Refusal::NoWorker)?;
    let mut cell = cell_of(&mut worker, rt.alloc(), writer)?;
    let last = use_one(rt, &mut worker, &mut cell, 7)?;
    let middle = use_next(rt, team, &mut cell, 190)?;
    let second = use_next(rt, team, &mut cell, 62)?;
    let first = use_next(rt, team, &mut cell, 0)?;
    Ok([last, middle, second, first])
}

/// The same in a domain of its own.
fn use_four_apart<R: Wait + AllocGlobal>(rt: &R) -> Result<[Used; 4], Refusal> {
    let (domain, cpus, writers) = make(rt.alloc(), 256, Limits { cells: 4, ..WIDEST })?;
    let mut team = Team::new(&domain, cpus, writers);
    use_four(rt, &mut team)
}

/// Would catch a call that says there is no memory, or finds no box, on one of the processors.
#[test]
fn uses_the_first_and_the_last(rt: HostRuntime) -> Result<(), Fail> {
    let pair = Some(Pair {
        locks: 1,
        unlocks: 0,
    });
    let used = |processor| (processor, 1, pair, 7);
    match use_four_apart(&rt) {
        Ok(all) => assert_eq!(rt; all, [used(255), used(64), used(1), used(0)]),
        Err(refusal) => panic!(rt; "{refusal}"),
    }
    Ok(())
}
