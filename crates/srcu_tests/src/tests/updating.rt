//! Values that are replaced by what a closure makes of them, and cells that are emptied.
ghost use Rattle.std.specs.Prelude.{◌≡◌, IfOk};
ghost use Rattle.srcu.specs.Words.{AreBoxesOf, IsBoxWriterOf, IsWriterOf};

use srcu::{
    BoxRefusal, BoxWriter, Boxes, EmptyRefusal, Limits, Refusal, Team, UpdateRefusal, WIDEST,
    Worker, Writer, make,
};
use std::alloc::Global;
use std::sync::Wait;
use std::test::Fail;
use std::time::{Clock, Duration};

/// A cell of two slots: a put finds one free only after a grace period.
const NARROW: Limits = Limits {
    cells: 1,
    slots: 2,
    ..WIDEST
};

/// A cell of numbers.
#[derive(Drop)]
struct Cell {
    alloc: Global,
    writer: BoxWriter<u64>,
    boxes: Boxes<u64>,
}

/// Makes a writer's cell one of numbers.
fn cell_of(worker: &mut Worker<'_, u64>, alloc: Global, writer: Writer) -> Result<Cell, Refusal>
    requires { IsWriterOf worker.old.domain writer }
    ensures worker { worker.new.domain ≡ worker.old.domain }
    ensures cell { IfOk result (λ c. IsBoxWriterOf worker.old.domain c.writer × AreBoxesOf worker.old.domain c.boxes) }
{
    match worker.boxes(alloc, writer) {
        Ok((writer, boxes)) => Ok(Cell {
            alloc,
            writer,
            boxes,
        }),
        Err(_) => Err(Refusal::Memory),
    }
}

/// The number, or another one where there is none.
fn number_or(number: Option<&u64>, other: u64) -> u64 {
    number.copied().unwrap_or(other)
}

/// The number of a box that came back, or 0.
fn back_of(back: Option<Box<u64>>) -> u64 {
    match back {
        Some(back) => *back,
        None => 0,
    }
}

/// Makes 5 of no number, doubles it with no slot free, and doubles it again after a grace period. What was refused, and what
/// is shown.
fn double<R: Wait>(
    rt: &R,
    worker: &mut Worker<'_, u64>,
    cell: &mut Cell,
) -> Result<((u64, BoxRefusal), u64), Refusal>
    requires { IsBoxWriterOf worker.old.domain cell.old.writer × AreBoxesOf worker.old.domain cell.old.boxes }
{
    worker.synchronize(rt)?;
    let first = |number: Option<&u64>| number_or(number, 5);
    let twice = |number: Option<&u64>| number_or(number, 1).wrapping_mul(2);
    worker.update(cell.alloc, &mut cell.writer, first)?;
    let refused = match worker.update(cell.alloc, &mut cell.writer, twice) {
        Ok(_) => (0, BoxRefusal::Memory),
        Err(refused) => refused,
    };
    worker.synchronize(rt)?;
    worker.update(cell.alloc, &mut cell.writer, |number: Option<&u64>| {
        number_or(number, 1).wrapping_mul(2)
    })?;
    let shown = worker.show(&mut cell.boxes, |number| **number)?;
    Ok((refused, shown.unwrap_or(0)))
}

fn double_apart<R: Wait + AllocGlobal>(rt: &R) -> Result<((u64, BoxRefusal), u64), Refusal> {
    let (domain, cpus, writers) = make(rt.alloc(), 1, NARROW)?;
    let mut team = Team::new(&domain, cpus, writers);
    let writer = team.writer().ok_or(Refusal::NoWriter)?;
    let mut worker = team.worker().ok_or(Refusal::NoWorker)?;
    let mut cell = cell_of(&mut worker, rt.alloc(), writer)?;
    double(rt, &mut worker, &mut cell)
}

/// Would catch a closure that is shown another value, and an answer that is lost where it can't be put.
#[test]
fn updates_what_is_there(rt: HostRuntime) -> Result<(), Fail> {
    match double_apart(&rt) {
        Ok((refused, shown)) => {
            assert_eq!(rt; refused, (10, BoxRefusal::NoSlot));
            assert_eq!(rt; shown, 10);
        }
        Err(refusal) => panic!(rt; "{refusal}"),
    }
    Ok(())
}

/// Half of an even number. Any other one is refused.
fn half_of(number: Option<&u64>) -> Result<u64, u64> {
    match number {
        Some(number) if *number % 2 == 0 => Ok(*number / 2),
        Some(number) => Err(*number),
        None => Err(0),
    }
}

/// Halves the number that is there. Returns the number that the closure refused, or 0.
fn halve_once(worker: &mut Worker<'_, u64>, cell: &mut Cell) -> u64
    requires { IsBoxWriterOf worker.old.domain cell.old.writer × AreBoxesOf worker.old.domain cell.old.boxes }
    ensures worker { worker.new.domain ≡ worker.old.domain }
    ensures cell { IsBoxWriterOf worker.old.domain cell.new.writer × AreBoxesOf worker.old.domain cell.new.boxes }
{
    match worker.try_update(cell.alloc, &mut cell.writer, |number: Option<&u64>| {
        half_of(number)
    }) {
        Ok(_) => 0,
        Err(UpdateRefusal::Made(number)) => number,
        Err(UpdateRefusal::Put(_, _)) => 1,
    }
}

/// Halves 6 as long as it is even. What is shown then, and what each closure refused.
fn halve<R: Wait>(
    rt: &R,
    worker: &mut Worker<'_, u64>,
    cell: &mut Cell,
) -> Result<(u64, u64, u64), Refusal>
    requires { IsBoxWriterOf worker.old.domain cell.old.writer × AreBoxesOf worker.old.domain cell.old.boxes }
{
    worker.replace_box(cell.alloc, &mut cell.writer, 6)?;
    let first = halve_once(worker, cell);
    let refused = halve_once(worker, cell);
    worker.synchronize(rt)?;
    let shown = worker.show(&mut cell.boxes, |number| **number)?;
    Ok((shown.unwrap_or(0), first, refused))
}

fn halve_apart<R: Wait + AllocGlobal>(rt: &R) -> Result<(u64, u64, u64), Refusal> {
    let (domain, cpus, writers) = make(rt.alloc(), 1, Limits { cells: 1, ..WIDEST })?;
    let mut team = Team::new(&domain, cpus, writers);
    let writer = team.writer().ok_or(Refusal::NoWriter)?;
    let mut worker = team.worker().ok_or(Refusal::NoWorker)?;
    let mut cell = cell_of(&mut worker, rt.alloc(), writer)?;
    halve(rt, &mut worker, &mut cell)
}

/// Would catch a put after a refusal, and a refusal of what can be put.
#[test]
fn a_closure_may_refuse(rt: HostRuntime) -> Result<(), Fail> {
    match halve_apart(&rt) {
        Ok(halved) => assert_eq!(rt; halved, (3, 0, 3)),
        Err(refusal) => panic!(rt; "{refusal}"),
    }
    Ok(())
}

/// The sum of the numbers that come back until none is left, and how many these are.
fn empty<R: Wait>(
    rt: &R,
    worker: &mut Worker<'_, u64>,
    writer: &mut BoxWriter<u64>,
) -> Result<(u64, u64), Refusal>
    requires { IsBoxWriterOf worker.old.domain writer.old }
{
    let (mut sum, mut count) = (0u64, 0u64);
    for _ in rt.forever() {
        let Some(back) = worker.empty(rt, writer)? else {
            break;
        };
        sum = sum.wrapping_add(*back);
        count = count.wrapping_add(1);
    }
    Ok((sum, count))
}

/// Puts 1, 2 and 3 in a cell of two slots, and empties it. The sum of what came back in between, that in the end with its
/// count, and how many are left.
fn fill_and_empty<R: Wait>(
    rt: &R,
    worker: &mut Worker<'_, u64>,
    cell: &mut Cell,
) -> Result<(u64, (u64, u64), usize), Refusal>
    requires { IsBoxWriterOf worker.old.domain cell.old.writer }
{
    let first = worker.replace_box_wait(rt, cell.alloc, &mut cell.writer, 1)?;
    let second = worker.replace_box_wait(rt, cell.alloc, &mut cell.writer, 2)?;
    let third = worker.replace_box_wait(rt, cell.alloc, &mut cell.writer, 3)?;
    let before = back_of(first)
        .wrapping_add(back_of(second))
        .wrapping_add(back_of(third));
    let last = empty(rt, worker, &mut cell.writer)?;
    Ok((before, last, cell.writer.left()))
}

fn fill_and_empty_apart<R: Wait + AllocGlobal>(
    rt: &R,
) -> Result<(u64, (u64, u64), usize), Refusal> {
    let (domain, cpus, writers) = make(rt.alloc(), 1, NARROW)?;
    let mut team = Team::new(&domain, cpus, writers);
    let writer = team.writer().ok_or(Refusal::NoWriter)?;
    let mut worker = team.worker().ok_or(Refusal::NoWorker)?;
    let mut cell = cell_of(&mut worker, rt.alloc(), writer)?;
    fill_and_empty(rt, &mut worker, &mut cell)
}

/// Would catch a put that doesn't wait, a box that comes back twice or never, and an emptying that ends early.
#[test]
fn empties_a_cell(rt: HostRuntime) -> Result<(), Fail> {
    match fill_and_empty_apart(&rt) {
        Ok((before, last, left)) => {
            assert_eq!(rt; before.wrapping_add(last.0), 6);
            assert_eq!(rt; (last.1, left), (3 - u64::from(before > 0), 0));
        }
        Err(refusal) => panic!(rt; "{refusal}"),
    }
    Ok(())
}

/// Empties beside an open section of another worker, for so long, and then after its end. What was refused, and what came.
fn empty_beside<R: Wait + Clock>(
    rt: &R,
    worker: &mut Worker<'_, u64>,
    other: &mut Worker<'_, u64>,
    cell: &mut Cell,
) -> Result<(Option<EmptyRefusal>, u64), Refusal>
    requires domain { other.old.domain ≡ worker.old.domain }
    requires cell { IsBoxWriterOf worker.old.domain cell.old.writer }
{
    worker.replace_box(cell.alloc, &mut cell.writer, 7)?;
    let held = other.down_read()?;
    let refused = worker
        .empty_for(rt, &mut cell.writer, Duration::from_millis(20))
        .err();
    other.up_read(held);
    let back = worker.empty_for(rt, &mut cell.writer, Duration::from_secs(60))?;
    Ok((refused, back_of(back)))
}

fn empty_beside_apart<R: Wait + Clock + AllocGlobal>(
    rt: &R,
) -> Result<(Option<EmptyRefusal>, u64), Refusal> {
    let (domain, cpus, writers) = make(rt.alloc(), 2, Limits { cells: 1, ..WIDEST })?;
    let mut team = Team::new(&domain, cpus, writers);
    let writer = team.writer().ok_or(Refusal::NoWriter)?;
    let mut worker = team.worker().ok_or(Refusal::NoWorker)?;
    let mut other = team.worker().ok_or(Refusal::NoWorker)?;
    let mut cell = cell_of(&mut worker, rt.alloc(), writer)?;
    empty_beside(rt, &mut worker, &mut other, &mut cell)
}

/// Would catch a box that comes back while a section may read it, and a limit that isn't one.
#[test]
fn empties_for_so_long(rt: HostRuntime) -> Result<(), Fail> {
    match empty_beside_apart(&rt) {
        Ok(emptied) => assert_eq!(rt; emptied, (Some(EmptyRefusal::TimedOut(1)), 7)),
        Err(refusal) => panic!(rt; "{refusal}"),
    }
    Ok(())
}
