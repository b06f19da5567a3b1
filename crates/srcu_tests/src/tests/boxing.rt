//! Boxes of workers, in one thread.
ghost use Rattle.std.specs.Prelude.{◌≡◌, IfOk};
ghost use Rattle.srcu.specs.Words.{AreBoxesOf, IsBoxWriterOf, IsWriterOf};

use srcu::{BoxRefusal, BoxWriter, Boxes, Limits, Refusal, Team, WIDEST, Worker, Writer, make};
use std::alloc::Global;
use std::sync::Wait;
use std::test::Fail;

/// How many rules a table has.
const RULES: usize = 10_000;

/// A table each rule of which is this number.
fn rules_of(alloc: Global, number: u64) -> Result<Vec<u64>, Refusal> {
    Ok(vec![in alloc; number; RULES]?)
}

/// The number in the last rule, where there is a table.
fn last_of(
    worker: &mut Worker<'_, u64>,
    rules: &mut Boxes<Vec<u64>>,
) -> Result<Option<u64>, Refusal>
    requires { AreBoxesOf worker.old.domain rules.old }
    ensures worker { worker.new.domain ≡ worker.old.domain }
    ensures rules { rules.new ≡ rules.old }
{
    let last = worker.show(rules, |rules| rules.last().copied())?;
    Ok(last.flatten())
}

/// Puts a table, and waits. Returns the first rule of an older one that came back.
pub(super) fn put<R: Wait>(
    rt: &R,
    worker: &mut Worker<'_, u64>,
    writer: &mut BoxWriter<Vec<u64>>,
    alloc: Global,
    number: u64,
) -> Result<Option<u64>, Refusal>
    requires { IsBoxWriterOf worker.old.domain writer.old }
    ensures worker { worker.new.domain ≡ worker.old.domain }
    ensures writer { IfOk result (λ _. IsBoxWriterOf worker.old.domain writer.new) }
{
    let old = worker.replace_box(alloc, writer, rules_of(alloc, number)?)?;
    worker.synchronize(rt)?;
    match old {
        Some(rules) => Ok(rules.first().copied()),
        None => Ok(None),
    }
}

/// The first rule of a table that came back, or 0.
fn number_of(back: Option<Box<Vec<u64>>>) -> u64 {
    match back {
        Some(rules) => rules.first().copied().unwrap_or(0),
        None => 0,
    }
}

/// Puts a table, and shows it on the other worker. Returns what came back, and what was shown.
fn put_and_show<R: Wait>(
    rt: &R,
    one: &mut Worker<'_, u64>,
    other: &mut Worker<'_, u64>,
    cell: &mut Cell,
    number: u64,
) -> Result<(u64, u64), Refusal>
    requires domain { other.old.domain ≡ one.old.domain }
    requires cell { IsBoxWriterOf one.old.domain cell.old.writer × AreBoxesOf one.old.domain cell.old.boxes }
    ensures domain { (one.new.domain ≡ one.old.domain) × (other.new.domain ≡ other.old.domain) }
    ensures cell { IfOk result (λ _. IsBoxWriterOf one.old.domain cell.new.writer × AreBoxesOf one.old.domain cell.new.boxes) }
{
    let back = put(rt, one, &mut cell.writer, cell.alloc, number)?;
    let shown = last_of(other, &mut cell.boxes)?;
    Ok((back.unwrap_or(0), shown.unwrap_or(0)))
}

/// Retires the last table, and waits. Returns the first rules of what comes back then, or 0.
fn take_back<R: Wait>(
    rt: &R,
    worker: &mut Worker<'_, u64>,
    writer: &mut BoxWriter<Vec<u64>>,
) -> Result<(u64, u64, u64), Refusal>
    requires { IsBoxWriterOf worker.old.domain writer.old }
{
    let first = number_of(worker.retire(writer)?);
    worker.synchronize(rt)?;
    let second = number_of(worker.reclaim(writer));
    Ok((first, second, number_of(worker.reclaim(writer))))
}

/// A cell of tables, whose writer may be dropped.
#[derive(Drop)]
pub(super) struct Cell {
    pub(super) alloc: Global,
    pub(super) writer: BoxWriter<Vec<u64>>,
    pub(super) boxes: Boxes<Vec<u64>>,
}

/// Makes a writer's cell one of tables.
pub(super) fn cell_of(
    worker: &mut Worker<'_, u64>,
    alloc: Global,
    writer: Writer,
) -> Result<Cell, Refusal>
    requires { IsWriterOf worker.old.domain writer }
    ensures worker { worker.new.domain ≡ worker.old.domain }
    ensures cell { IfOk result (λ c. IsBoxWriterOf worker.old.domain c.writer × AreBoxesOf worker.old.domain c.boxes) }
{
    match worker.boxes(alloc, writer) {
        Ok((writer, boxes)) => Ok(Cell {
            alloc,
            writer,
            boxes,
        }),
        Err(_) => Err(Refusal::Memory),
    }
}

/// Two workers, and a cell of tables.
fn two_of<'a>(
    team: &mut Team<'a, u64>,
    alloc: Global,
) -> Result<(Worker<'a, u64>, Worker<'a, u64>, Cell), Refusal>
    ensures workers { IfOk result (λ r. (r.0.domain ≡ team.old.domain) × (r.1.domain ≡ team.old.domain)) }
    ensures cell { IfOk result (λ r. IsBoxWriterOf team.old.domain r.2.writer × AreBoxesOf team.old.domain r.2.boxes) }
{
    let writer = team.writer().ok_or(Refusal::NoWriter)?;
    let mut one = team.worker().ok_or(Refusal::NoWorker)?;
    let other = team.worker().ok_or(Refusal::NoWorker)?;
    let mut cell = cell_of(&mut one, alloc, writer)?;
    cell.boxes = other.another(&mut cell.boxes)?;
    Ok((one, other, cell))
}

/// What came back at each of three puts, what was shown then, and what came back in the end.
type Came = ((u64, u64, u64), (u64, u64, u64), (u64, u64, u64));

/// Puts three tables, and has them back.
fn put_three<R: Wait>(
    rt: &R,
    one: &mut Worker<'_, u64>,
    other: &mut Worker<'_, u64>,
    cell: &mut Cell,
) -> Result<Came, Refusal>
    requires domain { other.old.domain ≡ one.old.domain }
    requires cell { IsBoxWriterOf one.old.domain cell.old.writer × AreBoxesOf one.old.domain cell.old.boxes }
{
    let first = put_and_show(rt, one, other, cell, 1)?;
    let second = put_and_show(rt, one, other, cell, 2)?;
    let third = put_and_show(rt, one, other, cell, 3)?;
    let left = take_back(rt, one, &mut cell.writer)?;
    let back = (first.0, second.0, third.0);
    let shown = (first.1, second.1, third.1);
    Ok((back, shown, left))
}

/// The same with workers of the team.
fn put_three_by<R: Wait + AllocGlobal>(rt: &R, team: &mut Team<'_, u64>) -> Result<Came, Refusal> {
    let (mut one, mut other, mut cell) = two_of(team, rt.alloc())?;
    put_three(rt, &mut one, &mut other, &mut cell)
}

/// The same in a domain of its own.
fn put_three_apart<R: Wait + AllocGlobal>(rt: &R) -> Result<Came, Refusal> {
    let (domain, cpus, writers) = make(rt.alloc(), 2, Limits { cells: 1, ..WIDEST })?;
    let mut team = Team::new(&domain, cpus, writers);
    put_three_by(rt, &mut team)
}

/// Would catch a table that isn't shown, an old one that is shown, and one that comes back twice, early or never.
#[test]
fn replaces_boxes(rt: HostRuntime) -> Result<(), Fail> {
    match put_three_apart(&rt) {
        Ok((back, shown, left)) => {
            assert_eq!(rt; back, (0, 0, 1));
            assert_eq!(rt; shown, (1, 2, 3));
            assert_eq!(rt; left, (2, 3, 0));
        }
        Err(refusal) => panic!(rt; "{refusal}"),
    }
    Ok(())
}

/// What is shown of a cell with no table, in a held section.
const NO_TABLE: (u64, u64) = (0, 0);

/// What a pin of a held section shows before another table is put, and after it. The section ends on the other worker.
fn hold_over(
    one: &mut Worker<'_, u64>,
    other: &mut Worker<'_, u64>,
    cell: &mut Cell,
    next: u64,
) -> Result<(u64, u64), Refusal>
    requires domain { other.old.domain ≡ one.old.domain }
    requires cell { IsBoxWriterOf one.old.domain cell.old.writer × AreBoxesOf one.old.domain cell.old.boxes }
    ensures domain { (one.new.domain ≡ one.old.domain) × (other.new.domain ≡ other.old.domain) }
    ensures cell { IfOk result (λ _. IsBoxWriterOf one.old.domain cell.new.writer × AreBoxesOf one.old.domain cell.new.boxes) }
{
    let next = rules_of(cell.alloc, next)?;
    let held = one.down_read()?;
    match one.find_held_box(&mut cell.boxes, held) {
        Ok(pin) => {
            let before = first_in(pin.get());
            let _older = other.replace_box(cell.alloc, &mut cell.writer, next);
            let behind = first_in(pin.get());
            let held = other.release_held_box(&cell.boxes, pin);
            other.up_read(held);
            Ok((before, behind))
        }
        Err(held) => {
            one.up_read(held);
            Ok(NO_TABLE)
        }
    }
}

/// The first rule of a table, or 0.
pub(super) fn first_in(rules: &Vec<u64>) -> u64 {
    rules.first().copied().unwrap_or(0)
}

/// What a held section shows where no table is there, and where another is put meanwhile, and what comes back in the end.
type Shown = ((u64, u64), (u64, u64), (u64, u64, u64));

/// Holds a section over no table, and one over a table.
fn hold_twice<R: Wait>(
    rt: &R,
    one: &mut Worker<'_, u64>,
    other: &mut Worker<'_, u64>,
    cell: &mut Cell,
) -> Result<Shown, Refusal>
    requires domain { other.old.domain ≡ one.old.domain }
    requires cell { IsBoxWriterOf one.old.domain cell.old.writer × AreBoxesOf one.old.domain cell.old.boxes }
{
    let none = hold_over(one, other, cell, 0)?;
    put(rt, one, &mut cell.writer, cell.alloc, 1)?;
    let shown = hold_over(one, other, cell, 2)?;
    one.synchronize(rt)?;
    let left = take_back(rt, one, &mut cell.writer)?;
    Ok((none, shown, left))
}

/// The same with workers of the team.
fn hold_twice_by<R: Wait + AllocGlobal>(
    rt: &R,
    team: &mut Team<'_, u64>,
) -> Result<Shown, Refusal> {
    let (mut one, mut other, mut cell) = two_of(team, rt.alloc())?;
    hold_twice(rt, &mut one, &mut other, &mut cell)
}

/// The same in a domain of its own.
fn hold_twice_apart<R: Wait + AllocGlobal>(rt: &R) -> Result<Shown, Refusal> {
    let (domain, cpus, writers) = make(rt.alloc(), 2, Limits { cells: 1, ..WIDEST })?;
    let mut team = Team::new(&domain, cpus, writers);
    hold_twice_by(rt, &mut team)
}

/// Would catch a held section in which no box is found, or another one than before, and a box that never comes back once
/// the section has ended on the other worker.
#[test]
fn a_held_section_keeps_its_box(rt: HostRuntime) -> Result<(), Fail> {
    match hold_twice_apart(&rt) {
        Ok((none, shown, left)) => {
            assert_eq!(rt; none, NO_TABLE);
            assert_eq!(rt; shown, (1, 1));
            assert_eq!(rt; (left.0.saturating_add(left.1), left.2), (3, 0));
        }
        Err(refusal) => panic!(rt; "{refusal}"),
    }
    Ok(())
}

/// Puts two tables in a cell of two slots, and doesn't wait. What the second one was refused for, and what its first rule is.
fn put_too_soon<R: Wait + AllocGlobal>(
    rt: &R,
    worker: &mut Worker<'_, u64>,
    writer: Writer,
) -> Result<Option<(BoxRefusal, Option<u64>)>, Refusal>
    requires { IsWriterOf worker.old.domain writer }
{
    let first = rules_of(rt.alloc(), 1)?;
    let second = rules_of(rt.alloc(), 2)?;
    let mut cell = cell_of(worker, rt.alloc(), writer)?;
    worker.synchronize(rt)?;
    worker.replace_box(cell.alloc, &mut cell.writer, first)?;
    match worker.replace_box(cell.alloc, &mut cell.writer, second) {
        Ok(_) => Ok(None),
        Err((rules, refusal)) => Ok(Some((refusal, rules.last().copied()))),
    }
}

/// The same with a worker of the team.
fn put_too_soon_by<R: Wait + AllocGlobal>(
    rt: &R,
    team: &mut Team<'_, u64>,
) -> Result<Option<(BoxRefusal, Option<u64>)>, Refusal> {
    let writer = team.writer().ok_or(Refusal::NoWriter)?;
    let mut worker = team.worker().ok_or(Refusal::NoWorker)?;
    put_too_soon(rt, &mut worker, writer)
}

/// The same in a domain of its own.
fn put_too_soon_apart<R: Wait + AllocGlobal>(
    rt: &R,
) -> Result<Option<(BoxRefusal, Option<u64>)>, Refusal> {
    let limits = Limits {
        cells: 1,
        slots: 2,
        ..WIDEST
    };
    let (domain, cpus, writers) = make(rt.alloc(), 1, limits)?;
    let mut team = Team::new(&domain, cpus, writers);
    put_too_soon_by(rt, &mut team)
}

/// Would catch a box that is put where a section may still read, and a value that is lost where it can't be put.
#[test]
fn hands_a_value_back(rt: HostRuntime) -> Result<(), Fail> {
    match put_too_soon_apart(&rt) {
        Ok(refused) => assert_eq!(rt; refused, Some((BoxRefusal::NoSlot, Some(2)))),
        Err(refusal) => panic!(rt; "{refusal}"),
    }
    Ok(())
}
