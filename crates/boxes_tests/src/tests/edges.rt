//! Boxes in every slot of every cell, on the first and the last processors of the largest domain.
ghost use Rattle.std.specs.Prelude.{◌≡◌, All, IfSome};
ghost use Rattle.domain.specs.Views.{IsOf};
ghost use Rattle.boxes.specs.Boxes.{IsCellIn, cell_of};
ghost use Rattle.boxes.specs.Writing.{IsPlain};

use super::alone::number_in;
use super::places::{Cell, Ground, cell_with, drive, ground_of, replace, take_cpu, take_writer};
use boxes::{BoxWriter, Boxes};
use domain::{Cpu, Domain, Writer};
use std::alloc::{AllocError, Global};
use std::test::Fail;

/// The processors at the edges: 0, 1, 64 and 255.
#[derive(Drop)]
struct Edges {
    first: Cpu<()>,
    second: Cpu<()>,
    middle: Cpu<()>,
    last: Cpu<()>,
}

/// Takes the last processor but so many.
fn take_before(domain: &Domain<()>, cpus: &mut Vec<Cpu<()>>, others: usize) -> Option<Cpu<()>>
    requires here { All (IsOf domain.now) cpus.old.items }
    ensures here { All (IsOf domain.now) cpus.new.items }
    ensures one { IfSome result (IsOf domain.now) }
{
    for _ in 0..others {
        if !cpus.is_empty() {
            drop(take_cpu(domain, cpus));
        }
    }
    if cpus.is_empty() {
        return None;
    }
    Some(take_cpu(domain, cpus))
}

/// Those of 256 processors.
fn edges_of(domain: &Domain<()>, mut cpus: Vec<Cpu<()>>) -> Option<Edges>
    requires here { All (IsOf domain.now) cpus.items }
    ensures first { IfSome result (λ e. IsOf domain.now e.first × IsOf domain.now e.second) }
    ensures last { IfSome result (λ e. IsOf domain.now e.middle × IsOf domain.now e.last) }
{
    let last = take_before(domain, &mut cpus, 0)?;
    let middle = take_before(domain, &mut cpus, 190)?;
    let second = take_before(domain, &mut cpus, 62)?;
    let first = take_before(domain, &mut cpus, 0)?;
    Some(Edges {
        first,
        second,
        middle,
        last,
    })
}

/// The writer of a cell, of all four.
fn writer_of(domain: &Domain<()>, mut writers: Vec<Writer>, cell: usize) -> Option<Writer>
    requires plain { All (λ w. (w.domain ≡ domain.now.domain) × IsPlain w) writers.items }
    ensures plain { IfSome result (λ w. (w.domain ≡ domain.now.domain) × IsPlain w) }
{
    for _ in 0..4 {
        if writers.is_empty() {
            return None;
        }
        let writer = take_writer(domain, &mut writers);
        if writer.cell() == cell {
            return Some(writer);
        }
    }
    None
}

/// Whether a number is found on a processor, as 1 or 0: by a reading, by a closure and by a held section.
fn found_on(domain: &Domain<()>, boxes: &mut Boxes<u64>, cpu: &mut Cpu<()>, number: u64) -> u64
    requires here { IsOf domain.now cpu.old }
    requires cell { IsCellIn domain.now boxes.old }
    ensures here { IsOf domain.now cpu.new }
    ensures boxes { boxes.new ≡ boxes.old }
{
    let found = number_in(domain, boxes, cpu);
    let shown = shown_on(domain, boxes, cpu);
    let held = held_on(domain, boxes, cpu);
    u64::from([found, shown, held] == [Some(number); 3])
}

/// The number that a closure is shown.
fn shown_on(domain: &Domain<()>, boxes: &mut Boxes<u64>, cpu: &mut Cpu<()>) -> Option<u64>
    requires here { IsOf domain.now cpu.old }
    requires cell { IsCellIn domain.now boxes.old }
    ensures here { IsOf domain.now cpu.new }
    ensures boxes { boxes.new ≡ boxes.old }
{
    match boxes.read(cpu, |number| **number) {
        Ok(shown) => shown,
        Err(_) => None,
    }
}

/// The number that a held section finds.
fn held_on(domain: &Domain<()>, boxes: &mut Boxes<u64>, cpu: &mut Cpu<()>) -> Option<u64>
    requires here { IsOf domain.now cpu.old }
    requires cell { IsCellIn domain.now boxes.old }
    ensures here { IsOf domain.now cpu.new }
    ensures boxes { boxes.new ≡ boxes.old }
{
    let held = cpu.down_read().ok()?;
    match boxes.find(cpu, held) {
        Ok(pin) => {
            let number = *pin.get();
            let held = boxes.release(cpu, pin);
            cpu.up_read(held);
            Some(number)
        }
        Err(held) => {
            cpu.up_read(held);
            None
        }
    }
}

/// On how many of the edges it is found.
fn found_on_edges(
    domain: &Domain<()>,
    boxes: &mut Boxes<u64>,
    edges: &mut Edges,
    number: u64,
) -> u64
    requires first { IsOf domain.now edges.old.first × IsOf domain.now edges.old.second }
    requires last { IsOf domain.now edges.old.middle × IsOf domain.now edges.old.last }
    requires cell { IsCellIn domain.now boxes.old }
    ensures first { IsOf domain.now edges.new.first × IsOf domain.now edges.new.second }
    ensures last { IsOf domain.now edges.new.middle × IsOf domain.now edges.new.last }
    ensures boxes { boxes.new ≡ boxes.old }
{
    let first = found_on(domain, boxes, &mut edges.first, number);
    let second = found_on(domain, boxes, &mut edges.second, number);
    let middle = found_on(domain, boxes, &mut edges.middle, number);
    let last = found_on(domain, boxes, &mut edges.last, number);
    first
        .saturating_add(second)
        .saturating_add(middle)
        .saturating_add(last)
}

/// How many numbers are put in a cell of eight slots. Two slots are used when it is made. The first six numbers take the
/// others: none is free again before the seventh.
const PUTS: u64 = 16;

/// Puts a number. Tells whether a slot was free.
fn put_number(
    domain: &Domain<()>,
    cpu: &mut Cpu<()>,
    writer: &mut BoxWriter<u64, Global>,
    alloc: Global,
    number: u64,
) -> Result<bool, AllocError>
    requires here { IsOf domain.now cpu.old }
    requires cell { IsCellIn domain.now (cell_of writer.old) }
    ensures here { IsOf domain.now cpu.new }
    ensures cell { IsCellIn domain.now (cell_of writer.new) }
{
    if number > 6 {
        drive(domain, cpu, 40);
    }
    let whole = Box::new(alloc, number)?;
    Ok(replace(domain, cpu, writer, whole).is_ok())
}

/// How often a number is found at the edges in a cell, each once it was put.
fn found_in(alloc: Global, cell: usize) -> Result<u64, Fail> {
    let Ground {
        domain,
        cpus,
        writers,
    } = ground_of(alloc, 256, 4, 8)?;
    let Some(mut edges) = edges_of(&domain, cpus) else {
        return Ok(0);
    };
    let Some(writer) = writer_of(&domain, writers, cell) else {
        return Ok(0);
    };
    let Cell {
        mut writer,
        mut boxes,
    } = cell_with::<u64>(alloc, &domain, &mut edges.first, writer)?;
    Ok(found_of_each(alloc, &domain, &mut edges, &mut writer, &mut boxes)?)
}

/// The same, of each number.
fn found_of_each(
    alloc: Global,
    domain: &Domain<()>,
    edges: &mut Edges,
    writer: &mut BoxWriter<u64, Global>,
    boxes: &mut Boxes<u64>,
) -> Result<u64, AllocError>
    requires first { IsOf domain.now edges.old.first × IsOf domain.now edges.old.second }
    requires last { IsOf domain.now edges.old.middle × IsOf domain.now edges.old.last }
    requires writer { IsCellIn domain.now (cell_of writer.old) }
    requires boxes { IsCellIn domain.now boxes.old }
{
    let mut found: u64 = 0;
    for number in 1..=PUTS {
        if put_number(domain, &mut edges.first, writer, alloc, number)? {
            found = found.saturating_add(found_on_edges(domain, boxes, edges, number));
        }
    }
    Ok(found)
}

/// Would catch a domain, a vault or a cell that is refused at its greatest size, and a box that isn't found in one of the
/// slots, in one of the cells, or on one of the processors.
#[test]
fn found_at_the_edges(rt: HostRuntime) -> Result<(), Fail> {
    for cell in 0..4 {
        assert_eq!(rt; found_in(rt.alloc(), cell)?, 4 * PUTS, "at {cell}");
    }
    Ok(())
}
