//! What the tests begin with: domains, their processors, and cells of boxes. And what they do with them, where each call
//! leaves the processor and the cell in their domain.
ghost use Rattle.std.specs.Prelude.{◌≡◌, ◌+◌, ◌<◌, vec_len, All, IfOk};
ghost use Rattle.sections.specs.Calls.{IsSameCpu};
ghost use Rattle.domain.specs.Views.{IsOf};
ghost use Rattle.boxes.specs.Boxes.{IsCellIn, IsCellOf, cell_of};
ghost use Rattle.boxes.specs.Writing.{IsPlain};

use boxes::{BoxWriter, Boxes, make};
use domain::{Cpu, Domain, Limits, MakeError, Writer};
use std::alloc::{AllocError, Global};

/// A new domain, its processors, and the writers of its cells.
#[derive(Drop)]
pub(super) struct Ground {
    pub(super) domain: Domain<()>,
    pub(super) cpus: Vec<Cpu<()>>,
    pub(super) writers: Vec<Writer>,
}

/// A domain with so many processors, and cells of so many slots.
pub(super) fn ground_of(
    alloc: Global,
    processors: usize,
    cells: u64,
    slots: u64,
) -> Result<Ground, MakeError>
    ensures cpus { IfOk result (λ g. All (IsOf g.domain) g.cpus.items) }
    ensures processors { IfOk result (λ g. vec_len g.cpus ≡ processors) }
    ensures writers { IfOk result (λ g. All (λ w. (w.domain ≡ g.domain.domain) × IsPlain w) g.writers.items) }
    ensures cells { IfOk result (λ g. vec_len g.writers ≡ cells) }
{
    let limits = Limits {
        sections: Limits::MOST_SECTIONS,
        periods: Limits::MOST_PERIODS,
        cells,
        slots,
    };
    let (domain, cpus, writers) = Domain::<()>::new(alloc, processors, limits)?;
    Ok(Ground {
        domain,
        cpus,
        writers,
    })
}

/// Takes the last one of these processors.
pub(super) fn take_cpu(domain: &Domain<()>, cpus: &mut Vec<Cpu<()>>) -> Cpu<()>
    requires some { 0 < vec_len cpus.old }
    requires here { All (IsOf domain.now) cpus.old.items }
    ensures here { IsOf domain.now result }
    ensures others { All (IsOf domain.now) cpus.new.items }
    ensures count { vec_len cpus.new + 1 ≡ vec_len cpus.old }
{
    cpus.pop().unwrap()
}

/// Adds a processor to these.
pub(super) fn add_cpu(
    domain: &Domain<()>,
    cpus: &mut Vec<Cpu<()>>,
    cpu: Cpu<()>,
) -> Result<(), AllocError>
    requires here { IsOf domain.now cpu }
    requires others { All (IsOf domain.now) cpus.old.items }
    ensures { IfOk result (λ _. All (IsOf domain.now) cpus.new.items) }
{
    cpus.push(cpu)?;
    Ok(())
}

/// Takes the last one of these writers.
pub(super) fn take_writer(domain: &Domain<()>, writers: &mut Vec<Writer>) -> Writer
    requires some { 0 < vec_len writers.old }
    requires plain { All (λ w. (w.domain ≡ domain.now.domain) × IsPlain w) writers.old.items }
    ensures plain { (result.domain ≡ domain.now.domain) × IsPlain result }
    ensures others { All (λ w. (w.domain ≡ domain.now.domain) × IsPlain w) writers.new.items }
    ensures count { vec_len writers.new + 1 ≡ vec_len writers.old }
{
    writers.pop().unwrap()
}

/// What writes the boxes of a cell, and what reads them.
#[derive(Drop)]
pub(super) struct Cell<V: Drop> {
    /// It may be dropped, so that a test can end early.
    pub(super) writer: BoxWriter<V, Global>,
    pub(super) boxes: Boxes<V>,
}

/// Makes a cell one of boxes.
pub(super) fn cell_with<V: Drop>(
    alloc: Global,
    domain: &Domain<()>,
    cpu: &mut Cpu<()>,
    writer: Writer,
) -> Result<Cell<V>, MakeError>
    requires here { IsOf domain.now cpu.old }
    requires plain { (writer.domain ≡ domain.now.domain) × IsPlain writer }
    ensures here { IsOf domain.now cpu.new }
    ensures writer { IfOk result (λ c. IsCellIn domain.now (cell_of c.writer)) }
    ensures boxes { IfOk result (λ c. IsCellIn domain.now c.boxes) }
{
    match make(alloc, domain, cpu, writer) {
        Ok((writer, boxes)) => Ok(Cell { writer, boxes }),
        Err(_writer) => Err(MakeError::Memory),
    }
}

/// A new domain with one cell of boxes: its last processor, and those before it.
#[derive(Drop)]
pub(super) struct Place<V: Drop> {
    pub(super) domain: Domain<()>,
    pub(super) cpu: Cpu<()>,
    pub(super) others: Vec<Cpu<()>>,
    pub(super) writer: BoxWriter<V, Global>,
    pub(super) boxes: Boxes<V>,
}

/// A place of so many processors, whose cell has so many slots.
pub(super) fn place_of<V: Drop>(
    alloc: Global,
    processors: usize,
    slots: u64,
) -> Result<Place<V>, MakeError>
    requires some { 0 < processors }
    ensures here { IfOk result (λ p. IsOf p.domain p.cpu) }
    ensures others { IfOk result (λ p. All (IsOf p.domain) p.others.items) }
    ensures count { IfOk result (λ p. vec_len p.others + 1 ≡ processors) }
    ensures writer { IfOk result (λ p. IsCellIn p.domain (cell_of p.writer)) }
    ensures boxes { IfOk result (λ p. IsCellIn p.domain p.boxes) }
{
    let Ground {
        domain,
        mut cpus,
        mut writers,
    } = ground_of(alloc, processors, 1, slots)?;
    let mut cpu = take_cpu(&domain, &mut cpus);
    let writer = take_writer(&domain, &mut writers);
    let Cell { writer, boxes } = cell_with(alloc, &domain, &mut cpu, writer)?;
    Ok(Place {
        domain,
        cpu,
        others: cpus,
        writer,
        boxes,
    })
}

/// Puts a box. Tells whether a slot was free; else the box is dropped.
pub(super) fn put<V: Drop>(
    domain: &Domain<()>,
    cpu: &mut Cpu<()>,
    writer: &mut BoxWriter<V, Global>,
    whole: Box<V>,
) -> bool
    requires here { IsOf domain.now cpu.old }
    requires cell { IsCellIn domain.now (cell_of writer.old) }
    ensures here { IsOf domain.now cpu.new }
    ensures cell { IsCellIn domain.now (cell_of writer.new) }
{
    writer.put(domain, cpu, whole).is_ok()
}

/// Puts a box, and has an older one back first, if one can come back. The box is handed back where no slot is free.
pub(super) fn replace<V: Drop>(
    domain: &Domain<()>,
    cpu: &mut Cpu<()>,
    writer: &mut BoxWriter<V, Global>,
    whole: Box<V>,
) -> Result<Option<Box<V>>, Box<V>>
    requires here { IsOf domain.now cpu.old }
    requires cell { IsCellIn domain.now (cell_of writer.old) }
    ensures here { IsOf domain.now cpu.new }
    ensures cell { IsCellIn domain.now (cell_of writer.new) }
    ensures same { IsSameCpu cpu.old.cpu cpu.new.cpu }
{
    writer.replace(domain, cpu, whole)
}

/// Puts a version with no box. Tells whether a slot was free.
pub(super) fn retire<V: Drop>(
    domain: &Domain<()>,
    cpu: &mut Cpu<()>,
    writer: &mut BoxWriter<V, Global>,
) -> bool
    requires here { IsOf domain.now cpu.old }
    requires cell { IsCellIn domain.now (cell_of writer.old) }
    ensures here { IsOf domain.now cpu.new }
    ensures cell { IsCellIn domain.now (cell_of writer.new) }
{
    writer.put_none(domain, cpu).is_some()
}

/// A box that no section can read any more, on a processor of this domain.
pub(super) fn reclaim<V: Drop>(
    domain: &Domain<()>,
    cpu: &mut Cpu<()>,
    writer: &mut BoxWriter<V, Global>,
) -> Option<Box<V>>
    requires here { IsOf domain.now cpu.old }
    requires cell { IsCellIn domain.now (cell_of writer.old) }
    ensures here { IsOf domain.now cpu.new }
    ensures cell { IsCellIn domain.now (cell_of writer.new) }
{
    writer.reclaim(cpu)
}

/// Drives so many turns of the engine.
pub(super) fn drive(domain: &Domain<()>, cpu: &mut Cpu<()>, turns: u32)
    requires { IsOf domain.now cpu.old }
    ensures here { IsOf domain.now cpu.new }
    ensures same { IsSameCpu cpu.old.cpu cpu.new.cpu }
{
    for _ in 0..turns {
        let _answer = domain.advance(cpu);
    }
}

/// A processor, and what reads boxes there.
#[derive(Drop)]
pub(super) struct Reader<V: Drop> {
    pub(super) cpu: Cpu<()>,
    pub(super) boxes: Boxes<V>,
}

/// Takes the last one of these processors, and has it read the same boxes.
pub(super) fn take_reader<V: Drop>(
    domain: &Domain<()>,
    cpus: &mut Vec<Cpu<()>>,
    boxes: &mut Boxes<V>,
) -> Result<Reader<V>, AllocError>
    requires some { 0 < vec_len cpus.old }
    requires here { All (IsOf domain.now) cpus.old.items }
    requires cell { IsCellIn domain.now boxes.old }
    ensures reader { IfOk result (λ r. IsOf domain.now r.cpu × (r.boxes ≡ boxes.old)) }
    ensures cell { IfOk result (λ r. IsCellOf r.cpu.cpu r.boxes) }
    ensures others { All (IsOf domain.now) cpus.new.items }
    ensures count { vec_len cpus.new + 1 ≡ vec_len cpus.old }
    ensures boxes { boxes.new ≡ boxes.old }
{
    let cpu = take_cpu(domain, cpus);
    let boxes = boxes.another(&cpu)?;
    Ok(Reader { cpu, boxes })
}
