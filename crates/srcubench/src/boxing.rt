//! Boxes that are found in sections of their own, and read where they lie: a thread for each of a domain's readers.
ghost use Rattle.std.specs.Prelude.{◌≡◌, ◌^◌, ◌≤◌, All, IfOk};
ghost use Rattle.domain.specs.Views.{IsOf};
ghost use Rattle.boxes.specs.Boxes.{IsCellIn, IsCellOf};
ghost use Rattle.boxes.specs.Writing.{IsPlain};

use crate::callbacks::first_error;
use crate::driving::drive_period;
use crate::founding::{New, found};
use crate::miss::Miss;
use crate::work::Timed;
use anyhow::Result;
use boxes::{BoxWriter, Boxes, make};
use domain::{Cpu, Domain, Writer};
use std::alloc::{AllocError, Global};
use std::thread;
use std::thread::Threads;
use std::time::{Clock, Instant};

/// What is in the box.
const NUMBER: u32 = 7;

/// A processor, and what reads the boxes there.
#[derive(Drop)]
struct Finder {
    cpu: Cpu<()>,
    boxes: Boxes<u32>,
    ghost here: { IsCellOf cpu.cpu boxes },
}

/// Finds the box in a section of its own, and reads what is in it.
fn find_once(finder: &mut Finder) -> Result<(), Miss> {
    match finder.boxes.read(&mut finder.cpu, |number| **number)? {
        Some(NUMBER) => Ok(()),
        Some(number) => Err(Miss::Found(number)),
        None => Err(Miss::NoBox),
    }
}

/// Does so so many times, one behind the other.
fn find_often(mut finder: Finder, times: u64) -> Result<(), Miss> {
    for _ in 0..times {
        find_once(&mut finder)?;
    }
    Ok(())
}

/// A finder on each processor.
fn finders_on(
    alloc: Global,
    domain: &Domain<()>,
    mut cpus: Vec<Cpu<()>>,
    boxes: &mut Boxes<u32>,
) -> Result<Vec<Finder>, AllocError>
    requires here { All (IsOf domain.now) cpus.items }
    requires cell { IsCellIn domain.now boxes.old }
{
    let mut finders = Vec::new(alloc);
    while let Some(cpu) = cpus.pop() {
        let boxes = boxes.another(&cpu)?;
        finders.push(Finder { cpu, boxes })?;
    }
    Ok(finders)
}

/// Makes the writer's cell one of boxes, and puts one there. Where that is refused, no finder finds one.
fn fill(
    alloc: Global,
    domain: &Domain<()>,
    changer: &mut Cpu<()>,
    writer: Writer,
) -> Result<(BoxWriter<u32>, Boxes<u32>)>
    requires domain { IsOf domain.now changer.old }
    requires here { writer.domain ≡ domain.now.domain }
    requires plain { IsPlain writer }
    ensures { IfOk result (λ filled. IsCellIn domain.now filled.1) }
{
    let number = Box::new(alloc, NUMBER)?;
    let Ok((mut writer, boxes)) = make(alloc, domain, changer, writer) else {
        return Err(Miss::Memory.into());
    };
    let _driven = drive_period(domain, changer); // so the cell's other slot is blank again
    let _old = writer.replace(domain, changer, number);
    Ok((writer, boxes))
}

/// Has each finder find a box so many times in a thread of its own. The `elapsed` is what the clock told, of which no clause
/// speaks: from before the first thread's start until all had ended.
fn find_together<R: Threads + Sync + Clock>(
    rt: &R,
    finders: Vec<Finder>,
    times: u64,
) -> Result<Timed>
    ensures { IfOk result (λ timed. timed.done ≡ times) }
{
    let start = Instant::now(rt)?;
    let outcomes = thread::map_vec(rt, finders, &|finder| find_often(finder, times))?;
    let elapsed = start.elapsed(rt)?;
    first_error(outcomes.as_slice())?;
    Ok(Timed {
        done: times,
        elapsed,
    })
}

/// Has each of these processors find a box so many times.
fn find_on_each<R: Threads + Sync + Clock + AllocGlobal>(
    rt: &R,
    domain: &Domain<()>,
    cpus: Vec<Cpu<()>>,
    boxes: &mut Boxes<u32>,
    times: u64,
) -> Result<Timed>
    requires here { All (IsOf domain.now) cpus.items }
    requires cell { IsCellIn domain.now boxes.old }
    ensures { IfOk result (λ timed. timed.done ≡ times) }
{
    let finders = finders_on(rt.alloc(), domain, cpus, boxes)?;
    find_together(rt, finders, times)
}

/// The same, once there is a box in the writer's cell.
fn fill_and_find<R: Threads + Sync + Clock + AllocGlobal>(
    rt: &R,
    domain: &Domain<()>,
    cpus: Vec<Cpu<()>>,
    changer: &mut Cpu<()>,
    writer: Writer,
    times: u64,
) -> Result<Timed>
    requires readers { All (IsOf domain.now) cpus.items }
    requires changer { IsOf domain.now changer.old }
    requires here { writer.domain ≡ domain.now.domain }
    requires plain { IsPlain writer }
    ensures { IfOk result (λ timed. timed.done ≡ times) }
{
    let (_writer, mut boxes) = fill(rt.alloc(), domain, changer, writer)?;
    find_on_each(rt, domain, cpus, &mut boxes, times)
}

/// Finds a box so many times in each of so many threads.
pub fn run<R: Threads + Sync + Clock + AllocGlobal>(
    rt: &R,
    threads: usize,
    times: u64,
) -> Result<Timed>
    requires { threads ≤ 2 ^ 16 }
    ensures { IfOk result (λ timed. timed.done ≡ times) }
{
    let New {
        domain,
        readers,
        mut changer,
        writer,
    } = found(rt.alloc(), threads)?;
    fill_and_find(rt, &domain, readers, &mut changer, writer, times)
}
