//! Boxes: each allocation is refused that a cell of boxes is made with, and then all that are left.
ghost use Rattle.std.specs.Prelude.{◌≡◌, IfSome};
ghost use Rattle.domain.specs.Views.{IsOf};
ghost use Rattle.boxes.specs.Boxes.{IsCellIn, cell_of};
ghost use Rattle.boxes.specs.Writing.{IsPlain};

use super::calling::Heap;
use boxes::{BoxWriter, Boxes, make};
use domain::{Cpu, Domain, MakeError, Writer};
use fixtures::one;
use refusing::Refusing;
use std::alloc::AllocError;
use std::test::Fail;

/// More allocations than a cell of boxes is made with.
const MOST: u64 = 100;

/// What writes boxes and what reads them, and how many allocations were refused before.
type Made<'a> = (BoxWriter<u64, &'a Heap>, Boxes<u64, &'a Heap>, u64);

/// Makes the cell one of boxes with each allocation refused in turn, until none is. `None` where a refusal wasn't told, or left
/// something allocated.
fn make_in_turn<'a>(
    heap: &'a Heap,
    domain: &Domain<(), &'a Heap>,
    cpu: &mut Cpu<(), &'a Heap>,
    writer: Writer,
) -> Option<Made<'a>>
    requires domain { IsOf domain.now cpu.old }
    requires writer { (writer.domain ≡ domain.now.domain) × IsPlain writer }
    ensures here { IsOf domain.now cpu.new }
    ensures writer { IfSome result (λ m. IsCellIn domain.now (cell_of m.0.writer)) }
    ensures boxes { IfSome result (λ m. IsCellIn domain.now m.1) }
{
    let mut writer = writer;
    let out = heap.out();
    for nth in 1..MOST {
        heap.refuse(nth);
        match make(heap, domain, cpu, writer) {
            Ok((made, boxes)) => return Some((made, boxes, nth - 1)),
            Err(back) => writer = back,
        }
        if !heap.has_refused() || heap.out() != out {
            return None;
        }
    }
    None
}

/// The number that is there.
fn number_in<'a>(
    domain: &Domain<(), &'a Heap>,
    cpu: &mut Cpu<(), &'a Heap>,
    boxes: &mut Boxes<u64, &'a Heap>,
) -> Option<u64>
    requires domain { IsOf domain.now cpu.old }
    requires boxes { IsCellIn domain.now boxes.old }
    ensures here { IsOf domain.now cpu.new }
    ensures boxes { boxes.new ≡ boxes.old }
{
    let _ = domain;
    match boxes.read(cpu, |number| **number) {
        Ok(found) => found,
        Err(_) => None,
    }
}

/// What is read after each of two puts, and how many allocations were asked for meanwhile.
type Read = ([Option<u64>; 2], u64);

/// Puts two boxes, one after the other, and reads each, with the first allocation refused that is asked for.
fn put_and_read<'a>(
    heap: &'a Heap,
    domain: &Domain<(), &'a Heap>,
    cpu: &mut Cpu<(), &'a Heap>,
    writer: &mut BoxWriter<u64, &'a Heap>,
    boxes: &mut Boxes<u64, &'a Heap>,
) -> Result<Read, AllocError>
    requires domain { IsOf domain.now cpu.old }
    requires writer { IsCellIn domain.now (cell_of writer.old) }
    requires boxes { IsCellIn domain.now boxes.old }
{
    heap.refuse(0);
    let first = Box::new(heap, 7)?;
    let second = Box::new(heap, 8)?;
    heap.refuse(1);
    let _put = writer.put(domain, cpu, first);
    let seven = number_in(domain, cpu, boxes);
    let _replaced = writer.replace(domain, cpu, second);
    let eight = number_in(domain, cpu, boxes);
    Ok(([seven, eight], heap.asked()))
}

/// The same in a new domain, and how many allocations were refused before. `None` where a refusal changed something.
fn boxed(heap: &Heap) -> Result<Option<(Read, u64)>, MakeError> {
    heap.refuse(0);
    let (domain, mut cpu, writer) = one(heap, 4)?;
    let Some(made) = make_in_turn(heap, &domain, &mut cpu, writer) else {
        return Ok(None);
    };
    let (mut writer, mut boxes, refused) = made;
    match put_and_read(heap, &domain, &mut cpu, &mut writer, &mut boxes) {
        Ok(read) => Ok(Some((read, refused))),
        Err(_) => Err(MakeError::Memory),
    }
}

/// Would catch a refused allocation that loses the cell's writer or leaves something allocated, and boxes that take memory when they
/// are put or read.
#[test]
fn refuse_boxes(rt: HostRuntime) -> Result<(), Fail> {
    let heap = Refusing::new(rt.alloc());
    assert_eq!(rt; boxed(&heap)?, Some((([Some(7), Some(8)], 0), 5)));
    Ok(())
}
