//! One thread.
ghost use Rattle.std.specs.Prelude.{◌≡◌, All, IfOk};
ghost use Rattle.sections.specs.Calls.{IsSameCpu};
ghost use Rattle.domain.specs.Views.{IsOf};
ghost use Rattle.boxes.specs.Boxes.{IsCellIn, cell_of};

use super::bells::{Table, table_of};
use super::places::{
    Cell, Ground, Place, add_cpu, cell_with, drive, ground_of, place_of, put, reclaim, replace,
    retire, take_cpu, take_writer,
};
use boxes::{BoxWriter, Boxes};
use domain::{Cpu, Domain, MakeError};
use std::alloc::Global;
use std::sync::Arc;
use std::sync::atomic::AtomicU64;
use std::sync::atomic::Ordering::SeqCst;
use std::test::Fail;

/// The number that is there.
pub(super) fn number_in(
    domain: &Domain<()>,
    boxes: &mut Boxes<u64>,
    cpu: &mut Cpu<()>,
) -> Option<u64>
    requires here { IsOf domain.now cpu.old }
    requires cell { IsCellIn domain.now boxes.old }
    ensures here { IsOf domain.now cpu.new }
    ensures same { IsSameCpu cpu.old.cpu cpu.new.cpu }
    ensures boxes { boxes.new ≡ boxes.old }
{
    let reading = cpu.read_lock().ok()?;
    match boxes.find(cpu, reading) {
        Ok(pin) => {
            let number = *pin.get();
            let reading = boxes.release(cpu, pin);
            cpu.read_unlock(reading);
            Some(number)
        }
        Err(reading) => {
            cpu.read_unlock(reading);
            None
        }
    }
}

/// Would catch a box that isn't found, one that is found where none is, and one that comes back while it may be read, or
/// never.
#[test]
fn a_number_comes_back(rt: HostRuntime) -> Result<(), Fail> {
    let number = Box::new(rt.alloc(), 7)?;
    let Place {
        domain,
        mut cpu,
        others: _,
        mut writer,
        mut boxes,
    } = place_of::<u64>(rt.alloc(), 2, 3)?;
    assert_eq!(rt; number_in(&domain, &mut boxes, &mut cpu), None);
    assert_eq!(rt; put(&domain, &mut cpu, &mut writer, number), true);
    assert_eq!(rt; number_in(&domain, &mut boxes, &mut cpu), Some(7));
    assert_eq!(rt; retire(&domain, &mut cpu, &mut writer), false);
    drive(&domain, &mut cpu, 40);
    assert_eq!(rt; reclaim(&domain, &mut cpu, &mut writer).is_none(), true);
    assert_eq!(rt; retire(&domain, &mut cpu, &mut writer), true);
    assert_eq!(rt; number_in(&domain, &mut boxes, &mut cpu), None);
    assert_eq!(rt; reclaim(&domain, &mut cpu, &mut writer).is_none(), true);
    drive(&domain, &mut cpu, 40);
    let Some(back) = reclaim(&domain, &mut cpu, &mut writer) else {
        panic!(rt; "the box comes back");
    };
    let more = reclaim(&domain, &mut cpu, &mut writer).is_some();
    assert_eq!(rt; (*back, more), (7, false));
    Ok(())
}

/// The number that a section finds within another one, which has found it too.
fn number_within(domain: &Domain<()>, boxes: &mut Boxes<u64>, cpu: &mut Cpu<()>) -> Option<u64>
    requires here { IsOf domain.now cpu.old }
    requires cell { IsCellIn domain.now boxes.old }
    ensures boxes { boxes.new ≡ boxes.old }
{
    let outer = cpu.read_lock().ok()?;
    match boxes.find(cpu, outer) {
        Ok(pin) => {
            let number = number_in(domain, boxes, cpu);
            let outer = boxes.release(cpu, pin);
            cpu.read_unlock(outer);
            number
        }
        Err(outer) => {
            cpu.read_unlock(outer);
            None
        }
    }
}

/// The number that is found on the last one of these processors. It is taken from them.
fn number_on(domain: &Domain<()>, boxes: &mut Boxes<u64>, cpus: &mut Vec<Cpu<()>>) -> Option<u64>
    requires here { All (IsOf domain.now) cpus.old.items }
    requires cell { IsCellIn domain.now boxes.old }
    ensures here { All (IsOf domain.now) cpus.new.items }
    ensures boxes { boxes.new ≡ boxes.old }
{
    if cpus.is_empty() {
        return None;
    }
    let mut cpu = take_cpu(domain, cpus);
    number_within(domain, boxes, &mut cpu)
}

/// What is found on each of twelve processors.
fn numbers_on(
    domain: &Domain<()>,
    boxes: &mut Boxes<u64>,
    mut cpus: Vec<Cpu<()>>,
) -> [Option<u64>; 12]
    requires here { All (IsOf domain.now) cpus.items }
    requires cell { IsCellIn domain.now boxes.old }
{
    let mut found = [None; 12];
    for processor in 0..12 {
        found[processor] = number_on(domain, boxes, &mut cpus);
    }
    found
}

/// Would catch boxes of the first few processors alone, and a section within another one that finds none.
#[test]
fn found_on_each_of_twelve(rt: HostRuntime) -> Result<(), Fail> {
    let number = Box::new(rt.alloc(), 7)?;
    let Place {
        domain,
        mut cpu,
        others: mut cpus,
        mut writer,
        mut boxes,
    } = place_of::<u64>(rt.alloc(), 12, 3)?;
    assert_eq!(rt; put(&domain, &mut cpu, &mut writer, number), true);
    add_cpu(&domain, &mut cpus, cpu)?;
    assert_eq!(rt; numbers_on(&domain, &mut boxes, cpus), [Some(7); 12]);
    Ok(())
}

/// Puts two tables, and drives the engine after each. Tells how many were put.
fn put_two(
    domain: &Domain<()>,
    cpu: &mut Cpu<()>,
    writer: &mut BoxWriter<Table, Global>,
    first: Box<Table>,
    second: Box<Table>,
) -> u64
    requires here { IsOf domain.now cpu.old }
    requires cell { IsCellIn domain.now (cell_of writer.old) }
    ensures here { IsOf domain.now cpu.new }
    ensures cell { IsCellIn domain.now (cell_of writer.new) }
    ensures same { IsSameCpu cpu.old.cpu cpu.new.cpu }
{
    let one = replace(domain, cpu, writer, first).is_ok();
    drive(domain, cpu, 40);
    let other = replace(domain, cpu, writer, second).is_ok();
    drive(domain, cpu, 40);
    u64::from(one) + u64::from(other)
}

/// What a pin shows while two tables are put after it, and the drops by then.
fn read_over(
    domain: &Domain<()>,
    cpu: &mut Cpu<()>,
    writer: &mut BoxWriter<Table, Global>,
    boxes: &mut Boxes<Table>,
    second: Box<Table>,
    third: Box<Table>,
    rung: &AtomicU64,
) -> [u64; 4]
    requires here { IsOf domain.now cpu.old }
    requires writer { IsCellIn domain.now (cell_of writer.old) }
    requires boxes { IsCellIn domain.now boxes.old }
    ensures here { IsOf domain.now cpu.new }
    ensures writer { IsCellIn domain.now (cell_of writer.new) }
{
    let Ok(reading) = cpu.read_lock() else {
        return [0; 4];
    };
    match boxes.find(cpu, reading) {
        Ok(pin) => {
            let before = pin.get().number;
            let put = put_two(domain, cpu, writer, second, third);
            let behind = pin.get().number;
            let dropped = rung.load(SeqCst);
            let reading = boxes.release(cpu, pin);
            cpu.read_unlock(reading);
            [before, behind, put, dropped]
        }
        Err(reading) => {
            cpu.read_unlock(reading);
            [1; 4]
        }
    }
}

/// Would catch a pin that shows another box, a box that is dropped while a pin shows it, and one that is dropped twice or
/// never.
#[test]
fn a_pin_keeps_its_table(rt: HostRuntime) -> Result<(), Fail> {
    let rung = Arc::new(rt.alloc(), AtomicU64::new(0))?;
    let table = table_of(rt.alloc(), 7, 100, &rung)?;
    let second = table_of(rt.alloc(), 20, 100, &rung)?;
    let third = table_of(rt.alloc(), 21, 100, &rung)?;
    let Place {
        domain,
        mut cpu,
        others: _,
        mut writer,
        mut boxes,
    } = place_of::<Table>(rt.alloc(), 2, 3)?;
    assert_eq!(rt; put(&domain, &mut cpu, &mut writer, table), true);
    drive(&domain, &mut cpu, 40);
    let seen = read_over(
        &domain,
        &mut cpu,
        &mut writer,
        &mut boxes,
        second,
        third,
        &rung,
    );
    assert_eq!(rt; seen, [7, 7, 2, 0]);
    drive(&domain, &mut cpu, 40);
    let Some(first) = reclaim(&domain, &mut cpu, &mut writer) else {
        panic!(rt; "the first one comes back");
    };
    let Some(second) = reclaim(&domain, &mut cpu, &mut writer) else {
        panic!(rt; "the second one comes back");
    };
    assert_eq!(rt;
        (first.is_whole(), second.is_whole(), rung.load(SeqCst)),
        (true, true, 0)
    );
    assert_eq!(rt; first.number.saturating_add(second.number), 27);
    drop(first);
    assert_eq!(rt; rung.load(SeqCst), 1);
    drop(second);
    let more = reclaim(&domain, &mut cpu, &mut writer).is_some();
    assert_eq!(rt; (more, rung.load(SeqCst)), (false, 2));
    assert_eq!(rt; retire(&domain, &mut cpu, &mut writer), true);
    drive(&domain, &mut cpu, 40);
    assert_eq!(rt; reclaim(&domain, &mut cpu, &mut writer).is_some(), true);
    assert_eq!(rt; (rung.load(SeqCst), Arc::strong_count(&rung)), (3, 1));
    Ok(())
}

/// What was shown of a cell of rows and of one of a name, or came back: how many rows, the last one, and how many letters.
#[derive(Clone, Copy, Debug, PartialEq, Eq)]
struct Seen {
    rows: usize,
    last: u64,
    letters: usize,
}

/// Nothing was shown, or came back.
const NOTHING: Seen = Seen {
    rows: 0,
    last: 0,
    letters: 0,
};

/// How many rows there are, and the last one.
fn ends_of(rows: &[u64]) -> (usize, u64) {
    (rows.len(), rows.last().copied().unwrap_or(0))
}

/// A domain of three processors, with a cell of rows and one of a name.
#[derive(Drop)]
struct Both {
    domain: Domain<()>,
    first: Cpu<()>,
    second: Cpu<()>,
    third: Cpu<()>,
    rows: Cell<Vec<u64>>,
    names: Cell<String>,
    ghost of_rows: { IsCellIn domain (cell_of rows.writer) × IsCellIn domain rows.boxes },
    ghost of_names: { IsCellIn domain (cell_of names.writer) × IsCellIn domain names.boxes },
}

/// Two cells of one domain.
fn both_of(alloc: Global) -> Result<Both, MakeError>
    ensures first { IfOk result (λ b. IsOf b.domain b.first) }
    ensures second { IfOk result (λ b. IsOf b.domain b.second) }
    ensures third { IfOk result (λ b. IsOf b.domain b.third) }
{
    let Ground {
        domain,
        mut cpus,
        mut writers,
    } = ground_of(alloc, 3, 2, 3)?;
    let mut first = take_cpu(&domain, &mut cpus);
    let mut second = take_cpu(&domain, &mut cpus);
    let third = take_cpu(&domain, &mut cpus);
    let of_rows = take_writer(&domain, &mut writers);
    let of_names = take_writer(&domain, &mut writers);
    let rows = cell_with(alloc, &domain, &mut first, of_rows)?;
    let names = cell_with(alloc, &domain, &mut second, of_names)?;
    Ok(Both {
        domain,
        first,
        second,
        third,
        rows,
        names,
    })
}

/// Puts rows and a name, and tells whether slots were free.
fn put_both(both: &mut Both, rows: Box<Vec<u64>>, name: Box<String>) -> bool
    requires first { IsOf both.old.domain both.old.first }
    requires second { IsOf both.old.domain both.old.second }
    requires third { IsOf both.old.domain both.old.third }
    ensures first { IsOf both.new.domain both.new.first }
    ensures second { IsOf both.new.domain both.new.second }
    ensures third { IsOf both.new.domain both.new.third }
{
    let one = put(&both.domain, &mut both.first, &mut both.rows.writer, rows);
    let other = put(&both.domain, &mut both.second, &mut both.names.writer, name);
    one && other
}

/// What is shown on the third processor.
fn show_both(both: &mut Both) -> Seen
    requires first { IsOf both.old.domain both.old.first }
    requires second { IsOf both.old.domain both.old.second }
    requires third { IsOf both.old.domain both.old.third }
    ensures first { IsOf both.new.domain both.new.first }
    ensures second { IsOf both.new.domain both.new.second }
    ensures third { IsOf both.new.domain both.new.third }
{
    let rows = both
        .rows
        .boxes
        .read(&mut both.third, |rows| ends_of(rows.as_slice()));
    let letters = both.names.boxes.read(&mut both.third, |name| name.len());
    let (rows, last) = rows.unwrap_or(None).unwrap_or((0, 0));
    Seen {
        rows,
        last,
        letters: letters.unwrap_or(None).unwrap_or(0),
    }
}

/// Puts versions with no box, and tells whether slots were free.
fn retire_both(both: &mut Both) -> bool
    requires first { IsOf both.old.domain both.old.first }
    requires second { IsOf both.old.domain both.old.second }
    requires third { IsOf both.old.domain both.old.third }
    ensures first { IsOf both.new.domain both.new.first }
    ensures second { IsOf both.new.domain both.new.second }
    ensures third { IsOf both.new.domain both.new.third }
{
    let one = retire(&both.domain, &mut both.first, &mut both.rows.writer);
    let other = retire(&both.domain, &mut both.second, &mut both.names.writer);
    one && other
}

/// What comes back on the third processor, after forty turns of the engine.
fn take_both(both: &mut Both) -> Seen
    requires first { IsOf both.old.domain both.old.first }
    requires second { IsOf both.old.domain both.old.second }
    requires third { IsOf both.old.domain both.old.third }
    ensures first { IsOf both.new.domain both.new.first }
    ensures second { IsOf both.new.domain both.new.second }
    ensures third { IsOf both.new.domain both.new.third }
{
    drive(&both.domain, &mut both.first, 40);
    let rows = reclaim(&both.domain, &mut both.third, &mut both.rows.writer);
    let name = reclaim(&both.domain, &mut both.third, &mut both.names.writer);
    let (rows, last) = match rows {
        Some(rows) => ends_of(rows.as_slice()),
        None => (0, 0),
    };
    let letters = match name {
        Some(name) => name.len(),
        None => 0,
    };
    Seen {
        rows,
        last,
        letters,
    }
}

/// What is shown while both are there, what comes back then, and what once they are retired. `NOTHING` where no slot was free.
fn see_both(both: &mut Both, rows: Box<Vec<u64>>, name: Box<String>) -> [Seen; 3]
    requires first { IsOf both.old.domain both.old.first }
    requires second { IsOf both.old.domain both.old.second }
    requires third { IsOf both.old.domain both.old.third }
{
    if !put_both(both, rows, name) {
        return [NOTHING; 3];
    }
    let shown = show_both(both);
    let early = take_both(both);
    if !retire_both(both) {
        return [NOTHING; 3];
    }
    [shown, early, take_both(both)]
}

/// The same in a domain of its own, with ten thousand rows.
fn see_apart(alloc: Global) -> Result<[Seen; 3], Fail> {
    let rows = Box::new(alloc, vec![in alloc; 5u64; 10_000]?)?;
    let name = Box::new(alloc, String::from_str(alloc, "a name")?)?;
    let mut both = both_of(alloc)?;
    Ok(see_both(&mut both, rows, name))
}

/// Would catch a cell whose boxes are read as those of the other one.
#[test]
fn two_types_in_one_domain(rt: HostRuntime) -> Result<(), Fail> {
    let [shown, early, back] = see_apart(rt.alloc())?;
    let there = Seen {
        rows: 10_000,
        last: 5,
        letters: 6,
    };
    assert_eq!(rt; shown, there);
    assert_eq!(rt; early, NOTHING);
    assert_eq!(rt; back, there);
    Ok(())
}

/// What a held section shows while its box is retired, and whether the box stayed where it was until the section ended on
/// the other processor.
fn hold_over(
    domain: &Domain<()>,
    cpu: &mut Cpu<()>,
    other: &mut Cpu<()>,
    writer: &mut BoxWriter<u64, Global>,
    boxes: &mut Boxes<u64>,
) -> ([u64; 2], bool)
    requires here { IsOf domain.now cpu.old }
    requires there { IsOf domain.now other.old }
    requires writer { IsCellIn domain.now (cell_of writer.old) }
    requires boxes { IsCellIn domain.now boxes.old }
    ensures here { IsOf domain.now cpu.new }
    ensures writer { IsCellIn domain.now (cell_of writer.new) }
{
    let Ok(held) = cpu.down_read() else {
        return ([0; 2], false);
    };
    match boxes.find(cpu, held) {
        Ok(pin) => {
            let before = *pin.get();
            let retired = retire(domain, cpu, writer);
            drive(domain, cpu, 40);
            let waited = reclaim(domain, cpu, writer).is_none();
            let shown = [before, *pin.get()];
            let held = boxes.release(other, pin);
            other.up_read(held);
            (shown, retired && waited)
        }
        Err(held) => {
            cpu.up_read(held);
            ([1; 2], false)
        }
    }
}

/// Would catch a held section that shows another box, and a box that never comes back if the section ends elsewhere.
#[test]
fn a_held_pin_ends_elsewhere(rt: HostRuntime) -> Result<(), Fail> {
    let number = Box::new(rt.alloc(), 7)?;
    let Place {
        domain,
        mut cpu,
        mut others,
        mut writer,
        mut boxes,
    } = place_of::<u64>(rt.alloc(), 2, 4)?;
    let mut other = take_cpu(&domain, &mut others);
    assert_eq!(rt; put(&domain, &mut cpu, &mut writer, number), true);
    let held = hold_over(&domain, &mut cpu, &mut other, &mut writer, &mut boxes);
    assert_eq!(rt; held, ([7, 7], true));
    drive(&domain, &mut cpu, 40);
    let Some(back) = reclaim(&domain, &mut cpu, &mut writer) else {
        panic!(rt; "the box comes back");
    };
    assert_eq!(rt; *back, 7);
    Ok(())
}

/// Finds the number on a processor, and gives the part back on another one. Returns the number.
fn pay_elsewhere(
    domain: &Domain<()>,
    cpu: &mut Cpu<()>,
    other: &mut Cpu<()>,
    boxes: &mut Boxes<u64>,
) -> Option<u64>
    requires here { IsOf domain.now cpu.old }
    requires there { IsOf domain.now other.old }
    requires boxes { IsCellIn domain.now boxes.old }
    ensures here { IsOf domain.now cpu.new }
    ensures there { IsOf domain.now other.new }
{
    let reading = cpu.read_lock().ok()?;
    match boxes.find(cpu, reading) {
        Ok(pin) => {
            let number = *pin.get();
            let reading = boxes.release(other, pin);
            cpu.read_unlock(reading);
            Some(number)
        }
        Err(reading) => {
            cpu.read_unlock(reading);
            None
        }
    }
}

/// What a find shows whose part is given back on another processor, and the box that comes back then.
fn paid_elsewhere(alloc: Global) -> Result<(Option<u64>, Option<u64>), Fail> {
    let number = Box::new(alloc, 7)?;
    let Place {
        domain,
        mut cpu,
        mut others,
        mut writer,
        mut boxes,
    } = place_of::<u64>(alloc, 2, 4)?;
    let mut other = take_cpu(&domain, &mut others);
    let _put = put(&domain, &mut cpu, &mut writer, number);
    let shown = pay_elsewhere(&domain, &mut cpu, &mut other, &mut boxes);
    let _retired = retire(&domain, &mut cpu, &mut writer);
    drive(&domain, &mut cpu, 40);
    let back = match reclaim(&domain, &mut other, &mut writer) {
        Some(number) => Some(*number),
        None => None,
    };
    Ok((shown, back))
}

/// Would catch a part that is lost where it is given back, so that its box never comes back.
#[test]
fn a_part_is_paid_elsewhere(rt: HostRuntime) -> Result<(), Fail> {
    assert_eq!(rt; paid_elsewhere(rt.alloc())?, (Some(7), Some(7)));
    Ok(())
}
