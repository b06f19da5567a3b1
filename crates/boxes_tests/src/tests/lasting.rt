//! Sections that last: while tables are replaced, and until another thread ends them. And domains that are taken down with
//! tables in a cell.
ghost use Rattle.std.specs.Prelude.{◌≡◌, IfSome};
ghost use Rattle.domain.specs.Views.{IsOf};
ghost use Rattle.boxes.specs.Boxes.{IsCellIn, IsCellOf, IsPinOf, cell_of};

use super::bells::{Table, table_of};
use super::places::{
    Place, Reader, add_cpu, drive, place_of, put, reclaim, replace, retire, take_reader,
};
use boxes::{BoxWriter, Boxes, HeldBox};
use domain::{Cpu, Domain};
use std::alloc::{AllocError, Global};
use std::sync::atomic::Ordering::SeqCst;
use std::sync::atomic::{AtomicBool, AtomicU64};
use std::sync::{Arc, Wait};
use std::test::Fail;
use std::thread::{join, sleep};
use std::time::{Clock, Duration};

/// How many rows a table has.
const ROWS: usize = 100;

/// How many tables a writer puts at most.
const PUTS: u64 = 20;

/// Sleeps until another thread says so.
fn sleep_until<R: Wait + Clock>(rt: &R, sign: &AtomicBool) {
    for _ in rt.forever() {
        if sign.load(SeqCst) {
            return;
        }
        sleep(rt, Duration::from_millis(1));
    }
}

/// The number that a section reads before its sleep and after it: 0 where that table isn't whole, or there is none.
fn read_asleep<R: Wait + Clock>(
    rt: &R,
    reader: Reader<Table>,
    found: &AtomicBool,
    full: &AtomicBool,
) -> [u64; 2]
    requires { IsCellOf reader.cpu.cpu reader.boxes }
{
    let Reader { mut cpu, mut boxes } = reader;
    let Ok(reading) = cpu.read_lock() else {
        return [0; 2];
    };
    match boxes.find(&mut cpu, reading) {
        Ok(pin) => {
            let before = pin.get().number;
            found.store(true, SeqCst);
            sleep_until(rt, full);
            let after = pin.get().number;
            let whole = pin.get().is_whole();
            let reading = boxes.release(&mut cpu, pin);
            cpu.read_unlock(reading);
            if whole { [before, after] } else { [0; 2] }
        }
        Err(reading) => {
            cpu.read_unlock(reading);
            found.store(true, SeqCst);
            [0; 2]
        }
    }
}

/// Puts tables until no slot is free, and drives the engine. Returns how many were made, and how many came back.
fn put_until_full(
    alloc: Global,
    domain: &Domain<()>,
    cpu: &mut Cpu<()>,
    writer: &mut BoxWriter<Table, Global>,
    rung: &Arc<AtomicU64>,
) -> Result<[u64; 2], AllocError>
    requires here { IsOf domain.now cpu.old }
    requires cell { IsCellIn domain.now (cell_of writer.old) }
    ensures here { IsOf domain.now cpu.new }
    ensures cell { IsCellIn domain.now (cell_of writer.new) }
{
    let mut back = 0u64;
    for number in 0..PUTS {
        let table = table_of(alloc, 100 + number, ROWS, rung)?;
        match replace(domain, cpu, writer, table) {
            Ok(Some(_)) => back = back.saturating_add(1),
            Ok(None) => {}
            Err(_) => return Ok([number + 1, back]),
        }
        drive(domain, cpu, 20);
    }
    Ok([PUTS, back])
}

/// Retires the last table, and drives the engine until each is back: one comes back in each round. Returns how many came
/// back.
fn take_all(domain: &Domain<()>, cpu: &mut Cpu<()>, writer: &mut BoxWriter<Table, Global>) -> u64
    requires here { IsOf domain.now cpu.old }
    requires cell { IsCellIn domain.now (cell_of writer.old) }
    ensures here { IsOf domain.now cpu.new }
    ensures cell { IsCellIn domain.now (cell_of writer.new) }
{
    let mut back = 0u64;
    let mut retired = false;
    for _ in 0..100 {
        drive(domain, cpu, 20);
        if !retired {
            retired = retire(domain, cpu, writer);
        }
        if reclaim(domain, cpu, writer).is_some() {
            back = back.saturating_add(1);
        }
    }
    back
}

/// What puts tables beside a reader.
#[derive(Drop)]
struct Putter {
    cpu: Cpu<()>,
    writer: BoxWriter<Table, Global>,
}

/// What a writer did beside a reader that sleeps.
struct Done {
    putter: Putter,
    /// How many tables were made, and how many came back.
    put: Result<[u64; 2], AllocError>,
    /// How many were dropped before the reader awoke.
    dropped: u64,
}

/// Puts tables until no slot is free, once a section has found the first one, and then has the reader go on.
fn put_beside<R: Wait + Clock + AllocGlobal>(
    rt: &R,
    domain: &Domain<()>,
    mut putter: Putter,
    rung: &Arc<AtomicU64>,
    found: &AtomicBool,
    full: &AtomicBool,
) -> Done
    requires here { IsOf domain.now putter.cpu }
    requires cell { IsCellIn domain.now (cell_of putter.writer) }
    ensures here { IsOf domain.now result.putter.cpu }
    ensures cell { IsCellIn domain.now (cell_of result.putter.writer) }
{
    sleep_until(rt, found);
    let put = put_until_full(
        rt.alloc(),
        domain,
        &mut putter.cpu,
        &mut putter.writer,
        rung,
    );
    let dropped = rung.load(SeqCst);
    full.store(true, SeqCst);
    Done {
        putter,
        put,
        dropped,
    }
}

/// Would catch a table that comes back, or that is dropped, while a reader sleeps in the section that found it.
#[test]
fn a_reader_sleeps(rt: HostRuntime) -> Result<(), Fail> {
    let rung = Arc::new(rt.alloc(), AtomicU64::new(0))?;
    let first = table_of(rt.alloc(), 7, ROWS, &rung)?;
    let (found, full) = (AtomicBool::new(false), AtomicBool::new(false));
    let Place {
        domain,
        mut cpu,
        mut others,
        mut writer,
        mut boxes,
    } = place_of::<Table>(rt.alloc(), 2, 8)?;
    let reader = take_reader(&domain, &mut others, &mut boxes)?;
    assert_eq!(rt; put(&domain, &mut cpu, &mut writer, first), true);
    let putter = Putter { cpu, writer };
    let (read, done) = join(
        &rt,
        ||
            requires { IsCellOf reader.cpu.cpu reader.boxes }
        { read_asleep(&rt, reader, &found, &full) },
        ||
            requires here { IsOf domain putter.cpu }
            requires cell { IsCellIn domain (cell_of putter.writer) }
        { put_beside(&rt, &domain, putter, &rung, &found, &full) },
    );
    let Done {
        mut putter,
        put,
        dropped,
    } = done;
    let [made, back] = put?;
    assert_eq!(rt; (read, back, dropped), ([7, 7], 0, 1)); // the one that was refused is dropped
    let all = take_all(&domain, &mut putter.cpu, &mut putter.writer);
    assert_eq!(rt; all, made);
    let dropped = rung.load(SeqCst);
    assert_eq!(rt;
        (dropped, Arc::strong_count(&rung)),
        (made.saturating_add(1), 1)
    );
    Ok(())
}

/// Finds a table in a held section.
fn hold(domain: &Domain<()>, reader: Reader<Table>) -> Option<HeldBox<Table>>
    requires here { IsOf domain.now reader.cpu }
    requires cell { IsCellIn domain.now reader.boxes }
    ensures here { IfSome result (λ p. p.section.domain ≡ domain.now.domain) }
    ensures pin { IfSome result (λ p. IsPinOf reader.boxes p) }
{
    let Reader { mut cpu, mut boxes } = reader;
    let held = cpu.down_read().ok()?;
    match boxes.find(&mut cpu, held) {
        Ok(pin) => Some(pin),
        Err(held) => {
            cpu.up_read(held);
            None
        }
    }
}

/// What a pin of another thread shows while its table is retired, whether that came back before the section ended here, and
/// whether it did after that.
fn end_here(
    domain: &Domain<()>,
    cpu: &mut Cpu<()>,
    writer: &mut BoxWriter<Table, Global>,
    boxes: &Boxes<Table>,
    pin: HeldBox<Table>,
) -> (u64, bool, bool)
    requires here { IsOf domain.now cpu.old }
    requires writer { IsCellIn domain.now (cell_of writer.old) }
    requires boxes { IsCellIn domain.now boxes.now }
    requires section { pin.section.domain ≡ domain.now.domain }
    requires pin { IsPinOf boxes.now pin }
{
    let retired = retire(domain, cpu, writer);
    drive(domain, cpu, 40);
    let early = reclaim(domain, cpu, writer).is_some();
    let whole = pin.get().is_whole();
    let number = pin.get().number;
    let held = boxes.release(cpu, pin);
    cpu.up_read(held);
    drive(domain, cpu, 40);
    let late = reclaim(domain, cpu, writer).is_some();
    (if whole { number } else { 0 }, early, retired && late)
}

/// Would catch a held section that loses its table on the way to another thread, and one whose part stays out.
#[test]
fn a_held_section_ends_on_another_thread(rt: HostRuntime) -> Result<(), Fail> {
    let rung = Arc::new(rt.alloc(), AtomicU64::new(0))?;
    let first = table_of(rt.alloc(), 7, ROWS, &rung)?;
    let Place {
        domain,
        mut cpu,
        mut others,
        mut writer,
        mut boxes,
    } = place_of::<Table>(rt.alloc(), 3, 4)?;
    let reader = take_reader(&domain, &mut others, &mut boxes)?;
    assert_eq!(rt; put(&domain, &mut cpu, &mut writer, first), true);
    let (pin, ()) = join(
        &rt,
        ||
            requires here { IsOf domain reader.cpu }
            requires cell { IsCellIn domain reader.boxes }
        { hold(&domain, reader) },
        || drop(others),
    );
    let ended = match pin {
        Some(pin) => end_here(&domain, &mut cpu, &mut writer, &boxes, pin),
        None => (0, false, false),
    };
    assert_eq!(rt; ended, (7, false, true));
    assert_eq!(rt; (rung.load(SeqCst), Arc::strong_count(&rung)), (1, 1));
    Ok(())
}

/// Puts three tables, of which the first comes back, and drives the engine after each.
fn put_three(
    alloc: Global,
    domain: &Domain<()>,
    cpu: &mut Cpu<()>,
    writer: &mut BoxWriter<Table, Global>,
    rung: &Arc<AtomicU64>,
) -> Result<(), AllocError>
    requires here { IsOf domain.now cpu.old }
    requires cell { IsCellIn domain.now (cell_of writer.old) }
    ensures here { IsOf domain.now cpu.new }
    ensures cell { IsCellIn domain.now (cell_of writer.new) }
{
    for number in 0..3 {
        let table = table_of(alloc, number, ROWS, rung)?;
        drop(replace(domain, cpu, writer, table));
        drive(domain, cpu, 40);
    }
    Ok(())
}

/// Puts three tables, of which the first comes back. Then the domain is taken down: with the two others in the cell, or after
/// they came back. Returns how many were dropped, and how many are left.
fn take_down(alloc: Global, comes_back: bool) -> Result<[u64; 2], Fail> {
    let rung = Arc::new(alloc, AtomicU64::new(0))?;
    let Place {
        domain,
        mut cpu,
        others: mut cpus,
        mut writer,
        boxes,
    } = place_of::<Table>(alloc, 2, 4)?;
    put_three(alloc, &domain, &mut cpu, &mut writer, &rung)?;
    if comes_back {
        take_all(&domain, &mut cpu, &mut writer);
    }
    add_cpu(&domain, &mut cpus, cpu)?;
    let ended = domain.cleanup(cpus).is_ok();
    drop(boxes);
    drop(writer);
    let left = Arc::strong_count(&rung).saturating_sub(1) as u64; // but for the one here
    Ok([rung.load(SeqCst), if ended { left } else { 9 }])
}

/// Would catch a table that is dropped with its domain, or twice, and one that is neither dropped nor left.
#[test]
fn a_domain_is_taken_down(rt: HostRuntime) -> Result<(), Fail> {
    assert_eq!(rt; take_down(rt.alloc(), true)?, [3, 0]);
    assert_eq!(rt; take_down(rt.alloc(), false)?, [1, 2]); // abandoned
    Ok(())
}
