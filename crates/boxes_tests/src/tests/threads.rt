//! Readers on threads of their own.
ghost use Rattle.std.specs.Prelude.{◌≡◌, vec_len, All, IfOk};
ghost use Rattle.sections.specs.Calls.{IsSameCpu};
ghost use Rattle.domain.specs.Views.{IsOf};
ghost use Rattle.boxes.specs.Boxes.{IsCellIn, IsCellOf, cell_of};

use super::bells::{Table, table_of};
use super::places::{Place, Reader, place_of, reclaim, replace, retire, take_reader};
use boxes::{BoxPin, BoxWriter, Boxes};
use domain::{Cpu, Domain, Progress};
use std::alloc::{AllocError, Global};
use std::sync::atomic::Ordering::SeqCst;
use std::sync::atomic::{AtomicBool, AtomicU64};
use std::sync::{Arc, Wait};
use std::test::Fail;
use std::thread::{Threads, join, yield_now};

/// How many tables are put while others read.
const PUTS: u64 = 200;

/// How many rows a table has.
const ROWS: usize = 10_000;

/// How many threads read.
const READERS: u64 = 4;

/// How far the threads are.
#[derive(Drop)]
struct Course {
    /// How many of them have read a table.
    reading: AtomicU64,
    /// Whether no more is put.
    done: AtomicBool,
}

/// What a reader found.
#[derive(Clone, Copy, Drop)]
struct Found {
    /// In how many sections it read.
    sections: u64,
    /// Whether each table was whole, before it slept and after that, and none older than the one before.
    whole: bool,
    last: u64,
}

/// Whether a pin shows a whole table, no older than this, also after a nap.
fn looks_whole(pin: &BoxPin<Table>, last: u64) -> bool {
    let number = pin.get().number;
    let first = pin.get().is_whole();
    yield_now(); // the reader sleeps
    first && pin.get().is_whole() && pin.get().number == number && number >= last
}

/// Reads one table in a section of its own.
fn read_once(cpu: &mut Cpu<()>, boxes: &mut Boxes<Table>, found: &mut Found)
    requires { IsCellOf cpu.old.cpu boxes.old }
    ensures same { IsSameCpu cpu.old.cpu cpu.new.cpu }
    ensures boxes { boxes.new ≡ boxes.old }
{
    let Ok(reading) = cpu.read_lock() else {
        return;
    };
    match boxes.find(cpu, reading) {
        Ok(pin) => {
            found.whole &= looks_whole(&pin, found.last);
            found.last = pin.get().number;
            found.sections = found.sections.saturating_add(1);
            let reading = boxes.release(cpu, pin);
            cpu.read_unlock(reading);
        }
        Err(reading) => cpu.read_unlock(reading),
    }
}

/// Reads until no more is put. Tells the writer when it has read the first table.
fn read_on<R: Wait>(rt: &R, reader: Reader<Table>, course: &Course) -> Found
    requires { IsCellOf reader.cpu.cpu reader.boxes }
{
    let Reader { mut cpu, mut boxes } = reader;
    let mut found = Found {
        sections: 0,
        whole: true,
        last: 0,
    };
    for _ in rt.forever() {
        let over = course.done.load(SeqCst);
        let is_first = found.sections == 0;
        read_once(&mut cpu, &mut boxes, &mut found);
        if is_first && found.sections == 1 {
            course.reading.fetch_add(1, SeqCst);
        }
        if over {
            return found;
        }
    }
    unreachable!()
}

/// Puts one table, and drives the engine as long as no slot is free. Returns how many came back.
fn put_once<R: Wait>(
    rt: &R,
    domain: &Domain<()>,
    cpu: &mut Cpu<()>,
    writer: &mut BoxWriter<Table, Global>,
    table: Box<Table>,
) -> u64
    requires here { IsOf domain.now cpu.old }
    requires cell { IsCellIn domain.now (cell_of writer.old) }
    ensures here { IsOf domain.now cpu.new }
    ensures cell { IsCellIn domain.now (cell_of writer.new) }
{
    let mut next = table;
    for _ in rt.forever() {
        match replace(domain, cpu, writer, next) {
            Ok(Some(_)) => return 1,
            Ok(None) => return 0,
            Err(table) => next = table,
        }
        if let Ok(Progress::Waiting(_)) = domain.advance(cpu) {
            yield_now();
        }
    }
    unreachable!()
}

/// Waits until so many boxes have come back.
fn take_back<R: Wait>(
    rt: &R,
    domain: &Domain<()>,
    cpu: &mut Cpu<()>,
    writer: &mut BoxWriter<Table, Global>,
    some: u64,
) -> u64
    requires here { IsOf domain.now cpu.old }
    requires cell { IsCellIn domain.now (cell_of writer.old) }
    ensures here { IsOf domain.now cpu.new }
    ensures cell { IsCellIn domain.now (cell_of writer.new) }
{
    let mut back = 0u64;
    for _ in rt.forever() {
        if back == some {
            return back;
        }
        if reclaim(domain, cpu, writer).is_some() {
            back = back.saturating_add(1);
        }
        let _answer = domain.advance(cpu);
        yield_now();
    }
    unreachable!()
}

/// Waits until each reader has read a table.
fn wait_for_readers<R: Wait>(rt: &R, course: &Course) {
    for _ in rt.forever() {
        if course.reading.load(SeqCst) == READERS {
            return;
        }
        yield_now();
    }
    unreachable!()
}

/// Puts all tables, the second one once each reader has read the first. Returns how many came back.
fn put_each<R: Wait + AllocGlobal>(
    rt: &R,
    domain: &Domain<()>,
    cpu: &mut Cpu<()>,
    writer: &mut BoxWriter<Table, Global>,
    rung: &Arc<AtomicU64>,
    course: &Course,
) -> Result<u64, AllocError>
    requires here { IsOf domain.now cpu.old }
    requires cell { IsCellIn domain.now (cell_of writer.old) }
    ensures here { IsOf domain.now cpu.new }
    ensures cell { IsCellIn domain.now (cell_of writer.new) }
{
    let mut back = 0u64;
    for number in 1..=PUTS {
        let table = table_of(rt.alloc(), number, ROWS, rung)?;
        back = back.saturating_add(put_once(rt, domain, cpu, writer, table));
        if number == 1 {
            wait_for_readers(rt, course);
        }
    }
    Ok(back)
}

/// Retires the last table, and drives the engine as long as no slot is free.
fn retire_last<R: Wait>(
    rt: &R,
    domain: &Domain<()>,
    cpu: &mut Cpu<()>,
    writer: &mut BoxWriter<Table, Global>,
)
    requires here { IsOf domain.now cpu.old }
    requires cell { IsCellIn domain.now (cell_of writer.old) }
    ensures here { IsOf domain.now cpu.new }
    ensures cell { IsCellIn domain.now (cell_of writer.new) }
{
    for _ in rt.forever() {
        if retire(domain, cpu, writer) {
            return;
        }
        let _answer = domain.advance(cpu);
    }
    unreachable!()
}

/// Puts all tables, and has each back. Returns how many came back. The readers are told that no more is put, also where
/// memory is refused.
fn put_all<R: Wait + AllocGlobal>(
    rt: &R,
    domain: &Domain<()>,
    mut cpu: Cpu<()>,
    mut writer: BoxWriter<Table, Global>,
    rung: &Arc<AtomicU64>,
    course: &Course,
) -> Result<u64, AllocError>
    requires here { IsOf domain.now cpu }
    requires cell { IsCellIn domain.now (cell_of writer) }
{
    let put = put_each(rt, domain, &mut cpu, &mut writer, rung, course);
    course.done.store(true, SeqCst);
    let early = put?;
    let some = (PUTS - 1).saturating_sub(early);
    let late = take_back(rt, domain, &mut cpu, &mut writer, some);
    retire_last(rt, domain, &mut cpu, &mut writer);
    let last = take_back(rt, domain, &mut cpu, &mut writer, 1);
    Ok(early.saturating_add(late).saturating_add(last))
}

/// Four readers.
#[derive(Drop)]
struct Four {
    first: Reader<Table>,
    second: Reader<Table>,
    third: Reader<Table>,
    fourth: Reader<Table>,
}

/// Readers of the same boxes on four processors.
fn take_four(
    domain: &Domain<()>,
    cpus: Vec<Cpu<()>>,
    boxes: Boxes<Table>,
) -> Result<Four, AllocError>
    requires count { vec_len cpus ≡ 4 }
    requires here { All (IsOf domain.now) cpus.items }
    requires cell { IsCellIn domain.now boxes }
    ensures first { IfOk result (λ f. IsCellOf f.first.cpu.cpu f.first.boxes) }
    ensures second { IfOk result (λ f. IsCellOf f.second.cpu.cpu f.second.boxes) }
    ensures third { IfOk result (λ f. IsCellOf f.third.cpu.cpu f.third.boxes) }
    ensures fourth { IfOk result (λ f. IsCellOf f.fourth.cpu.cpu f.fourth.boxes) }
{
    let mut cpus = cpus;
    let mut boxes = boxes;
    let first = take_reader(domain, &mut cpus, &mut boxes)?;
    let second = take_reader(domain, &mut cpus, &mut boxes)?;
    let third = take_reader(domain, &mut cpus, &mut boxes)?;
    let fourth = take_reader(domain, &mut cpus, &mut boxes)?;
    Ok(Four {
        first,
        second,
        third,
        fourth,
    })
}

/// Two threads read.
fn read_by_two<R: Wait + Threads + Sync>(
    rt: &R,
    first: Reader<Table>,
    second: Reader<Table>,
    course: &Course,
) -> [Found; 2]
    requires first { IsCellOf first.cpu.cpu first.boxes }
    requires second { IsCellOf second.cpu.cpu second.boxes }
{
    let (first, second) = join(
        rt,
        ||
            requires { IsCellOf first.cpu.cpu first.boxes }
        { read_on(rt, first, course) },
        ||
            requires { IsCellOf second.cpu.cpu second.boxes }
        { read_on(rt, second, course) },
    );
    [first, second]
}

/// Four threads read.
fn read_by_four<R: Wait + Threads + Sync>(rt: &R, readers: Four, course: &Course) -> [Found; 4]
    requires first { IsCellOf readers.first.cpu.cpu readers.first.boxes }
    requires second { IsCellOf readers.second.cpu.cpu readers.second.boxes }
    requires third { IsCellOf readers.third.cpu.cpu readers.third.boxes }
    requires fourth { IsCellOf readers.fourth.cpu.cpu readers.fourth.boxes }
{
    let Four {
        first,
        second,
        third,
        fourth,
    } = readers;
    let (low, high) = join(
        rt,
        ||
            requires first { IsCellOf first.cpu.cpu first.boxes }
            requires second { IsCellOf second.cpu.cpu second.boxes }
        { read_by_two(rt, first, second, course) },
        ||
            requires third { IsCellOf third.cpu.cpu third.boxes }
            requires fourth { IsCellOf fourth.cpu.cpu fourth.boxes }
        { read_by_two(rt, third, fourth, course) },
    );
    [low[0], low[1], high[0], high[1]]
}

/// What the readers found, and how many tables came back.
type Report = ([Found; 4], Result<u64, AllocError>);

/// Four threads read while one puts tables.
fn read_beside<R: Wait + Threads + Sync + AllocGlobal>(
    rt: &R,
    domain: &Domain<()>,
    readers: Four,
    cpu: Cpu<()>,
    writer: BoxWriter<Table, Global>,
    rung: &Arc<AtomicU64>,
) -> Report
    requires first { IsCellOf readers.first.cpu.cpu readers.first.boxes }
    requires second { IsCellOf readers.second.cpu.cpu readers.second.boxes }
    requires third { IsCellOf readers.third.cpu.cpu readers.third.boxes }
    requires fourth { IsCellOf readers.fourth.cpu.cpu readers.fourth.boxes }
    requires here { IsOf domain.now cpu }
    requires cell { IsCellIn domain.now (cell_of writer) }
{
    let course = Course {
        reading: AtomicU64::new(0),
        done: AtomicBool::new(false),
    };
    join(
        rt,
        ||
            requires first { IsCellOf readers.first.cpu.cpu readers.first.boxes }
            requires second { IsCellOf readers.second.cpu.cpu readers.second.boxes }
            requires third { IsCellOf readers.third.cpu.cpu readers.third.boxes }
            requires fourth { IsCellOf readers.fourth.cpu.cpu readers.fourth.boxes }
        { read_by_four(rt, readers, &course) },
        ||
            requires here { IsOf domain.now cpu }
            requires cell { IsCellIn domain.now (cell_of writer) }
        { put_all(rt, domain, cpu, writer, rung, &course) },
    )
}

/// Would catch a table that is dropped while a thread reads it, one that is dropped twice or never, a section that finds an
/// older one than the section before, and a thread that finds none.
#[test]
fn tables_by_threads(rt: HostRuntime) -> Result<(), Fail> {
    let rung = Arc::new(rt.alloc(), AtomicU64::new(0))?;
    let Place {
        domain,
        cpu,
        others,
        writer,
        boxes,
    } = place_of::<Table>(rt.alloc(), 5, 8)?;
    let readers = take_four(&domain, others, boxes)?;
    let (found, back) = read_beside(&rt, &domain, readers, cpu, writer, &rung);
    for found in found {
        assert_eq!(rt; (found.whole, found.sections > 0), (true, true));
        assert!(rt; found.last <= PUTS);
    }
    assert_eq!(rt; back?, PUTS);
    assert_eq!(rt; (rung.load(SeqCst), Arc::strong_count(&rung)), (PUTS, 1));
    Ok(())
}
