//! Values that are replaced while others read them.
ghost use Rattle.std.specs.Prelude.{◌≡◌, length, IfOk};
ghost use Rattle.sections.specs.Calls.{IsSameCpu};
ghost use Rattle.domain.specs.Views.{IsOf};
ghost use Rattle.shelf.specs.Cells.{IsCellIn};

use domain::{Cpu, Domain, MakeError};
use fixtures::{Four, five};
use shelf::{NoSlot, Shelf, Values, Versioned};
use std::alloc::Global;
use std::sync::Wait;
use std::sync::atomic::AtomicBool;
use std::sync::atomic::Ordering::SeqCst;
use std::test::Fail;
use std::thread::{Threads, join, yield_now};

/// Sixteen words.
#[derive(Clone, Copy, Debug, PartialEq, Eq)]
struct Sixteen {
    words: [u64; 16],
}

impl Versioned for Sixteen {
    ghost use Rattle.std.specs.Prelude.{refl};

    ghost fits = { λ s. length s.words ≡ 16 };

    ghost text = { λ s. s.words };

    ghost value = { λ words. record { words = words } };

    ghost round_trip = { λ s _. refl };

    fn encode(&self) -> [u64; 16] {
        self.words
    }

    fn decode(words: &[u64; 16]) -> Sixteen {
        Sixteen { words: *words }
    }
}

/// The same number in each word.
fn same(number: u64) -> Sixteen {
    Sixteen {
        words: [number; 16],
    }
}

/// A domain with five processors and cells of so many slots, and who replaces and who reads the values of one.
fn domain_of_five(
    alloc: Global,
    slots: u64,
) -> Result<
    (
        Domain<()>,
        Four<()>,
        Cpu<()>,
        Shelf<Sixteen>,
        Values<Sixteen>,
    ),
    MakeError,
>
    ensures writer { IfOk result (λ r. IsOf r.0 r.2 × (r.3.domain ≡ r.0.domain)) }
    ensures cell { IfOk result (λ r. IsCellIn r.0.domain r.4) }
    ensures first { IfOk result (λ r. IsCellIn r.1.first.cpu.domain r.4 × IsCellIn r.1.second.cpu.domain r.4) }
    ensures last { IfOk result (λ r. IsCellIn r.1.third.cpu.domain r.4 × IsCellIn r.1.fourth.cpu.domain r.4) }
{
    let (domain, readers, cpu, writer) = five(alloc, slots)?;
    let (shelf, values) = Shelf::new(writer);
    Ok((domain, readers, cpu, shelf, values))
}

/// Drives so many turns of the engine.
fn drive(domain: &Domain<()>, cpu: &mut Cpu<()>, turns: u32)
    requires { IsOf domain.now cpu.old }
    ensures { IsOf domain.now cpu.new }
{
    for _ in 0..turns {
        let _answer = domain.advance(cpu);
    }
}

/// What one section reads before a replacement and behind it, and the answer to that.
fn read_over(
    domain: &Domain<()>,
    cpu: &mut Cpu<()>,
    shelf: &mut Shelf<Sixteen>,
    values: &Values<Sixteen>,
    next: u64,
) -> Option<([u64; 2], Result<u64, NoSlot>)>
    requires cpu { IsOf domain.now cpu.old }
    requires shelf { shelf.old.domain ≡ domain.now.domain }
    requires cell { IsCellIn domain.now.domain values.now }
    ensures { IsOf domain.now cpu.new × (shelf.new.domain ≡ domain.now.domain) }
{
    let mut reading = cpu.read_lock().ok()?;
    let before = values.read(cpu, &mut reading);
    let put = shelf.replace(domain, cpu, &same(next));
    let behind = values.read(cpu, &mut reading);
    cpu.read_unlock(reading);
    Some(([before.words[0], behind.words[15]], put))
}

/// Replaces twice, and a third time behind a grace period.
fn replace_thrice(
    domain: &Domain<()>,
    cpu: &mut Cpu<()>,
    shelf: &mut Shelf<Sixteen>,
    values: &Values<Sixteen>,
) -> [Option<([u64; 2], Result<u64, NoSlot>)>; 3]
    requires cpu { IsOf domain.now cpu.old }
    requires shelf { shelf.old.domain ≡ domain.now.domain }
    requires cell { IsCellIn domain.now.domain values.now }
{
    let first = read_over(domain, cpu, shelf, values, 7);
    let second = read_over(domain, cpu, shelf, values, 8);
    drive(domain, cpu, 3);
    [first, second, read_over(domain, cpu, shelf, values, 9)]
}

/// Makes a domain whose cell has two slots, and replaces there.
fn replace_in_two_slots<R: AllocGlobal>(
    rt: &R,
) -> Result<[Option<([u64; 2], Result<u64, NoSlot>)>; 3], MakeError> {
    let (domain, _, mut cpu, mut shelf, values) = domain_of_five(rt.alloc(), 2)?;
    Ok(replace_thrice(&domain, &mut cpu, &mut shelf, &values))
}

/// Would catch a value that is not found, one of another version, a slot that is used again while it may be read, and one
/// that never is: with two slots the second replacement has none before a grace period has ended.
#[test]
fn replaced(rt: HostRuntime) -> Result<(), Fail> {
    assert_eq!(rt;
        replace_in_two_slots(&rt)?,
        [
            Some(([0, 7], Ok(4))),
            Some(([7, 7], Err(NoSlot))),
            Some(([7, 9], Ok(8)))
        ]
    );
    Ok(())
}

/// How many values are put while others read.
const PUTS: u64 = 100_000;

/// What a reader found.
#[derive(Clone, Copy, Drop)]
struct Found {
    /// In how many sections it read.
    sections: u64,
    /// Whether each value had one number in all of its words, and none a smaller one than the value before.
    whole: bool,
    last: u64,
}

/// Reads one value in a section of its own.
fn read_once(cpu: &mut Cpu<()>, values: &Values<Sixteen>) -> Option<Sixteen>
    requires { IsCellIn cpu.old.cpu.domain values.now }
    ensures { IsSameCpu cpu.old.cpu cpu.new.cpu }
{
    let mut reading = cpu.read_lock().ok()?;
    let value = values.read(cpu, &mut reading);
    cpu.read_unlock(reading);
    Some(value)
}

/// Reads, each time in a section of its own, until no more is put.
fn read_on<R: Wait>(rt: &R, mut cpu: Cpu<()>, values: &Values<Sixteen>, done: &AtomicBool) -> Found
    requires { IsCellIn cpu.cpu.domain values.now }
{
    let mut found = Found {
        sections: 0,
        whole: true,
        last: 0,
    };
    for _ in rt.forever() {
        let over = done.load(SeqCst);
        let Some(value) = read_once(&mut cpu, values) else {
            return found;
        };
        let words = value.words;
        found.whole &= words == [words[0]; 16] && words[0] >= found.last;
        found.last = words[0];
        found.sections = found.sections.saturating_add(1);
        if over {
            return found;
        }
        yield_now(); // whoever loses its core in a section holds a period up
    }
    unreachable!()
}

/// Puts one value, and drives the engine as long as no slot is free.
fn put_once<R: Wait>(
    rt: &R,
    domain: &Domain<()>,
    cpu: &mut Cpu<()>,
    shelf: &mut Shelf<Sixteen>,
    number: u64,
)
    requires cpu { IsOf domain.now cpu.old }
    requires shelf { shelf.old.domain ≡ domain.now.domain }
    ensures { IsOf domain.now cpu.new × (shelf.new.domain ≡ domain.now.domain) }
{
    for _ in rt.forever() {
        if shelf.replace(domain, cpu, &same(number)).is_ok() {
            return;
        }
        if let Ok(domain::Progress::Waiting(_)) = domain.advance(cpu) {
            yield_now();
        }
    }
    unreachable!()
}

/// Puts the numbers from 1 on.
fn put_all<R: Wait>(
    rt: &R,
    domain: &Domain<()>,
    mut cpu: Cpu<()>,
    mut shelf: Shelf<Sixteen>,
    done: &AtomicBool,
)
    requires cpu { IsOf domain.now cpu }
    requires shelf { shelf.domain ≡ domain.now.domain }
{
    for number in 1..=PUTS {
        put_once(rt, domain, &mut cpu, &mut shelf, number);
    }
    done.store(true, SeqCst);
}

/// Two threads read.
fn read_by_two<R: Wait + Threads + Sync>(
    rt: &R,
    first: Cpu<()>,
    second: Cpu<()>,
    values: &Values<Sixteen>,
    done: &AtomicBool,
) -> [Found; 2]
    requires { IsCellIn first.cpu.domain values.now × IsCellIn second.cpu.domain values.now }
{
    let (first, second) = join(
        rt,
        || read_on(rt, first, values, done),
        || read_on(rt, second, values, done),
    );
    [first, second]
}

/// Four threads read.
fn read_by_four<R: Wait + Threads + Sync>(
    rt: &R,
    first: Cpu<()>,
    second: Cpu<()>,
    third: Cpu<()>,
    fourth: Cpu<()>,
    values: &Values<Sixteen>,
    done: &AtomicBool,
) -> ([Found; 2], [Found; 2])
    requires two { IsCellIn first.cpu.domain values.now × IsCellIn second.cpu.domain values.now }
    requires others { IsCellIn third.cpu.domain values.now × IsCellIn fourth.cpu.domain values.now }
{
    join(
        rt,
        ||
            requires { IsCellIn first.cpu.domain values.now × IsCellIn second.cpu.domain values.now }
        { read_by_two(rt, first, second, values, done) },
        ||
            requires { IsCellIn third.cpu.domain values.now × IsCellIn fourth.cpu.domain values.now }
        { read_by_two(rt, third, fourth, values, done) },
    )
}

/// Four threads read while one puts.
fn read_beside<R: Wait + Threads + Sync>(
    rt: &R,
    domain: &Domain<()>,
    readers: Four<()>,
    cpu: Cpu<()>,
    shelf: Shelf<Sixteen>,
    values: &Values<Sixteen>,
    done: &AtomicBool,
) -> ([Found; 2], [Found; 2])
    requires writer { IsOf domain.now cpu × (shelf.domain ≡ domain.now.domain) }
    requires first { IsCellIn readers.first.cpu.domain values.now × IsCellIn readers.second.cpu.domain values.now }
    requires last { IsCellIn readers.third.cpu.domain values.now × IsCellIn readers.fourth.cpu.domain values.now }
{
    let Four {
        first,
        second,
        third,
        fourth,
    } = readers;
    let (found, ()) = join(
        rt,
        ||
            requires two { IsCellIn first.cpu.domain values.now × IsCellIn second.cpu.domain values.now }
            requires others { IsCellIn third.cpu.domain values.now × IsCellIn fourth.cpu.domain values.now }
        { read_by_four(rt, first, second, third, fourth, values, done) },
        ||
            requires { IsOf domain.now cpu × (shelf.domain ≡ domain.now.domain) }
        { put_all(rt, domain, cpu, shelf, done) },
    );
    found
}

/// The same in a domain of its own. What the readers found.
fn read_and_put<R: Wait + Threads + Sync + AllocGlobal>(
    rt: &R,
) -> Result<([Found; 2], [Found; 2]), MakeError> {
    let (domain, readers, cpu, shelf, values) = domain_of_five(rt.alloc(), 8)?;
    let done = AtomicBool::new(false);
    Ok(read_beside(rt, &domain, readers, cpu, shelf, &values, &done))
}

/// Would catch a version whose words change while a section reads them, and a section that finds an older one than the
/// section before.
#[test]
fn versions_by_threads(rt: HostRuntime) -> Result<(), Fail> {
    let ([first, second], [third, fourth]) = read_and_put(&rt)?;
    for found in [first, second, third, fourth] {
        assert_eq!(rt;
            (found.whole, found.last, found.sections > 0),
            (true, PUTS, true)
        );
    }
    Ok(())
}
