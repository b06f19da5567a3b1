//! The sixteen words of a version, loaded by one call, while another thread puts versions.
ghost use Rattle.std.specs.Prelude.{◌≡◌, ◌<◌, IfOk};
ghost use Rattle.sections.specs.Words.{cells_in};
ghost use Rattle.sections.specs.Calls.{IsSameCpu};
ghost use Rattle.domain.specs.Views.{IsOf};

use domain::{Cpu, Domain, Held, Kind, Limits, MakeError, Section, Writer, claim, publish};
use std::alloc::Global;
use std::sync::Wait;
use std::sync::atomic::AtomicBool;
use std::sync::atomic::Ordering::SeqCst;
use std::test::Fail;
use std::thread::{Threads, join, yield_now};

/// How many versions are put.
const PUTS: u64 = 5_000;

/// The words of the version of this number: no two are the same, and none is one of another version. Those of version 0,
/// which is there at first, are zeros.
fn words_of(version: u64) -> [u64; 16] {
    let mut words = [0; 16];
    for place in 0..16 {
        words[place] = version.wrapping_mul((1 << 32) + place as u64);
    }
    words
}

/// What a pin gave: the number of its version, and its words, twice.
#[derive(Clone, Copy)]
struct Text {
    version: u64,
    words: [u64; 16],
    again: [u64; 16],
}

impl Text {
    fn is_whole(&self) -> bool {
        self.words == words_of(self.version) && self.again == self.words
    }
}

/// What is read in a section that is lent.
fn read_lent<K: Kind>(cpu: &mut Cpu<()>, section: &mut Section<K>) -> Text
    requires { (section.old.domain ≡ cpu.old.cpu.domain) × (0 < cells_in cpu.old.cpu.domain) }
    ensures cpu { IsSameCpu cpu.old.cpu cpu.new.cpu }
    ensures section { section.new ≡ section.old }
{
    let mut pin = cpu.find(section, 0);
    let version = pin.version();
    let words = cpu.words(&mut pin);
    yield_now();
    let again = cpu.words(&mut pin);
    Text {
        version,
        words,
        again,
    }
}

/// The same for a pin that owns the section, and the section.
fn read_owned(cpu: &mut Cpu<()>, held: Held) -> (Text, Held)
    requires { (held.domain ≡ cpu.old.cpu.domain) × (0 < cells_in cpu.old.cpu.domain) }
    ensures cpu { IsSameCpu cpu.old.cpu cpu.new.cpu }
    ensures held { result.1 ≡ held }
{
    let mut pin = cpu.find_held(held, 0);
    let version = pin.version();
    let words = cpu.words_held(&mut pin);
    yield_now();
    let again = cpu.words_held(&mut pin);
    let text = Text {
        version,
        words,
        again,
    };
    (text, pin.into_held())
}

/// What each kind of pin gave, in two sections.
fn read_each(cpu: &mut Cpu<()>) -> Option<(Text, Text, Text)>
    requires { 0 < cells_in cpu.old.cpu.domain }
    ensures { IsSameCpu cpu.old.cpu cpu.new.cpu }
{
    let mut reading = cpu.read_lock().ok()?;
    let here = read_lent(cpu, &mut reading);
    cpu.read_unlock(reading);
    let mut held = cpu.down_read().ok()?;
    let lent = read_lent(cpu, &mut held);
    let (owned, held) = read_owned(cpu, held);
    cpu.up_read(held);
    Some((here, lent, owned))
}

/// Reads until no more is put. The version that was read last, if each was whole.
fn read_on<R: Wait>(rt: &R, mut cpu: Cpu<()>, done: &AtomicBool) -> Option<u64>
    requires { 0 < cells_in cpu.cpu.domain }
{
    for _ in rt.forever() {
        let over = done.load(SeqCst);
        let (here, lent, owned) = read_each(&mut cpu)?;
        if !here.is_whole() || !lent.is_whole() || !owned.is_whole() {
            return None;
        }
        if over {
            return Some(owned.version);
        }
    }
    unreachable!()
}

/// Puts the next version, whose number is given, and drives the engine as long as no slot is free.
fn put_one<R: Wait>(
    rt: &R,
    domain: &Domain<()>,
    cpu: &mut Cpu<()>,
    writer: &mut Writer,
    version: u64,
)
    requires cpu { IsOf domain.now cpu.old }
    requires writer { writer.old.domain ≡ domain.now.domain }
    ensures { IsOf domain.now cpu.new × (writer.new.domain ≡ domain.now.domain) }
{
    for _ in rt.forever() {
        if let Some(slot) = claim(writer, cpu) {
            publish(writer, domain, cpu, slot, &words_of(version));
            return;
        }
        let _progress = domain.advance(cpu);
        yield_now();
    }
    unreachable!()
}

/// Puts all versions.
fn put_on<R: Wait>(
    rt: &R,
    domain: &Domain<()>,
    mut cpu: Cpu<()>,
    mut writer: Writer,
    done: &AtomicBool,
)
    requires cpu { IsOf domain.now cpu }
    requires writer { writer.domain ≡ domain.now.domain }
{
    for version in 1..=PUTS {
        put_one(rt, domain, &mut cpu, &mut writer, version);
    }
    done.store(true, SeqCst);
}

/// The processors of two readers and of the one who puts.
#[derive(Drop)]
struct Three {
    first: Cpu<()>,
    second: Cpu<()>,
    last: Cpu<()>,
}

/// A new domain with one cell.
fn domain_of_three(alloc: Global) -> Result<(Domain<()>, Three, Writer), MakeError>
    ensures readers { IfOk result (λ r. (0 < cells_in r.1.first.cpu.domain) × (0 < cells_in r.1.second.cpu.domain)) }
    ensures writer { IfOk result (λ r. IsOf r.0 r.1.last × (r.2.domain ≡ r.0.domain)) }
{
    let limits = Limits {
        sections: Limits::MOST_SECTIONS,
        periods: Limits::MOST_PERIODS,
        cells: 1,
        slots: 4,
    };
    let (domain, mut cpus, mut writers) = Domain::<()>::new(alloc, 3, limits)?;
    let writer = writers.pop().unwrap();
    let last = cpus.pop().unwrap();
    let second = cpus.pop().unwrap();
    let first = cpus.pop().unwrap();
    let cpus = Three {
        first,
        second,
        last,
    };
    Ok((domain, cpus, writer))
}

/// Two threads read.
fn read_by_two<R: Wait + Threads + Sync>(
    rt: &R,
    first: Cpu<()>,
    second: Cpu<()>,
    done: &AtomicBool,
) -> [Option<u64>; 2]
    requires { (0 < cells_in first.cpu.domain) × (0 < cells_in second.cpu.domain) }
{
    let (first, second) = join(
        rt,
        || read_on(rt, first, done),
        || read_on(rt, second, done),
    );
    [first, second]
}

/// Two threads read while one puts. The version that each read last.
fn read_beside<R: Wait + Threads + Sync>(
    rt: &R,
    domain: &Domain<()>,
    cpus: Three,
    writer: Writer,
    done: &AtomicBool,
) -> [Option<u64>; 2]
    requires readers { (0 < cells_in cpus.first.cpu.domain) × (0 < cells_in cpus.second.cpu.domain) }
    requires writer { IsOf domain.now cpus.last × (writer.domain ≡ domain.now.domain) }
{
    let Three {
        first,
        second,
        last,
    } = cpus;
    let (read, ()) = join(
        rt,
        ||
            requires { (0 < cells_in first.cpu.domain) × (0 < cells_in second.cpu.domain) }
        { read_by_two(rt, first, second, done) },
        ||
            requires { IsOf domain.now last × (writer.domain ≡ domain.now.domain) }
        { put_on(rt, domain, last, writer, done) },
    );
    read
}

/// The same in a new domain.
fn read_and_put<R: Wait + Threads + Sync + AllocGlobal>(
    rt: &R,
) -> Result<[Option<u64>; 2], MakeError> {
    let (domain, cpus, writer) = domain_of_three(rt.alloc())?;
    let done = AtomicBool::new(false);
    Ok(read_beside(rt, &domain, cpus, writer, &done))
}

/// Would catch a word that lies at another's place or is another version's, and words that change while their section
/// sleeps.
#[test]
fn words_by_threads(rt: HostRuntime) -> Result<(), Fail> {
    assert_eq!(rt; read_and_put(&rt)?, [Some(PUTS); 2]);
    Ok(())
}
