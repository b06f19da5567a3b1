//! Versions of one cell.
ghost use Rattle.std.specs.Prelude.{◌≡◌, ◌<◌, IfOk};
ghost use Rattle.sections.specs.Words.{cells_in};
ghost use Rattle.sections.specs.Banks.{no_plan};
ghost use Rattle.sections.specs.Calls.{IsSameCpu};

use sections::{
    Cpu, EngineSeat, Held, Kind, Limits, Made, MakeError, Reading, Section, Writer, make,
};
use std::alloc::Global;
use std::test::Fail;

/// One of two processors, the engine's seat and the writer of a new domain with one cell of so many slots.
pub(super) fn one_cell(alloc: Global, slots: u64) -> Result<(Cpu, EngineSeat, Writer), MakeError>
    ensures { IfOk result (λ r. (r.1.domain ≡ r.0.domain) × (r.2.domain ≡ r.0.domain) × (0 < cells_in r.0.domain) × (r.1.processors ≡ 2) × (r.1.changes ≡ 0) × (r.1.periods ≡ 2) × (r.0.processors ≡ 2) × (r.2.plan ≡ no_plan)) }
{
    let Made {
        mut cpus,
        engine,
        mut writers,
    } = make(
        alloc,
        2,
        Limits {
            sections: 8,
            periods: 2,
            cells: 1,
            slots,
        },
    )?;
    let cpu = cpus.pop().unwrap();
    let writer = writers.pop().unwrap();
    Ok((cpu, engine, writer))
}

/// Fills the next blank slot with a first and a last word, and puts it. The number of the cookie.
fn put_words(writer: &mut Writer, cpu: &mut Cpu, first: u64, last: u64) -> Option<u64>
    requires { cpu.old.domain ≡ writer.old.domain }
    ensures cpu { IsSameCpu cpu.old cpu.new }
    ensures writer { writer.new.domain ≡ writer.old.domain }
{
    let mut slot = writer.blank()?;
    writer.set(cpu, &mut slot, 0, first);
    writer.set(cpu, &mut slot, 15, last);
    Some(writer.put(cpu, slot))
}

/// The version that a section finds, and its first and last word.
fn read_words<K: Kind>(cpu: &mut Cpu, section: &mut Section<K>) -> (u64, u64, u64)
    requires { (section.old.domain ≡ cpu.old.domain) × (0 < cells_in cpu.old.domain) }
    ensures cpu { IsSameCpu cpu.old cpu.new }
    ensures section { section.new ≡ section.old }
{
    let mut pin = cpu.find(section, 0);
    let version = pin.version();
    (version, cpu.word(&mut pin, 0), cpu.word(&mut pin, 15))
}

/// The same for a pin that owns the section, and the section.
fn read_words_held(cpu: &mut Cpu, held: Held) -> ((u64, u64, u64), Held)
    requires { (held.domain ≡ cpu.old.domain) × (0 < cells_in cpu.old.domain) }
    ensures cpu { IsSameCpu cpu.old cpu.new }
    ensures held { result.1 ≡ held }
{
    let mut pin = cpu.find_held(held, 0);
    let version = pin.version();
    let words = (
        version,
        cpu.word_held(&mut pin, 0),
        cpu.word_held(&mut pin, 15),
    );
    (words, pin.into_held())
}

/// A word of a version, once before the next one is put and once behind it.
fn put_meanwhile(
    cpu: &mut Cpu,
    reading: &mut Reading,
    writer: &mut Writer,
) -> (u64, Option<u64>, u64)
    requires { (reading.old.domain ≡ cpu.old.domain) × (writer.old.domain ≡ cpu.old.domain) × (0 < cells_in cpu.old.domain) }
    ensures cpu { IsSameCpu cpu.old cpu.new }
    ensures reading { reading.new ≡ reading.old }
    ensures writer { writer.new.domain ≡ writer.old.domain }
{
    let mut pin = cpu.find(reading, 0);
    let before = cpu.word(&mut pin, 0);
    let put = put_words(writer, cpu, 20, 21);
    (before, put, cpu.word(&mut pin, 0))
}

/// What a reading reads, and then again behind a put, and what one reads that begins later.
fn read_and_put(
    cpu: &mut Cpu,
    writer: &mut Writer,
) -> Option<((u64, u64, u64), (u64, Option<u64>, u64), (u64, u64, u64))>
    requires { (writer.old.domain ≡ cpu.old.domain) × (0 < cells_in cpu.old.domain) }
{
    let mut reading = cpu.read_lock().ok()?;
    let first = read_words(cpu, &mut reading);
    let meanwhile = put_meanwhile(cpu, &mut reading, writer);
    cpu.read_unlock(reading);
    let mut later = cpu.read_lock().ok()?;
    let second = read_words(cpu, &mut later);
    cpu.read_unlock(later);
    Some((first, meanwhile, second))
}

/// Would catch a version that is not found, another's words, and a version that changes while a section reads it.
#[test]
fn versions(rt: HostRuntime) -> Result<(), Fail> {
    let (mut cpu, _engine, mut writer) = one_cell(rt.alloc(), 4)?;
    let put = put_words(&mut writer, &mut cpu, 10, 11);
    let read = read_and_put(&mut cpu, &mut writer);
    assert_eq!(rt;
        (put, read),
        (Some(4), Some(((1, 10, 11), (10, Some(4), 10), (2, 20, 21))))
    );
    Ok(())
}

/// What a held section reads, lent and owned by its pin.
fn read_held(cpu: &mut Cpu) -> Option<[(u64, u64, u64); 2]>
    requires { 0 < cells_in cpu.old.domain }
{
    let mut held = cpu.down_read().ok()?;
    let lent = read_words(cpu, &mut held);
    let (owned, held) = read_words_held(cpu, held);
    cpu.up_read(held);
    Some([lent, owned])
}

/// Would catch a held section that finds another version, or other words.
#[test]
fn versions_in_held_sections(rt: HostRuntime) -> Result<(), Fail> {
    let (mut cpu, _engine, mut writer) = one_cell(rt.alloc(), 4)?;
    let put = put_words(&mut writer, &mut cpu, 10, 11);
    assert_eq!(rt;
        (put, read_held(&mut cpu)),
        (Some(4), Some([(1, 10, 11); 2]))
    );
    Ok(())
}

/// Whether a slot is blank. It is given back.
fn has_blank(writer: &mut Writer) -> bool
    ensures { writer.new.domain ≡ writer.old.domain }
{
    match writer.blank() {
        Some(slot) => {
            writer.give_back(slot);
            true
        }
        None => false,
    }
}

/// Whether a slot is blank once the retired ones were reclaimed.
fn reclaims(writer: &mut Writer, cpu: &mut Cpu) -> bool
    requires { cpu.old.domain ≡ writer.old.domain }
    ensures { (cpu.new.domain ≡ cpu.old.domain) × (writer.new.domain ≡ writer.old.domain) }
{
    writer.reclaim(cpu);
    has_blank(writer)
}

/// Would catch a slot that is blank before its cookie is done, and one that never is again.
#[test]
fn slots_become_blank(rt: HostRuntime) -> Result<(), Fail> {
    let (mut cpu, mut engine, mut writer) = one_cell(rt.alloc(), 2)?;
    let fresh = has_blank(&mut writer);
    let first = put_words(&mut writer, &mut cpu, 10, 11);
    let retired = has_blank(&mut writer);
    let early = reclaims(&mut writer, &mut cpu);
    let ended = super::drive(&mut engine).is_some();
    let late = reclaims(&mut writer, &mut cpu);
    let second = put_words(&mut writer, &mut cpu, 20, 21);
    assert_eq!(rt;
        ((fresh, first, retired), (early, ended, late), second),
        ((true, Some(4), false), (false, true, true), Some(8))
    );
    Ok(())
}
