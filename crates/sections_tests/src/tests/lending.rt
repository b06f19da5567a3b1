//! Sections borrow parts of a box, and pay them.
ghost use Rattle.std.specs.Prelude.{◌≡◌, ℕ, ◌<◌, IfOk, IfSome};
ghost use Rattle.sections.specs.Boxes.{KnowsVault, bank_in, vault_of};
ghost use Rattle.sections.specs.Calls.{IsSameCpu};
ghost use Rattle.sections.specs.Words.{cells_in};
ghost use Rattle.sections.specs.Banks.{no_plan};
ghost use Rattle.sections_tests.specs.Ready.{CanSee};

use super::boxes::equip_all;
use parts::{LooseDeed, freeze};
use sections::{Cpu, Held, Limits, Made, MakeError, Reading, Writer, make};
use std::alloc::Global;
use std::test::Fail;
use vault::{Pile, Vault};

/// All parts of a box but two.
const MOST: u64 = 9_223_372_036_854_775_806;

/// Two processors and the writer of a new domain with one cell.
pub(super) fn two_at_one_cell(alloc: Global) -> Result<(Cpu, Cpu, Writer), MakeError>
    ensures { IfOk result (λ r. (r.1.domain ≡ r.0.domain) × (r.2.domain ≡ r.0.domain) × (0 < cells_in r.0.domain) × (r.0.processors ≡ 2) × (r.1.processors ≡ 2) × (r.2.plan ≡ no_plan) × (r.2.cell ≡ 0)) }
{
    let Made {
        mut cpus,
        engine: _,
        mut writers,
    } = make(
        alloc,
        2,
        Limits {
            sections: 8,
            periods: 2,
            cells: 1,
            slots: 2,
        },
    )?;
    let second = cpus.pop().unwrap();
    let first = cpus.pop().unwrap();
    let writer = writers.pop().unwrap();
    Ok((first, second, writer))
}

/// Puts a box, of which two parts lie at processor 1, and the others at processor 0.
fn put_parts(writer: &mut Writer, cpu: &mut Cpu, vault: &Vault<u64>, value: Box<u64>) -> Option<u64>
    requires here { (cpu.old.domain ≡ writer.old.domain) × (cpu.old.processors ≡ 2) }
    requires keys { (writer.old.plan.keys ≡ 16) × (vault_of writer.old ≡ vault.now) }
    requires none { (x : ℕ) → (bank_in writer.old x).laid ≡ 0 }
    ensures cpu { IsSameCpu cpu.old cpu.new }
    ensures knows { IfSome result (λ _. KnowsVault writer.old.cell 16 vault.now cpu.new.texts) }
{
    let slot = writer.blank()?;
    let (deed, mut part) = freeze(value);
    let _deed = LooseDeed::new(deed);
    let two = part.split(2);
    writer.lay(&*cpu, &slot, 0, vault, Pile { part, count: MOST });
    let pile = Pile {
        part: two,
        count: 2,
    };
    writer.lay(&*cpu, &slot, 1, vault, pile);
    Some(writer.put(cpu, slot))
}

/// The value that a reading sees, and the reading.
fn see(cpu: &mut Cpu, reading: Reading, vault: &Vault<u64>) -> (Option<u64>, Reading)
    requires here { reading.domain ≡ cpu.old.domain }
    requires can { CanSee vault.now cpu.old }
    ensures cpu { IsSameCpu cpu.old cpu.new }
    ensures can { CanSee vault.now cpu.new }
    ensures reading { result.1 ≡ reading }
{
    let found = cpu.find_held(reading, 0);
    match cpu.draw(found, vault) {
        Ok((loan, part)) => {
            let value = *part.get();
            (Some(value), cpu.pay(loan, part, vault))
        }
        Err(reading) => (None, reading),
    }
}

/// What so many readings see, added up.
fn see_often(cpu: &mut Cpu, vault: &Vault<u64>, times: u64) -> Option<u64>
    requires can { CanSee vault.now cpu.old }
{
    let mut sum: u64 = 0;
    for _ in 0..times {
        let Ok(reading) = cpu.read_lock() else {
            return None;
        };
        let (value, reading) = see(cpu, reading, vault);
        cpu.read_unlock(reading);
        sum = sum.wrapping_add(value?);
    }
    Some(sum)
}

/// The value that a held section sees at one processor. It pays and ends at another.
fn see_elsewhere(cpu: &mut Cpu, other: &mut Cpu, held: Held, vault: &Vault<u64>) -> Option<u64>
    requires here { held.domain ≡ cpu.old.domain }
    requires both { other.old.domain ≡ cpu.old.domain }
    requires can { CanSee vault.now cpu.old × CanSee vault.now other.old }
    ensures same { IsSameCpu cpu.old cpu.new × IsSameCpu other.old other.new }
    ensures can { CanSee vault.now cpu.new × CanSee vault.now other.new }
{
    let found = cpu.find_held(held, 0);
    match cpu.draw(found, vault) {
        Ok((loan, part)) => {
            let value = *part.get();
            let held = other.pay(loan, part, vault);
            other.up_read(held);
            Some(value)
        }
        Err(held) => {
            cpu.up_read(held);
            None
        }
    }
}

/// A domain of two processors, and a box in its cell.
fn with_box(alloc: Global) -> Result<Option<(Cpu, Cpu, Vault<u64>)>, Fail>
    ensures { IfOk result (λ o. IfSome o (λ r. (r.1.domain ≡ r.0.domain) × CanSee r.2 r.0 × CanSee r.2 r.1)) }
{
    let (mut first, mut second, mut writer) = two_at_one_cell(alloc)?;
    let (vault, keys) = Vault::new(alloc, alloc, 16)?;
    equip_all(&mut writer, &first, &vault, keys);
    let value = Box::new(alloc, 7)?;
    let Some(_) = put_parts(&mut writer, &mut first, &vault, value) else {
        return Ok(None);
    };
    first.tie(&mut second);
    Ok(Some((first, second, vault)))
}

/// Would catch a part that is not paid, and another value.
#[test]
fn readings_borrow(rt: HostRuntime) -> Result<(), Fail> {
    let Some((mut first, _second, vault)) = with_box(rt.alloc())? else {
        assert!(rt; false);
        return Ok(());
    };
    assert_eq!(rt; see_often(&mut first, &vault, 5), Some(35));
    Ok(())
}

/// What two held sections see at the second processor, where two parts lie. They pay at the first one.
fn see_both(
    first: &mut Cpu,
    second: &mut Cpu,
    vault: &Vault<u64>,
) -> Option<(Option<u64>, Option<u64>)>
    requires both { second.old.domain ≡ first.old.domain }
    requires can { CanSee vault.now first.old × CanSee vault.now second.old }
{
    let Ok(held) = second.down_read() else {
        return None;
    };
    let before = see_elsewhere(second, first, held, vault);
    let Ok(held) = second.down_read() else {
        return None;
    };
    let after = see_elsewhere(second, first, held, vault);
    Some((before, after))
}

/// Would catch a part that comes back to the processor that lent it: there one is left, which it keeps.
#[test]
fn held_sections_pay_elsewhere(rt: HostRuntime) -> Result<(), Fail> {
    let Some((mut first, mut second, vault)) = with_box(rt.alloc())? else {
        assert!(rt; false);
        return Ok(());
    };
    assert_eq!(rt;
        see_both(&mut first, &mut second, &vault),
        Some((Some(7), None))
    );
    Ok(())
}
