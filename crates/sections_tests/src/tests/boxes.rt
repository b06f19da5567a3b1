//! Boxes of one cell: parts are laid, and come back.
ghost use Rattle.std.specs.Prelude.{◌≡◌, ℕ, ◌+◌, ◌<◌, length, MatchOption};
ghost use Rattle.vault.specs.Keys.{AreKeys};
ghost use Rattle.vault.specs.Rule.{count_of, round_of};
ghost use Rattle.sections.specs.Boxes.{bank_in, vault_of};
ghost use Rattle.sections.specs.Calls.{IsSameCpu};
ghost use Rattle.sections_tests.specs.Ready.{HasAllKeys, IsReady};

use super::shelf::one_cell;
use parts::{Deed, LooseDeed, Part, freeze, thaw};
use sections::{Cpu, Writer};
use std::alloc::Global;
use std::test::Fail;
use vault::{Key, Pile, Vault};

/// Half of all parts of a box.
const HALF: u64 = 4_611_686_018_427_387_904;

/// Lays the sixteen keys of a new vault, in a domain of two processors.
pub(super) fn equip_all(writer: &mut Writer, cpu: &Cpu, vault: &Vault<u64>, mut keys: Vec<Key>)
    requires here { (cpu.now.domain ≡ writer.old.domain) × (cpu.now.processors ≡ 2) }
    requires none { writer.old.plan.keys ≡ 0 }
    requires keys { (length keys.items ≡ 16) × AreKeys vault.now 0 keys.items }
    ensures same { (writer.new.domain ≡ writer.old.domain) × (writer.new.plan.banks ≡ writer.old.plan.banks) × (writer.new.cell ≡ writer.old.cell) }
    ensures keys { (writer.new.plan.keys ≡ 16) × (vault_of writer.new ≡ vault.now) }
{
    for place in 0..16_usize {
        let key = keys.remove(0);
        writer.equip(cpu, (place / 8) as u16, place % 8, key);
    }
}

/// The parts of two piles in one. None where both have none.
fn join(
    deed: &Deed<u64, Global>,
    first: Option<Pile<u64>>,
    second: Option<Pile<u64>>,
) -> Option<Part<u64>>
    requires first { 0 < count_of first → round_of first 0 ≡ deed.now.round }
    requires second { 0 < count_of second → round_of second 0 ≡ deed.now.round }
    ensures { MatchOption result (count_of first + count_of second ≡ 0) (λ part. (part.count ≡ count_of first + count_of second) × (part.round ≡ deed.now.round)) }
{
    match (first, second) {
        (Some(first), Some(second)) => {
            let mut part = first.part;
            part.join(second.part);
            Some(part)
        }
        (Some(pile), None) => Some(pile.part),
        (None, Some(pile)) => Some(pile.part),
        (None, None) => None,
    }
}

/// Lays a box at two processors, and takes it back before anybody can read it.
fn lay_and_collect(
    writer: &mut Writer,
    cpu: &Cpu,
    vault: &Vault<u64>,
    value: Box<u64>,
) -> Option<Box<u64>>
    requires here { (cpu.now.domain ≡ writer.old.domain) × (cpu.now.processors ≡ 2) }
    requires keys { HasAllKeys vault.now writer.old }
    requires none { (x : ℕ) → (bank_in writer.old x).laid ≡ 0 }
{
    let slot = writer.blank()?;
    let (deed, mut part) = freeze(value);
    let half = part.split(HALF);
    writer.lay(cpu, &slot, 0, vault, Pile { part, count: HALF });
    let pile = Pile {
        part: half,
        count: HALF,
    };
    writer.lay(cpu, &slot, 1, vault, pile);
    let first = writer.collect(cpu, &slot, 0, vault);
    let second = writer.collect(cpu, &slot, 1, vault);
    writer.give_back(slot);
    let all = join(&deed, first, second).unwrap();
    Some(thaw(deed, all))
}

/// Lays a box so in the next blank slot, and puts it.
fn put_box(writer: &mut Writer, cpu: &mut Cpu, vault: &Vault<u64>, value: Box<u64>) -> Option<u64>
    requires here { (cpu.old.domain ≡ writer.old.domain) × (cpu.old.processors ≡ 2) }
    requires keys { HasAllKeys vault.now writer.old }
    requires none { (x : ℕ) → (bank_in writer.old x).laid ≡ 0 }
    requires fresh { (x : ℕ) → (bank_in writer.old x).emptied ≡ 0 }
    ensures cpu { IsSameCpu cpu.old cpu.new }
    ensures writer { IsReady vault.now writer.old writer.new }
{
    let slot = writer.blank()?;
    let (deed, mut part) = freeze(value);
    let _deed = LooseDeed::new(deed);
    let half = part.split(HALF);
    writer.lay(&*cpu, &slot, 0, vault, Pile { part, count: HALF });
    let pile = Pile {
        part: half,
        count: HALF,
    };
    writer.lay(&*cpu, &slot, 1, vault, pile);
    Some(writer.put(cpu, slot))
}

/// Puts a version without a box.
fn put_none(writer: &mut Writer, cpu: &mut Cpu, vault: &Vault<u64>) -> Option<u64>
    requires here { cpu.old.domain ≡ writer.old.domain }
    requires keys { HasAllKeys vault.now writer.old }
    requires fresh { (x : ℕ) → (bank_in writer.old x).emptied ≡ 0 }
    ensures cpu { IsSameCpu cpu.old cpu.new }
    ensures writer { IsReady vault.now writer.old writer.new }
{
    let slot = writer.blank()?;
    Some(writer.put(cpu, slot))
}

/// How many parts lay at each of the two processors, in the next blank slot. They are taken.
fn take_parts(writer: &mut Writer, cpu: &Cpu, vault: &Vault<u64>) -> Option<(u64, u64)>
    requires here { (cpu.now.domain ≡ writer.old.domain) × (cpu.now.processors ≡ 2) }
    requires keys { HasAllKeys vault.now writer.old }
    requires fresh { (x : ℕ) → (bank_in writer.old x).emptied ≡ 0 }
{
    let slot = writer.blank()?;
    let first = writer.collect(cpu, &slot, 0, vault);
    let second = writer.collect(cpu, &slot, 1, vault);
    writer.give_back(slot);
    Some((length_of(first), length_of(second)))
}

fn length_of(pile: Option<Pile<u64>>) -> u64 {
    match pile {
        Some(pile) => pile.count,
        None => 0,
    }
}

/// Would catch parts that are lost, or that come back twice.
#[test]
fn a_box_comes_back(rt: HostRuntime) -> Result<(), Fail> {
    let (cpu, _engine, mut writer) = one_cell(rt.alloc(), 2)?;
    let (vault, keys) = Vault::new(rt.alloc(), rt.alloc(), 16)?;
    equip_all(&mut writer, &cpu, &vault, keys);
    let value = Box::new(rt.alloc(), 7)?;
    let back = lay_and_collect(&mut writer, &cpu, &vault, value);
    assert_eq!(rt; back.map(|value| *value), Some(7));
    Ok(())
}

/// Would catch parts that stay in their slot once the next version was put and a grace period is over.
#[test]
fn parts_of_an_older_version(rt: HostRuntime) -> Result<(), Fail> {
    let (mut cpu, mut engine, mut writer) = one_cell(rt.alloc(), 3)?;
    let (vault, keys) = Vault::new(rt.alloc(), rt.alloc(), 16)?;
    equip_all(&mut writer, &cpu, &vault, keys);
    let value = Box::new(rt.alloc(), 7)?;
    let first = put_box(&mut writer, &mut cpu, &vault, value);
    let second = put_none(&mut writer, &mut cpu, &vault);
    let ended = super::drive(&mut engine).is_some();
    writer.reclaim(&mut cpu);
    let third = put_none(&mut writer, &mut cpu, &vault);
    let parts = take_parts(&mut writer, &cpu, &vault);
    assert_eq!(rt;
        (first, second, ended, third, parts),
        (Some(4), Some(4), true, Some(8), Some((HALF, HALF)))
    );
    Ok(())
}
