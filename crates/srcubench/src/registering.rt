//! Blocks of a notifier chain that are registered and unregistered, each with a grace period behind it.
ghost use Rattle.std.specs.Prelude.{◌≡◌, ◌*◌, ◌^◌, ◌<◌, ◌≤◌, IfOk};
ghost use Rattle.domain.specs.Views.{IsOf};
ghost use Rattle.srcubench.specs.Chaining.{RegistersOne, UnregistersOne, RegistersAll, ChangesOften, RegistersAndChanges, HaveChanged};

use crate::driving::drive_one;
use crate::founding::{New, found};
use crate::work::Timed;
use anyhow::Result;
use domain::{Cpu, Domain};
use notify::Chain;
use std::time::{Clock, Instant};

/// How many blocks the chain has. Their ids are the numbers below.
const BLOCKS: u64 = 4;

/// The block that goes and comes: the last one.
const LAST: u64 = BLOCKS - 1;

/// Registers a block of priority 0, and drives a grace period, behind which nobody reads the chain without it.
fn register_one(domain: &Domain<()>, cpu: &mut Cpu<()>, chain: &mut Chain, id: u64) -> Result<()>
    requires here { IsOf domain.now cpu.old }
    requires chain { chain.old.writer.domain ≡ domain.now.domain }
    requires id { id < chain.old.ids }
    ensures here { IsOf domain.now cpu.new }
    ensures same { (chain.new.writer.domain ≡ domain.now.domain) × (chain.new.ids ≡ chain.old.ids) }
    ensures registers { IfOk result (λ _. RegistersOne id chain.old cpu.old chain.new cpu.new) }
{
    chain.register(domain, cpu, id, 0)?;
    drive_one(domain, cpu)?;
    Ok(())
}

/// Unregisters a block, and drives a grace period, behind which nobody calls it.
fn unregister_one(domain: &Domain<()>, cpu: &mut Cpu<()>, chain: &mut Chain, id: u64) -> Result<()>
    requires here { IsOf domain.now cpu.old }
    requires chain { chain.old.writer.domain ≡ domain.now.domain }
    requires id { id < chain.old.ids }
    ensures here { IsOf domain.now cpu.new }
    ensures same { (chain.new.writer.domain ≡ domain.now.domain) × (chain.new.ids ≡ chain.old.ids) }
    ensures unregisters { IfOk result (λ _. UnregistersOne id chain.old cpu.old chain.new cpu.new) }
{
    chain.unregister(domain, cpu, id)?;
    drive_one(domain, cpu)?;
    Ok(())
}

/// Registers so many blocks, with the ids from 0 on.
pub fn register_all(
    domain: &Domain<()>,
    cpu: &mut Cpu<()>,
    chain: &mut Chain,
    blocks: u64,
) -> Result<()>
    requires here { IsOf domain.now cpu.old }
    requires chain { chain.old.writer.domain ≡ domain.now.domain }
    requires ids { blocks ≤ chain.old.ids }
    ensures here { IsOf domain.now cpu.new }
    ensures same { (chain.new.writer.domain ≡ domain.now.domain) × (chain.new.ids ≡ chain.old.ids) }
    ensures registers { IfOk result (λ _. RegistersAll blocks chain.old cpu.old chain.new cpu.new) }
{
    for id in 0..blocks {
        register_one(domain, cpu, chain, id)?;
    }
    Ok(())
}

/// So many times the last block goes and comes again.
fn change_often(
    domain: &Domain<()>,
    cpu: &mut Cpu<()>,
    chain: &mut Chain,
    rounds: u64,
) -> Result<()>
    requires here { IsOf domain.now cpu.old }
    requires chain { chain.old.writer.domain ≡ domain.now.domain }
    requires ids { chain.old.ids ≡ 4 }
    ensures { IfOk result (λ _. ChangesOften rounds chain.old cpu.old chain.new cpu.new) }
{
    for _ in 0..rounds {
        unregister_one(domain, cpu, chain, LAST)?;
        register_one(domain, cpu, chain, LAST)?;
    }
    Ok(())
}

/// Registers four blocks, and then does so. The `elapsed` is what the clock told of the second part, of which no clause
/// speaks.
fn time_changes<R: Clock>(
    rt: &R,
    domain: &Domain<()>,
    cpu: &mut Cpu<()>,
    chain: &mut Chain,
    rounds: u64,
) -> Result<Timed>
    requires here { IsOf domain.now cpu.old }
    requires chain { chain.old.writer.domain ≡ domain.now.domain }
    requires ids { chain.old.ids ≡ 4 }
    requires few { rounds ≤ 2 ^ 54 }
    ensures done { IfOk result (λ timed. timed.done ≡ 2 * rounds) }
    ensures changes { IfOk result (λ _. RegistersAndChanges rounds chain.old cpu.old chain.new cpu.new) }
{
    register_all(domain, cpu, chain, BLOCKS)?;
    let start = Instant::now(rt)?;
    change_often(domain, cpu, chain, rounds)?;
    let elapsed = start.elapsed(rt)?;
    Ok(Timed {
        done: 2 * rounds,
        elapsed,
    })
}

/// Has one of four blocks go and come so many times, in a new domain of one processor: two changes each time.
pub fn run<R: Clock + AllocGlobal>(rt: &R, rounds: u64) -> Result<Timed>
    requires { rounds ≤ 2 ^ 54 }
    ensures done { IfOk result (λ timed. timed.done ≡ 2 * rounds) }
    ensures changed { IfOk result (λ _. HaveChanged rounds) }
{
    let New {
        domain,
        mut changer,
        writer,
        ..
    } = found(rt.alloc(), 0)?;
    let (mut chain, _) = Chain::new(writer, BLOCKS);
    time_changes(rt, &domain, &mut changer, &mut chain, rounds)
}
