//! Plugs that are installed in a table, each with a grace period behind it.
ghost use Rattle.std.specs.Prelude.{◌≡◌, IfOk};
ghost use Rattle.domain.specs.Views.{IsOf};
ghost use Rattle.srcubench.specs.Tabling.{InstallsOne, InstallsAll, FillsUp, FillsAndInstalls, HaveInstalled};

use crate::driving::drive_one;
use crate::founding::{New, found};
use crate::work::Timed;
use anyhow::{Result, bail};
use domain::{Cpu, Domain};
use plugs::{InstallRefusal, Table};
use std::time::{Clock, Instant};

/// How many rows the table has: as many as it may have. Their keys are the numbers below, and each has itself as plug.
const ROWS: u32 = 15;

/// The key that is looked up, and installed again: the one in the middle.
pub const KEY: u32 = 7;

/// Installs the key as its own plug, and drives a grace period, behind which nobody reads the table that was there.
fn install_one(domain: &Domain<()>, cpu: &mut Cpu<()>, table: &mut Table, key: u32) -> Result<()>
    requires here { IsOf domain.now cpu.old }
    requires table { table.old.writer.domain ≡ domain.now.domain }
    ensures here { IsOf domain.now cpu.new }
    ensures same { table.new.writer.domain ≡ domain.now.domain }
    ensures installs { IfOk result (λ _. InstallsOne key table.old cpu.old table.new cpu.new) }
{
    table.install(domain, cpu, key, key)?;
    drive_one(domain, cpu)?;
    Ok(())
}

/// Installs each of the keys, from 0 on.
fn install_all(domain: &Domain<()>, cpu: &mut Cpu<()>, table: &mut Table) -> Result<()>
    requires here { IsOf domain.now cpu.old }
    requires table { table.old.writer.domain ≡ domain.now.domain }
    ensures here { IsOf domain.now cpu.new }
    ensures same { table.new.writer.domain ≡ domain.now.domain }
    ensures installs { IfOk result (λ _. InstallsAll (λ n. n) 15 table.old cpu.old table.new cpu.new) }
{
    for key in 0..ROWS {
        install_one(domain, cpu, table, key)?;
    }
    Ok(())
}

/// Installs each of the keys. The table is full then: it refuses one more.
pub fn fill(domain: &Domain<()>, cpu: &mut Cpu<()>, table: &mut Table) -> Result<()>
    requires here { IsOf domain.now cpu.old }
    requires table { table.old.writer.domain ≡ domain.now.domain }
    ensures here { IsOf domain.now cpu.new }
    ensures same { table.new.writer.domain ≡ domain.now.domain }
    ensures fills { IfOk result (λ _. FillsUp table.old cpu.old table.new cpu.new) }
{
    install_all(domain, cpu, table)?;
    match table.install(domain, cpu, ROWS, ROWS) {
        Err(InstallRefusal::Full) => Ok(()),
        answer => bail!("the table is not full: {answer:?}"),
    }
}

/// Installs the key in the middle so many times.
fn install_often(
    domain: &Domain<()>,
    cpu: &mut Cpu<()>,
    table: &mut Table,
    times: u64,
) -> Result<()>
    requires here { IsOf domain.now cpu.old }
    requires table { table.old.writer.domain ≡ domain.now.domain }
    ensures { IfOk result (λ _. InstallsAll (λ _. 7) times table.old cpu.old table.new cpu.new) }
{
    for _ in 0..times {
        install_one(domain, cpu, table, KEY)?;
    }
    Ok(())
}

/// Fills the table, and then does so. The `elapsed` is what the clock told of the second part, of which no clause speaks.
fn time_installs<R: Clock>(
    rt: &R,
    domain: &Domain<()>,
    cpu: &mut Cpu<()>,
    table: &mut Table,
    times: u64,
) -> Result<Timed>
    requires here { IsOf domain.now cpu.old }
    requires table { table.old.writer.domain ≡ domain.now.domain }
    ensures done { IfOk result (λ timed. timed.done ≡ times) }
    ensures installs { IfOk result (λ _. FillsAndInstalls times table.old cpu.old table.new cpu.new) }
{
    fill(domain, cpu, table)?;
    let start = Instant::now(rt)?;
    install_often(domain, cpu, table, times)?;
    let elapsed = start.elapsed(rt)?;
    Ok(Timed {
        done: times,
        elapsed,
    })
}

/// Installs one of fifteen keys so many times, in a new domain of one processor.
pub fn run<R: Clock + AllocGlobal>(rt: &R, times: u64) -> Result<Timed>
    ensures done { IfOk result (λ timed. timed.done ≡ times) }
    ensures installed { IfOk result (λ _. HaveInstalled times) }
{
    let New {
        domain,
        mut changer,
        writer,
        ..
    } = found(rt.alloc(), 0)?;
    let (mut table, _) = Table::new(writer);
    time_installs(rt, &domain, &mut changer, &mut table, times)
}
