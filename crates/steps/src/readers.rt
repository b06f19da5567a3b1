//! Readers' sections: nested ones, held ones, and one whose index another processor looked up.
ghost use Rattle.std.specs.Prelude.{◌≡◌};
ghost use Rattle.domain.specs.Views.{IsOf, Stays};

use anyhow::Result;
use domain::{Cpu, Domain};

/// How many sections are open while two are, and behind them.
fn count_nested(first: &mut Cpu<u64>) -> Result<[u64; 2]>
    ensures { Stays first.old first.new }
{
    let outer = first.read_lock()?;
    let inner = first.read_lock(); // sections nest, and may overlap; no `?` while one is open
    let open = first.open_here(); // 2
    first.read_unlock(outer);
    first.read_unlock(inner?);

    Ok([open, first.open_here()])
}

/// Where a held section was opened, which is closed on another processor, and how many are open with it.
fn close_elsewhere(first: &mut Cpu<u64>, second: &mut Cpu<u64>) -> Result<(u16, u64)>
    requires { first.old.cpu.domain ≡ second.old.cpu.domain }
    ensures first { Stays first.old first.new }
    ensures second { Stays second.old second.new }
{
    let held = first.down_read()?; // srcu_down_read
    let from = held.processor(); // 0
    let none = first.open_here(); // 0: a held section may be closed elsewhere, so it doesn't count
    second.up_read(held); // srcu_up_read

    Ok((from, none))
}

/// A section whose index was found by another processor. Answers how many are open on its own meanwhile.
fn look_elsewhere(first: &mut Cpu<u64>, second: &mut Cpu<u64>) -> Result<u64>
    requires { first.old.cpu.domain ≡ second.old.cpu.domain }
    ensures first { Stays first.old first.new }
    ensures second { Stays second.old second.new }
{
    let look = first.look(); // the first half of srcu_read_lock: which index is current
    let section = second.enter(look)?; // the second half: this processor's lock counter of that index
    let open = second.open_here(); // 1
    second.read_unlock(section);

    Ok(open)
}

/// Prints what all of them answer.
pub fn show<R: Print>(
    rt: &R,
    domain: &Domain<u64>,
    first: &mut Cpu<u64>,
    second: &mut Cpu<u64>,
) -> Result<()>
    requires first { IsOf domain.now first.old }
    requires second { IsOf domain.now second.old }
    ensures first { IsOf domain.now first.new }
    ensures second { IsOf domain.now second.new }
{
    let [two, none] = count_nested(first)?;
    println!(rt; "open within two sections: {two}, and behind them: {none}")?;
    let (from, counted) = close_elsewhere(first, second)?;
    println!(rt; "held from processor {from}, and counted there: {counted}")?;
    let one = look_elsewhere(first, second)?;
    println!(rt; "open in a section that another processor looked up: {one}")?;
    Ok(())
}
