//! Keys of a table that are looked up, or read through a lease: a thread for each of a domain's readers.
ghost use Rattle.std.specs.Prelude.{◌≡◌, ◌^◌, ◌≤◌, Some, All, IfOk};
ghost use Rattle.shelf.specs.Cells.{IsCellIn};
ghost use Rattle.srcubench.specs.Calling.{AreOutcomes};
ghost use Rattle.srcubench.specs.Tabling.{LeasesOnce, Looks, LooksOften, HaveLooked};

use crate::callbacks::first_error;
use crate::founding::{New, found};
use crate::installing::{KEY, fill};
use crate::miss::Miss;
use crate::work::Timed;
use anyhow::Result;
use domain::{Cpu, Exhausted};
use plugs::{Table, TableView, release};
use std::alloc::AllocError;
use std::thread;
use std::thread::Threads;
use std::time::{Clock, Instant};

/// The plug of the key, through a lease that ends here.
fn lease_once(cpu: &mut Cpu<()>, view: &TableView) -> Result<Option<u32>, Exhausted>
    requires { IsCellIn cpu.old.cpu.domain view.now }
    ensures { IfOk result (λ plug. LeasesOnce view.now.cell plug cpu.old cpu.new) }
{
    let mut lease = view.lease(cpu)?;
    let plug = lease.get(cpu, KEY);
    release(lease, cpu);
    Ok(plug)
}

/// The plug of the key, looked up or through a lease.
fn find_plug(cpu: &mut Cpu<()>, view: &TableView, leased: bool) -> Result<Option<u32>, Exhausted>
    requires { IsCellIn cpu.old.cpu.domain view.now }
    ensures { IfOk result (λ plug. Looks leased view.now.cell plug cpu.old cpu.new) }
{
    if leased {
        return lease_once(cpu, view);
    }
    let plug = view.lookup(cpu, KEY)?;
    Ok(plug)
}

/// The same, and the plug has to be that of the key.
fn look_once(cpu: &mut Cpu<()>, view: &TableView, leased: bool) -> Result<(), Miss>
    requires { IsCellIn cpu.old.cpu.domain view.now }
    ensures { IfOk result (λ _. Looks leased view.now.cell (Some 7) cpu.old cpu.new) }
{
    let found = find_plug(cpu, view, leased)?;
    let Some(plug) = found else {
        return Err(Miss::NoPlug);
    };
    if plug == KEY {
        Ok(())
    } else {
        Err(Miss::Found(plug))
    }
}

/// Does so so many times, one behind the other.
fn look_often(cpu: &mut Cpu<()>, view: &TableView, leased: bool, times: u64) -> Result<(), Miss>
    requires { IsCellIn cpu.old.cpu.domain view.now }
    ensures { IfOk result (λ _. LooksOften leased view.now.cell times cpu.old cpu.new) }
{
    for _ in 0..times {
        look_once(cpu, view, leased)?;
    }
    Ok(())
}

/// Does so on this processor.
fn look_here(mut cpu: Cpu<()>, view: &TableView, leased: bool, times: u64) -> Result<Cpu<()>, Miss>
    requires { IsCellIn cpu.cpu.domain view.now }
    ensures { IfOk result (λ last. LooksOften leased view.now.cell times cpu last) }
{
    look_often(&mut cpu, view, leased, times)?;
    Ok(cpu)
}

/// Has each processor do so in a thread of its own.
fn look_together<R: Threads + Sync>(
    rt: &R,
    cpus: Vec<Cpu<()>>,
    view: &TableView,
    leased: bool,
    times: u64,
) -> Result<Vec<Result<Cpu<()>, Miss>>, AllocError>
    requires { All (λ c. IsCellIn c.cpu.domain view.now) cpus.items }
    ensures { IfOk result (λ outcomes. AreOutcomes (LooksOften leased view.now.cell times) cpus.items outcomes.items) }
{
    thread::map_vec(rt, cpus, &|cpu| look_here(cpu, view, leased, times))
}

/// Looks one of fifteen keys up so many times in each of so many threads, or reads it through as many leases. The
/// `elapsed` is what the clock told, of which no clause speaks: from before the first thread's start until all had ended.
pub fn run<R: Threads + Sync + Clock + AllocGlobal>(
    rt: &R,
    threads: usize,
    leased: bool,
    times: u64,
) -> Result<Timed>
    requires { threads ≤ 2 ^ 16 }
    ensures done { IfOk result (λ timed. timed.done ≡ times) }
    ensures looked { IfOk result (λ _. HaveLooked threads leased times) }
{
    let New {
        domain,
        readers,
        mut changer,
        writer,
    } = found(rt.alloc(), threads)?;
    let (mut table, view) = Table::new(writer);
    fill(&domain, &mut changer, &mut table)?;
    let start = Instant::now(rt)?;
    let outcomes = look_together(rt, readers, &view, leased, times)?;
    let elapsed = start.elapsed(rt)?;
    first_error(outcomes.as_slice())?;
    Ok(Timed {
        done: times,
        elapsed,
    })
}
