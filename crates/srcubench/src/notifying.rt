//! Calls of a notifier chain: a thread for each of a domain's readers, in which handlers are called that do nothing.
ghost use Rattle.std.specs.Prelude.{◌≡◌, ◌^◌, ◌≤◌, All, length, IfOk};
ghost use Rattle.domain.specs.Views.{IsOf};
ghost use Rattle.shelf.specs.Cells.{IsCellIn, cell_of};
ghost use Rattle.srcubench.specs.Calling.{AreOutcomes};
ghost use Rattle.srcubench.specs.Chaining.{CallsOnce, CallsOften, RegistersAndCalls, HaveCalled};
ghost use Rattle.srcubench.specs.Founding.{EachBecomes};

use crate::callbacks::first_error;
use crate::founding::{New, found};
use crate::miss::Miss;
use crate::registering::register_all;
use crate::work::Timed;
use anyhow::Result;
use domain::{Cpu, Domain, Writer};
use notify::{Chain, ChainView, Handler, OK};
use std::alloc::{AllocError, Global};
use std::thread;
use std::thread::Threads;
use std::time::{Clock, Instant};

/// A handler that does nothing but answer OK.
#[derive(Clone, Copy, Drop)]
struct Idle;

impl Handler for Idle {
    ghost use Rattle.std.specs.Prelude.{◌≡◌};

    ghost answers = { λ h action value result. result ≡ 1 };

    fn call(&self, _action: u64, _value: u64) -> u32 {
        OK
    }
}

/// Calls the chain. So many handlers have to be called, and the last one has to answer OK.
fn call_once(
    cpu: &mut Cpu<()>,
    view: &ChainView,
    handlers: &[Box<dyn Handler>],
    blocks: u64,
) -> Result<(), Miss>
    requires cell { IsCellIn cpu.old.cpu.domain view.now.place }
    requires handlers { view.now.ids ≤ length handlers.now }
    ensures { IfOk result (λ _. CallsOnce blocks view.now cpu.old cpu.new) }
{
    let (last, count) = view.call_chain(cpu, handlers, 0, 0)?;
    if last == OK && count == blocks {
        Ok(())
    } else {
        Err(Miss::Called { last, count })
    }
}

/// Does so so many times, one behind the other.
fn call_often(
    cpu: &mut Cpu<()>,
    view: &ChainView,
    handlers: &[Box<dyn Handler>],
    blocks: u64,
    times: u64,
) -> Result<(), Miss>
    requires cell { IsCellIn cpu.old.cpu.domain view.now.place }
    requires handlers { view.now.ids ≤ length handlers.now }
    ensures { IfOk result (λ _. CallsOften blocks view.now times cpu.old cpu.new) }
{
    for _ in 0..times {
        call_once(cpu, view, handlers, blocks)?;
    }
    Ok(())
}

/// Does so on this processor, with so many handlers of its own.
fn call_here(
    alloc: Global,
    mut cpu: Cpu<()>,
    view: &ChainView,
    blocks: u64,
    times: u64,
) -> Result<Cpu<()>, Miss>
    requires cell { IsCellIn cpu.cpu.domain view.now.place }
    requires ids { view.now.ids ≡ blocks }
    ensures { IfOk result (λ last. CallsOften blocks view.now times cpu last) }
{
    let mut handlers: Vec<Box<dyn Handler>> = Vec::new(alloc);
    for _ in 0..blocks {
        handlers.push(Box::new(alloc, Idle)?)?;
    }
    call_often(&mut cpu, view, &handlers, blocks, times)?;
    Ok(cpu)
}

/// Has each processor do so in a thread of its own.
fn call_together<R: Threads + Sync>(
    rt: &R,
    alloc: Global,
    cpus: Vec<Cpu<()>>,
    view: &ChainView,
    blocks: u64,
    times: u64,
) -> Result<Vec<Result<Cpu<()>, Miss>>, AllocError>
    requires cell { All (λ c. IsCellIn c.cpu.domain view.now.place) cpus.items }
    requires ids { view.now.ids ≡ blocks }
    ensures { IfOk result (λ outcomes. AreOutcomes (CallsOften blocks view.now times) cpus.items outcomes.items) }
{
    thread::map_vec(rt, cpus, &|cpu| call_here(alloc, cpu, view, blocks, times))
}

/// The same. The `elapsed` is what the clock told, of which no clause speaks: from before the first thread's start until all
/// had ended.
fn time_calls<R: Threads + Sync + Clock + AllocGlobal>(
    rt: &R,
    cpus: Vec<Cpu<()>>,
    view: &ChainView,
    blocks: u64,
    times: u64,
) -> Result<Timed>
    requires cell { All (λ c. IsCellIn c.cpu.domain view.now.place) cpus.items }
    requires ids { view.now.ids ≡ blocks }
    ensures done { IfOk result (λ timed. timed.done ≡ times) }
    ensures called { IfOk result (λ _. EachBecomes (CallsOften blocks view.now times) cpus.items) }
{
    let start = Instant::now(rt)?;
    let outcomes = call_together(rt, rt.alloc(), cpus, view, blocks, times)?;
    let elapsed = start.elapsed(rt)?;
    first_error(outcomes.as_slice())?;
    Ok(Timed {
        done: times,
        elapsed,
    })
}

/// The same, once so many blocks are registered in the writer's cell.
fn register_and_call<R: Threads + Sync + Clock + AllocGlobal>(
    rt: &R,
    domain: &Domain<()>,
    cpus: Vec<Cpu<()>>,
    changer: &mut Cpu<()>,
    writer: Writer,
    blocks: u64,
    times: u64,
) -> Result<Timed>
    requires here { IsOf domain.now changer.old }
    requires writer { writer.domain ≡ domain.now.domain }
    requires cell { All (λ c. IsCellIn c.cpu.domain (cell_of writer)) cpus.items }
    requires blocks { blocks ≤ 15 }
    ensures done { IfOk result (λ timed. timed.done ≡ times) }
    ensures called { IfOk result (λ _. RegistersAndCalls blocks times writer changer.old cpus.items) }
{
    let (mut chain, view) = Chain::new(writer, blocks);
    register_all(domain, changer, &mut chain, blocks)?;
    time_calls(rt, cpus, &view, blocks, times)
}

/// Calls a chain of so many blocks so many times in each of so many threads, in a new domain.
pub fn run<R: Threads + Sync + Clock + AllocGlobal>(
    rt: &R,
    threads: usize,
    blocks: u64,
    times: u64,
) -> Result<Timed>
    requires threads { threads ≤ 2 ^ 16 }
    requires blocks { blocks ≤ 15 }
    ensures done { IfOk result (λ timed. timed.done ≡ times) }
    ensures called { IfOk result (λ _. HaveCalled threads blocks times) }
{
    let New {
        domain,
        readers,
        mut changer,
        writer,
    } = found(rt.alloc(), threads)?;
    register_and_call(rt, &domain, readers, &mut changer, writer, blocks, times)
}
