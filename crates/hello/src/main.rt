//! Two threads at one domain: one queues jobs, and the other runs each of them after its grace period.
#![tactic(auto)]

ghost use Rattle.std.specs.Prelude.{◌≡◌};

mod ports;

use anyhow::Result;
use srcu::{Refusal, Stop, Team, WIDEST, Worker, make};
use std::sync::Wait;
use std::thread::{Threads, join};

/// Queues the jobs 1, 2 and 3, and tells the driver to stop once they are run. Returns whether each was queued.
fn queue<R: Wait>(rt: &R, mut worker: Worker<'_, u64>, stop: &Stop<u64>) -> bool
    requires { stop.now.domain ≡ worker.domain }
{
    let mut queued = true;
    for job in 1..4 {
        queued &= worker.call(rt, job).is_ok(); // call_srcu
    }
    worker.tell(rt, stop);
    queued
}

/// Runs jobs until it is told to stop. Returns their digits, in order.
fn work<R: Wait>(rt: &R, mut worker: Worker<'_, u64>, stop: &Stop<u64>) -> u64
    requires { stop.now.domain ≡ worker.domain }
{
    let mut digits: u64 = 0;
    let _ = worker.serve(rt, stop, |job: u64| {
        digits = digits.wrapping_mul(10).wrapping_add(job);
    });
    digits
}

/// Both at once. Where no thread can be started, the driver runs last.
fn at_once<R: Wait + Threads + Sync>(
    rt: &R,
    mut team: Team<'_, u64>,
    stop: &Stop<u64>,
) -> Result<(bool, u64), Refusal>
    requires { stop.now.domain ≡ team.domain }
{
    let first = team.worker().ok_or(Refusal::NoWorker)?;
    let second = team.worker().ok_or(Refusal::NoWorker)?;
    let (ran, queued) = join(rt, || work(rt, second, stop), || queue(rt, first, stop));
    Ok((queued, ran))
}

/// The same at a new domain.
fn run<R: Wait + Threads + AllocGlobal + Sync>(rt: &R) -> Result<(bool, u64), Refusal> {
    let (domain, cpus, writers) = make(rt.alloc(), 2, WIDEST)?; // init_srcu_struct
    let stop = Stop::new(rt.alloc(), &domain)?;
    at_once(rt, Team::new(&domain, cpus, writers), &stop)
}

fn main(rt: HostRuntime) -> Result<()> {
    let (queued, digits) = run(&rt)?;
    println!(rt; "queued: {queued}, ran: {digits}")?;
    let (first, second) = ports::look(&rt)?;
    println!(rt; "open: {first}, then: {second}")?;
    Ok(())
}
