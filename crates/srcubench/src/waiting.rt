//! Grace periods that several threads wait for at once: each on a processor of its own of one domain, in which nobody reads.
ghost use Rattle.std.specs.Prelude.{◌≡◌, All, IfOk};
ghost use Rattle.domain.specs.Views.{IsOf};
ghost use Rattle.domain.specs.Waiting.{HasNoneOpen};
ghost use Rattle.srcubench.specs.Calling.{AreOutcomes};
ghost use Rattle.srcubench.specs.Driving.{WaitsAll};
ghost use Rattle.srcubench.specs.Waiting.{HaveWaitedAtOnce};

use crate::callbacks::{LIMITS, first_error};
use crate::driving::wait_often;
use crate::work::Timed;
use anyhow::Result;
use domain::{Cpu, Domain, PeriodsExhausted};
use std::alloc::AllocError;
use std::sync::Wait;
use std::thread;
use std::thread::Threads;
use std::time::{Clock, Instant};

/// Waits so many times on this processor, one behind the other.
fn wait_here<R: Wait>(
    rt: &R,
    domain: &Domain<()>,
    mut cpu: Cpu<()>,
    times: u64,
) -> Result<Cpu<()>, PeriodsExhausted>
    requires domain { IsOf domain.now cpu }
    requires none { HasNoneOpen cpu }
    ensures { IfOk result (λ last. WaitsAll times cpu last) }
{
    wait_often(rt, domain, &mut cpu, times)?;
    Ok(cpu)
}

/// Has each processor do so in a thread of its own.
fn wait_together<R: Threads + Sync + Wait>(
    rt: &R,
    domain: &Domain<()>,
    cpus: Vec<Cpu<()>>,
    times: u64,
) -> Result<Vec<Result<Cpu<()>, PeriodsExhausted>>, AllocError>
    requires { All (λ c. IsOf domain.now c × HasNoneOpen c) cpus.items }
    ensures { IfOk result (λ outcomes. AreOutcomes (WaitsAll times) cpus.items outcomes.items) }
{
    thread::map_vec(rt, cpus, &|cpu| wait_here(rt, domain, cpu, times))
}

/// Waits so many times in each of so many threads. The `elapsed` is what the clock told, of which no clause speaks: from
/// before the first thread's start until all had ended.
pub fn run<R: Threads + Sync + Wait + Clock + AllocGlobal>(
    rt: &R,
    threads: usize,
    times: u64,
) -> Result<Timed>
    ensures done { IfOk result (λ timed. timed.done ≡ times) }
    ensures waited { IfOk result (λ _. HaveWaitedAtOnce threads times) }
{
    let (domain, cpus, _) = Domain::<()>::new(rt.alloc(), threads, LIMITS)?;
    let start = Instant::now(rt)?;
    let outcomes = wait_together(rt, &domain, cpus, times)?;
    let elapsed = start.elapsed(rt)?;
    first_error(outcomes.as_slice())?;
    Ok(Timed {
        done: times,
        elapsed,
    })
}
