//! What the calls for sections, cookies, grace periods and callbacks answer, one by one, in one thread.
#![tactic(auto)]

ghost use Rattle.std.specs.Prelude.{◌≡◌, vec_len, All, IfOk};
ghost use Rattle.domain.specs.Views.{IsOf};

mod jobs;
mod periods;
mod readers;
mod sets;

use anyhow::Result;
use domain::{Cpu, Domain, Limits, MakeError};
use std::alloc::Global;
use std::sync::Wait;

const LIMITS: Limits = Limits {
    sections: Limits::MOST_SECTIONS,
    periods: Limits::MOST_PERIODS,
    cells: 0, // nothing is replaced here
    slots: 2,
};

/// The two processors of a domain, apart.
fn apart(domain: &Domain<u64>, mut cpus: Vec<Cpu<u64>>) -> (Cpu<u64>, Cpu<u64>)
    requires two { vec_len cpus ≡ 2 }
    requires all { All (IsOf domain.now) cpus.items }
    ensures { IsOf domain.now result.0 × IsOf domain.now result.1 }
{
    let second = cpus.pop().unwrap();
    let first = cpus.pop().unwrap();
    (first, second)
}

/// A domain whose jobs are numbers, and its two processors.
fn pair(alloc: Global) -> Result<(Domain<u64>, Cpu<u64>, Cpu<u64>), MakeError>
    ensures { IfOk result (λ r. IsOf r.0 r.1 × IsOf r.0 r.2) }
{
    let (domain, cpus, _) = Domain::new(alloc, 2, LIMITS)?;
    let (first, second) = apart(&domain, cpus);
    Ok((domain, first, second))
}

/// Prints what all of them answer. The order counts: the numbers of periods go on from one part to the next, and the last
/// part leaves a period running.
fn show<R: Print + Wait>(
    rt: &R,
    domain: &Domain<u64>,
    first: &mut Cpu<u64>,
    second: &mut Cpu<u64>,
) -> Result<()>
    requires first { IsOf domain.now first.old }
    requires second { IsOf domain.now second.old }
{
    readers::show(rt, domain, first, second)?;
    periods::show_numbers(rt, second)?;
    periods::show_cookie(rt, domain, first, second)?;
    jobs::show(rt, domain, first, second)?;
    periods::show_by_hand(rt, domain, first, second)
}

/// The same at a new domain.
fn run<R: Print + Wait + AllocGlobal>(rt: &R) -> Result<()> {
    let (domain, mut first, mut second) = pair(rt.alloc())?;
    show(rt, &domain, &mut first, &mut second)
}

fn main(rt: HostRuntime) -> Result<()> {
    run(&rt)?;
    sets::show(&rt)
}
