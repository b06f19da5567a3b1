//! Two jobs that wait for a section, and are taken by hand.
ghost use Rattle.std.specs.Prelude.{◌<◌};
ghost use Rattle.domain.specs.Views.{IsOf};

use crate::periods::Advanced;
use anyhow::Result;
use domain::{Cpu, Domain};
use std::sync::Wait;

/// How many jobs were run, and their digits in the order in which they came.
type Ran = (usize, u64);

/// Takes the jobs of a processor that are ready, and runs them: each one's digit is written behind the others.
fn run_ready<R: Wait>(
    rt: &R,
    domain: &Domain<u64>,
    cpu: &mut Cpu<u64>,
    processor: u16,
) -> Result<Ran>
    requires domain { IsOf domain.now cpu.old }
    requires processor { processor < domain.now.processors }
    ensures { IsOf domain.now cpu.new }
{
    let Some(mut batch) = domain.take_ready(rt, cpu, processor, 8)? else { // srcu_invoke_callbacks, by a thread of yours
        return Ok((0, 0)); // nothing is ready here
    };
    let count = batch.count(); // from 1 to 8
    let mut digits: u64 = 0;
    while let Some(job) = batch.next() {
        digits = digits.wrapping_mul(10).wrapping_add(job); // each job once, the first one first
    }
    domain.finish(rt, cpu, batch); // code that loses a batch, or finishes one with jobs left in it, is refused

    Ok((count, digits))
}

/// What is told of two jobs that are queued while a section is open: whether both were queued, what the period's turns
/// answer, and what ran while the section was open, once it was closed and the period had ended, and behind that.
fn run_round_a_section<R: Wait>(
    rt: &R,
    domain: &Domain<u64>,
    reader: &mut Cpu<u64>,
    updater: &mut Cpu<u64>,
) -> Result<([bool; 2], [Advanced; 4], [Ran; 3])>
    requires reader { IsOf domain.now reader.old }
    requires updater { IsOf domain.now updater.old }
    ensures reader { IsOf domain.now reader.new }
    ensures updater { IsOf domain.now updater.new }
{
    let processor = updater.processor();
    let section = reader.read_lock()?;
    let first = domain.call(rt, updater, 1).is_ok();
    let second = domain.call(rt, updater, 2).is_ok();
    let started = domain.advance(updater);
    let flipped = domain.advance(updater);
    let waiting = domain.advance(updater);
    let early = run_ready(rt, domain, updater, processor);
    reader.read_unlock(section);
    let ended = domain.advance(updater);
    let late = run_ready(rt, domain, updater, processor)?;
    let again = run_ready(rt, domain, updater, processor)?;
    Ok((
        [first, second],
        [started, flipped, waiting, ended],
        [early?, late, again],
    ))
}

/// Prints what `run_round_a_section` answers.
pub fn show<R: Print + Wait>(
    rt: &R,
    domain: &Domain<u64>,
    reader: &mut Cpu<u64>,
    updater: &mut Cpu<u64>,
) -> Result<()>
    requires reader { IsOf domain.now reader.old }
    requires updater { IsOf domain.now updater.old }
    ensures reader { IsOf domain.now reader.new }
    ensures updater { IsOf domain.now updater.new }
{
    let (queued, steps, [early, late, again]) = run_round_a_section(rt, domain, reader, updater)?;
    println!(rt; "two jobs queued within a section: {queued:?}")?;
    println!(rt; "the period that they wait for: {steps:?}")?;
    println!(rt;
        "jobs that ran, and their digits: {early:?} within it, {late:?} behind it, and then {again:?}"
    )?;
    Ok(())
}
