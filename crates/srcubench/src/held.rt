//! Held sections that begin on one processor and end on another.
ghost use Rattle.std.specs.Prelude.{◌≡◌, ◌⊎◌, IfOk};
ghost use Rattle.srcubench.specs.Held.{MakesHeldPairs, HaveMadeHeldPairs};
ghost use Rattle.srcubench.specs.Pairs.{AllMade, StopsEarly};

use crate::work::Timed;
use anyhow::Result;
use sections::{Cpu, Limits, Made, make};
use std::alloc::Allocator;
use std::time::{Clock, Instant};

/// Begins so many held sections on the first processor, and ends each on the second one before the next one begins. It
/// answers how many: all of them, unless so many sections of an index were begun on the first that no more may be.
pub fn make_held_pairs<A: Allocator>(first: &mut Cpu<A>, second: &mut Cpu<A>, pairs: u64) -> u64
    requires { second.old.domain ≡ first.old.domain }
    ensures made { MakesHeldPairs result first.old second.old first.new second.new }
    ensures all { AllMade pairs result first.old first.new ⊎ StopsEarly pairs result first.old first.new }
{
    for made in 0..pairs {
        match first.down_read() {
            Ok(held) => second.up_read(held),
            Err(_) => return made,
        }
    }
    pairs
}

/// Makes so many held sections in one thread and a domain of two processors. The `elapsed` is what the clock told, of
/// which no clause speaks.
pub fn run<R: Clock + AllocGlobal>(rt: &R, pairs: u64) -> Result<Timed>
    ensures made { IfOk result (λ timed. timed.done ≡ pairs) }
    ensures pairs { IfOk result (λ _. HaveMadeHeldPairs pairs) }
{
    let limits = Limits {
        sections: pairs,
        periods: 1,
        cells: 0,
        slots: 2,
    };
    let Made { mut cpus, .. } = make(rt.alloc(), 2, limits)?;
    let mut second = cpus.pop().unwrap();
    let mut first = cpus.pop().unwrap();
    let start = Instant::now(rt)?;
    let made = make_held_pairs(&mut first, &mut second, pairs);
    let elapsed = start.elapsed(rt)?;
    Ok(Timed {
        done: made,
        elapsed,
    })
}
