//! Pairs of `read_lock` and `read_unlock`: a new domain, and a thread for each of its processors.
ghost use Rattle.std.specs.Prelude.{All, IfOk};
ghost use Rattle.srcubench.specs.Pairs.{HasRoom};
ghost use Rattle.srcubench.specs.Readers.{HaveMadeAll, AreReadersOfOne};

use crate::pairs::{Reader, make_all_pairs};
use anyhow::Result;
use sections::{Cpu, Limits, Made, make};
use std::alloc::{AllocError, Allocator};
use std::thread;
use std::thread::Threads;
use std::time::{Clock, Duration, Instant};

/// What threads did that were started together.
#[derive(Drop)]
pub struct Trial {
    /// The processor of each of them.
    pub readers: Vec<Reader>,
    /// From before the first one's start until all had ended.
    pub elapsed: Duration,
}

/// Has each processor make so many pairs in a thread of its own.
fn make_at_once<R: Threads + Sync>(
    rt: &R,
    cpus: Vec<Cpu>,
    pairs: u64,
) -> Result<Vec<Reader>, AllocError>
    requires { All (HasRoom pairs) cpus.items }
    ensures { IfOk result (λ readers. HaveMadeAll pairs cpus.items readers.items) }
{
    thread::map_vec(rt, cpus, &|cpu| make_all_pairs(cpu, pairs))
}

/// Makes so many pairs in each of the threads. Its `elapsed` is what the clock told, of which no clause speaks.
pub fn run<R: Threads + Sync + Clock + AllocGlobal>(
    rt: &R,
    threads: usize,
    pairs: u64,
) -> Result<Trial>
    ensures { IfOk result (λ trial. AreReadersOfOne threads pairs trial.readers.items) }
{
    let limits = Limits {
        sections: pairs,
        periods: 1,
        cells: 0,
        slots: 2,
    };
    let Made { cpus, .. } = make(rt.alloc(), threads, limits)?;
    let start = Instant::now(rt)?;
    let readers = make_at_once(rt, cpus, pairs)?;
    let elapsed = start.elapsed(rt)?;
    Ok(Trial { readers, elapsed })
}
