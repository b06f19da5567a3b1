//! Quiet grace periods: a new domain, and its engine.
ghost use Rattle.std.specs.Prelude.{IfOk};
ghost use Rattle.srcubench.specs.Periods.{HaveEnded};

use crate::periods::{EveryPeriod, make_periods};
use crate::work::Timed;
use anyhow::Result;
use scan::GracePeriods;
use sections::{Limits, Made, make};
use std::time::{Clock, Instant};

/// Makes so many periods in a domain of so many processors in which nobody reads, and answers how many have ended then,
/// by the number of the domain. The `elapsed` is what the clock told, of which no clause speaks.
pub fn run<R: Clock + AllocGlobal>(rt: &R, processors: usize, periods: u64) -> Result<Timed>
    ensures { IfOk result (λ timed. HaveEnded processors periods timed.done) }
{
    let limits = Limits {
        sections: 1,
        periods,
        cells: 0,
        slots: 2,
    };
    let Made {
        mut cpus,
        engine,
        ..
    } = make(rt.alloc(), processors, limits)?;
    let cpu = cpus.pop().unwrap();
    let start = Instant::now(rt)?;
    let mut engine = GracePeriods::new(engine);
    let ended = make_periods(&mut engine, &mut EveryPeriod { cpu }, periods);
    let elapsed = start.elapsed(rt);
    Ok(Timed {
        done: ended?,
        elapsed: elapsed?,
    })
}
