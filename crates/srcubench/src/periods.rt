//! The loop of quiet grace periods that is measured.
ghost use Rattle.std.specs.Prelude.{◌≡◌, MatchResult};
ghost use Rattle.onedom.specs.Histories.{ended_in};
ghost use Rattle.scan.specs.Progress.{at_work};
ghost use Rattle.srcubench.specs.Needed.{LoadsOnce};
ghost use Rattle.srcubench.specs.Periods.{AnswersTo, CarriesPeriod, IsHeldUp, CarriesPeriods, StopsBefore};

use scan::{GracePeriods, Pace, PeriodsExhausted, Progress};
use sections::Cpu;
use sseq::{Needs, Number, completed};
use std::alloc::Allocator;
use std::error::Error;
use std::fmt;

/// Asks for every grace period that there may be. Each load of the need is a load of the index word by a processor
/// that does nothing else: it stands for the load of the word that a domain keeps its need in.
#[derive(Drop)]
pub struct EveryPeriod {
    pub cpu: Cpu,
}

impl Needs for EveryPeriod {
    ghost loads = { λ a found b. LoadsOnce found a.cpu b.cpu };

    fn root_need(&mut self) -> Number {
        self.cpu.look();
        Number::new(Number::MAX).unwrap()
    }
}

/// What the engine answered in place of what comes next where nobody reads.
#[derive(Clone, Copy, Debug, PartialEq, Eq)]
pub enum Stop {
    /// As many periods have ended as there may be.
    Exhausted,
    /// Something else.
    Answered(Progress),
}

impl fmt::Display for Stop {
    fn fmt<W: fmt::Write>(&self, f: &mut fmt::Formatter<W>) -> fmt::Result {
        match self {
            Stop::Exhausted => write!(f, "{PeriodsExhausted}"),
            Stop::Answered(other) => write!(f, "the engine answered {other:?}"),
        }
    }
}

impl Error for Stop {}

fn answer<A: Allocator>(
    engine: &mut GracePeriods<A>,
    needs: &mut EveryPeriod,
) -> Result<Progress, Stop>
    ensures { AnswersTo (at_work needs.old engine.old) result (at_work needs.new engine.new) }
{
    match engine.drive(needs, Pace::Answer) {
        Ok(answer) => Ok(answer),
        Err(PeriodsExhausted) => Err(Stop::Exhausted),
    }
}

/// Has the engine carry one grace period from its start to its end, and answers the number from then on.
fn make_period<A: Allocator>(
    engine: &mut GracePeriods<A>,
    needs: &mut EveryPeriod,
) -> Result<Number, Stop>
    ensures { MatchResult result (λ number. CarriesPeriod (at_work needs.old engine.old) number (at_work needs.new engine.new)) (λ stop. IsHeldUp (at_work needs.old engine.old) stop (at_work needs.new engine.new)) }
{
    match answer(engine, needs)? {
        Progress::Started(_) => {}
        other => return Err(Stop::Answered(other)),
    }
    match answer(engine, needs)? {
        Progress::Flipped(_) => {}
        other => return Err(Stop::Answered(other)),
    }
    match answer(engine, needs)? {
        Progress::Ended(number) => Ok(number),
        other => Err(Stop::Answered(other)),
    }
}

/// Has the engine carry so many grace periods, one behind the other, in a domain in which none has ended, and answers
/// how many have ended then, by the number of the domain.
pub fn make_periods<A: Allocator>(
    engine: &mut GracePeriods<A>,
    needs: &mut EveryPeriod,
    periods: u64,
) -> Result<u64, Stop>
    requires rests { engine.old.so_far ≡ 0 }
    requires new { ended_in engine.old.seat.seen ≡ 0 }
    ensures { MatchResult result (λ ended. CarriesPeriods periods (at_work needs.old engine.old) ended (at_work needs.new engine.new)) (λ stop. StopsBefore periods (at_work needs.old engine.old) stop (at_work needs.new engine.new)) }
{
    let mut ended = 0;
    for _ in 0..periods {
        ended = completed(make_period(engine, needs)?);
    }
    Ok(ended)
}
