//! A grace period that is driven ends.
ghost use Rattle.std.specs.Prelude.{MatchResult};
ghost use Rattle.domain.specs.Views.{IsOf, IsSameProcessor};
ghost use Rattle.laws.specs.Driving.{DrivesTo, IsCutShort, DrivingLeavesWhole, TurnsAreShort, LaterTurnsEnd, RunningPeriodsEnd};

use domain::{AdvanceRefusal, Cpu, Domain, Progress, Reading};
use std::alloc::Allocator;

/// Drives a grace period to its end: one turn of the engine, and another one if the first had to wait. The first may
/// wait for a section that was open before the call. The second waits only for one that was open after it had begun its
/// scan. So whoever drives alone, once the last such section is closed, gets `Ended` within these two turns. In a turn the
/// engine makes at most 4P + 5 atomic steps, with P processors. `Idle` if no period runs and none is asked for.
///
/// If another seat had the engine between the two turns, the second may find anything.
pub fn drive_to_the_end<J, A: Allocator>(
    domain: &Domain<J, A>,
    cpu: &mut Cpu<J, A>,
) -> Result<Progress, AdvanceRefusal>
    requires { IsOf domain.now cpu.old }
    ensures here { IsOf domain.now cpu.new }
    ensures same { IsSameProcessor cpu.old cpu.new }
    ensures ends { MatchResult result (λ answer. DrivesTo domain.now answer cpu.old cpu.new) (λ refusal. IsCutShort domain.now refusal cpu.old cpu.new) }
{
    let answer = domain.drive(cpu)?;
    match answer {
        Progress::Waiting(_) => domain.drive(cpu),
        _ => Ok(answer),
    }
}

/// The same while a section of another domain is open. It is lent, so no caller can end it before this returns, and it
/// holds nothing up: what the second turn waits for is a section in this domain's own history.
pub fn drive_beside<J, A: Allocator>(
    _stuck: &Reading,
    domain: &Domain<J, A>,
    cpu: &mut Cpu<J, A>,
) -> Result<Progress, AdvanceRefusal>
    requires { IsOf domain.now cpu.old }
    ensures here { IsOf domain.now cpu.new }
    ensures same { IsSameProcessor cpu.old cpu.new }
    ensures ends { MatchResult result (λ answer. DrivesTo domain.now answer cpu.old cpu.new) (λ refusal. IsCutShort domain.now refusal cpu.old cpu.new) }
{
    drive_to_the_end(domain, cpu)
}

/// What holds of two calls in a row that drive, made by one processor, that was not at the engine's place in between: `drive`, and also
/// each turn of [`Domain::synchronize`] and of a driver. The call does nothing.
///
/// `advance`, `drive` and `start` leave nothing half done. No turn makes more steps than a whole period takes. If no
/// other seat had the engine since, a later turn waits only for a section of the index that its scan looks at, open after
/// the scan began and after all that was seen before. And if a period runs, that turn goes on with it: a flip is the only
/// answer before its last one, in at most 4P + 3 steps.
pub fn turns_in_a_row<J>()
    ensures whole { DrivingLeavesWhole J }
    ensures short { TurnsAreShort J }
    ensures later { LaterTurnsEnd J }
    ensures running { RunningPeriodsEnd J }
{}
