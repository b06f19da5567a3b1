//! Driving the engine from its place: a swap that finds it, its work, a tie, and a swap that leaves it.
ghost use Rattle.std.specs.Prelude.{◌≡◌, true, false, IfOk, MatchResult};
ghost use Rattle.desk.specs.BayCalls.{holds};
ghost use Rattle.scan.specs.Progress.{Paces, StepsTo, AdvancesTo, StartsTo, at_work};
ghost use Rattle.scan.specs.Stations.{IsOfStation, IsWithinLimit, FindsBusy, GivesBack, Turns, Drives, IsNotDriven, IsNotStarted};

use super::Station;
use super::seat::StationSeat;
use crate::grace_periods::GracePeriods;
use crate::progress::{Pace, PeriodsExhausted, Progress};
use crate::refusals::{AdvanceRefusal, Busy, StartRefusal};
use desk::Task;
use sections::Cpu;
use sseq::{Needs, Number};
use std::alloc::Allocator;

/// A turn at this pace. The engine is tied behind its work, so that the processor has seen all that it made. An engine
/// that was tied before would lie there with a change that no processor has seen.
impl<A: Allocator, N: Needs> Task<GracePeriods<A>, Cpu<A>, N, Result<Progress, PeriodsExhausted>>
    for Pace {
    ghost may = { λ _ engine cpu _. cpu.domain ≡ engine.seat.domain };

    ghost gives = { Turns N.loads };

    fn run(
        self,
        engine: &mut GracePeriods<A>,
        cpu: &mut Cpu<A>,
        needs: &mut N,
    ) -> Result<Progress, PeriodsExhausted> {
        let answer = engine.drive(needs, self);
        engine.tie(cpu);
        answer
    }
}

impl<A: Allocator> StationSeat<A> {
    /// Ties the engine to the processor and puts it back.
    fn give_back(&mut self, station: &Station<A>, cpu: &mut Cpu<A>, mut engine: GracePeriods<A>)
        requires station { self.old.bay ≡ station.now.bay }
        requires held { holds self.old ≡ true }
        requires domain { (engine.seat.domain ≡ cpu.old.domain) × (engine.seat.domain ≡ self.old.domain) }
        requires size { IsOfStation self.old engine }
        ensures back { GivesBack self.old cpu.old engine self.new cpu.new }
        ensures free { holds self.new ≡ false }
    {
        engine.tie(cpu);
        self.put(station, engine);
    }

    /// Has the engine go on at this pace (`srcu_advance_state`), with these needs. The processor has then seen what the
    /// engine had. A refusal puts the engine back too. Where another seat has the engine the answer is `Busy`, and
    /// nothing was done but the swap that found the place empty.
    pub fn drive<N: Needs>(
        &mut self,
        station: &Station<A>,
        cpu: &mut Cpu<A>,
        needs: &mut N,
        pace: Pace,
    ) -> Result<Progress, AdvanceRefusal>
        requires station { self.old.bay ≡ station.now.bay }
        requires free { holds self.old ≡ false }
        requires cpu { cpu.old.domain ≡ self.old.domain }
        ensures free { holds self.new ≡ false }
        ensures drives { MatchResult result
            (λ answer. Drives (λ v w. Paces N.loads pace (at_work needs.old v) answer (at_work needs.new w)) self.old cpu.old self.new cpu.new)
            (λ refusal. IsNotDriven N.loads refusal self.old cpu.old needs.old self.new cpu.new needs.new) }
        ensures within { IfOk result (λ answer. IsWithinLimit self.old answer) }
    {
        let Some(answer) = self.seat.work(&station.bay, cpu, needs, pace) else {
            return Err(AdvanceRefusal::Busy);
        };
        Ok(answer?)
    }

    /// Has the engine make one step (part of `srcu_advance_state`). Else it is as [`StationSeat::drive`].
    pub fn step<N: Needs>(
        &mut self,
        station: &Station<A>,
        cpu: &mut Cpu<A>,
        needs: &mut N,
    ) -> Result<Progress, AdvanceRefusal>
        requires station { self.old.bay ≡ station.now.bay }
        requires free { holds self.old ≡ false }
        requires cpu { cpu.old.domain ≡ self.old.domain }
        ensures free { holds self.new ≡ false }
        ensures steps { MatchResult result
            (λ answer. Drives (λ v w. StepsTo N.loads (at_work needs.old v) answer (at_work needs.new w)) self.old cpu.old self.new cpu.new)
            (λ refusal. IsNotDriven N.loads refusal self.old cpu.old needs.old self.new cpu.new needs.new) }
        ensures within { IfOk result (λ answer. IsWithinLimit self.old answer) }
    {
        self.drive(station, cpu, needs, Pace::Step)
    }

    /// Has the engine make steps until there is an answer, which is never `Step` (`srcu_advance_state`). Else it is as
    /// [`StationSeat::drive`].
    pub fn advance<N: Needs>(
        &mut self,
        station: &Station<A>,
        cpu: &mut Cpu<A>,
        needs: &mut N,
    ) -> Result<Progress, AdvanceRefusal>
        requires station { self.old.bay ≡ station.now.bay }
        requires free { holds self.old ≡ false }
        requires cpu { cpu.old.domain ≡ self.old.domain }
        ensures free { holds self.new ≡ false }
        ensures advances { MatchResult result
            (λ answer. Drives (λ v w. AdvancesTo N.loads (at_work needs.old v) answer (at_work needs.new w)) self.old cpu.old self.new cpu.new)
            (λ refusal. IsNotDriven N.loads refusal self.old cpu.old needs.old self.new cpu.new needs.new) }
        ensures within { IfOk result (λ answer. IsWithinLimit self.old answer) }
    {
        self.drive(station, cpu, needs, Pace::Answer)
    }

    /// Starts a grace period, whether it is asked for or not, and answers the number from then on (`srcu_gp_start`). The
    /// processor has then seen what the engine had. A refusal puts the engine back too. `Busy` is as for
    /// [`StationSeat::drive`].
    pub fn start(&mut self, station: &Station<A>, cpu: &mut Cpu<A>) -> Result<Number, StartRefusal>
        requires station { self.old.bay ≡ station.now.bay }
        requires free { holds self.old ≡ false }
        requires cpu { cpu.old.domain ≡ self.old.domain }
        ensures free { holds self.new ≡ false }
        ensures starts { MatchResult result
            (λ n. Drives (λ v w. StartsTo v n w) self.old cpu.old self.new cpu.new)
            (λ refusal. IsNotStarted refusal self.old cpu.old self.new cpu.new) }
    {
        let Some(mut engine) = self.take(station) else {
            return Err(StartRefusal::Busy);
        };
        let answer = engine.start();
        self.give_back(station, cpu, engine);
        Ok(answer?)
    }

    /// Ties the engine to this processor: both have then seen one history. `Busy` is as for [`StationSeat::drive`].
    pub fn tie(&mut self, station: &Station<A>, cpu: &mut Cpu<A>) -> Result<(), Busy>
        requires station { self.old.bay ≡ station.now.bay }
        requires free { holds self.old ≡ false }
        requires cpu { cpu.old.domain ≡ self.old.domain }
        ensures free { holds self.new ≡ false }
        ensures ties { MatchResult result
            (λ _. Drives (λ v w. w ≡ v) self.old cpu.old self.new cpu.new)
            (λ _. FindsBusy self.old self.new × (cpu.new ≡ cpu.old)) }
    {
        let Some(engine) = self.take(station) else {
            return Err(Busy);
        };
        self.give_back(station, cpu, engine);
        Ok(())
    }
}
