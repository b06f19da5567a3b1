//! Driving grace periods.
ghost use Rattle.std.specs.Prelude.{IfOk, MatchResult};
ghost use Rattle.scan.specs.Standings.{IsWithin};
ghost use Rattle.domain.specs.Views.{IsOf};
ghost use Rattle.domain.specs.Turns.{StepsIn, AdvancesIn, CarriesOnIn, IsRefused, StartsIn, IsNotStarted, SaysOf, SaysAtLast, HasStarted, SaysWhy, SaysWhyNone};

use crate::cpu::Cpu;
use crate::domain::Domain;
use scan::refusals::{AdvanceRefusal, StartRefusal};
use scan::{Pace, Progress};
use sseq::Number;
use std::alloc::Allocator;

impl<J, A: Allocator> Domain<J, A> {
    /// Has the engine make one step (part of `srcu_advance_state`). The processor has then seen what the engine had. A
    /// refusal by the engine puts it back too. `Busy` where another call has the engine: one swap found it taken, and
    /// nothing else was done.
    pub fn step(&self, cpu: &mut Cpu<J, A>) -> Result<Progress, AdvanceRefusal>
        requires { IsOf self.now cpu.old }
        ensures here { IsOf self.now cpu.new }
        ensures steps { MatchResult result (λ answer. StepsIn cpu.old answer cpu.new) (λ refusal. IsRefused cpu.old refusal cpu.new) }
        ensures says { MatchResult result (λ answer. SaysOf self.now answer cpu.old cpu.new) (λ refusal. SaysWhy self.now refusal cpu.old cpu.new) }
        ensures within { IfOk result (λ answer. IsWithin self.now.periods answer) }
    {
        // The engine works with the processor's own seat at the tree: what the processor has seen there is found, and no
        // engine can load the needs of another tree.
        cpu.turn
            .drive(&self.station, &mut cpu.cpu, &mut cpu.needs, Pace::Step)
    }

    /// Has the engine make steps until there is an answer, which is never `Step` (`srcu_advance_state`). The processor
    /// has then seen what the engine had. A refusal by the engine puts it back too. `Busy` is as for [`Domain::step`].
    pub fn advance(&self, cpu: &mut Cpu<J, A>) -> Result<Progress, AdvanceRefusal>
        requires { IsOf self.now cpu.old }
        ensures here { IsOf self.now cpu.new }
        ensures advances { MatchResult result (λ answer. AdvancesIn cpu.old answer cpu.new) (λ refusal. IsRefused cpu.old refusal cpu.new) }
        ensures says { MatchResult result (λ answer. SaysOf self.now answer cpu.old cpu.new) (λ refusal. SaysWhy self.now refusal cpu.old cpu.new) }
        ensures within { IfOk result (λ answer. IsWithin self.now.periods answer) }
    {
        cpu.turn
            .drive(&self.station, &mut cpu.cpu, &mut cpu.needs, Pace::Answer)
    }

    /// Drives grace periods for one turn (`process_srcu`): the engine goes on from answer to answer until it has ended a
    /// period, waits for a section, or has nothing to do, so the answer is `Ended`, `Waiting` or `Idle`. It is out
    /// meanwhile, and is tied and put back once: a quiet period costs two swaps, and not two for each answer. After the end
    /// of a period it is put back, since that may be what another call waits for. Refusals are as for [`Domain::advance`].
    pub fn drive(&self, cpu: &mut Cpu<J, A>) -> Result<Progress, AdvanceRefusal>
        requires { IsOf self.now cpu.old }
        ensures here { IsOf self.now cpu.new }
        ensures drives { MatchResult result (λ answer. CarriesOnIn cpu.old answer cpu.new) (λ refusal. IsRefused cpu.old refusal cpu.new) }
        ensures says { MatchResult result (λ answer. SaysAtLast self.now answer cpu.old cpu.new) (λ refusal. SaysWhy self.now refusal cpu.old cpu.new) }
        ensures within { IfOk result (λ answer. IsWithin self.now.periods answer) }
    {
        cpu.turn
            .drive(&self.station, &mut cpu.cpu, &mut cpu.needs, Pace::Period)
    }

    /// Starts a grace period, whether it is asked for or not, and answers the number from then on (`srcu_gp_start`).
    /// A driver that sleeps wakes and drives it on. The processor has then seen what the engine had. A refusal by the engine
    /// puts it back too. `Busy` is as for [`Domain::step`].
    pub fn start(&self, cpu: &mut Cpu<J, A>) -> Result<Number, StartRefusal>
        requires { IsOf self.now cpu.old }
        ensures here { IsOf self.now cpu.new }
        ensures starts { MatchResult result (λ n. StartsIn cpu.old n cpu.new) (λ refusal. IsNotStarted cpu.old refusal cpu.new) }
        ensures says { MatchResult result (λ n. HasStarted self.now n cpu.old cpu.new) (λ refusal. SaysWhyNone self.now refusal cpu.old cpu.new) }
    {
        let started = cpu.turn.start(&self.station, &mut cpu.cpu);
        // A driver that sleeps until somebody asks would leave the period where it is.
        self.ring();
        started
    }
}
