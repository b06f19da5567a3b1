//! The engine.
ghost use Rattle.std.specs.Prelude.{◌≡◌, [], MatchResult};
ghost use Rattle.sections.specs.EngineCalls.{IsTied, TiesEngine};
ghost use Rattle.scan.specs.Progress.{StepsTo, AdvancesTo, FindsExhausted, StartsTo, IsNoStart, at_work, rested, new_engine, with_seat};

use crate::grace_periods::GracePeriods;
use crate::progress::{NotStarted, Pace, PeriodsExhausted, Progress};
use sections::{Cpu, EngineSeat};
use sseq::{Needs, Number};
use std::alloc::{Allocator, Global};
use std::marker::Model;

/// What carries the grace periods of a domain, with needs of its own, which tell which grace period is asked for. Contracts
/// see its seat, its needs, and what it knows of what is half done.
#[derive(Drop)]
pub struct Engine<N: Needs, A: Allocator = Global> {
    periods: GracePeriods<A>,
    needs: N,
}

impl<N: Needs, A: Allocator> Model for Engine<N, A> {
    ghost use Rattle.scan.specs.Progress.{AtWork};

    ghost Value = { AtWork N };

    ghost use Rattle.scan.specs.Insides.{view_of_engine};

    ghost view = { view_of_engine };
}

impl<N: Needs, A: Allocator> Engine<N, A> {
    /// The engine of a domain in which no grace period was started.
    pub fn new(seat: EngineSeat<A>, needs: N) -> Engine<N, A>
        requires { seat.mine ≡ [] }
        ensures { result ≡ at_work needs (new_engine seat) }
    {
        Engine {
            periods: GracePeriods::new(seat),
            needs,
        }
    }

    /// Makes one atomic step. `Step` is the answer as long as there is no other: in a domain of P processors at most
    /// 2P + 1 times in a row.
    pub fn step(&mut self) -> Result<Progress, PeriodsExhausted>
        ensures { MatchResult result (λ answer. StepsTo N.loads self.old answer self.new) (λ _. FindsExhausted N.loads self.old self.new) }
    {
        self.periods.drive(&mut self.needs, Pace::Step)
    }

    /// Makes steps until there is an answer, which is never `Step`: those that [`Engine::step`] would make one by one. It
    /// goes on with what `step` has left half done.
    pub fn advance(&mut self) -> Result<Progress, PeriodsExhausted>
        ensures { MatchResult result (λ answer. AdvancesTo N.loads self.old answer self.new) (λ _. FindsExhausted N.loads self.old self.new) }
    {
        self.periods.drive(&mut self.needs, Pace::Answer)
    }

    /// Starts a grace period, whether it is asked for or not, and answers the number from then on. The need isn't loaded,
    /// and one that was found before is used up.
    pub fn start(&mut self) -> Result<Number, NotStarted>
        ensures starts { MatchResult result (λ n. StartsTo (rested self.old) n (rested self.new)) (λ refusal. IsNoStart (rested self.old) refusal × (self.new ≡ self.old)) }
        ensures needs { self.new.needs ≡ self.old.needs }
    {
        self.periods.start()
    }

    /// One load of the index word by the engine, and then one by the processor. Both have then seen one history, and the
    /// engine is tied: until it changes the number or the index word again, this processor has seen all that it made.
    pub fn tie(&mut self, cpu: &mut Cpu<A>)
        requires { cpu.old.domain ≡ self.old.seat.domain }
        ensures ties { TiesEngine self.old.seat cpu.old self.new.seat cpu.new }
        ensures tied { IsTied self.new.seat }
        ensures rest { self.new ≡ at_work self.old.needs (with_seat self.new.seat (rested self.old)) }
    {
        self.periods.tie(cpu);
    }
}
