//! What carries the grace periods.
ghost use Rattle.std.specs.Prelude.{◌≡◌, ℕ, ◌+◌, ◌*◌, ◌^◌, ◌≤◌, [], MatchResult};
ghost use Rattle.onedom.specs.Histories.{IsBeginning};
ghost use Rattle.sections.specs.Words.{number_word};
ghost use Rattle.sections.specs.declared.view.Shown.TheVariants.{To};
ghost use Rattle.sections.specs.Calls.{Accepts, IsSeenBy};
ghost use Rattle.sections.specs.EngineCalls.{Covers, IsTied, TiesEngine};
ghost use Rattle.scan.specs.Standings.{number_at_rest};
ghost use Rattle.scan.specs.Progress.{Paces, FindsExhausted, StartsTo, IsNoStart, at_work, new_engine, with_seat};

use crate::period::drive;
use crate::place::Place;
use crate::progress::{NotStarted, Pace, PeriodsExhausted, Progress};
use desk::Alike;
use sections::{Cpu, EngineSeat, Home, Token};
use sseq::{Needs, Number, Phase, state};
use std::alloc::{Allocator, Global};
use std::marker::Model;

/// Carries the grace periods of a domain, one atomic step at a time. It is lent the needs, which tell which grace period
/// is asked for; with needs of its own it is an [`Engine`](crate::Engine). Contracts see its seat, and what it knows of
/// what is half done.
#[derive(Drop)]
pub struct GracePeriods<A: Allocator = Global> {
    seat: EngineSeat<A>,
    place: Place,
}

impl<A: Allocator> Model for GracePeriods<A> {
    ghost use Rattle.scan.specs.Progress.{ScanView};

    ghost Value = { ScanView };

    ghost use Rattle.scan.specs.Insides.{view_of_periods, IsCarried};

    ghost view = { view_of_periods };

    ghost invariant = { IsCarried };
}

impl<A: Allocator> Token for GracePeriods<A> {
    ghost domain = { λ e. e.seat.domain };
}

/// In its place it is tied: some processor has seen all that it made. So whoever has all processors knows of every
/// grace period.
impl<A: Allocator> Alike for GracePeriods<A> {
    ghost use Rattle.scan.specs.Stations.{MayLie};

    ghost like = { MayLie };
}

impl<A: Allocator> GracePeriods<A> {
    /// The engine of a domain in which no grace period was started.
    pub fn new(seat: EngineSeat<A>) -> GracePeriods<A>
        requires { seat.mine ≡ [] }
        ensures { result ≡ new_engine seat }
    {
        // For the proof: there is at least one.
        let _processors = seat.processors();
        GracePeriods {
            seat,
            place: Place::Idle,
        }
    }

    /// Goes on at this pace (`srcu_advance_state`). By single steps the answer is `Step` as long as there is no other. In
    /// a domain of P processors an answer takes 1 step (`Idle`), 2 (`Started`), 2P (`Waiting`), 2P + 2 (`Flipped`) or
    /// 2P + 1 (`Ended`), including those that were made before.
    pub fn drive<N: Needs>(
        &mut self,
        needs: &mut N,
        pace: Pace,
    ) -> Result<Progress, PeriodsExhausted>
        ensures drives { MatchResult result
            (λ answer. Paces N.loads pace (at_work needs.old self.old) answer (at_work needs.new self.new))
            (λ _. FindsExhausted N.loads (at_work needs.old self.old) (at_work needs.new self.new)) }
        ensures most { number_at_rest self.new.seat.seen ≤ 4 * self.new.seat.periods }
    {
        let answer = drive(&mut self.seat, &mut self.place, needs, pace);
        // For the proof: no more periods have ended than may.
        let _number = self.number();
        answer
    }

    /// Starts a grace period, whether it is asked for or not, and answers the number from then on. A need that was
    /// found before is used up.
    pub fn start(&mut self) -> Result<Number, NotStarted>
        ensures { MatchResult result (λ n. StartsTo self.old n self.new) (λ refusal. IsNoStart self.old refusal × (self.new ≡ self.old)) }
    {
        let number = self.number();
        let Phase::Idle = state(number) else {
            return Err(NotStarted::Running);
        };
        if number.get() == 4 * self.seat.periods() {
            return Err(NotStarted::Exhausted);
        }
        let started = self.seat.add_start();
        self.place = Place::SCAN;
        Ok(started)
    }

    /// The number of the domain: at most 2^61 - 4, so that [`snap`](sseq::snap) may be asked of it. No step: the engine
    /// alone changes it.
    pub fn number(&self) -> Number
        ensures value { result ≡ number_word self.now.seat.changes }
        ensures most { result ≤ 4 * self.now.seat.periods }
        ensures small { result + 4 ≤ 2 ^ 61 }
    {
        self.seat.number()
    }

    /// The domain that the engine drives. One load, which tells nothing.
    pub(crate) fn home(&mut self) -> Home
        ensures home { result ≡ self.old.seat.domain }
        ensures same { self.new ≡ self.old }
    {
        self.seat.home()
    }
}

// Loads that change nothing: for who has to show how far somebody has seen.
impl<A: Allocator> GracePeriods<A> {
    /// One load of the index word by the engine, which has then seen what the processor has. Both are of one domain.
    pub fn cover(&mut self, cpu: &mut Cpu<A>)
        requires { cpu.old.domain ≡ self.old.seat.domain }
        ensures engine { Covers self.old.seat cpu.old.seen cpu.old.changes self.new.seat }
        ensures cpu { cpu.new ≡ cpu.old }
        ensures rest { self.new ≡ with_seat self.new.seat self.old }
    {
        self.seat.cover(cpu);
    }

    /// One load of the index word by the processor, which has then seen just as much as the engine. The engine must have
    /// seen what the processor has, as after [`GracePeriods::cover`]. Both are of one domain.
    pub fn admit(&mut self, cpu: &mut Cpu<A>)
        requires domain { cpu.old.domain ≡ self.old.seat.domain }
        requires covered { IsBeginning cpu.old.seen self.old.seat.seen × (cpu.old.changes ≤ self.old.seat.changes) }
        ensures engine { self.new ≡ self.old }
        ensures cpu { Accepts cpu.old self.old.seat.seen self.old.seat.changes self.old.seat.texts cpu.new }
        ensures was { IsSeenBy cpu.old }
        ensures sized { cpu.old.processors ≡ self.old.seat.processors }
        ensures heard { (n : ℕ) → self.old.seat.shown ≡ To cpu.old.processor n → n ≤ cpu.old.changes }
    {
        self.seat.admit(cpu);
    }

    /// One load of the index word by the engine, and then one by the processor. Both have then seen one history, and the
    /// engine is tied: until it changes the number or the index word again, this processor has seen all that it made.
    pub fn tie(&mut self, cpu: &mut Cpu<A>)
        requires { cpu.old.domain ≡ self.old.seat.domain }
        ensures ties { TiesEngine self.old.seat cpu.old self.new.seat cpu.new }
        ensures tied { IsTied self.new.seat }
        ensures rest { self.new ≡ with_seat self.new.seat self.old }
    {
        self.seat.tie(cpu);
    }
}
