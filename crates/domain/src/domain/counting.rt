//! Counting what was done in a domain in all, with all of its processors in hand. As each of them has then seen one
//! history, in which it has just its own events, nothing is done while the counters are added up.
ghost use Rattle.std.specs.Prelude.{◌≡◌, ◌≤◌, ◌∷◌};
ghost use Rattle.onedom.specs.Histories as events;
ghost use Rattle.sections.specs.Calls.{IsSeenBy};
ghost use Rattle.sections.specs.EngineCalls.{IsSeenByEngine};
ghost use Rattle.scan.specs.Progress.{with_seat};
ghost use Rattle.domain.specs.Views.{IsOf};
ghost use Rattle.domain.specs.Parts.{Each, EngineCovers, EachBecomes};
ghost use Rattle.domain.specs.Counts.{CountsSections, IsJoined, AreAllThere, CountsInAll, CountsCalls};

use super::loads::load_sums;
use super::tallies::{admit_calls, cover_calls};
use crate::cpu::Cpu;
use crate::domain::Domain;
use scan::GracePeriods;
use sections::MOST_PROCESSORS;
use sseq::{Index, Number};
use std::alloc::Allocator;

/// How many sections were begun on all processors, and how many have ended.
fn count_sections<A: Allocator>(cpu: &mut sections::Cpu<A>, processors: u16) -> (u64, u64)
    requires all { processors ≡ cpu.old.processors }
    requires some { 1 ≤ processors }
    requires few { processors ≤ 256 }
    requires history { IsSeenBy cpu.old }
    ensures { CountsSections result.0 result.1 cpu.old cpu.new }
{
    let all = usize::from(processors);
    let mut unlocks = [0; MOST_PROCESSORS];
    let mut locks = [0; MOST_PROCESSORS];
    let unlocks = &mut unlocks[..all];
    let locks = &mut locks[..all];
    // In any order they would be the same: all processors are in one hand, so no section begins or ends meanwhile.
    let (ended, begun) = load_sums(cpu, processors, Index::Zero, unlocks, locks);
    let (ended_too, begun_too) = load_sums(cpu, processors, Index::One, unlocks, locks);
    (begun + begun_too, ended + ended_too)
}

/// The engine has then seen what each of these processors has.
fn cover_cpus<J, A: Allocator>(engine: &mut GracePeriods<A>, others: &mut [Cpu<J, A>])
    requires domain { Each (λ c. c.cpu.domain ≡ engine.old.seat.domain) others.old }
    requires history { IsSeenByEngine engine.old.seat }
    ensures engine { EngineCovers engine.old.seat others.old engine.new.seat }
    ensures rest { engine.new ≡ with_seat engine.new.seat engine.old }
    ensures others { others.new ≡ others.old }
{
    for other in others.iter_mut() {
        engine.cover(&mut other.cpu);
    }
}

/// Each of these processors has then seen just what the engine has.
fn admit_cpus<J, A: Allocator>(engine: &mut GracePeriods<A>, others: &mut [Cpu<J, A>])
    requires domain { Each (λ c. c.cpu.domain ≡ engine.old.seat.domain) others.old }
    requires covered { Each (λ c. events.IsBeginning c.cpu.seen engine.old.seat.seen × (c.cpu.changes ≤ engine.old.seat.changes)) others.old }
    ensures engine { engine.new ≡ engine.old }
    ensures others { EachBecomes (IsJoined engine.old.seat) others.old others.new }
{
    for other in others.iter_mut() {
        engine.admit(&mut other.cpu);
    }
}

impl<J, A: Allocator> Domain<J, A> {
    /// How many sections were begun in all, how many have ended, and the number. All processors are there: the first one
    /// and the others. It takes the engine with no wait, and puts it back.
    pub(super) fn count_history(
        &self,
        first: &mut Cpu<J, A>,
        others: &mut [Cpu<J, A>],
    ) -> (u64, u64, Number)
        requires here { Each (IsOf self.now) (first.old ∷ others.old) }
        requires all { AreAllThere self.now (first.old ∷ others.old) }
        ensures { CountsInAll self.now (first.old ∷ others.old) result.0 result.1 result.2 (first.new ∷ others.new) }
    {
        let mut engine = self.take_at_once(&mut first.turn, others);
        engine.cover(&mut first.cpu);
        cover_cpus(&mut engine, others);
        engine.admit(&mut first.cpu);
        // The processor has now seen all that was done, and while it counts nobody does anything. That is known behind
        // the next loads of all: each has then just the events that it had before.
        let (opened, closed) = count_sections(&mut first.cpu, self.processors);
        let number = engine.number();
        engine.cover(&mut first.cpu);
        engine.admit(&mut first.cpu);
        admit_cpus(&mut engine, others);
        first.turn.put(&self.station, engine);
        (opened, closed, number)
    }

    /// How many calls were queued in all, and how many of them are finished. All processors are there: the first one and
    /// the others.
    pub(super) fn count_calls(
        &self,
        first: &mut Cpu<J, A>,
        others: &mut [Cpu<J, A>],
    ) -> calls::Totals
        requires here { Each (IsOf self.now) (first.old ∷ others.old) }
        requires all { AreAllThere self.now (first.old ∷ others.old) }
        ensures { CountsCalls self.now (first.old ∷ others.old) result.queued result.finished (first.new ∷ others.new) }
    {
        cover_calls(&mut first.calls, others);
        let totals = first.calls.totals();
        // Here too what was loaded is known to be exact behind the next loads of all.
        admit_calls(&mut first.calls, others);
        totals
    }
}
