//! A meeting of all processors: the first has the engine, and the others are as many as there are.
ghost use Rattle.std.specs.Prelude.{◌≡◌, ◌≤◌, ◌∷◌};
ghost use Rattle.onedom.specs.Histories as events;
ghost use Rattle.sections.specs.EngineCalls.{IsSeenByEngine};
ghost use Rattle.scan.specs.Progress.{with_seat};
ghost use Rattle.funnel.specs.Histories as tree;
ghost use Rattle.funnel.specs.Calls.{IsSeenBy};
ghost use Rattle.desk.specs.Swaps as swaps;
ghost use Rattle.domain.specs.Meetings.{IsAllOf, MeetsHere};
ghost use Rattle.domain.specs.Parts.{Each, IsBeside, EngineCovers, NeedsCover, TurnCovers, EachBecomes, IsAdmitted, IsTurned};

use super::tallies::meet_calls;
use crate::cpu::Cpu;
use crate::domain::Domain;
use funnel::{FunnelSeat, needs_of_a_tree};
use scan::{GracePeriods, StationSeat};
use std::alloc::Allocator;

/// Each of these processors has then seen just what the engine has, and at the tree just what this seat has.
fn admit_all<J, A: Allocator>(
    engine: &mut GracePeriods<A>,
    needs: &mut FunnelSeat<A>,
    others: &mut [Cpu<J, A>],
)
    requires domain { Each (λ c. (c.cpu.domain ≡ engine.old.seat.domain) × (c.needs.domain ≡ needs.old.domain)) others.old }
    requires events { Each (λ c. events.IsBeginning c.cpu.seen engine.old.seat.seen × (c.cpu.changes ≤ engine.old.seat.changes)) others.old }
    requires raises { Each (λ c. tree.IsBeginning c.needs.seen needs.old.seen) others.old }
    ensures engine { engine.new ≡ engine.old }
    ensures needs { needs.new ≡ needs.old }
    ensures others { EachBecomes (IsAdmitted engine.old.seat needs.old) others.old others.new }
{
    for other in others.iter_mut() {
        engine.admit(&mut other.cpu);
        needs.admit(&mut other.needs);
    }
}

impl<J, A: Allocator> Domain<J, A> {
    /// The engine, and the seats at the tree and at the place where the engine lies, have then seen what each of these
    /// processors has.
    fn cover_all(
        &self,
        engine: &mut GracePeriods<A>,
        needs: &mut FunnelSeat<A>,
        turn: &mut StationSeat<A>,
        others: &mut [Cpu<J, A>],
    )
        requires beside { Each (IsBeside engine.old.seat needs.old turn.old) others.old }
        requires bay { turn.old.bay ≡ self.now.bay }
        requires history { IsSeenByEngine engine.old.seat × IsSeenBy needs.old }
        ensures engine { EngineCovers engine.old.seat others.old engine.new.seat }
        ensures rest { engine.new ≡ with_seat engine.new.seat engine.old }
        ensures needs { NeedsCover needs.old others.old needs.new }
        ensures turn { TurnCovers turn.old others.old turn.new }
        ensures others { others.new ≡ others.old }
    {
        for other in others.iter_mut() {
            engine.cover(&mut other.cpu);
            needs.cover(&mut other.needs);
            turn.cover_seat(&mut other.turn, &self.station);
        }
    }

    /// Each of these processors has then seen just the turns that this seat has.
    pub(super) fn admit_turns(&self, turn: &mut StationSeat<A>, others: &mut [Cpu<J, A>])
        requires bay { turn.old.bay ≡ self.now.bay }
        requires beside { Each (λ c. c.turn.bay ≡ self.now.bay) others.old }
        requires covered { Each (λ c. swaps.IsBeginning c.turn.seen turn.old.seen) others.old }
        ensures turn { turn.new ≡ turn.old }
        ensures others { EachBecomes (IsTurned turn.old) others.old others.new }
    {
        for other in others.iter_mut() {
            turn.admit_seat(&mut other.turn, &self.station);
        }
    }

    /// What [`Domain::meet`] does, with the first processor on its own.
    fn meet_others(&self, first: &mut Cpu<J, A>, others: &mut [Cpu<J, A>])
        requires { IsAllOf self.now (first.old ∷ others.old) }
        ensures all { IsAllOf self.now (first.new ∷ others.new) }
        ensures meets { MeetsHere (first.old ∷ others.old) (first.new ∷ others.new) }
    {
        // For the proof: where no call of `ask` is on its way, the root has the greatest number.
        needs_of_a_tree();
        let mut engine = self.take_at_once(&mut first.turn, others);
        engine.cover(&mut first.cpu);
        first.needs.root_need();
        self.cover_all(&mut engine, &mut first.needs, &mut first.turn, others);
        engine.admit(&mut first.cpu);
        admit_all(&mut engine, &mut first.needs, others);
        // The put is a swap too. So it comes before the seats are admitted: all of them are to have seen one list, with it.
        first.turn.put(&self.station, engine);
        self.admit_turns(&mut first.turn, others);
        meet_calls(&mut first.calls, others);
    }

    /// All processors have then seen one history, in which each has just its own events, and of the engine's events it
    /// has only those that one of them had seen before. Likewise one list of raises at the tree, whose root then holds
    /// the greatest number that they asked for (0 if none), one list of turns, and one list of what was done at the tally
    /// words of the callbacks, where all batches were finished by these processors. The processors are all of this
    /// domain's, in order: so nobody else can have the engine, and its place is found full.
    pub fn meet(&self, cpus: &mut [Cpu<J, A>])
        requires { IsAllOf self.now cpus.old }
        ensures all { IsAllOf self.now cpus.new }
        ensures meets { MeetsHere cpus.old cpus.new }
    {
        let (first, others) = cpus.split_first_mut().unwrap();
        self.meet_others(first, others);
    }
}
