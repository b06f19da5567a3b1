//! Taking the engine with the seats of all processors in hand: nobody else can have it, so there is nobody to wait for.
ghost use Rattle.std.specs.Prelude.{◌≡◌};
ghost use Rattle.scan.specs.Stations.{Takes};
ghost use Rattle.domain.specs.Parts.{Each, TurnCovers, AreAllTurns};

use crate::cpu::Cpu;
use crate::domain::Domain;
use scan::{GracePeriods, StationSeat};
use std::alloc::Allocator;

impl<J, A: Allocator> Domain<J, A> {
    /// The seat has then seen each turn that these processors have.
    fn cover_turns(&self, turn: &mut StationSeat<A>, others: &mut [Cpu<J, A>])
        requires bay { turn.old.bay ≡ self.now.bay }
        requires beside { Each (λ c. c.turn.bay ≡ self.now.bay) others.old }
        ensures turn { TurnCovers turn.old others.old turn.new }
        ensures others { others.new ≡ others.old }
    {
        for other in others.iter_mut() {
            turn.cover_seat(&mut other.turn, &self.station);
        }
    }

    /// Takes the engine, with no wait. This seat and those of the other processors are all that there are, and none of
    /// them has it.
    pub(super) fn take_at_once(
        &self,
        turn: &mut StationSeat<A>,
        others: &mut [Cpu<J, A>],
    ) -> GracePeriods<A>
        requires bay { turn.old.bay ≡ self.now.bay }
        requires beside { Each (λ c. c.turn.bay ≡ self.now.bay) others.old }
        requires all { AreAllTurns turn.old others.old }
        ensures takes { Takes turn.old result turn.new }
        ensures others { others.new ≡ others.old }
    {
        self.cover_turns(turn, others);
        if let Some(engine) = turn.take(&self.station) {
            return engine;
        }
        // Then another seat would have it. But they all come to see one list of turns, in which each has just its own,
        // and so none of them has it: this is never reached.
        self.cover_turns(turn, others);
        self.admit_turns(turn, others);
        unreachable!()
    }
}
