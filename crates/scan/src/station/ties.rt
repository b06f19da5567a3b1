//! How the seats of a station come to see one list of swaps.
ghost use Rattle.std.specs.Prelude.{◌≡◌};
ghost use Rattle.desk.specs.Swaps.{IsBeginning};
ghost use Rattle.desk.specs.BayCalls.{Covers, Accepts, Ties};

use super::Station;
use super::seat::StationSeat;
use std::alloc::Allocator;

// Loads that change nothing: for who has to show how far somebody has seen.
impl<A: Allocator> StationSeat<A> {
    /// One load by this seat, which has then seen what the other has.
    pub fn cover_seat(&mut self, other: &mut StationSeat<A>, station: &Station<A>)
        requires station { self.old.bay ≡ station.now.bay }
        requires other { other.old.bay ≡ station.now.bay }
        ensures covers { Covers self.old other.old.seen self.new }
        ensures other { other.new ≡ other.old }
    {
        self.seat.cover(&mut other.seat, &station.bay);
    }

    /// One load by the other seat, which has then seen just what this one has. What it had seen, this one had seen
    /// before.
    pub fn admit_seat(&mut self, other: &mut StationSeat<A>, station: &Station<A>)
        requires station { self.old.bay ≡ station.now.bay }
        requires other { other.old.bay ≡ station.now.bay }
        requires covered { IsBeginning other.old.seen self.old.seen }
        ensures stays { self.new ≡ self.old }
        ensures accepts { Accepts other.old self.old.seen other.new }
    {
        self.seat.admit(&mut other.seat, &station.bay);
    }

    /// One load by this seat, and then one by the other. Both have then seen one list of swaps, in which each has just
    /// its own.
    pub fn tie_seat(&mut self, other: &mut StationSeat<A>, station: &Station<A>)
        requires station { self.old.bay ≡ station.now.bay }
        requires other { other.old.bay ≡ station.now.bay }
        ensures { Ties self.old other.old self.new other.new }
    {
        self.seat.tie(&mut other.seat, &station.bay);
    }
}
