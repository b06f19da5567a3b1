//! How the seats of a bay come to see one list of swaps.
ghost use Rattle.std.specs.Prelude.{◌≡◌};
ghost use Rattle.desk.specs.Swaps.{IsBeginning};
ghost use Rattle.desk.specs.BayCalls.{Covers, Accepts, Ties};

use super::seat::BaySeat;
use super::{Alike, Bay};
use sections::Token;
use std::alloc::Allocator;

// Loads that change nothing: for who has to show how far somebody has seen.
impl<T: Token + Alike> BaySeat<T> {
    /// One load by this seat, which has then seen what the other has.
    pub fn cover<A: Allocator>(&mut self, other: &mut BaySeat<T>, bay: &Bay<T, A>)
        requires bay { self.old.bay ≡ bay.now.bay }
        requires other { other.old.bay ≡ bay.now.bay }
        ensures covers { Covers self.old other.old.seen self.new }
        ensures other { other.new ≡ other.old }
    {
        annals::cover(&bay.table.shared, &mut self.seat, &mut other.seat, 0);
    }

    /// One load by the other seat, which has then seen just what this one has. What it had seen, this one had seen
    /// before.
    pub fn admit<A: Allocator>(&mut self, other: &mut BaySeat<T>, bay: &Bay<T, A>)
        requires bay { self.old.bay ≡ bay.now.bay }
        requires other { other.old.bay ≡ bay.now.bay }
        requires covered { IsBeginning other.old.seen self.old.seen }
        ensures stays { self.new ≡ self.old }
        ensures accepts { Accepts other.old self.old.seen other.new }
    {
        annals::admit(&bay.table.shared, &mut other.seat, &mut self.seat, 0);
    }

    /// One load by this seat, and then one by the other. Both have then seen one list of swaps, in which each has just
    /// its own.
    pub fn tie<A: Allocator>(&mut self, other: &mut BaySeat<T>, bay: &Bay<T, A>)
        requires bay { self.old.bay ≡ bay.now.bay }
        requires other { other.old.bay ≡ bay.now.bay }
        ensures { Ties self.old other.old self.new other.new }
    {
        self.cover(other, bay);
        self.admit(other, bay);
    }
}
