//! How seats come to see one history.
ghost use Rattle.std.specs.Prelude.{◌≡◌};
ghost use Rattle.funnel.specs.Histories.{IsBeginning};
ghost use Rattle.funnel.specs.Calls.{Covers, Accepts, Ties};

use super::{FunnelSeat, climb};
use std::alloc::Allocator;

// Loads that change nothing: for who has to show how far somebody has seen.
impl<A: Allocator> FunnelSeat<A> {
    /// One load of the root by this seat, which has then seen what the other has.
    pub fn cover(&mut self, other: &mut FunnelSeat<A>)
        requires { other.old.domain ≡ self.old.domain }
        ensures covers { Covers self.old other.old.seen self.new }
        ensures other { other.new ≡ other.old }
    {
        climb::cover(&self.table.shared, &mut self.seat, &mut other.seat);
    }

    /// One load of the root by the other seat, which has then seen just what this one has. What it had seen, this one had
    /// seen before.
    pub fn admit(&mut self, other: &mut FunnelSeat<A>)
        requires domain { other.old.domain ≡ self.old.domain }
        requires covered { IsBeginning other.old.seen self.old.seen }
        ensures stays { self.new ≡ self.old }
        ensures accepts { Accepts other.old self.old.seen other.new }
    {
        climb::admit(&other.table.shared, &mut other.seat, &mut self.seat);
    }

    /// One load of the root by this seat, and then one by the other. Both have then seen one history, in which each has
    /// just its own raises.
    pub fn tie(&mut self, other: &mut FunnelSeat<A>)
        requires { other.old.domain ≡ self.old.domain }
        ensures { Ties self.old other.old self.new other.new }
    {
        self.cover(other);
        self.admit(other);
    }
}
