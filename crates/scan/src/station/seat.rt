//! A seat at a station: taking the engine, and putting it back.
ghost use Rattle.std.specs.Prelude.{◌≡◌, true, false, Some, None, is_some, MatchOption};
ghost use Rattle.sections.specs.EngineCalls.{IsTied};
ghost use Rattle.desk.specs.BayCalls.{holds, MakesSwap};
ghost use Rattle.scan.specs.Stations.{IsOfStation, Takes, FindsBusy};

use super::Station;
use crate::grace_periods::GracePeriods;
use desk::BaySeat;
use std::alloc::{Allocator, Global};
use std::marker::Model;

/// A seat at a station, with which a thread drives the engine, one call at a time. Contracts see its station's bay and
/// its number, and the swaps there as far as it has seen them: its own are among these.
#[derive(Drop)]
pub struct StationSeat<A: Allocator = Global> {
    pub(crate) seat: BaySeat<GracePeriods<A>>,
}

impl<A: Allocator> Model for StationSeat<A> {
    ghost use Rattle.desk.specs.BayViews.{BaySeatView};
    ghost use Rattle.scan.specs.Progress.{ScanView};

    ghost Value = { BaySeatView ScanView };

    ghost use Rattle.scan.specs.StationInsides.{view_of_station_seat};

    ghost view = { view_of_station_seat };
}

impl<A: Allocator> StationSeat<A> {
    /// One swap: the engine comes out, tied, and this seat has it until its next [`StationSeat::put`]. `None` only where
    /// another seat had it. It is for who does more with the engine than one of the other calls; as long as it is out,
    /// these answer that it is busy. This seat must not have it.
    pub fn take(&mut self, station: &Station<A>) -> Option<GracePeriods<A>>
        requires station { self.old.bay ≡ station.now.bay }
        requires free { holds self.old ≡ false }
        ensures takes { MatchOption result (FindsBusy self.old self.new) (λ engine. Takes self.old engine self.new) }
        ensures holds { holds self.new ≡ is_some result }
    {
        self.seat.take(&station.bay)
    }

    /// One swap: the engine lies there again, and this seat has it no longer. The swap finds the place empty. The engine
    /// must be the station's, and tied.
    pub fn put(&mut self, station: &Station<A>, engine: GracePeriods<A>)
        requires station { self.old.bay ≡ station.now.bay }
        requires held { holds self.old ≡ true }
        requires domain { engine.seat.domain ≡ self.old.domain }
        requires size { IsOfStation self.old engine }
        requires tied { IsTied engine.seat }
        ensures swap { MakesSwap self.old (Some engine) None self.new }
        ensures free { holds self.new ≡ false }
    {
        self.seat.put(&station.bay, engine);
    }
}
