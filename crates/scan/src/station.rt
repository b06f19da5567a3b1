//! Where the engine of a domain lies while nobody drives it, and how that place is made.
ghost use Rattle.std.specs.Prelude.{◌≡◌, IfOk};
ghost use Rattle.sections.specs.EngineCalls.{IsTied};
ghost use Rattle.desk.specs.BayCalls.{IsNewBay, AreNewBaySeats};

use crate::grace_periods::GracePeriods;
use desk::{Bay, BaySeat};
use seat::StationSeat;
use std::alloc::{AllocError, Allocator, Global};
use std::marker::Model;

pub(crate) mod seat;
mod ties;
mod turns;

/// The place of a domain's engine, which all that drive it share by reference. The engine lies there, or just one seat
/// has it, for one call. Whoever finds the place empty is told so at once, and nobody waits. A station that is dropped
/// drops the engine that lies there. Contracts see which bay it is, its domain, how many seats it has, and the engine
/// that lay there first.
#[derive(Drop)]
pub struct Station<A: Allocator = Global> {
    pub(crate) bay: Bay<GracePeriods<A>, A>,
}

impl<A: Allocator> Model for Station<A> {
    ghost use Rattle.desk.specs.BayViews.{BayView};
    ghost use Rattle.scan.specs.Progress.{ScanView};

    ghost Value = { BayView ScanView };

    ghost use Rattle.scan.specs.StationInsides.{view_of_station};

    ghost view = { view_of_station };
}

/// The seats of a bay as those of a station, in order.
fn wrap_seats<A: Allocator>(
    alloc: A,
    mut seats: Vec<BaySeat<GracePeriods<A>>, A>,
) -> Result<Vec<StationSeat<A>, A>, AllocError>
    ensures { IfOk result (λ all. all.items ≡ seats.items) }
{
    let mut all = Vec::with_capacity(alloc, seats.len())?;
    while let Some(seat) = seats.pop() {
        all.push_reserved(StationSeat { seat });
    }
    all.reverse();
    Ok(all)
}

impl<A: Allocator + Clone> Station<A> {
    /// The place of this engine, which lies there then, and so many seats in the order of their numbers. The engine must
    /// be tied, as a new one is. There may be no memory for it; the engine is dropped then.
    pub fn new(
        alloc: A,
        mut engine: GracePeriods<A>,
        seats: usize,
    ) -> Result<(Station<A>, Vec<StationSeat<A>, A>), AllocError>
        requires { IsTied engine.seat }
        ensures station { IfOk result (λ r. IsNewBay engine.seat.domain seats engine r.0) }
        ensures seats { IfOk result (λ r. AreNewBaySeats r.0 r.1.items) }
    {
        let home = engine.home();
        let (bay, dealt) = Bay::new(alloc.clone()?, engine, seats, home)?;
        Ok((Station { bay }, wrap_seats(alloc, dealt)?))
    }
}
