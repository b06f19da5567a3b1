//! A new domain.
ghost use Rattle.std.specs.Prelude.{◌≡◌, length, IfOk};
ghost use Rattle.sections.specs.Limits.{AreInRange};
ghost use Rattle.sections.specs.Words.{cells_in};
ghost use Rattle.sections.specs.Dealing.{AreNewWriters};
ghost use Rattle.sections.specs.Making.{IsCount, IsRefused, bounds_of};
ghost use Rattle.domain.specs.Making.{IsMade, joined};
ghost use Rattle.domain.specs.Meetings.{IsAllOf};

use crate::cpu::Cpu;
use crate::domain::Domain;
use crate::domain::bell::QUIET;
use calls::{CallSeat, Calls};
use funnel::FunnelSeat;
use scan::{GracePeriods, Station, StationSeat};
use sections::{Limits, MOST_PROCESSORS, Made, MakeError, Writer};
use std::alloc::{AllocError, Allocator};
use std::sync::atomic::AtomicU64;

/// Processors of four seats each, in order.
fn join_seats<J: Drop, A: Allocator>(
    alloc: A,
    mut cpus: Vec<sections::Cpu<A>, A>,
    mut needs: Vec<FunnelSeat<A>, A>,
    mut turns: Vec<StationSeat<A>, A>,
    mut calls: Vec<CallSeat<J, A>, A>,
) -> Result<Vec<Cpu<J, A>, A>, AllocError>
    requires needs { length needs.items ≡ length cpus.items }
    requires turns { length turns.items ≡ length cpus.items }
    requires calls { length calls.items ≡ length cpus.items }
    ensures { IfOk result (λ all. all.items ≡ joined cpus.items needs.items turns.items calls.items) }
{
    let mut all = Vec::with_capacity(alloc, cpus.len())?;
    while let Some(cpu) = cpus.pop() {
        all.push_reserved(Cpu {
            cpu,
            needs: needs.pop().unwrap(),
            turn: turns.pop().unwrap(),
            calls: calls.pop().unwrap(),
        });
    }
    all.reverse();
    Ok(all)
}

fn build<J: Drop, A: Allocator + Copy>(
    alloc: A,
    processors: usize,
    limits: Limits,
) -> Result<(Domain<J, A>, Vec<Cpu<J, A>, A>, Vec<Writer, A>), AllocError>
    requires count { IsCount processors }
    requires limits { AreInRange limits }
    ensures made { IfOk result (λ m. IsMade (bounds_of processors limits) m.0 m.1.items) }
    ensures all { IfOk result (λ m. IsAllOf m.0 m.1.items) }
    ensures cells { IfOk result (λ m. cells_in m.0.domain ≡ limits.cells) }
    ensures writers { IfOk result (λ m. AreNewWriters m.0.domain limits.cells limits.slots m.2.items) }
{
    let Ok(
        Made {
            cpus,
            mut engine,
            writers,
        },
    ) = sections::make(alloc, processors, limits)
    else {
        return Err(AllocError);
    };
    let (needs, root) = funnel::make(alloc, processors)?;
    // The callbacks take the domain and the number of processors from the engine's seat, so it is lent to them before
    // it goes where the engine lies.
    let (calls, seats) = Calls::make(alloc, &mut engine)?;
    let count = engine.processors();
    let (station, turns) = Station::new(alloc, GracePeriods::new(engine), processors)?;
    let cpus = join_seats(alloc, cpus, needs, turns, seats)?;
    let domain = Domain {
        station,
        calls,
        tree: root.into_tree(),
        processors: count,
        bell: AtomicU64::new(QUIET),
    };
    Ok((domain, cpus, writers))
}

impl<J: Drop, A: Allocator + Copy> Domain<J, A> {
    /// Makes a domain of so many processors (`init_srcu_struct`), in which nothing has happened, and gives the processors
    /// in the order of their numbers and the writers in that of their cells. Where several refusals hold, the first in the order of [`MakeError`] is answered.
    pub fn new(
        alloc: A,
        processors: usize,
        limits: Limits,
    ) -> Result<(Domain<J, A>, Vec<Cpu<J, A>, A>, Vec<Writer, A>), MakeError>
        ensures made { IfOk result (λ m. IsMade (bounds_of processors limits) m.0 m.1.items) }
        ensures all { IfOk result (λ m. IsAllOf m.0 m.1.items) }
        ensures cells { IfOk result (λ m. cells_in m.0.domain ≡ limits.cells) }
        ensures writers { IfOk result (λ m. AreNewWriters m.0.domain limits.cells limits.slots m.2.items) }
        ensures refused { IsRefused processors limits result }
    {
        if processors == 0 || processors > MOST_PROCESSORS {
            return Err(MakeError::Processors);
        }
        if !limits.are_in_range() {
            return Err(MakeError::Limits);
        }
        match build(alloc, processors, limits) {
            Ok(made) => Ok(made),
            Err(AllocError) => Err(MakeError::Memory),
        }
    }
}
