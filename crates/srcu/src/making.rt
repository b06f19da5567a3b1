//! A new domain, and how one is taken down.
ghost use Rattle.std.specs.Prelude.{◌≡◌, All, IfErr, IfOk, MatchResult};
ghost use Rattle.sections.specs.Dealing.{AreNewWriters};
ghost use Rattle.sections.specs.Making.{IsRefused, bounds_of};
ghost use Rattle.sections.specs.Words.{cells_in};
ghost use Rattle.domain.specs.Cleanup as cleanup;
ghost use Rattle.domain.specs.Cleanup.{IsTakenDown, IsHandedBack};
ghost use Rattle.domain.specs.Making.{IsMade};
ghost use Rattle.driver.specs.Pools.{IsIdle};
ghost use Rattle.srcu.specs.Workers.{AreWritersOf};

use domain::{Cpu, Domain, InUse, Limits, MakeError, Totals, Writer};
use std::alloc::Allocator;

/// Makes a domain with its processors, in the order of their numbers, and a writer for each cell, in the order of the cells
/// (`init_srcu_struct`).
/// Each processor may become a worker.
pub fn make<J: Drop, A: Allocator + Copy>(
    alloc: A,
    processors: usize,
    limits: Limits,
) -> Result<(Domain<J, A>, Vec<Cpu<J, A>, A>, Vec<Writer, A>), MakeError>
    ensures made { IfOk result (λ m. IsMade (bounds_of processors limits) m.0 m.1.items) }
    ensures idle { IfOk result (λ m. All (IsIdle m.0) m.1.items) }
    ensures writers { IfOk result (λ m. AreWritersOf m.0 m.2.items) }
    ensures cells { IfOk result (λ m. cells_in m.0.domain ≡ limits.cells) }
    ensures each { IfOk result (λ m. AreNewWriters m.0.domain limits.cells limits.slots m.2.items) }
    ensures refused { IsRefused processors limits result }
{
    Domain::new(alloc, processors, limits)
}

/// Takes a domain down (`cleanup_srcu_struct`), with all of its processors, and returns what was done in it. It is refused
/// where a processor is missing, a section is open, a grace period runs, or a job is not finished. Then all comes back.
pub fn clean_up<J: Drop, A: Allocator>(
    domain: Domain<J, A>,
    cpus: Vec<Cpu<J, A>, A>,
) -> Result<Totals, (InUse, Domain<J, A>, Vec<Cpu<J, A>, A>)>
    requires { All (IsIdle domain) cpus.items }
    ensures answer { MatchResult result
        (λ totals. IsTakenDown domain cpus.items totals)
        (λ refused. cleanup.IsRefused domain cpus.items refused.0 refused.1 refused.2.items) }
    ensures back { IfErr result (λ refused. IsHandedBack domain cpus.items refused.1 refused.2.items) }
{
    domain.cleanup(cpus)
}
