//! Taking a domain down.
ghost use Rattle.std.specs.Prelude.{◌≡◌, MatchResult};
ghost use Rattle.solo.specs.Cleanup.{IsTakenDown, IsInUse};

use crate::members::Members;
use crate::solo::Solo;
use domain::{InUse, Totals};
use std::alloc::Allocator;

impl<J: Drop, A: Allocator + Copy> Solo<J, A> {
    /// Takes the domain down (`cleanup_srcu_struct`), and tells what was done in it. It is refused where a section is open, a
    /// grace period runs, or a callback is queued and not finished: the first of these, with its count. Then the domain
    /// comes back, in which nothing has changed. No processor is ever missing.
    pub fn cleanup(self) -> Result<Totals, (InUse, Solo<J, A>)>
        ensures { MatchResult result (IsTakenDown self.course) (λ refused. IsInUse self.course refused.0 × (refused.1 ≡ self)) }
    {
        let Solo { members, limits } = self;
        match members.domain.cleanup(members.cpus) {
            Ok(totals) => Ok(totals),
            Err((cause, domain, cpus)) => {
                let mut members = Members { domain, cpus };
                members.settle();
                Err((cause, Solo { members, limits }))
            }
        }
    }
}
