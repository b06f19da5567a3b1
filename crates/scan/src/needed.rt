//! Which grace period is asked for.
ghost use Rattle.std.specs.Prelude.{MatchResult};
ghost use Rattle.scan.specs.Needed.{FindsNeed, FindsTooMuch};

use crate::progress::PeriodsExhausted;
use sections::EngineSeat;
use sseq::{Needs, Number};
use std::alloc::Allocator;

/// One load of the need: the number that is asked for and still to come, if there is one.
pub(crate) fn find_need<N: Needs, A: Allocator>(
    seat: &EngineSeat<A>,
    needs: &mut N,
) -> Result<Option<Number>, PeriodsExhausted>
    ensures { MatchResult result (λ asked. FindsNeed N.loads seat.now needs.old asked needs.new) (λ _. FindsTooMuch N.loads seat.now needs.old needs.new) }
{
    let number = seat.number();
    let need = needs.root_need();
    if need.get() <= number.get() {
        return Ok(None);
    }
    if number.get() == 4 * seat.periods() {
        return Err(PeriodsExhausted);
    }
    Ok(Some(need))
}
