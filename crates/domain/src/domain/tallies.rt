//! How the processors' seats at the tally words of the callbacks come to see one list of what was done there.
ghost use Rattle.std.specs.Prelude.{◌≡◌};
ghost use Rattle.calls.specs.Tallies as deeds;
ghost use Rattle.calls.specs.Meetings.{Accepts};
ghost use Rattle.domain.specs.Parts.{Each, EachBecomes, CallsCover, IsHeard};

use crate::cpu::Cpu;
use calls::CallSeat;
use std::alloc::Allocator;

/// The seat has then seen what each of these processors has at the tally words.
pub(super) fn cover_calls<J, A: Allocator>(seat: &mut CallSeat<J, A>, others: &mut [Cpu<J, A>])
    requires { Each (λ c. c.calls.tallies ≡ seat.old.tallies) others.old }
    ensures seat { CallsCover seat.old others.old seat.new }
    ensures others { others.new ≡ others.old }
{
    for other in others.iter_mut() {
        seat.cover(&mut other.calls);
    }
}

/// Each of these processors has then seen just what the seat has at the tally words.
pub(super) fn admit_calls<J, A: Allocator>(seat: &mut CallSeat<J, A>, others: &mut [Cpu<J, A>])
    requires tallies { Each (λ c. c.calls.tallies ≡ seat.old.tallies) others.old }
    requires covered { Each (λ c. deeds.IsBeginning c.calls.seen seat.old.seen) others.old }
    ensures seat { seat.new ≡ seat.old }
    ensures others { EachBecomes (IsHeard seat.old) others.old others.new }
{
    for other in others.iter_mut() {
        seat.admit(&mut other.calls);
    }
}

/// The seat and those of these processors have then seen one list of what was done at the tally words.
pub(super) fn meet_calls<J, A: Allocator>(seat: &mut CallSeat<J, A>, others: &mut [Cpu<J, A>])
    requires { Each (λ c. c.calls.tallies ≡ seat.old.tallies) others.old }
    ensures seat { Accepts seat.old seat.new.seen seat.new }
    ensures others { EachBecomes (IsHeard seat.new) others.old others.new }
{
    cover_calls(seat, others);
    // It is the only load of the seat where there are no others, and tells by whom batches were finished.
    seat.catch_up();
    admit_calls(seat, others);
}
