//! Work on what lies in a bay, where it lies.
ghost use Rattle.std.specs.Prelude.{◌≡◌, false, MatchOption};
ghost use Rattle.desk.specs.BayCalls.{holds, FindsNothing};
ghost use Rattle.desk.specs.BayWork.{MayLieThere, Works};

use super::seat::BaySeat;
use super::{Alike, Bay, OUT, SLOT, THERE, plays};
use sections::Token;
use std::alloc::Allocator;

/// What is done with a value of a bay and with two that are lent beside it. A trait, as the kit's borrow checker covers
/// no closure over a type that has its caller's allocator.
pub trait Task<T, L, M, R> {
    /// At what it may be run.
    ghost may: { Self → T → L → M → Type 0 };
    /// What a run may answer and leave.
    ghost gives: { Self → T → L → M → R → T → L → M → Type 0 };

    /// Runs it once.
    fn run(self, value: &mut T, lent: &mut L, more: &mut M) -> R
        requires { may self value.old lent.old more.old }
        ensures { gives self value.old lent.old more.old result value.new lent.new more.new };
}

impl<T: Token + Alike> BaySeat<T> {
    /// One swap that finds the value, a task that is run on it, and one swap that leaves it. The value stays in its slot,
    /// so none is moved. `None` only where another seat held; then nothing has changed. This seat must not hold. The task
    /// must leave a value of this domain that is like the first one.
    #[inline(always)]
    pub fn work<A: Allocator, L, M, R, W: Task<T, L, M, R> + Drop>(
        &mut self,
        bay: &Bay<T, A>,
        lent: &mut L,
        more: &mut M,
        task: W,
    ) -> Option<R>
        requires bay { self.old.bay ≡ bay.now.bay }
        requires free { holds self.old ≡ false }
        requires may { (x : _) → MayLieThere T.domain T.like self.old x → W.may task x lent.old more.old }
        requires keeps { (x : _) (r : _) (y : _) (l : _) (m : _) → MayLieThere T.domain T.like self.old x → W.gives task x lent.old more.old r y l m → MayLieThere T.domain T.like self.old y }
        ensures free { holds self.new ≡ false }
        ensures works { MatchOption result
            (FindsNothing self.old self.new × (lent.new ≡ lent.old) × (more.new ≡ more.old))
            (λ r. Works T.domain T.like self.old (λ x y. W.gives task x lent.old more.old r y lent.new more.new) self.new) }
    {
        let top = &bay.table.shared;
        if top.swap::<plays::Take<T>>(&mut self.seat, 0, OUT) == OUT {
            return None;
        }
        let answer = match self.seat.slot_mut(top, SLOT) {
            Some(value) => task.run(value, lent, more),
            None => unreachable!(),
        };
        // The work before the word: whoever finds THERE works on what lies in the slot.
        top.swap::<plays::PutBack>(&mut self.seat, 0, THERE);
        Some(answer)
    }
}
