//! A seat at a bay, and its two swaps.
ghost use Rattle.std.specs.Prelude.{◌≡◌, true, false, Some, None, IfSome, is_some};
ghost use Rattle.desk.specs.BayCalls.{holds, lies, MakesSwap, IsHeldElsewhere, IsLikeFirst};

use super::plays::{self, Place};
use super::{Alike, Bay, OUT, SLOT, THERE};
use sections::Token;
use std::alloc::Allocator;
use std::marker::Model;

/// A seat at a bay, with which a thread swaps. It holds from a [`BaySeat::take`] that gave the value until its next
/// [`BaySeat::put`]; the value itself is then its thread's. Contracts see its bay and number, and the bay's swaps as far
/// as it has seen them: its own are among these.
#[derive(Drop)]
pub struct BaySeat<T> {
    pub(crate) seat: Place<T>,
}

impl<T> Model for BaySeat<T> {
    ghost use Rattle.desk.specs.BayViews.{BaySeatView};

    ghost Value = { BaySeatView T };

    ghost use Rattle.desk.specs.BayInsides.{view_of_bay_seat, IsBaySeat};

    ghost view = { view_of_bay_seat };

    ghost invariant = { IsBaySeat };
}

impl<T: Token + Alike> BaySeat<T> {
    /// One swap: the value comes out, and this seat holds from then on. `None` only where another seat held; then
    /// nothing has changed. This seat must not hold.
    pub fn take<A: Allocator>(&mut self, bay: &Bay<T, A>) -> Option<T>
        requires bay { self.old.bay ≡ bay.now.bay }
        requires free { holds self.old ≡ false }
        ensures swap { MakesSwap self.old None result self.new }
        ensures holds { holds self.new ≡ is_some result }
        ensures elsewhere { result ≡ None → IsHeldElsewhere self.new }
        ensures domain { IfSome result (λ x. T.domain x ≡ self.old.domain) }
        ensures alike { IfSome result (λ x. IsLikeFirst T.like self.old x) }
    {
        let top = &bay.table.shared;
        // The word before the slot: whoever swaps OUT in and finds THERE is alone at the slot.
        if top.swap::<plays::Take<T>>(&mut self.seat, 0, OUT) == OUT {
            return None;
        }
        top.exchange(&mut self.seat, SLOT, None)
    }

    /// One swap: the value lies in the bay then, and this seat holds no longer. The swap finds the bay empty. This seat
    /// must hold.
    pub fn put<A: Allocator>(&mut self, bay: &Bay<T, A>, value: T)
        requires bay { self.old.bay ≡ bay.now.bay }
        requires held { holds self.old ≡ true }
        requires domain { T.domain value ≡ self.old.domain }
        requires alike { IsLikeFirst T.like self.old value }
        ensures swap { MakesSwap self.old (Some value) None self.new }
        ensures holds { holds self.new ≡ false }
        ensures lies { lies self.new ≡ Some value }
    {
        let top = &bay.table.shared;
        // The slot before the word: whoever finds THERE takes what lies in the slot, and would find nothing.
        let nothing = top.exchange(&mut self.seat, SLOT, Some(value));
        let None = nothing else { unreachable!() };
        top.swap::<plays::PutBack>(&mut self.seat, 0, THERE);
    }
}
