//! A seat at a desk, and its two swaps.
ghost use Rattle.std.specs.Prelude.{◌≡◌, Some, None, IfSome};
ghost use Rattle.desk.specs.Swaps.{lies_behind};
ghost use Rattle.desk.specs.Calls.{Swaps};
ghost use Rattle.desk.specs.Seats.{HoldsEmpty, shown};

use crate::desk::Desk;
use crate::plays::{self, Board, Place};
use sections::Token;
use std::alloc::Allocator;
use std::marker::Model;

/// A seat at a desk, with which a thread swaps. Contracts see its desk and number, and the desk's swaps as far as it
/// has seen them: its own are among these. It holds no value between two calls, so it may be dropped; but its desk can
/// be closed with all of its seats alone.
#[derive(Drop)]
pub struct DeskSeat<T> {
    pub(crate) seat: Place<T>,
    /// The slot that the seat holds. It is empty between two calls.
    pub(crate) slot: usize,
}

impl<T> Model for DeskSeat<T> {
    ghost use Rattle.desk.specs.Views.{SeatView};

    ghost Value = { SeatView T };

    ghost use Rattle.desk.specs.Insides.{view_of_seat, IsSeat};

    ghost view = { view_of_seat };

    ghost invariant = { IsSeat };
}

/// One swap: the slot is filled first, and goes to the desk. The slot that lay there is emptied, and is now the seat's.
fn exchange<T: Token>(
    top: &Board<T>,
    seat: &mut Place<T>,
    slot: usize,
    left: Option<T>,
) -> (usize, Option<T>)
    requires table { (seat.old.table_id ≡ top.now.table_id) × (top.now.table_id.words ≡ 1) }
    requires holds { HoldsEmpty slot seat.old }
    requires domain { IfSome left (λ x. T.domain x ≡ seat.old.me.0.home) }
    ensures holds { HoldsEmpty result.0 seat.new }
    ensures swaps { Swaps (shown seat.old) left result.1 (shown seat.new) }
    ensures domain { IfSome result.1 (λ x. T.domain x ≡ seat.old.me.0.home) }
{
    let nothing = top.exchange(seat, slot, left);
    let None = nothing else { unreachable!() };
    let slot = top.swap::<plays::Trade<T>>(seat, 0, slot as u64) as usize;
    (slot, top.exchange(seat, slot, None))
}

impl<T: Token> DeskSeat<T> {
    /// One swap: the value lies on the desk then, and what lay there before is handed back.
    pub fn put<A: Allocator>(&mut self, desk: &Desk<T, A>, value: T) -> Option<T>
        requires desk { self.old.desk ≡ desk.now.desk }
        requires domain { T.domain value ≡ self.old.domain }
        ensures swaps { Swaps self.old (Some value) result self.new }
        ensures lies { lies_behind self.new.seen ≡ Some value }
        ensures domain { IfSome result (λ x. T.domain x ≡ self.old.domain) }
        ensures alone { self.old.seats ≡ 1 → result ≡ lies_behind self.old.seen }
    {
        let (slot, found) = exchange(&desk.table.shared, &mut self.seat, self.slot, Some(value));
        self.slot = slot;
        found
    }

    /// One swap: nothing lies on the desk then, and what lay there before is handed back. `None` exactly where nothing
    /// lay there.
    pub fn take<A: Allocator>(&mut self, desk: &Desk<T, A>) -> Option<T>
        requires desk { self.old.desk ≡ desk.now.desk }
        ensures swaps { Swaps self.old None result self.new }
        ensures lies { lies_behind self.new.seen ≡ None }
        ensures domain { IfSome result (λ x. T.domain x ≡ self.old.domain) }
        ensures alone { self.old.seats ≡ 1 → result ≡ lies_behind self.old.seen }
    {
        let (slot, found) = exchange(&desk.table.shared, &mut self.seat, self.slot, None);
        self.slot = slot;
        found
    }
}
