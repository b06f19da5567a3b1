//! A desk: how it is made, and how it ends.
ghost use Rattle.std.specs.Prelude.{◌≡◌, ◌+◌, ◌^◌, ◌<◌, List, All, IfOk, IfSome};
ghost use Rattle.std.specs.Mem.Slots.{slots_items};
ghost use mathlib.Core.Option.{some};
ghost use lib.ListN.{get_elem?};
ghost use Rattle.desk.specs.Swaps.{Account, lies_behind};
ghost use Rattle.desk.specs.Calls.{IsNewDesk, AreNewSeats, AreAllSeats, Closes};
ghost use Rattle.desk.specs.Seats.{IsFounder, IsDealt, IsGathering, IsBack, LiesAlone, desk_of};

use crate::plays::{self, Board, InTurn, Place};
use crate::seat::DeskSeat;
use crate::view::{Plan, View};
use atomic_table::{Closed, Table};
use sections::{Home, Token};
use std::alloc::{AllocError, Allocator, Global};
use std::marker::Model;

pub(crate) type DeskTable<T, A> = Table<Option<T>, View<T>, Plan, InTurn<T>, A>;

/// One place for a value of one domain that must be spent. A desk must be spent too: close it with all of its seats.
/// Contracts see which desk it is, its domain, and how many seats it has.
///
/// There is one slot more than seats. The word says which slot lies on the desk, and each seat holds one of the others.
pub struct Desk<T: Token, A: Allocator = Global> {
    pub(crate) table: DeskTable<T, A>,
}

impl<T: Token, A: Allocator> Model for Desk<T, A> {
    ghost use Rattle.desk.specs.Views.{DeskView};

    ghost Value = { DeskView };

    ghost use Rattle.desk.specs.Insides.{view_of_desk, IsDesk};

    ghost view = { view_of_desk };

    ghost invariant = { IsDesk };
}

/// The desk's next seat, with its slot.
fn deal<T: Token>(top: &Board<T>, dealer: &mut Place<T>, number: usize) -> DeskSeat<T>
    requires there { (number < top.now.key.seats) × (top.now.key.seats < 2 ^ 64) }
    requires dealer { IsFounder top.now.key top.now.table_id number dealer.old }
    ensures dealer { IsFounder top.now.key top.now.table_id (number + 1) dealer.new }
    ensures dealt { IsDealt top.now.key top.now.table_id number result }
{
    let mut seat = top.split_seat::<plays::Deal>(dealer);
    top.load::<plays::PickUp>(&mut seat, 0);
    DeskSeat {
        seat,
        slot: number + 1,
    }
}

impl<T: Token, A: Allocator + Clone> Desk<T, A> {
    /// A desk for values of this domain with nothing on it, and its seats in the order of their numbers. No memory may
    /// be there for it, also where so many slots can't be counted.
    pub fn new(
        alloc: A,
        seats: usize,
        home: Home,
    ) -> Result<(Desk<T, A>, Vec<DeskSeat<T>, A>), AllocError>
        ensures desk { IfOk result (λ r. IsNewDesk home seats r.0) }
        ensures seats { IfOk result (λ r. AreNewSeats r.0 r.1.items) }
    {
        let slots = seats.checked_add(1).ok_or(AllocError)?;
        let mut dealt = Vec::with_capacity(alloc.clone()?, seats)?;
        let Ok((table, mut dealer)) = Table::vacant(alloc, &[0], slots, &Plan { home, seats })
        else {
            dealt.destroy_empty();
            return Err(AllocError);
        };
        for number in 0..seats {
            dealt.push_reserved(deal(&table.shared, &mut dealer, number));
        }
        Ok((Desk { table }, dealt))
    }
}

/// The seat lays its slot down, and is over.
fn take_back<T: Token>(top: &Board<T>, keeper: &mut Place<T>, seat: DeskSeat<T>)
    requires desk { seat.desk ≡ top.now.table_id }
    requires keeper { (over : List (Account T)) × IsGathering top.now.table_id over keeper.old }
    ensures { IsBack top.now.table_id keeper.old seat keeper.new }
{
    let DeskSeat { mut seat, slot: _ } = seat;
    top.load::<plays::LayDown>(&mut seat, 0);
    top.join_seat::<plays::TakeIn>(keeper, seat);
}

/// All slots but the desk's are empty. What lay there comes out.
fn empty<T, A: Allocator>(mut closed: Closed<Option<T>, A>) -> Option<T>
    requires { LiesAlone closed }
    ensures { get_elem? (slots_items closed.slots) (desk_of closed) ≡ some result }
{
    let desk = closed.word(0) as usize;
    let value = closed.take(desk);
    for slot in 0..closed.slot_count() {
        if slot != desk {
            let nothing = closed.take(slot);
            let None = nothing else { unreachable!() };
        }
    }
    closed.free();
    value
}

impl<T: Token, A: Allocator> Desk<T, A> {
    /// The end of the desk and of its seats, which are handed in, in any order. What lies there comes back.
    pub fn close<B: Allocator>(self, mut seats: Vec<DeskSeat<T>, B>) -> Option<T>
        requires seats { AreAllSeats self seats.items }
        ensures closes { Closes self seats.items result }
        ensures domain { IfSome result (λ x. T.domain x ≡ self.domain) }
        ensures alone { self.seats ≡ 1 → All (λ seat. result ≡ lies_behind seat.seen) seats.items }
    {
        let Desk { table } = self;
        let (_, mut keeper) = table.shared.load_new_seat::<plays::Gather>(0);
        while let Some(seat) = seats.pop() {
            take_back(&table.shared, &mut keeper, seat);
        }
        seats.destroy_empty();
        empty(table.close_with(keeper))
    }
}
