//! Steps of the one that writes a cell.
ghost use Rattle.std.specs.Prelude.{◌≡◌, ◌*◌, ◌<◌};
ghost use Rattle.sections.specs.Seats.{IsPlaced, IsOfProcessor};
ghost use Rattle.sections.specs.Insides.{IsAtRest};
ghost use Rattle.sections.specs.Pens.{IsWide, HasPen, CanWrite, PutsNext, PutsIn, StoresIn, RefreshesIn};

use crate::board::{DomainSeat, Words, place_of_cell, place_of_word};
use crate::plays;
use crate::plays::HasProcessors;
use std::alloc::Allocator;

/// Puts the slot into the cell by the first seat, with the right to the cell that the second lends. The word has the
/// next version and the slot.
pub(crate) fn put_in<A: Allocator>(
    table: &Words<A>,
    seat: &mut DomainSeat,
    pen: &mut DomainSeat,
    cell: usize,
    slot: usize,
    word: u64,
)
    requires placed { IsPlaced table.now.shared.key table.now.shared.table_id seat.old × IsAtRest seat.old.me.0 }
    requires role { IsOfProcessor table.now.shared.key.processors seat.old.me.0 }
    requires pen { HasPen table.now.shared.table_id cell pen.old × CanWrite cell slot pen.old }
    requires word { (slot < 8) × PutsNext cell slot word pen.old }
    ensures { PutsIn cell slot seat.old pen.old seat.new pen.new }
{
    let top = &table.shared;
    let right = top.split_seat::<plays::GiveToken>(pen);
    top.join_seat::<plays::TakeToken>(seat, right);
    top.store::<plays::PutSlot>(seat, place_of_cell(table, cell), word);
    *pen = top.split_seat::<plays::GiveToken>(seat);
}

/// Stores a word of a slot, by the seat with the right to the cell.
pub(crate) fn store_in<A: Allocator, N: HasProcessors>(
    table: &Words<A>,
    pen: &mut DomainSeat,
    cell: usize,
    slot: usize,
    place: usize,
    value: u64,
)
    requires sized { N.processors ≡ table.now.shared.key.processors }
    requires wide { IsWide table.now.shared.key table.now.shared.table_id }
    requires pen { HasPen table.now.shared.table_id cell pen.old × CanWrite cell slot pen.old }
    requires place { (slot < 8) × (place < 16) }
    ensures { StoresIn cell slot place value pen.old pen.new }
{
    let place = place_of_word(table, cell, slot, place);
    table
        .shared
        .store::<plays::StorePayload<N>>(pen, place, value);
}

/// Loads the cell with the right to it, behind all that both seats have seen.
pub(crate) fn refresh_in<A: Allocator>(
    table: &Words<A>,
    seat: &mut DomainSeat,
    pen: &mut DomainSeat,
    cell: usize,
)
    requires placed { IsPlaced table.now.shared.key table.now.shared.table_id seat.old × IsAtRest seat.old.me.0 }
    requires pen { HasPen table.now.shared.table_id cell pen.old }
    ensures pen { RefreshesIn cell seat.old pen.old pen.new }
    ensures seat { (seat.new.table_id ≡ seat.old.table_id) × (seat.new.me ≡ seat.old.me) }
{
    let top = &table.shared;
    let mut fresh = top.split_seat::<plays::GiveToken>(seat);
    let right = top.split_seat::<plays::GiveToken>(pen);
    top.join_seat::<plays::TakeToken>(&mut fresh, right);
    top.load::<plays::Refresh>(&mut fresh, place_of_cell(table, cell));
    *pen = fresh;
}
