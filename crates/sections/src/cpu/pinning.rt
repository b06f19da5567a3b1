//! What an open section finds in a cell: steps with a right that another seat lends.
ghost use Rattle.std.specs.Prelude.{◌≡◌, ◌<◌};
ghost use Rattle.sections.specs.Words.{cells_in};
ghost use Rattle.sections.specs.Seats.{IsPlaced, IsOfProcessor};
ghost use Rattle.sections.specs.Insides.{IsAtRest};
ghost use Rattle.sections.specs.Pins.{Lends, FindsIn, Remembers, LoadsIn, LoadsAllIn};
ghost use Rattle.sections.specs.Drawing.{LendsAny};

use crate::board::{DomainSeat, Words, place_of_cell, place_of_word};
use crate::plays;
use std::alloc::Allocator;

/// One load of a cell by the first seat, with the right to a section that the second lends. The word is what is
/// current in the cell, and the new seat knows that the section has found it.
pub(crate) fn find_in<A: Allocator>(
    table: &Words<A>,
    seat: &mut DomainSeat,
    lender: &mut DomainSeat,
    cell: usize,
) -> (u64, DomainSeat)
    requires placed { IsPlaced table.now.shared.key table.now.shared.table_id seat.old × IsAtRest seat.old.me.0 }
    requires role { IsOfProcessor table.now.shared.key.processors seat.old.me.0 }
    requires lender { LendsAny table.now.shared.table_id lender.old }
    requires cell { cell < cells_in table.now.shared.table_id }
    ensures finds { FindsIn cell seat.old lender.old result.0 seat.new result.1 }
    ensures lender { (lender.new.table_id ≡ lender.old.table_id) × (lender.new.me ≡ lender.old.me) }
{
    let top = &table.shared;
    let right = top.split_seat::<plays::GiveToken>(lender);
    top.join_seat::<plays::TakeToken>(seat, right);
    let word = top.load::<plays::FindThere>(seat, place_of_cell(table, cell));
    let right = top.split_seat::<plays::GiveToken>(seat);
    top.join_seat::<plays::TakeBack>(lender, right);
    let found = top.split_seat::<plays::GiveToken>(seat);
    (word, found)
}

/// One load of a word of a slot by the first seat, with the right to a section that the second lends. The third knows
/// that this section has found the slot.
pub(crate) fn word_in<A: Allocator>(
    table: &Words<A>,
    seat: &mut DomainSeat,
    lender: &mut DomainSeat,
    found: &mut DomainSeat,
    cell: usize,
    slot: usize,
    place: usize,
) -> u64
    requires placed { IsPlaced table.now.shared.key table.now.shared.table_id seat.old × IsAtRest seat.old.me.0 }
    requires role { IsOfProcessor table.now.shared.key.processors seat.old.me.0 }
    requires lender { Lends table.now.shared.table_id lender.old }
    requires found { Remembers table.now.shared.table_id lender.old cell slot found.old }
    requires place { (cell < cells_in table.now.shared.table_id) × (slot < 8) × (place < 16) }
    ensures loads { LoadsIn cell slot place seat.old lender.old found.old result seat.new }
    ensures lender { (lender.new.table_id ≡ lender.old.table_id) × (lender.new.me ≡ lender.old.me) }
    ensures found { (found.new.table_id ≡ found.old.table_id) × (found.new.me ≡ found.old.me) }
{
    let top = &table.shared;
    let told = top.split_seat::<plays::GiveToken>(found);
    top.join_seat::<plays::TakeToken>(seat, told);
    let right = top.split_seat::<plays::GiveToken>(lender);
    top.join_seat::<plays::TakeToken>(seat, right);
    let word = top.load::<plays::LoadPayload>(seat, place_of_word(table, cell, slot, place));
    let right = top.split_seat::<plays::GiveToken>(seat);
    top.join_seat::<plays::TakeBack>(lender, right);
    word
}

/// Loads all words of a slot by the first seat, with the right to a section that the second lends once for all of them.
/// The third knows that this section has found the slot.
pub(crate) fn words_in<A: Allocator>(
    table: &Words<A>,
    seat: &mut DomainSeat,
    lender: &mut DomainSeat,
    found: &mut DomainSeat,
    cell: usize,
    slot: usize,
) -> [u64; 16]
    requires placed { IsPlaced table.now.shared.key table.now.shared.table_id seat.old × IsAtRest seat.old.me.0 }
    requires role { IsOfProcessor table.now.shared.key.processors seat.old.me.0 }
    requires lender { Lends table.now.shared.table_id lender.old }
    requires found { Remembers table.now.shared.table_id lender.old cell slot found.old }
    requires place { (cell < cells_in table.now.shared.table_id) × (slot < 8) }
    ensures loads { LoadsAllIn cell slot seat.old lender.old found.old result seat.new }
    ensures lender { (lender.new.table_id ≡ lender.old.table_id) × (lender.new.me ≡ lender.old.me) }
    ensures found { (found.new.table_id ≡ found.old.table_id) × (found.new.me ≡ found.old.me) }
{
    let top = &table.shared;
    let told = top.split_seat::<plays::GiveToken>(found);
    top.join_seat::<plays::TakeToken>(seat, told);
    let right = top.split_seat::<plays::GiveToken>(lender);
    top.join_seat::<plays::TakeToken>(seat, right);
    let first = place_of_word(table, cell, slot, 0);
    let mut words = [0; 16];
    // Behind the first load the seat itself has seen that the section found the slot.
    words[0] = top.load::<plays::LoadPayload>(seat, first);
    for place in 1..16 {
        words[place] = top.load::<plays::LoadNext>(seat, first + place);
    }
    let right = top.split_seat::<plays::GiveToken>(seat);
    top.join_seat::<plays::TakeBack>(lender, right);
    words
}
