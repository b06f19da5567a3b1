//! Parts of boxes: steps of a processor with the right to a section that has found a slot. Slot x of cell c is counted as
//! 8 c + x.
ghost use Rattle.std.specs.Prelude.{◌≡◌, ◌*◌, ◌/◌, ◌<◌, ◌≤◌, MatchOption};
ghost use Rattle.vault.specs.Showing.{ShowsPart};
ghost use Rattle.sections.specs.Banks.{vault_in};
ghost use Rattle.sections.specs.Shelves.{offer_of};
ghost use Rattle.sections.specs.Drawing.{CanTake, TakesKey, Draws, HasUnit, Pays, LendsAny, KnowsOffer, DrawsIn, PaysIn};
ghost use Rattle.sections.specs.Insides.{IsAtRest};
ghost use Rattle.sections.specs.Seats.{IsPlaced};
ghost use Rattle.sections.specs.Boxes.{KnowsVault};
ghost use Rattle.sections.specs.Showing.{HasSection, ShowsHere};
ghost use Rattle.sections.specs.Words.{cell_place, cells_in};
ghost use Rattle.sections.specs.declared.view.Role.TheVariants.{Cpu};

use crate::board::{Board, DomainSeat, Words};
use crate::plays;
use parts::Part;
use std::alloc::Allocator;
use vault::{Key, Pile, Vault};

/// Takes the processor's key to a slot. A blank lies in its place.
fn take_key(top: &Board, seat: &mut DomainSeat, processor: u16, slot: usize) -> Key
    requires { CanTake top.now.key top.now.table_id processor slot seat.old }
    ensures { TakesKey processor slot seat.old seat.new result }
{
    top.load::<plays::TakeKey>(seat, slot);
    top.exchange(seat, 32 * processor as usize + slot, Key::blank())
}

/// Draws a part of a slot that the section of the seat's right has found. None where fewer than two lie at this processor.
pub(crate) fn draw_part<T: Drop, A: Allocator>(
    top: &Board,
    seat: &mut DomainSeat,
    processor: u16,
    slot: usize,
    vault: &Vault<T, A>,
) -> Option<Part<T>>
    requires { (can : CanTake top.now.key top.now.table_id processor slot seat.old) × (vault_in can.offer.vault ≡ vault.now) }
    ensures { Draws slot seat.old seat.new result }
{
    let key = take_key(top, seat, processor, slot);
    let (key, part) = vault.cut(key, 8 * processor as usize + slot % 8, 1);
    top.exchange(seat, 32 * processor as usize + slot, key);
    match part {
        Some(part) => {
            top.load::<plays::DrawPart>(seat, slot);
            Some(part)
        }
        None => {
            top.load::<plays::ReturnKey>(seat, slot);
            None
        }
    }
}

/// Pays a part of such a slot to this processor, wherever it was drawn.
pub(crate) fn pay_part<T: Drop, A: Allocator>(
    top: &Board,
    seat: &mut DomainSeat,
    processor: u16,
    slot: usize,
    vault: &Vault<T, A>,
    part: Part<T>,
)
    requires seat { (can : CanTake top.now.key top.now.table_id processor slot seat.old) × (vault_in can.offer.vault ≡ vault.now) }
    requires unit { HasUnit slot part.round seat.old.me.0.right }
    requires part { part.count ≡ 1 }
    ensures { Pays slot part.round seat.old seat.new }
{
    let key = take_key(top, seat, processor, slot);
    let key = vault.add(
        key,
        8 * processor as usize + slot % 8,
        Pile { part, count: 1 },
    );
    top.exchange(seat, 32 * processor as usize + slot, key);
    top.load::<plays::PayPart>(seat, slot);
}

/// Draws a part of a slot by the first seat, with the right to a section that the second lends. The third knows that this
/// section has found the slot. None where fewer than two lie at this processor.
pub(crate) fn draw_in<T: Drop, A: Allocator, B: Allocator>(
    table: &Words<A>,
    seat: &mut DomainSeat,
    lender: &mut DomainSeat,
    found: &mut DomainSeat,
    processor: u16,
    slot: usize,
    vault: &Vault<T, B>,
) -> Option<Part<T>>
    requires placed { IsPlaced table.now.shared.key table.now.shared.table_id seat.old × IsAtRest seat.old.me.0 }
    requires role { (seat.old.me.0.role ≡ Cpu processor) × (processor < table.now.shared.key.processors) }
    requires lender { LendsAny table.now.shared.table_id lender.old }
    requires found { KnowsOffer table.now.shared.key table.now.shared.table_id vault.now lender.old slot found.old }
    requires slot { (slot / 8 < cells_in table.now.shared.table_id) × (slot < 32) }
    ensures draws { DrawsIn slot seat.old lender.old found.old seat.new lender.new result }
    ensures found { (found.new.table_id ≡ found.old.table_id) × (found.new.me ≡ found.old.me) }
{
    let top = &table.shared;
    let told = top.split_seat::<plays::GiveToken>(found);
    top.join_seat::<plays::TakeToken>(seat, told);
    let right = top.split_seat::<plays::GiveToken>(lender);
    top.join_seat::<plays::TakeToken>(seat, right);
    let part = draw_part(top, seat, processor, slot, vault);
    let right = top.split_seat::<plays::GiveToken>(seat);
    top.join_seat::<plays::TakeBack>(lender, right);
    part
}

/// Pays a part of a slot so, on whichever processor.
pub(crate) fn pay_in<T: Drop, A: Allocator, B: Allocator>(
    table: &Words<A>,
    seat: &mut DomainSeat,
    lender: &mut DomainSeat,
    found: &mut DomainSeat,
    processor: u16,
    slot: usize,
    vault: &Vault<T, B>,
    part: Part<T>,
)
    requires placed { IsPlaced table.now.shared.key table.now.shared.table_id seat.old × IsAtRest seat.old.me.0 }
    requires role { (seat.old.me.0.role ≡ Cpu processor) × (processor < table.now.shared.key.processors) }
    requires lender { LendsAny table.now.shared.table_id lender.old }
    requires found { KnowsOffer table.now.shared.key table.now.shared.table_id vault.now lender.old slot found.old }
    requires slot { (slot / 8 < cells_in table.now.shared.table_id) × (slot < 32) }
    requires unit { HasUnit slot part.round lender.old.me.0.right }
    requires part { part.count ≡ 1 }
    ensures pays { PaysIn slot part.round seat.old lender.old found.old seat.new lender.new }
    ensures found { (found.new.table_id ≡ found.old.table_id) × (found.new.me ≡ found.old.me) }
{
    let top = &table.shared;
    let told = top.split_seat::<plays::GiveToken>(found);
    top.join_seat::<plays::TakeToken>(seat, told);
    let right = top.split_seat::<plays::GiveToken>(lender);
    top.join_seat::<plays::TakeToken>(seat, right);
    pay_part(top, seat, processor, slot, vault, part);
    let right = top.split_seat::<plays::GiveToken>(seat);
    top.join_seat::<plays::TakeBack>(lender, right);
}

/// Finds what is current in the cell, at its place, by a seat that has the right to a section itself, and shows parts of the box
/// that it has. None where none was laid for this processor.
pub(crate) fn show_here<A: Allocator, T: Drop, B: Allocator, U, F: FnOnce(&Part<T>) -> U>(
    table: &Words<A>,
    seat: &mut DomainSeat,
    processor: u16,
    cell: usize,
    place: usize,
    vault: &Vault<T, B>,
    show: F,
) -> Option<U>
    requires placed { IsPlaced table.now.shared.key table.now.shared.table_id seat.old }
    requires role { (seat.old.me.0.role ≡ Cpu processor) × (processor < table.now.shared.key.processors) }
    requires section { HasSection seat.old }
    requires cell { cell < cells_in table.now.shared.table_id }
    requires place { place ≡ cell_place table.now.shared.key.processors cell }
    requires vault { KnowsVault cell (8 * table.now.shared.key.processors) vault.now seat.old.me.0.texts }
    requires may { F.IsAlwaysCallable show }
    ensures { (here : ShowsHere cell seat.old seat.new) × MatchOption result
        ((offer_of cell (here.word / 16) here.at.texts).each ≤ processor)
        (λ shown. ShowsPart F.FnOnce show (offer_of cell (here.word / 16) here.at.texts).round shown) }
{
    let top = &table.shared;
    let word = top.load::<plays::FindThere>(seat, place);
    let slot = 8 * cell + (word % 16) as usize;
    let key = take_key(top, seat, processor, slot);
    let (key, shown) = vault.show(key, 8 * processor as usize + slot % 8, show);
    top.exchange(seat, 32 * processor as usize + slot, key);
    top.load::<plays::ReturnKey>(seat, slot);
    shown
}
