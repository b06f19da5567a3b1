//! Parts of boxes: steps of the one that writes a cell, with the keys of a slot that no reader can reach.
ghost use Rattle.std.specs.Prelude.{◌≡◌, ◌+◌, ◌*◌, ◌<◌, ◌≤◌};
ghost use Rattle.sections.specs.Pens.{CanWrite};
ghost use Rattle.sections.specs.Handling.{CanEquip, IsNextKey, Equips, CanHandle, LaysFew, Lays, IsNext, Empties};

use crate::board::{Board, DomainSeat};
use crate::plays;
use crate::plays::{AtProcessor, HasProcessors};
use std::alloc::Allocator;
use vault::{Key, Pile, Vault};

/// Lays the next key of the cell's vault: that of this slot for this processor.
pub(crate) fn lay_key<N: AtProcessor>(
    top: &Board,
    pen: &mut DomainSeat,
    cell: usize,
    slot: usize,
    processor: u16,
    key: Key,
)
    requires at { N.processor ≡ processor }
    requires pen { CanEquip top.now.key top.now.table_id cell slot processor pen.old }
    requires key { IsNextKey slot processor key pen.old }
    ensures { Equips cell key pen.old pen.new }
{
    let word = 8 * cell + slot;
    let place = 32 * processor as usize + word;
    top.load::<plays::TakeBare<N>>(pen, word);
    top.exchange(pen, place, key);
    top.load::<plays::LayKey>(pen, word);
}

/// Lays parts with the key of this slot for this processor.
pub(crate) fn lay_parts<T: Drop, A: Allocator, N: AtProcessor>(
    top: &Board,
    pen: &mut DomainSeat,
    cell: usize,
    slot: usize,
    processor: u16,
    vault: &Vault<T, A>,
    pile: Pile<T>,
)
    requires at { N.processor ≡ processor }
    requires pen { CanHandle top.now.key top.now.table_id vault.now cell slot processor pen.old × CanWrite cell slot pen.old }
    requires fits { LaysFew slot pile.part.count pile.part.round pen.old }
    ensures { Lays cell slot processor pile.part.count pile.part.round pen.old pen.new }
{
    let word = 8 * cell + slot;
    let place = 32 * processor as usize + word;
    top.load::<plays::HandleKey<N>>(pen, word);
    let key = top.exchange(pen, place, Key::blank());
    let key = vault.add(key, 8 * processor as usize + slot, pile);
    top.exchange(pen, place, key);
    top.load::<plays::LayParts>(pen, word);
}

/// Takes back all parts that lie with this key. None where there are none. The keys of the processors before this one have
/// none.
pub(crate) fn empty_key<T: Drop, A: Allocator, N: AtProcessor, M: HasProcessors>(
    top: &Board,
    pen: &mut DomainSeat,
    cell: usize,
    slot: usize,
    processor: u16,
    vault: &Vault<T, A>,
) -> Option<Pile<T>>
    requires at { (N.processor ≡ processor) × (M.processors ≡ top.now.key.processors) }
    requires pen { CanHandle top.now.key top.now.table_id vault.now cell slot processor pen.old × CanWrite cell slot pen.old }
    requires next { IsNext slot processor pen.old }
    ensures { Empties top.now.key.processors cell slot processor pen.old pen.new result }
{
    let word = 8 * cell + slot;
    let place = 32 * processor as usize + word;
    top.load::<plays::HandleKey<N>>(pen, word);
    let key = top.exchange(pen, place, Key::blank());
    let (key, pile) = vault.empty(key, 8 * processor as usize + slot);
    top.exchange(pen, place, key);
    top.load::<plays::EmptyKey<M>>(pen, word);
    pile
}
