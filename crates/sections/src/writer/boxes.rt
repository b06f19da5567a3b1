//! Boxes in a cell: the keys of the cell's vault are laid, then parts of boxes, and parts are taken back.
ghost use Rattle.std.specs.Prelude.{◌≡◌};
ghost use Rattle.sections.specs.Boxes.{IsNextKey, LaysKey, HasKey, HasRoom, LaysParts, IsNextToCollect, Collects};
ghost use Rattle.sections.specs.Writers.{IsOwn};

use super::{Slot, Writer};
use crate::cpu::Cpu;
use crate::cpu::laying::{empty_key, lay_key, lay_parts};
use std::alloc::Allocator;
use std::marker::Brand;
use vault::{Key, Pile, Vault};

impl Writer {
    /// Lays the key of a slot for a processor. Keys are laid in the order of their places in one vault: first those of
    /// processor 0 to its eight slots, then those of processor 1.
    pub fn equip<A: Allocator>(&mut self, cpu: &Cpu<A>, processor: u16, slot: usize, key: Key)
        requires here { cpu.now.domain ≡ self.old.domain }
        requires next { IsNextKey cpu.now.processors processor slot key self.old }
        ensures { LaysKey key self.old self.new }
    {
        let top = &cpu.table.shared;
        lay_key::<Brand>(top, &mut self.seat, self.cell, slot, processor, key);
    }

    /// Lays parts of a box in the slot, for readers on this processor. All parts in a slot are of one box.
    pub fn lay<T: Drop, A: Allocator, B: Allocator>(
        &mut self,
        cpu: &Cpu<A>,
        slot: &Slot,
        processor: u16,
        vault: &Vault<T, B>,
        pile: Pile<T>,
    )
        requires here { cpu.now.domain ≡ self.old.domain }
        requires own { IsOwn self.old slot.now }
        requires key { HasKey cpu.now.processors processor slot.now.slot vault.now self.old }
        requires room { HasRoom slot.now.slot pile.part.count pile.part.round self.old }
        ensures { LaysParts processor slot.now.slot pile.part.count pile.part.round self.old self.new }
    {
        let target = slot.slot;
        lay_parts::<T, B, Brand>(
            &cpu.table.shared,
            &mut self.seat,
            self.cell,
            target,
            processor,
            vault,
            pile,
        );
    }

    /// Takes back the parts of the slot that lie at this processor: None where there are none. Processors come in their
    /// order, from 0. After the last one every part of the slot is back: none is out with a reader.
    pub fn collect<T: Drop, A: Allocator, B: Allocator>(
        &mut self,
        cpu: &Cpu<A>,
        slot: &Slot,
        processor: u16,
        vault: &Vault<T, B>,
    ) -> Option<Pile<T>>
        requires here { cpu.now.domain ≡ self.old.domain }
        requires own { IsOwn self.old slot.now }
        requires key { HasKey cpu.now.processors processor slot.now.slot vault.now self.old }
        requires next { IsNextToCollect processor slot.now.slot self.old }
        ensures { Collects cpu.now.processors processor slot.now.slot self.old self.new result }
    {
        let source = slot.slot;
        empty_key::<T, B, Brand, Brand>(
            &cpu.table.shared,
            &mut self.seat,
            self.cell,
            source,
            processor,
            vault,
        )
    }
}
