//! Slots that are free, and slots whose box comes back.
ghost use Rattle.std.specs.Prelude.{◌≡◌, ◌^◌, ◌<◌, ◌≤◌, ◌⊎◌, MatchOption, length};
ghost use Rattle.std_alloc.specs.Box.{box_allocator};
ghost use Rattle.sections.specs.WriterViews.{SlotView};
ghost use Rattle.boxes.specs.Boxes.{Stored, IsCellOf, cell_of, one_of, stored_at};
ghost use Rattle.boxes.specs.Laying.{TakesFree, IsNotFree};
ghost use Rattle.boxes.specs.Writing.{NoneFree, TakesBack, IsNotBack};

use super::BoxWriter;
use crate::laying::collect_all;
use crate::rest::{Rest, take_at};
use parts::thaw;
use sections::{Cpu, Slot};
use std::alloc::Allocator;

impl<V: Drop, A: Allocator> BoxWriter<V, A> {
    // 1 where the box of this slot has yet to come back, and else 0.
    pub(super) fn left_at(&self, slot: usize) -> usize
        requires { slot < 8 }
        ensures { (result ≡ one_of (stored_at self.now slot)) × (result ≤ 1) × (length self.now.stored ≡ 8) }
    {
        match &self.rests[slot] {
            Some(_) => 1,
            None => 0,
        }
    }

    // A blank slot with no box.
    pub(super) fn free_slot(&mut self) -> Option<Slot>
        ensures { MatchOption result
            (NoneFree self.old × (self.new ≡ self.old))
            (λ s. TakesFree s.slot self.old self.new s) }
    {
        for slot in 0..self.writer.slots() {
            match self.free_at(slot) {
                Some(given) => return Some(given),
                None => {}
            }
        }
        None
    }

    // This slot, if it is blank and has no box.
    fn free_at(&mut self, slot: usize) -> Option<Slot>
        requires { (slot < self.old.writer.slots) × (slot < 8) }
        ensures { MatchOption result
            (((2 ^ 54 ≤ self.old.writer.version) ⊎ IsNotFree self.old slot) × (self.new ≡ self.old))
            (λ s. (s.slot ≡ slot) × TakesFree slot self.old self.new s) }
    {
        if self.rests[slot].is_some() {
            return None;
        }
        self.writer.blank_at(slot)
    }

    // The box of this slot, if it is blank and has one.
    pub(super) fn take_back<B: Allocator>(&mut self, cpu: &Cpu<B>, slot: usize) -> Option<Box<V, A>>
        requires cell { IsCellOf cpu.now (cell_of self.old) }
        requires slot { (slot < self.old.writer.slots) × (slot < 8) }
        ensures { MatchOption result
            (((2 ^ 54 ≤ self.old.writer.version) ⊎ IsNotBack self.old slot) × (self.new ≡ self.old))
            (λ whole. (s : Stored V A) × (whole.value ≡ s.value) × (box_allocator whole ≡ s.heap) × TakesBack s slot self.old self.new) }
    {
        if self.rests[slot].is_none() {
            return None;
        }
        let given = self.writer.blank_at(slot)?;
        let Rest { deed, part } = take_at(&mut self.rests, slot).unwrap();
        let all = collect_all(
            &mut self.writer,
            cpu,
            &given,
            &*self.vault,
            self.processors,
            part,
        );
        self.writer.give_back(given);
        Some(thaw(deed.into_deed(), all))
    }
}
