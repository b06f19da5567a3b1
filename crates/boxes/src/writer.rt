//! The writer of a cell of boxes.
ghost use Rattle.std.specs.Prelude.{◌≡◌, ◌^◌, ◌<◌, ◌≤◌, Some, None, MatchBool, MatchOption, MatchResult};
ghost use Rattle.std_alloc.specs.Box.{box_allocator};
ghost use Rattle.domain.specs.Views.{IsOf, Stays, with_cpu};
ghost use Rattle.boxes.specs.Boxes.{Stored, IsCellIn, IsCellOf, cell_of, left_in, stored_at};
ghost use Rattle.boxes.specs.Writing.{NoneFree, PutsBox, PutsNone, BringsBack, Replaces, ReplacesNone, Retires};

use crate::laying::lay_all;
use crate::rest::{Rest, keep_at};
use domain::{Cpu, Domain, Writer};
use parts::{LooseDeed, Terms, freeze};
use std::alloc::{Allocator, Global};
use std::marker::Model;
use std::sync::Arc;
use vault::Vault;

mod slots;

/// From so many versions on nothing is put, and no box comes back.
const MOST_VERSIONS: u64 = 18_014_398_509_481_984;

/// No slot is free: each holds the current version, or a box that has yet to come back. Or the cell has had 2^54 versions.
#[derive(Clone, Copy, Debug, PartialEq, Eq)]
pub struct NoSlot;

/// The writer of a cell of boxes: it alone puts boxes there, and has them back. Dropped, it leaks those that did not come
/// back: bring them back first, by [`BoxWriter::retire`] and [`BoxWriter::reclaim`], until [`BoxWriter::left`] is 0. Contracts
/// see the cell's writer, and which boxes have yet to come back.
#[derive(Drop)]
pub struct BoxWriter<V, A: Allocator = Global> {
    pub(crate) writer: Writer,
    pub(crate) vault: Arc<Vault<V, A>, A>,
    pub(crate) processors: usize,
    /// Of each slot, what is left of the box that was put there, until that comes back.
    pub(crate) rests: [Option<Rest<V, A>>; 8],
}

impl<V, A: Allocator> Model for BoxWriter<V, A> {
    ghost use Rattle.boxes.specs.Boxes.{BoxWriterView};

    ghost Value = { BoxWriterView V A };

    ghost use Rattle.boxes.specs.Insides.{view_of_writer, IsBoxWriter};

    ghost view = { view_of_writer };

    ghost invariant = { IsBoxWriter };
}

impl<V: Drop, A: Allocator> BoxWriter<V, A> {
    /// Puts a box as the next version (`rcu_assign_pointer`). It asks for the grace period after which no section reads the one
    /// that was there, and returns the number of that cookie. The box is handed back where no slot is free, or 2^54 versions
    /// were put. It takes no memory and does not wait.
    pub fn put<J, B: Allocator>(
        &mut self,
        domain: &Domain<J, B>,
        cpu: &mut Cpu<J, B>,
        whole: Box<V, A>,
    ) -> Result<u64, Box<V, A>>
        requires domain { IsOf domain.now cpu.old }
        requires cell { IsCellIn domain.now (cell_of self.old) }
        ensures here { IsOf domain.now cpu.new }
        ensures same { cell_of self.new ≡ cell_of self.old }
        ensures puts { MatchResult result
            (λ cookie. (s : Stored V A) × (s.value ≡ whole.value) × (s.heap ≡ box_allocator whole) × PutsBox s cookie self.old cpu.old self.new cpu.new)
            (λ back. (back ≡ whole) × NoneFree self.old × (self.new ≡ self.old) × (cpu.new ≡ cpu.old)) }
    {
        let Some(slot) = self.free_slot() else {
            return Err(whole);
        };
        let (deed, all) = freeze(whole);
        let part = lay_all(
            &mut self.writer,
            &*cpu,
            &slot,
            &*self.vault,
            self.processors,
            all,
        );
        let rest = Rest {
            deed: LooseDeed::new(deed),
            part,
        };
        keep_at(&mut self.rests, slot.number(), rest);
        Ok(domain.put_and_ask(cpu, &mut self.writer, slot))
    }

    /// Puts a version with no box, so that the last one can come back. Returns what [`BoxWriter::put`] does, and None where
    /// that hands its box back.
    pub fn put_none<J, B: Allocator>(
        &mut self,
        domain: &Domain<J, B>,
        cpu: &mut Cpu<J, B>,
    ) -> Option<u64>
        requires domain { IsOf domain.now cpu.old }
        requires cell { IsCellIn domain.now (cell_of self.old) }
        ensures here { IsOf domain.now cpu.new }
        ensures same { cell_of self.new ≡ cell_of self.old }
        ensures puts { MatchOption result
            (NoneFree self.old × (self.new ≡ self.old) × (cpu.new ≡ cpu.old))
            (λ cookie. PutsNone cookie self.old cpu.old self.new cpu.new) }
    {
        let Some(slot) = self.free_slot() else {
            return None;
        };
        Some(domain.put_and_ask(cpu, &mut self.writer, slot))
    }

    /// A box that no section can read any more, after a full grace period. It asks after the cookie of each retired slot,
    /// once. None where no such box is left, or 2^54 versions were put.
    pub fn reclaim<J, B: Allocator>(&mut self, cpu: &mut Cpu<J, B>) -> Option<Box<V, A>>
        requires cell { IsCellOf cpu.old.cpu (cell_of self.old) }
        ensures back { BringsBack result self.old cpu.old.cpu self.new cpu.new.cpu }
        ensures same { cell_of self.new ≡ cell_of self.old }
        ensures rest { cpu.new ≡ with_cpu cpu.new.cpu cpu.old }
        ensures stays { Stays cpu.old cpu.new }
    {
        self.writer.reclaim(cpu);
        for slot in 0..self.writer.slots() {
            match self.take_back(&*cpu, slot) {
                Some(whole) => return Some(whole),
                None => {}
            }
        }
        None
    }

    /// Puts a box as [`BoxWriter::put`] does, and has an older one back first, if one can come back. Where the box is handed
    /// back, no other one came back.
    pub fn replace<J, B: Allocator>(
        &mut self,
        domain: &Domain<J, B>,
        cpu: &mut Cpu<J, B>,
        whole: Box<V, A>,
    ) -> Result<Option<Box<V, A>>, Box<V, A>>
        requires domain { IsOf domain.now cpu.old }
        requires cell { IsCellIn domain.now (cell_of self.old) }
        ensures here { IsOf domain.now cpu.new }
        ensures same { cell_of self.new ≡ cell_of self.old }
        ensures puts { MatchResult result
            (λ old. Replaces whole old self.old cpu.old self.new cpu.new)
            (λ back. (back ≡ whole) × ReplacesNone self.old cpu.old self.new cpu.new) }
    {
        let old = self.reclaim(cpu);
        match self.put(domain, cpu, whole) {
            Ok(_) => Ok(old),
            Err(whole) => Err(whole),
        }
    }

    /// Puts a version with no box as [`BoxWriter::put_none`] does, and has an older box back first, if one can come back. Where
    /// it is refused, no box came back.
    pub fn retire<J, B: Allocator>(
        &mut self,
        domain: &Domain<J, B>,
        cpu: &mut Cpu<J, B>,
    ) -> Result<Option<Box<V, A>>, NoSlot>
        requires domain { IsOf domain.now cpu.old }
        requires cell { IsCellIn domain.now (cell_of self.old) }
        ensures here { IsOf domain.now cpu.new }
        ensures same { cell_of self.new ≡ cell_of self.old }
        ensures puts { MatchResult result
            (λ old. Retires old self.old cpu.old self.new cpu.new)
            (λ _. ReplacesNone self.old cpu.old self.new cpu.new) }
    {
        let back = self.reclaim(cpu);
        match self.put_none(domain, cpu) {
            Some(_) => Ok(back),
            None => Err(NoSlot),
        }
    }

    /// The value of the current version, with no step and no section: a writer keeps a part of each box that it put. None where
    /// the version has no box.
    pub fn current(&self) -> Option<&V>
        ensures { MatchOption result
            (stored_at self.now self.now.writer.current ≡ None)
            (λ v. (s : Stored V A) × (stored_at self.now self.now.writer.current ≡ Some s) × (v.now ≡ s.value)) }
    {
        let slot = self.writer.current_slot();
        match &self.rests[slot] {
            Some(rest) => {
                rest.deed.deed.agree(&rest.part);
                Some(rest.part.get())
            }
            None => None,
        }
    }

    /// How many boxes have yet to come back, that of the current version among them.
    pub fn left(&self) -> usize
        ensures { result ≡ left_in self.now.stored }
    {
        let mut left: usize = 0;
        for slot in 0..8 {
            left += self.left_at(slot);
        }
        left
    }

    /// Whether the cell has had 2^54 versions: then nothing is put any more, and no box comes back.
    pub fn is_spent(&self) -> bool
        ensures { MatchBool result (2 ^ 54 ≤ self.now.writer.version) (self.now.writer.version < 2 ^ 54) }
    {
        self.writer.version() >= MOST_VERSIONS
    }

    /// What pins of the current version read ([`BoxPin::agree`](crate::BoxPin::agree)), as knowledge to hand about. None where
    /// it has no box.
    pub fn terms(&self) -> Option<Terms<V>>
        ensures { MatchOption result
            (stored_at self.now self.now.writer.current ≡ None)
            (λ t. (s : Stored V A) × (stored_at self.now self.now.writer.current ≡ Some s) × (t.value ≡ s.value) × (t.round ≡ s.round)) }
    {
        match &self.rests[self.writer.current_slot()] {
            Some(rest) => Some(Terms::of_deed(&rest.deed.deed)),
            None => None,
        }
    }
}
