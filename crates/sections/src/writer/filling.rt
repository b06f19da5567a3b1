//! Slots are given out, filled and given back.
ghost use Rattle.std.specs.Prelude.{◌≡◌, ◌<◌, ◌≤◌, MatchOption};
ghost use Rattle.sections.specs.Writers.{IsOwn, Sets, GivesBack, Gives, GivesAt, GivesNone, GivesNotAt, NoneBlank, standing_of};
ghost use Rattle.sections.specs.declared.writer.Standing.TheVariants.{Blank};

use super::{Slot, Standing, Writer};
use crate::cpu::Cpu;
use crate::cpu::writing::store_in;
use std::alloc::Allocator;
use std::marker::Brand;

/// From so many versions on no slot is given out.
const MOST_VERSIONS: u64 = 18_014_398_509_481_984;

impl Slot {
    /// Its number among the slots of its cell.
    pub fn number(&self) -> usize
        ensures { result ≡ self.now.slot }
    {
        self.slot
    }
}

impl Writer {
    /// The slot that is current.
    pub fn current_slot(&self) -> usize
        ensures { (result ≡ self.now.current) × (result < 8) }
    {
        self.current
    }

    /// How many slots its cell has: 2 to 8.
    pub fn slots(&self) -> usize
        ensures { (result ≡ self.now.slots) × (result ≤ 8) }
    {
        self.slots
    }

    /// The number of its cell.
    pub fn cell(&self) -> usize
        ensures { result ≡ self.now.cell }
    {
        self.cell
    }

    /// The version that is current, 0 where nothing was put.
    pub fn version(&self) -> u64
        ensures { result ≡ self.now.version }
    {
        self.version
    }

    /// A slot that nobody can read, to be filled. None exactly where no slot is blank, or 2^54 versions were put.
    pub fn blank(&mut self) -> Option<Slot>
        ensures { MatchOption result (GivesNone self.old self.new) (λ s. Gives self.old self.new s) }
    {
        if self.version >= MOST_VERSIONS {
            return None;
        }
        let slot = self.first_blank()?;
        let home = self.homes[slot].take().unwrap();
        self.standings[slot] = Standing::Out;
        Some(Slot {
            home,
            cell: self.cell,
            slot,
        })
    }

    /// This slot, where it is blank, to be filled. None where it isn't, or 2^54 versions were put.
    pub fn blank_at(&mut self, slot: usize) -> Option<Slot>
        requires slot { slot < self.old.slots }
        ensures { MatchOption result (GivesNotAt slot self.old self.new) (λ s. GivesAt slot self.old self.new s) }
    {
        if self.version >= MOST_VERSIONS || !matches!(self.standings[slot], Standing::Blank) {
            return None;
        }
        let home = self.homes[slot].take().unwrap();
        self.standings[slot] = Standing::Out;
        Some(Slot {
            home,
            cell: self.cell,
            slot,
        })
    }

    // The first slot that is blank.
    fn first_blank(&self) -> Option<usize>
        ensures { MatchOption result (NoneBlank self.now) (λ x. (x < self.now.slots) × (standing_of self.now x ≡ Blank)) }
    {
        for slot in 0..self.slots {
            if matches!(self.standings[slot], Standing::Blank) {
                return Some(slot);
            }
        }
        None
    }

    /// Stores a word of the slot. In all that the writer has then seen, this slot isn't current and no open section has
    /// found it.
    pub fn set<A: Allocator>(&mut self, cpu: &mut Cpu<A>, slot: &mut Slot, place: usize, value: u64)
        requires here { cpu.old.domain ≡ self.old.domain }
        requires own { IsOwn self.old slot.old }
        requires place { place < 16 }
        ensures sets { Sets slot.old.slot place value self.old self.new }
        ensures cpu { cpu.new ≡ cpu.old }
        ensures slot { slot.new ≡ slot.old }
    {
        store_in::<A, Brand>(
            &*cpu.table,
            &mut self.seat,
            self.cell,
            slot.slot,
            place,
            value,
        );
    }

    /// The slot is blank again. What was stored there stays until it is stored over.
    pub fn give_back(&mut self, slot: Slot)
        requires own { IsOwn self.old slot }
        ensures back { GivesBack slot.slot self.old self.new }
    {
        let Slot {
            home,
            cell: _,
            slot,
        } = slot;
        self.homes[slot] = Some(home);
        self.standings[slot] = Standing::Blank;
    }
}
