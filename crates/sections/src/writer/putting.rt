//! A filled slot becomes the next version of its cell.
ghost use Rattle.std.specs.Prelude.{◌≡◌};
ghost use Rattle.sections.specs.Shelves.{words_of, slot_words};
ghost use Rattle.sections.specs.Writers.{IsOwn, PutsSlot};

use super::{Slot, Standing, Writer};
use crate::cpu::Cpu;
use crate::cpu::steps::note_number;
use crate::cpu::writing::{put_in, refresh_in};
use sseq::snap;
use std::alloc::Allocator;

impl Writer {
    /// Puts the slot as the next version of the cell (`rcu_assign_pointer`). The slot that was current is retired, with a
    /// cookie of now: its number is the answer. Once that is done, [`Writer::reclaim`] makes it blank. The version has the
    /// words that the slot had.
    pub fn put<A: Allocator>(&mut self, cpu: &mut Cpu<A>, slot: Slot) -> u64
        requires here { cpu.old.domain ≡ self.old.domain }
        requires own { IsOwn self.old slot }
        ensures puts { PutsSlot slot.slot result self.old cpu.old self.new cpu.new }
        ensures has { words_of self.old.cell self.new.version cpu.new.texts ≡ slot_words slot.slot self.old.words }
    {
        let Slot {
            home,
            cell: _,
            slot,
        } = slot;
        let table = &*cpu.table;
        let word = 16 * (self.version + 1) + slot as u64;
        // The cell before the cookie: each section that found the old slot had begun before the cookie was taken, so the
        // slot's period waits for it. With the cookie first, a section that begins after it could still find the old slot,
        // and read it while it is written.
        put_in(table, &mut cpu.seat, &mut self.seat, self.cell, slot, word);
        let cookie = snap(note_number(&table.shared, &mut cpu.seat));
        // The writer's seat has then seen the load of the cookie too, so its next step comes after it.
        refresh_in(table, &mut cpu.seat, &mut self.seat, self.cell);
        let retired = self.current;
        self.standings[retired] = Standing::Retired(cookie);
        self.standings[slot] = Standing::Current;
        self.homes[slot] = Some(home);
        self.current = slot;
        self.version += 1;
        cookie
    }
}
