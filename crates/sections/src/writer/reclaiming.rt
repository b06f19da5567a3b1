//! Retired slots become blank again, once nobody can read them.
ghost use Rattle.std.specs.Prelude.{◌≡◌, ◌<◌};
ghost use Rattle.sections.specs.declared.writer.Standing.TheVariants.{Retired};
ghost use Rattle.sections.specs.Writers.{Reclaims, ReclaimsSlot, standing_of};

use super::{Standing, Writer};
use crate::cpu::Cpu;
use crate::cpu::steps::ask_number;
use crate::cpu::writing::refresh_in;
use crate::plays;
use std::alloc::Allocator;
use std::marker::Brand;

impl Writer {
    /// Asks after the cookie of each retired slot, once. Where it is done, no section is open that has found the slot,
    /// and it is blank again. Each other slot stays as it is.
    pub fn reclaim<A: Allocator>(&mut self, cpu: &mut Cpu<A>)
        requires here { cpu.old.domain ≡ self.old.domain }
        ensures { Reclaims self.old cpu.old self.new cpu.new }
    {
        for slot in 0..self.slots {
            if let Standing::Retired(number) = self.standings[slot] {
                self.reclaim_slot(cpu, slot, number);
            }
        }
    }

    // Asks after the cookie of a retired slot, which is blank again where it is done.
    fn reclaim_slot<A: Allocator>(&mut self, cpu: &mut Cpu<A>, slot: usize, number: u64) -> bool
        requires here { cpu.old.domain ≡ self.old.domain }
        requires slot { (slot < self.old.slots) × (standing_of self.old slot ≡ Retired number) }
        ensures { ReclaimsSlot slot number result self.old cpu.old self.new cpu.new }
    {
        let table = &*cpu.table;
        let top = &table.shared;
        let told = top.split_seat::<plays::Show>(&mut self.seat);
        top.join_seat::<plays::TakeToken>(&mut cpu.seat, told);
        // The answer before the slot is blank: a blank slot may be written, and only the answer says that nobody reads it.
        let done = ask_number::<Brand>(top, &mut cpu.seat, number);
        // The writer's seat has then seen what the answer saw. Else its next store could stand before the end of a section
        // that found this slot.
        refresh_in(table, &mut cpu.seat, &mut self.seat, self.cell);
        if done {
            self.standings[slot] = Standing::Blank;
        }
        done
    }
}
