//! How the engine's seat and processors come to see one history.
ghost use Rattle.std.specs.Prelude.{◌≡◌, ℕ, ◌<◌, ◌≤◌};
ghost use Rattle.onedom.specs.Histories.{IsBeginning};
ghost use Rattle.sections.specs.Calls.{Accepts, IsSeenBy};
ghost use Rattle.sections.specs.declared.view.Shown.TheVariants.{To};
ghost use Rattle.sections.specs.EngineCalls.{Covers, TiesEngine, noted, IsTied};

use super::EngineSeat;
use crate::cpu::Cpu;
use crate::cpu::steps::{accept, cover, note_shown};
use std::alloc::Allocator;

// Loads that change nothing: for who has to show how far somebody has seen.
impl<A: Allocator> EngineSeat<A> {
    /// One load of the index word by the engine, which has then seen what the processor has. Both are of one domain.
    pub fn cover(&mut self, cpu: &mut Cpu<A>)
        requires { cpu.old.domain ≡ self.old.domain }
        ensures engine { Covers self.old cpu.old.seen cpu.old.changes self.new }
        ensures cpu { cpu.new ≡ cpu.old }
    {
        cover(&self.table.shared, &mut self.seat, &mut cpu.seat);
    }

    /// One load of the index word by the processor, which has then seen just as much as the engine. The engine must have
    /// seen what the processor has, as after [`EngineSeat::cover`]. Both are of one domain. The processor had seen what
    /// the engine knew of it.
    pub fn admit(&mut self, cpu: &mut Cpu<A>)
        requires domain { cpu.old.domain ≡ self.old.domain }
        requires covered { IsBeginning cpu.old.seen self.old.seen × (cpu.old.changes ≤ self.old.changes) }
        ensures engine { self.new ≡ self.old }
        ensures cpu { Accepts cpu.old self.old.seen self.old.changes self.old.texts cpu.new }
        ensures was { IsSeenBy cpu.old }
        ensures sized { cpu.old.processors ≡ self.old.processors }
        ensures heard { (n : ℕ) → self.old.shown ≡ To cpu.old.processor n → n ≤ cpu.old.changes }
    {
        accept(&self.table.shared, &mut cpu.seat, &mut self.seat);
    }

    /// The engine notes how many changes the processor has seen: no step, but for the loads that tell nothing.
    fn note(&mut self, cpu: &mut Cpu<A>)
        requires { cpu.old.domain ≡ self.old.domain }
        ensures engine { self.new ≡ noted cpu.old.processor cpu.old.changes self.old }
        ensures there { cpu.old.processor < self.old.processors }
        ensures cpu { cpu.new ≡ cpu.old }
    {
        note_shown(&self.table.shared, &mut self.seat, &mut cpu.seat);
    }

    /// One load of the index word by the engine, and then one by the processor. Both have then seen one history, and the
    /// engine is tied: until it changes the number or the index word again, this processor has seen all that it made.
    pub fn tie(&mut self, cpu: &mut Cpu<A>)
        requires { cpu.old.domain ≡ self.old.domain }
        ensures ties { TiesEngine self.old cpu.old self.new cpu.new }
        ensures tied { IsTied self.new }
    {
        self.cover(cpu);
        self.admit(cpu);
        self.note(cpu);
    }
}
