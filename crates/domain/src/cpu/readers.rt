//! Sections on a processor, each call as that of `sections`.
ghost use Rattle.std.specs.Prelude.{◌≡◌, length, MatchResult};
ghost use Rattle.onedom.specs.Histories.{index_of};
ghost use Rattle.sections.specs.Words.{open_readings};
ghost use Rattle.sections.specs.Calls.{Looks, Enters, ReadLocks, DownReads, Unlocks, HasBegun, LooksInVain, IsExhausted, IsHere};
ghost use Rattle.domain.specs.Views.{Stays, with_cpu};
ghost use Rattle.domain.specs.Acting.{loads, begins, ends, ActsAs};

use super::Cpu;
use sections::{Exhausted, Held, Look, Reading};
use std::alloc::Allocator;

impl<J, A: Allocator> Cpu<J, A> {
    /// The number of this processor, from 0.
    pub fn processor(&self) -> u16
        ensures { result ≡ self.now.cpu.processor }
    {
        self.cpu.processor()
    }

    /// How many readings were given out here and are not closed. Held sections don't count, as they may end elsewhere.
    pub fn open_here(&self) -> u64
        ensures { result ≡ length (open_readings self.now.cpu.mine) }
    {
        self.cpu.open_here()
    }

    /// Reads the index word, and what it finds is the current index.
    pub fn look(&mut self) -> Look
        ensures looks { Looks self.old.cpu self.new.cpu result }
        ensures rest { self.new ≡ with_cpu self.new.cpu self.old }
        ensures stays { Stays self.old self.new }
        ensures acts { ActsAs loads self.old self.new }
    {
        self.cpu.look()
    }

    /// Begins a section of the look's index. It is refused, with no step, exactly where this processor has begun as
    /// many sections of this index as the limit allows. The look is gone then, and nothing else has changed.
    pub fn enter(&mut self, look: Look) -> Result<Reading, Exhausted>
        requires { look.domain ≡ self.old.cpu.domain }
        ensures enters { MatchResult result (λ r. Enters self.old.cpu look self.new.cpu r) (λ _. IsExhausted self.old.cpu look.index × (self.new.cpu ≡ self.old.cpu)) }
        ensures rest { self.new ≡ with_cpu self.new.cpu self.old }
        ensures stays { Stays self.old self.new }
        ensures acts { MatchResult result (λ r. ActsAs (begins r.section r.index) self.old self.new) (λ _. ActsAs loads self.old self.new) }
    {
        self.cpu.enter(look)
    }

    /// Begins a section of the current index (`srcu_read_lock`): a look, and then what [`Cpu::enter`] does. Where it is
    /// refused, the index word was loaded, and nothing else was done.
    pub fn read_lock(&mut self) -> Result<Reading, Exhausted>
        ensures locks { MatchResult result (λ r. ReadLocks self.old.cpu self.new.cpu r) (λ _. LooksInVain self.old.cpu self.new.cpu) }
        ensures rest { self.new ≡ with_cpu self.new.cpu self.old }
        ensures stays { Stays self.old self.new }
        ensures acts { MatchResult result (λ r. ActsAs (begins r.section r.index) self.old self.new) (λ _. ActsAs loads self.old self.new) }
    {
        self.cpu.read_lock()
    }

    /// Ends the reading's section, which was begun on this processor (`srcu_read_unlock`), with the reading's index.
    pub fn read_unlock(&mut self, reading: Reading)
        requires { IsHere self.old.cpu reading }
        ensures ends { Unlocks reading self.old.cpu self.new.cpu }
        ensures begun { HasBegun self.old.cpu reading }
        ensures index { index_of reading.section self.new.cpu.seen ≡ reading.index }
        ensures rest { self.new ≡ with_cpu self.new.cpu self.old }
        ensures stays { Stays self.old self.new }
        ensures acts { ActsAs (ends reading.section) self.old self.new }
    {
        self.cpu.read_unlock(reading);
    }

    /// Begins a section that any processor of the domain may end (`srcu_down_read`); refused as [`Cpu::read_lock`] is.
    pub fn down_read(&mut self) -> Result<Held, Exhausted>
        ensures downs { MatchResult result (λ h. DownReads self.old.cpu self.new.cpu h) (λ _. LooksInVain self.old.cpu self.new.cpu) }
        ensures rest { self.new ≡ with_cpu self.new.cpu self.old }
        ensures stays { Stays self.old self.new }
        ensures acts { MatchResult result (λ h. ActsAs (begins h.section h.index) self.old self.new) (λ _. ActsAs loads self.old self.new) }
    {
        self.cpu.down_read()
    }

    /// Ends a held section on this processor, wherever it was begun (`srcu_up_read`), with the index of its beginning.
    pub fn up_read(&mut self, held: Held)
        requires { held.domain ≡ self.old.cpu.domain }
        ensures ends { Unlocks held self.old.cpu self.new.cpu }
        ensures index { index_of held.section self.new.cpu.seen ≡ held.index }
        ensures rest { self.new ≡ with_cpu self.new.cpu self.old }
        ensures stays { Stays self.old self.new }
        ensures acts { ActsAs (ends held.section) self.old self.new }
    {
        self.cpu.up_read(held);
    }
}
