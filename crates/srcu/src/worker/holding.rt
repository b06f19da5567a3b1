//! Held sections, which one worker begins and any worker of the domain ends.
ghost use Rattle.std.specs.Prelude.{◌≡◌, IfOk, MatchResult};
ghost use Rattle.onedom.specs.Histories.{index_of};
ghost use Rattle.sections.specs.Calls.{DownReads, LooksInVain, Unlocks};
ghost use Rattle.sections.specs.Reads.{Finds};
ghost use Rattle.domain.specs.Views.{with_cpu};
ghost use Rattle.domain.specs.Acting.{loads, begins, ends, ActsAs};
ghost use Rattle.shelf.specs.Reading.{Loads};
ghost use Rattle.srcu.specs.Workers.{IsSameWorker, IsCellOf};

use super::Worker;
use domain::{Exhausted, Held, HeldPin};
use shelf::{Values, Versioned};
use std::alloc::Allocator;

impl<'a, J, A: Allocator> Worker<'a, J, A> {
    /// Begins a section that any worker of the domain may end (`srcu_down_read`). `Exhausted` where none may begin.
    pub fn down_read(&mut self) -> Result<Held, Exhausted>
        ensures same { IsSameWorker self.old self.new }
        ensures downs { MatchResult result
            (λ held. DownReads self.old.cpu.cpu self.new.cpu.cpu held)
            (λ _. LooksInVain self.old.cpu.cpu self.new.cpu.cpu) }
        ensures here { IfOk result (λ held. held.domain ≡ self.old.domain.domain) }
        ensures rest { self.new.cpu ≡ with_cpu self.new.cpu.cpu self.old.cpu }
        ensures acts { MatchResult result
            (λ held. ActsAs (begins held.section held.index) self.old.cpu self.new.cpu)
            (λ _. ActsAs loads self.old.cpu self.new.cpu) }
    {
        self.cpu.down_read()
    }

    /// Ends a held section, wherever it began (`srcu_up_read`).
    pub fn up_read(&mut self, held: Held)
        requires { held.domain ≡ self.old.domain.domain }
        ensures same { IsSameWorker self.old self.new }
        ensures ends { Unlocks held self.old.cpu.cpu self.new.cpu.cpu }
        ensures index { index_of held.section self.new.cpu.cpu.seen ≡ held.index }
        ensures rest { self.new.cpu ≡ with_cpu self.new.cpu.cpu self.old.cpu }
        ensures acts { ActsAs (ends held.section) self.old.cpu self.new.cpu }
    {
        self.cpu.up_read(held);
    }

    /// Finds the value that is there in a held section (`srcu_dereference`), which the pin then owns. It may go to another
    /// thread, and the value stays as it is until the section ends.
    pub fn find_held<T: Versioned>(&mut self, values: &Values<T>, held: Held) -> HeldPin
        requires here { held.domain ≡ self.old.domain.domain }
        requires cell { IsCellOf self.old.domain values.now }
        ensures same { IsSameWorker self.old self.new }
        ensures finds { Finds values.now.cell held self.old.cpu.cpu self.new.cpu.cpu result.found }
        ensures cell { result.found.cell ≡ values.now.cell }
        ensures section { result.section ≡ held }
        ensures rest { self.new.cpu ≡ with_cpu self.new.cpu.cpu self.old.cpu }
    {
        values.find_held(&mut self.cpu, held)
    }

    /// The value that the pin found, whatever has been put since.
    pub fn load_held<T: Versioned>(&mut self, values: &Values<T>, pin: &mut HeldPin) -> T
        requires here { pin.old.section.domain ≡ self.old.domain.domain }
        requires same { values.now.domain ≡ self.old.domain.domain }
        requires cell { pin.old.found.cell ≡ values.now.cell }
        ensures same { IsSameWorker self.old self.new }
        ensures loads { Loads T.value pin.old.section pin.old.found self.old.cpu self.new.cpu result }
        ensures pin { pin.new ≡ pin.old }
    {
        values.load_held(&mut self.cpu, pin)
    }
}
