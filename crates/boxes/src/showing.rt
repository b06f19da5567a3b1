//! A box is shown to a closure, in a section of its own.
ghost use Rattle.std.specs.Prelude.{◌≡◌, MatchResult};
ghost use Rattle.sections.specs.Calls.{LooksInVain};
ghost use Rattle.domain.specs.Views.{Stays, with_cpu};
ghost use Rattle.boxes.specs.Boxes.{IsCellOf};
ghost use Rattle.boxes.specs.Showing.{ShowsBox};

use crate::readers::Boxes;
use domain::{Cpu, Exhausted};
use parts::Part;
use std::alloc::Allocator;

impl<V: Drop, A: Allocator> Boxes<V, A> {
    /// Shows a part of the box that is there to a closure, in a section of its own. The part is used as the value, and the terms
    /// of the box tell which that is ([`Terms::agree`](crate::Terms::agree)). The closure may sleep. Returns what it returns, or
    /// None where the version that it found has no box. `Exhausted` where no section may begin. It takes no memory
    /// and does not wait.
    pub fn read<J, B: Allocator, T, F: FnOnce(&Part<V>) -> T>(
        &mut self,
        cpu: &mut Cpu<J, B>,
        show: F,
    ) -> Result<Option<T>, Exhausted>
        requires cell { IsCellOf cpu.old.cpu self.old }
        requires may { F.IsAlwaysCallable show }
        ensures shows { MatchResult result
            (λ shown. ShowsBox F.FnOnce show self.old cpu.old.cpu cpu.new.cpu shown)
            (λ _. LooksInVain cpu.old.cpu cpu.new.cpu) }
        ensures same { self.new ≡ self.old }
        ensures rest { cpu.new ≡ with_cpu cpu.new.cpu cpu.old }
        ensures stays { Stays cpu.old cpu.new }
    {
        cpu.show_in_section(&mut self.first, self.cell, &*self.vault, show)
    }
}
