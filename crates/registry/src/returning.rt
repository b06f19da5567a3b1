//! Devices come back.
ghost use Rattle.std.specs.Prelude.{◌≡◌, ℕ, ◌<◌, [], ◌∷◌, ◌++◌, None, IfSome, MatchOption, All, length};
ghost use Rattle.std.specs.List.{HoldsAt, last_or, remove};
ghost use Rattle.domain.specs.Views.{Stays, with_cpu};
ghost use Rattle.domain.specs.Waiting.{HasNoneOpen};
ghost use Rattle.boxes.specs.Boxes.{IsCellOf, cell_of};
ghost use Rattle.registry.specs.Names.{name_of, names_of};
ghost use Rattle.registry.specs.Registry.{MayBeFound, parts_out};
ghost use Rattle.registry.specs.Changing.{Collects};

use crate::publishing::collect;
use crate::registry::Registry;
use domain::Cpu;
use std::alloc::Allocator;

impl<K: Ord + Copy, V: Drop, A: Allocator + Copy> Registry<K, V, A> {
    /// A device that was removed and that no section can use any more, with its key. None where each one that leaves is shown by
    /// a version that a section may still find.
    pub fn reclaim<J, B: Allocator>(&mut self, cpu: &mut Cpu<J, B>) -> Option<(K, V)>
        requires cell { IsCellOf cpu.old.cpu (cell_of self.old.writer) }
        ensures same { cell_of self.new.writer ≡ cell_of self.old.writer }
        ensures here { names_of self.new.here ≡ names_of self.old.here }
        ensures returns { MatchOption result
            ((names_of self.new.leaving ≡ names_of self.old.leaving) × All (MayBeFound self.new.writer) self.new.leaving)
            (λ name. (i : ℕ) × (i < length self.old.leaving) × HoldsAt (λ d. (name ≡ name_of d) × (parts_out d.number self.new.writer ≡ 0)) self.old.leaving i
            × (names_of self.new.leaving ≡ remove (names_of self.old.leaving) i)) }
        ensures collects { Collects self.old.writer cpu.old.cpu self.new.writer cpu.new.cpu }
        ensures rest { cpu.new ≡ with_cpu cpu.new.cpu cpu.old }
        ensures stays { Stays cpu.old cpu.new }
        ensures cell { IsCellOf cpu.new.cpu (cell_of self.new.writer) }
        ensures still_none { HasNoneOpen cpu.old → HasNoneOpen cpu.new }
    {
        collect(&mut self.devices, &mut self.writer, cpu);
        self.devices.take_whole()
    }

    /// The device that was removed last, if no section can use it any more.
    pub(crate) fn regain<J, B: Allocator>(&mut self, cpu: &mut Cpu<J, B>) -> Option<V>
        requires cell { IsCellOf cpu.old.cpu (cell_of self.old.writer) }
        ensures same { cell_of self.new.writer ≡ cell_of self.old.writer }
        ensures here { names_of self.new.here ≡ names_of self.old.here }
        ensures returns { MatchOption result
            ((names_of self.new.leaving ≡ names_of self.old.leaving) × IfSome (last_or None self.new.leaving) (MayBeFound self.new.writer))
            (λ value. (key : K) × (names_of self.old.leaving ≡ names_of self.new.leaving ++ (key, value) ∷ [])) }
        ensures collects { Collects self.old.writer cpu.old.cpu self.new.writer cpu.new.cpu }
        ensures rest { cpu.new ≡ with_cpu cpu.new.cpu cpu.old }
        ensures stays { Stays cpu.old cpu.new }
    {
        collect(&mut self.devices, &mut self.writer, cpu);
        self.devices.take_last()
    }
}
