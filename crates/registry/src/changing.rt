//! Devices are inserted, removed and replaced.
ghost use Rattle.std.specs.Prelude.{◌≡◌, IfErr, MatchResult};
ghost use Rattle.domain.specs.Views.{IsOf};
ghost use Rattle.domain.specs.Waiting.{HasNoneOpen};
ghost use Rattle.boxes.specs.Boxes.{IsCellIn, cell_of};
ghost use Rattle.registry.specs.Names.{names_of};
ghost use Rattle.registry.specs.Changing.{Inserts, Refuses, Removes, Replaces};
ghost use Rattle.registry.specs.Refusing.{IsNotInserted, IsNotRemoved, IsNotReplaced};

use crate::placing::{exchange, put_in, take_out};
use crate::publishing::collect;
use crate::refusals::{InsertRefusal, RemoveRefusal, ReplaceRefusal};
use crate::registry::Registry;
use domain::{Cpu, Domain};
use std::alloc::Allocator;

impl<K: Ord + Copy, V: Drop, A: Allocator + Copy> Registry<K, V, A> {
    /// Inserts a device under a key: sections that begin from now on find it. It comes back where it can't be inserted.
    pub fn insert<J, B: Allocator>(
        &mut self,
        domain: &Domain<J, B>,
        cpu: &mut Cpu<J, B>,
        key: K,
        value: V,
    ) -> Result<(), (V, InsertRefusal)>
        requires domain { IsOf domain.now cpu.old }
        requires cell { IsCellIn domain.now (cell_of self.old.writer) }
        ensures here { IsOf domain.now cpu.new }
        ensures same { cell_of self.new.writer ≡ cell_of self.old.writer }
        ensures still_none { HasNoneOpen cpu.old → HasNoneOpen cpu.new }
        ensures inserts { MatchResult result
            (λ _. Inserts K.cmp key value self.old cpu.old self.new cpu.new)
            (λ r. (r.0 ≡ value) × Refuses self.old cpu.old self.new cpu.new) }
        ensures refused { IfErr result (λ r. IsNotInserted K.cmp key r.1 (names_of self.old.here) self.new.writer) }
    {
        collect(&mut self.devices, &mut self.writer, cpu);
        let number = self.changes;
        match put_in(
            self.alloc,
            &mut self.devices,
            &mut self.writer,
            number,
            domain,
            cpu,
            key,
            value,
        ) {
            Ok(()) => {
                self.changes += 1;
                Ok(())
            }
            Err(refused) => Err(refused),
        }
    }

    /// Removes the device of a key: no section that begins from now on finds it. [`Registry::reclaim`] returns it once none
    /// can use it any more.
    pub fn remove<J, B: Allocator>(
        &mut self,
        domain: &Domain<J, B>,
        cpu: &mut Cpu<J, B>,
        key: K,
    ) -> Result<(), RemoveRefusal>
        requires domain { IsOf domain.now cpu.old }
        requires cell { IsCellIn domain.now (cell_of self.old.writer) }
        ensures here { IsOf domain.now cpu.new }
        ensures same { cell_of self.new.writer ≡ cell_of self.old.writer }
        ensures still_none { HasNoneOpen cpu.old → HasNoneOpen cpu.new }
        ensures removes { MatchResult result
            (λ _. Removes K.cmp key self.old cpu.old self.new cpu.new)
            (λ _. Refuses self.old cpu.old self.new cpu.new) }
        ensures refused { IfErr result (λ e. IsNotRemoved K.cmp key e (names_of self.old.here) self.new.writer) }
    {
        collect(&mut self.devices, &mut self.writer, cpu);
        match take_out(
            self.alloc,
            &mut self.devices,
            &mut self.writer,
            self.changes,
            domain,
            cpu,
            key,
        ) {
            Ok(()) => {
                self.changes += 1;
                Ok(())
            }
            Err(refusal) => Err(refusal),
        }
    }
    /// Puts another device under the key of one: sections that begin from now on find it. The old one leaves, and
    /// [`Registry::reclaim`] returns it once none can use it any more. The new one comes back where nothing is replaced.
    pub fn replace<J, B: Allocator>(
        &mut self,
        domain: &Domain<J, B>,
        cpu: &mut Cpu<J, B>,
        key: K,
        value: V,
    ) -> Result<(), (V, ReplaceRefusal)>
        requires domain { IsOf domain.now cpu.old }
        requires cell { IsCellIn domain.now (cell_of self.old.writer) }
        ensures here { IsOf domain.now cpu.new }
        ensures same { cell_of self.new.writer ≡ cell_of self.old.writer }
        ensures still_none { HasNoneOpen cpu.old → HasNoneOpen cpu.new }
        ensures replaces { MatchResult result
            (λ _. Replaces K.cmp key value self.old cpu.old self.new cpu.new)
            (λ r. (r.0 ≡ value) × Refuses self.old cpu.old self.new cpu.new) }
        ensures refused { IfErr result (λ r. IsNotReplaced K.cmp key r.1 (names_of self.old.here) self.new.writer) }
    {
        collect(&mut self.devices, &mut self.writer, cpu);
        match exchange(
            self.alloc,
            &mut self.devices,
            &mut self.writer,
            self.changes,
            domain,
            cpu,
            key,
            value,
        ) {
            Ok(()) => {
                self.changes += 1;
                Ok(())
            }
            Err(refused) => Err(refused),
        }
    }
}
