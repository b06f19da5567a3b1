//! What is read of a cell whose versions are values of one type.
ghost use Rattle.std.specs.Prelude.{◌≡◌, IfErr, MatchResult};
ghost use Rattle.sections.specs.Calls.{LooksInVain};
ghost use Rattle.sections.specs.Reads.{Finds, IsPinned};
ghost use Rattle.domain.specs.Views.{Stays, with_cpu};
ghost use Rattle.domain.specs.Acting.{loads, ActsAs};
ghost use Rattle.shelf.specs.Cells.{IsCellIn, cell_of};
ghost use Rattle.shelf.specs.Reading.{Reads, ReadsOnce, Loads};

use crate::name::DomainName;
use crate::versioned::Versioned;
use domain::{Cpu, Exhausted, Held, HeldPin, Pin, Reading, Writer};
use std::alloc::Allocator;
use std::marker::{Model, PhantomData};

/// Reads the values of a cell, on any processor of its domain. Threads share it by reference. Contracts see the number of
/// the cell and the cell's domain.
#[derive(Drop)]
pub struct Values<T> {
    cell: usize,
    domain: DomainName,
    marker: PhantomData<T>,
}

impl<T> Model for Values<T> {
    ghost use Rattle.shelf.specs.Cells.{CellView};

    ghost Value = { CellView };

    ghost use Rattle.shelf.specs.Insides.{view_of_values};

    ghost view = { view_of_values };
}

impl<T: Versioned> Values<T> {
    pub(crate) fn of_writer(writer: &Writer) -> Values<T>
        ensures { result ≡ cell_of writer.now }
    {
        Values {
            cell: writer.cell(),
            domain: DomainName::of(writer),
            marker: PhantomData,
        }
    }

    /// The value that is there, in a section of its own, which ends with the last of its words. It is no older than any that
    /// the processor has seen. It takes no memory and does not wait, and is refused as [`Cpu::read_lock`] is.
    pub fn get<J, A: Allocator>(&self, cpu: &mut Cpu<J, A>) -> Result<T, Exhausted>
        requires { IsCellIn cpu.old.cpu.domain self.now }
        ensures reads { MatchResult result
            (λ value. ReadsOnce T.value self.now.cell cpu.old value cpu.new)
            (λ _. LooksInVain cpu.old.cpu cpu.new.cpu) }
        ensures rest { cpu.new ≡ with_cpu cpu.new.cpu cpu.old }
        ensures stays { Stays cpu.old cpu.new }
        ensures refused { IfErr result (λ _. ActsAs loads cpu.old cpu.new) }
    {
        let reading = cpu.read_lock()?;
        Ok(T::decode(&cpu.words_and_unlock(reading, self.cell)))
    }

    /// The value that is there (`srcu_dereference`), read in the reading's section. It is no older than any that the
    /// processor has seen. It takes no memory and does not wait.
    pub fn read<J, A: Allocator>(&self, cpu: &mut Cpu<J, A>, reading: &mut Reading) -> T
        requires here { reading.old.domain ≡ cpu.old.cpu.domain }
        requires cell { IsCellIn cpu.old.cpu.domain self.now }
        ensures reads { Reads T.value self.now.cell reading.old cpu.old cpu.new result }
        ensures reading { reading.new ≡ reading.old }
        ensures stays { Stays cpu.old cpu.new }
    {
        let mut pin = cpu.find(reading, self.cell);
        self.load(cpu, &mut pin)
    }

    /// Finds the value that is there, to read it again and again: it stays as it is until the section ends.
    pub fn find<'a, J, A: Allocator>(
        &self,
        cpu: &mut Cpu<J, A>,
        reading: &'a mut Reading,
    ) -> Pin<'a>
        requires here { reading.old.domain ≡ cpu.old.cpu.domain }
        requires cell { IsCellIn cpu.old.cpu.domain self.now }
        ensures finds { Finds self.now.cell reading.old cpu.old.cpu cpu.new.cpu result.found }
        ensures pinned { IsPinned reading.old result.found }
        ensures reading { result.section.now ≡ reading.old }
        ensures same_reference { result.section.ghost_name ≡ reading.entry.ghost_name }
        ensures rest { cpu.new ≡ with_cpu cpu.new.cpu cpu.old }
        ensures stays { Stays cpu.old cpu.new }
    {
        cpu.find(reading, self.cell)
    }

    /// The value that the pin found, however long its section has slept and whatever has been put since.
    pub fn load<J, A: Allocator>(&self, cpu: &mut Cpu<J, A>, pin: &mut Pin<'_>) -> T
        requires here { pin.old.section.now.domain ≡ cpu.old.cpu.domain }
        requires pinned { IsPinned pin.old.section.now pin.old.found }
        requires same { self.now.domain ≡ cpu.old.cpu.domain }
        requires cell { pin.old.found.cell ≡ self.now.cell }
        ensures loads { Loads T.value pin.old.section.now pin.old.found cpu.old cpu.new result }
        ensures same { (pin.new.section.now ≡ pin.old.section.now) × (pin.new.found ≡ pin.old.found) }
        ensures same_reference { pin.new.section.ghost_name ≡ pin.old.section.ghost_name }
        ensures stays { Stays cpu.old cpu.new }
    {
        T::decode(&cpu.words(pin))
    }

    /// As [`Values::find`], in a held section, which the pin then owns. It may go to another thread.
    pub fn find_held<J, A: Allocator>(&self, cpu: &mut Cpu<J, A>, held: Held) -> HeldPin
        requires here { held.domain ≡ cpu.old.cpu.domain }
        requires cell { IsCellIn cpu.old.cpu.domain self.now }
        ensures finds { Finds self.now.cell held cpu.old.cpu cpu.new.cpu result.found }
        ensures section { result.section ≡ held }
        ensures rest { cpu.new ≡ with_cpu cpu.new.cpu cpu.old }
        ensures stays { Stays cpu.old cpu.new }
    {
        cpu.find_held(held, self.cell)
    }

    /// As [`Values::load`], on any processor of the domain.
    pub fn load_held<J, A: Allocator>(&self, cpu: &mut Cpu<J, A>, pin: &mut HeldPin) -> T
        requires here { pin.old.section.domain ≡ cpu.old.cpu.domain }
        requires same { self.now.domain ≡ cpu.old.cpu.domain }
        requires cell { pin.old.found.cell ≡ self.now.cell }
        ensures loads { Loads T.value pin.old.section pin.old.found cpu.old cpu.new result }
        ensures same { pin.new ≡ pin.old }
        ensures stays { Stays cpu.old cpu.new }
    {
        T::decode(&cpu.words_held(pin))
    }
}
