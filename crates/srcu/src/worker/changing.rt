//! New versions: of a value, of a table, of a chain.
ghost use Rattle.std.specs.Prelude.{◌≡◌, ◌<◌, IfOk, MatchResult};
ghost use Rattle.sections.specs.Shelves.{words_of};
ghost use Rattle.domain.specs.Publishing.{FindsNone};
ghost use Rattle.shelf.specs.Replacing.{Replaces};
ghost use Rattle.plugs.specs.Tables.{text_of};
ghost use Rattle.plugs.specs.Changes.{Installs, IsNotInstalled, Removes, IsNotRemoved};
ghost use Rattle.notify.specs.Blocks.{IsTextOf};
ghost use Rattle.notify.specs.Changes.{IsSameChain, Registers, RefusesRegister, Unregisters, RefusesUnregister};
ghost use Rattle.srcu.specs.Workers.{IsSameWorker};

use super::Worker;
use notify::{Chain, RegisterRefusal, UnregisterRefusal};
use plugs::{InstallRefusal, RemoveRefusal, Table};
use shelf::{NoSlot, Shelf, Versioned};
use std::alloc::Allocator;

impl<'a, J, A: Allocator> Worker<'a, J, A> {
    /// Replaces a value (`rcu_assign_pointer`), and asks for the grace period after which no section reads the old one. Returns
    /// the number of its cookie.
    pub fn replace<T: Versioned>(&mut self, shelf: &mut Shelf<T>, value: &T) -> Result<u64, NoSlot>
        requires shelf { shelf.old.domain ≡ self.old.domain.domain }
        requires fits { T.fits value.now }
        ensures same { IsSameWorker self.old self.new }
        ensures shelf { (shelf.new.domain ≡ shelf.old.domain) × (shelf.new.cell ≡ shelf.old.cell) }
        ensures replaces { MatchResult result
            (λ cookie. Replaces (T.text value.now) cookie shelf.old self.old.cpu shelf.new self.new.cpu)
            (λ _. FindsNone shelf.old self.old.cpu shelf.new self.new.cpu) }
        ensures has { IfOk result (λ _. words_of shelf.old.cell shelf.new.version self.new.cpu.cpu.texts ≡ T.text value.now) }
    {
        shelf.replace(self.domain, &mut self.cpu, value)
    }

    /// Gives a key of a table this plug, and returns the version that has it.
    pub fn install(&mut self, table: &mut Table, key: u32, plug: u32) -> Result<u64, InstallRefusal>
        requires { table.old.writer.domain ≡ self.old.domain.domain }
        ensures same { IsSameWorker self.old self.new }
        ensures table { (table.new.writer.domain ≡ table.old.writer.domain) × (table.new.writer.cell ≡ table.old.writer.cell) }
        ensures installs { MatchResult result
            (λ version. Installs key plug version table.old self.old.cpu table.new self.new.cpu)
            (λ refusal. IsNotInstalled key refusal table.old self.old.cpu table.new self.new.cpu) }
        ensures has { IfOk result (λ version. words_of table.old.writer.cell version self.new.cpu.cpu.texts ≡ text_of table.new.rows) }
    {
        table.install(self.domain, &mut self.cpu, key, plug)
    }

    /// Removes a key from a table, and returns the version that lacks it.
    pub fn remove(&mut self, table: &mut Table, key: u32) -> Result<u64, RemoveRefusal>
        requires { table.old.writer.domain ≡ self.old.domain.domain }
        ensures same { IsSameWorker self.old self.new }
        ensures table { (table.new.writer.domain ≡ table.old.writer.domain) × (table.new.writer.cell ≡ table.old.writer.cell) }
        ensures removes { MatchResult result
            (λ version. Removes key version table.old self.old.cpu table.new self.new.cpu)
            (λ refusal. IsNotRemoved key refusal table.old self.old.cpu table.new self.new.cpu) }
        ensures has { IfOk result (λ version. words_of table.old.writer.cell version self.new.cpu.cpu.texts ≡ text_of table.new.rows) }
    {
        table.remove(self.domain, &mut self.cpu, key)
    }

    /// Registers the handler of this id with a chain (`srcu_notifier_chain_register`): those of higher priority are called
    /// before it.
    pub fn register(
        &mut self,
        chain: &mut Chain,
        id: u64,
        priority: i32,
    ) -> Result<(), RegisterRefusal>
        requires chain { chain.old.writer.domain ≡ self.old.domain.domain }
        requires id { id < chain.old.ids }
        ensures same { IsSameWorker self.old self.new }
        ensures chain { IsSameChain chain.old chain.new }
        ensures registers { MatchResult result
            (λ _. Registers (record { id = id; priority = priority }) chain.old self.old.cpu chain.new self.new.cpu)
            (λ e. RefusesRegister id e chain.old self.old.cpu chain.new self.new.cpu) }
        ensures has { IfOk result (λ _. IsTextOf chain.new.ids (words_of chain.new.writer.cell chain.new.writer.version self.new.cpu.cpu.texts) chain.new.blocks) }
    {
        chain.register(self.domain, &mut self.cpu, id, priority)
    }

    /// Unregisters the handler of this id (`srcu_notifier_chain_unregister`). After the grace period that it asks for, no
    /// call of the chain runs it.
    pub fn unregister(&mut self, chain: &mut Chain, id: u64) -> Result<(), UnregisterRefusal>
        requires chain { chain.old.writer.domain ≡ self.old.domain.domain }
        requires id { id < chain.old.ids }
        ensures same { IsSameWorker self.old self.new }
        ensures chain { IsSameChain chain.old chain.new }
        ensures unregisters { MatchResult result
            (λ _. Unregisters id chain.old self.old.cpu chain.new self.new.cpu)
            (λ e. RefusesUnregister id e chain.old self.old.cpu chain.new self.new.cpu) }
        ensures has { IfOk result (λ _. IsTextOf chain.new.ids (words_of chain.new.writer.cell chain.new.writer.version self.new.cpu.cpu.texts) chain.new.blocks) }
    {
        chain.unregister(self.domain, &mut self.cpu, id)
    }
}
