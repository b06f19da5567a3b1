//! Sections, each of which closes itself, and leases.
ghost use Rattle.std.specs.Prelude.{◌≡◌, ◌≤◌, length, IfErr, IfOk, MatchResult};
ghost use Rattle.onedom.specs.Histories.{index_of};
ghost use Rattle.sections.specs.Calls.{LooksInVain, Unlocks};
ghost use Rattle.domain.specs.Views.{with_cpu};
ghost use Rattle.domain.specs.Acting.{loads, ends, ActsAs};
ghost use Rattle.driver.specs.Pools.{IsIdle};
ghost use Rattle.driver.specs.Works as works;
ghost use Rattle.driver.specs.Works.{IsKept, MayRead, KeepsReadings, ReadsIn};
ghost use Rattle.plugs.specs.Reading.{LooksUp, Leases, Gets};
ghost use Rattle.notify.specs.Calling.{GivesAt};
ghost use Rattle.notify.specs.Reading as chains;
ghost use Rattle.srcu.specs.Workers.{IsSameWorker, IsCellOf, ReadsOnce};
ghost use Rattle.srcu.specs.Sections.{MayWork, LeavesOpen, WorksIn};
ghost use Rattle.srcu.specs.Leases.{HasPlug};

use super::Worker;
use crate::answers::{Called, Ids};
use crate::section::Section;
use domain::{Cpu, Exhausted, Reading};
use notify::{ChainView, Handler};
use plugs::{Lease, TableView, release};
use shelf::{Values, Versioned};
use std::alloc::Allocator;

/// Runs the work in a section of a processor.
fn work_in<J, T, F: FnOnce(&mut Section<'_, J>) -> T>(
    cpu: &mut Cpu<J>,
    work: F,
) -> Result<T, Exhausted>
    requires may { MayWork F.FnOnce work cpu.old }
    requires leaves { LeavesOpen F.FnOnce work cpu.old }
    ensures works { MatchResult result
        (λ answer. WorksIn F.FnOnce work cpu.old answer cpu.new)
        (λ _. works.IsRefused cpu.old cpu.new) }
    ensures kept { IsKept cpu.old cpu.new }
{
    let mut section = Section::new(cpu)?;
    Ok(work(&mut section))
}

impl<'a, J> Worker<'a, J> {
    /// Runs the work in a section (`srcu_read_lock`), and returns what it returns. The section ends whichever way the work ends
    /// (`srcu_read_unlock`), so `?` may stand in it. `Exhausted` where none may begin; then the work is not run.
    pub fn section<T, F: FnOnce(&mut Section<'_, J>) -> T>(
        &mut self,
        work: F,
    ) -> Result<T, Exhausted>
        requires may { IsIdle self.old.domain self.old.cpu → MayWork F.FnOnce work self.old.cpu }
        requires leaves { IsIdle self.old.domain self.old.cpu → LeavesOpen F.FnOnce work self.old.cpu }
        ensures same { IsSameWorker self.old self.new }
        ensures works { MatchResult result
            (λ answer. WorksIn F.FnOnce work self.old.cpu answer self.new.cpu)
            (λ _. works.IsRefused self.old.cpu self.new.cpu) }
        ensures kept { IsKept self.old.cpu self.new.cpu }
    {
        work_in(&mut self.cpu, work)
    }

    /// Runs the work in a section (`srcu_read_lock`, `srcu_read_unlock`), and returns what it returns. The section ends
    /// whichever way the work ends. `Exhausted` where none may begin; then the work is not run.
    pub fn read<T, F: FnOnce(&mut Cpu<J>, &mut Reading) -> T>(
        &mut self,
        work: F,
    ) -> Result<T, Exhausted>
        requires may { IsIdle self.old.domain self.old.cpu → MayRead F.FnOnce work self.old.cpu }
        requires keeps { IsIdle self.old.domain self.old.cpu → KeepsReadings F.FnOnce work self.old.cpu }
        ensures same { IsSameWorker self.old self.new }
        ensures reads { MatchResult result
            (λ answer. ReadsIn F.FnOnce work self.old.cpu answer self.new.cpu)
            (λ _. works.IsRefused self.old.cpu self.new.cpu) }
    {
        driver::read(&mut self.cpu, work)
    }
}

impl<'a, J, A: Allocator> Worker<'a, J, A> {
    /// Reads a value in a section of its own. It is no older than any that the processor has seen.
    pub fn get<T: Versioned>(&mut self, values: &Values<T>) -> Result<T, Exhausted>
        requires { IsCellOf self.old.domain values.now }
        ensures same { IsSameWorker self.old self.new }
        ensures reads { MatchResult result
            (λ value. ReadsOnce T.value values.now.cell self.old.cpu value self.new.cpu)
            (λ _. works.IsRefused self.old.cpu self.new.cpu) }
    {
        let mut reading = self.cpu.read_lock()?;
        let value = values.read(&mut self.cpu, &mut reading);
        self.cpu.read_unlock(reading);
        Ok(value)
    }

    /// Looks a key up in a table, in a section of its own.
    pub fn lookup(&mut self, table: &TableView, key: u32) -> Result<Option<u32>, Exhausted>
        requires { IsCellOf self.old.domain table.now }
        ensures same { IsSameWorker self.old self.new }
        ensures looks_up { MatchResult result
            (λ plug. LooksUp table.now.cell key plug self.old.cpu self.new.cpu)
            (λ _. LooksInVain self.old.cpu.cpu self.new.cpu.cpu) }
        ensures rest { self.new.cpu ≡ with_cpu self.new.cpu.cpu self.old.cpu }
        ensures refused { IfErr result (λ _. ActsAs loads self.old.cpu self.new.cpu) }
    {
        table.lookup(&mut self.cpu, key)
    }

    /// Leases the current version of a table. The lease may go to another thread; [`Worker::release`] ends it there.
    pub fn lease(&mut self, table: &TableView) -> Result<Lease, Exhausted>
        requires { IsCellOf self.old.domain table.now }
        ensures same { IsSameWorker self.old self.new }
        ensures leases { MatchResult result
            (λ lease. Leases table.now.cell lease self.old.cpu self.new.cpu)
            (λ _. LooksInVain self.old.cpu.cpu self.new.cpu.cpu) }
        ensures here { IfOk result (λ lease. lease.held.domain ≡ self.old.domain.domain) }
        ensures rest { self.new.cpu ≡ with_cpu self.new.cpu.cpu self.old.cpu }
        ensures refused { IfErr result (λ _. ActsAs loads self.old.cpu self.new.cpu) }
    {
        table.lease(&mut self.cpu)
    }

    /// The plug of a key in the version that was leased, however old that is.
    pub fn leased(&mut self, lease: &mut Lease, key: u32) -> Option<u32>
        requires { lease.old.held.domain ≡ self.old.domain.domain }
        ensures same { IsSameWorker self.old self.new }
        ensures gets { Gets lease.old key result self.old.cpu self.new.cpu }

        // So it is the same one each time, on whichever worker (`one_plug`).
        ensures plug { HasPlug lease.old.found key result }
        ensures lease { lease.new ≡ lease.old }
        ensures rest { self.new.cpu ≡ with_cpu self.new.cpu.cpu self.old.cpu }
        ensures acts { ActsAs loads self.old.cpu self.new.cpu }
    {
        lease.get(&mut self.cpu, key)
    }

    /// Ends a lease, wherever it began.
    pub fn release(&mut self, lease: Lease)
        requires { lease.held.domain ≡ self.old.domain.domain }
        ensures same { IsSameWorker self.old self.new }
        ensures ends { Unlocks lease.held self.old.cpu.cpu self.new.cpu.cpu }
        ensures index { index_of lease.held.section self.new.cpu.cpu.seen ≡ lease.held.index }
        ensures rest { self.new.cpu ≡ with_cpu self.new.cpu.cpu self.old.cpu }
        ensures acts { ActsAs (ends lease.held.section) self.old.cpu self.new.cpu }
    {
        release(lease, &mut self.cpu);
    }

    /// Calls the handlers of a chain in one section (`srcu_notifier_call_chain`), up to the first that gives the stop bit.
    /// A handler may sleep.
    pub fn call_chain(
        &mut self,
        chain: &ChainView,
        handlers: &[Box<dyn Handler>],
        action: u64,
        value: u64,
    ) -> Result<Called, Exhausted>
        requires cell { IsCellOf self.old.domain chain.now.place }
        requires handlers { chain.now.ids ≤ length handlers.now }
        ensures same { IsSameWorker self.old self.new }
        ensures calls { MatchResult result
            (λ r. chains.Calls (GivesAt (λ h x. answers h action value x) handlers.now) chain.now self.old.cpu self.new.cpu r.last r.handlers)
            (λ _. chains.IsRefused self.old.cpu self.new.cpu) }
    {
        let (last, handlers) = chain.call_chain(&mut self.cpu, handlers, action, value)?;
        Ok(Called { last, handlers })
    }

    /// The ids of a chain's handlers, of one version.
    pub fn ids(&mut self, chain: &ChainView) -> Result<Ids, Exhausted>
        requires { IsCellOf self.old.domain chain.now.place }
        ensures same { IsSameWorker self.old self.new }
        ensures lists { MatchResult result
            (λ r. chains.Lists chain.now self.old.cpu self.new.cpu r.ids r.count)
            (λ _. chains.IsRefused self.old.cpu self.new.cpu) }
    {
        let (ids, count) = chain.ids(&mut self.cpu)?;
        Ok(Ids { ids, count })
    }
}
