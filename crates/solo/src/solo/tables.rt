//! The plug-in table: keys get plugs, and are looked up, in the version that is current or in one that is leased.
ghost use Rattle.std.specs.Prelude.{◌≡◌, ◌<◌, List, MatchResult};
ghost use Rattle.scan.specs.Standings.{index_now};
ghost use Rattle.plugs.specs.declared.rows.Row.{Row};
ghost use Rattle.plugs.specs.Tables.{plug_of, text_of};
ghost use Rattle.solo.specs.Calls.{IsSameDomain, IsOutOfSections, Ends};
ghost use Rattle.solo.specs.Shelf.{with_current};
ghost use Rattle.solo.specs.Versions.{Visits};
ghost use Rattle.solo.specs.Tables.{IsCurrent, IsSameTable, Installs, IsNotInstalled, Removes, IsNotRemoved, HoldsRows, Leases};

use crate::plugboard::Plugboard;
use crate::solo::Solo;
use plugs::{InstallRefusal, Lease, RemoveRefusal};
use sections::Exhausted;
use std::alloc::Allocator;

impl<J: Drop, A: Allocator + Copy> Solo<J, A> {
    /// Gives a key its plug on a processor. What is current in the table's cell are its rows then; the version is the
    /// answer, and a grace period is asked for, behind which only leases read the one that was. Refused for the first
    /// cause that holds: there are fifteen rows and none has the key, or no slot is blank, of which it is asked first.
    /// Then the rows are those that were there.
    pub fn install(
        &mut self,
        processor: u64,
        board: &mut Plugboard,
        key: u32,
        plug: u32,
    ) -> Result<u64, InstallRefusal>
        requires processor { processor < self.old.course.standing.processors }
        requires current { IsCurrent self.old board.old }
        ensures same { IsSameDomain (record self.old { shelf = self.new.shelf }) self.new }
        ensures table { IsSameTable board.old board.new }
        ensures current { IsCurrent self.new board.new }
        ensures installs { MatchResult result
            (λ version. Installs processor key plug version board.old board.new self.old.course self.new.course)
            (λ e. IsNotInstalled processor key e board.old board.new self.old.course self.new.course) }
        ensures shelf { MatchResult result (λ _. self.new.shelf ≡ with_current board.old.writer.cell (text_of board.new.rows) self.old.shelf) (λ _. self.new.shelf ≡ self.old.shelf) }
    {
        let cpu = &mut self.members.cpus[processor as usize];
        let answer = board.table.install(&self.members.domain, cpu, key, plug);
        self.members.settle();
        answer
    }

    /// Takes the plug of a key away on a processor, as `install` gives one. Refused where no row has the key, or no slot
    /// is blank.
    pub fn remove(
        &mut self,
        processor: u64,
        board: &mut Plugboard,
        key: u32,
    ) -> Result<u64, RemoveRefusal>
        requires processor { processor < self.old.course.standing.processors }
        requires current { IsCurrent self.old board.old }
        ensures same { IsSameDomain (record self.old { shelf = self.new.shelf }) self.new }
        ensures table { IsSameTable board.old board.new }
        ensures current { IsCurrent self.new board.new }
        ensures removes { MatchResult result
            (λ version. Removes processor key version board.old board.new self.old.course self.new.course)
            (λ e. IsNotRemoved processor key e board.old board.new self.old.course self.new.course) }
        ensures shelf { MatchResult result (λ _. self.new.shelf ≡ with_current board.old.writer.cell (text_of board.new.rows) self.old.shelf) (λ _. self.new.shelf ≡ self.old.shelf) }
    {
        let cpu = &mut self.members.cpus[processor as usize];
        let answer = board.table.remove(&self.members.domain, cpu, key);
        self.members.settle();
        answer
    }

    /// The plug of a key, as a processor finds it in a section of its own, which has ended; refused, with nothing done,
    /// where none may begin there.
    pub fn lookup(
        &mut self,
        processor: u64,
        board: &Plugboard,
        key: u32,
    ) -> Result<Option<u32>, Exhausted>
        requires processor { processor < self.old.course.standing.processors }
        requires current { IsCurrent self.old board.now }
        ensures same { IsSameDomain self.old self.new }
        ensures visits { MatchResult result (λ _. Visits self.old.limits processor board.now.writer.cell self.old.course self.new.course)
            (λ _. IsOutOfSections self.old.limits processor (index_now self.old.course.standing) self.old.course × (self.new ≡ self.old)) }
        ensures plug { MatchResult result (λ plug. plug ≡ plug_of board.now.rows key) (λ _. Unit {0}) }
    {
        let cpu = &mut self.members.cpus[processor as usize];
        let plug = board.view.lookup(cpu, key);
        self.members.settle();
        plug
    }

    /// A held section with the version that is current, begun on a processor; refused, with nothing done, where none may
    /// begin there. Its rows are those of the table now, whatever is put later.
    pub fn lease(&mut self, processor: u64, board: &Plugboard) -> Result<Lease, Exhausted>
        requires processor { processor < self.old.course.standing.processors }
        requires current { IsCurrent self.old board.now }
        ensures same { IsSameDomain self.old self.new }
        ensures leases { MatchResult result (λ l. Leases self.old.limits self.old.table processor board.now.writer.cell l self.old.course self.new.course)
            (λ _. IsOutOfSections self.old.limits processor (index_now self.old.course.standing) self.old.course × (self.new ≡ self.old)) }
        ensures rows { MatchResult result (λ l. HoldsRows l board.now.rows) (λ _. Unit {0}) }
    {
        let cpu = &mut self.members.cpus[processor as usize];
        let lease = board.view.lease(cpu);
        self.members.settle();
        lease
    }

    /// The plug of a key in the version of a lease, however old, on any processor.
    pub fn read(&mut self, processor: u64, lease: &mut Lease, key: u32) -> Option<u32>
        requires processor { processor < self.old.course.standing.processors }
        requires lease { lease.old.held.domain ≡ self.old.table }
        ensures after { self.new ≡ self.old }
        ensures same { lease.new ≡ lease.old }
        ensures plug { (rows : List Row) → HoldsRows lease.old rows → result ≡ plug_of rows key }
    {
        let cpu = &mut self.members.cpus[processor as usize];
        let plug = lease.get(cpu, key);
        self.members.settle();
        plug
    }

    /// Ends the section of a lease, on any processor.
    pub fn release(&mut self, processor: u64, lease: Lease)
        requires processor { processor < self.old.course.standing.processors }
        requires lease { lease.held.domain ≡ self.old.table }
        ensures same { IsSameDomain self.old self.new }
        ensures section { Ends lease.held.section processor self.old.course self.new.course }
    {
        let cpu = &mut self.members.cpus[processor as usize];
        plugs::release(lease, cpu);
        self.members.settle();
    }
}
