//! A domain whose second cell has a table, with every call on it.
ghost use Rattle.std.specs.Prelude.{◌≡◌, IfSome};
ghost use Rattle.domain.specs.Views.{IsOf, Stays};

use domain::{Cpu, Domain, MakeError, Writer};
use fixtures::two;
use plugs::{InstallRefusal, Lease, RemoveRefusal, Table, TableView, release};
use std::alloc::Global;
use std::marker::Model;
use std::sync::Wait;

/// A domain of two processors, and the table of its second cell. The first processor changes it. Contracts see which
/// domain it is.
#[derive(Drop)]
pub struct World {
    domain: Domain<()>,
    writer: Cpu<()>,
    reader: Cpu<()>,
    table: Table,
    view: TableView,
}

impl Model for World {
    ghost use Rattle.std.specs.Prelude.{◌≡◌};
    ghost use Rattle.atomic_table.specs.Seated.{TableId};
    ghost use Rattle.domain.specs.Views.{IsOf};
    ghost use Rattle.shelf.specs.Cells.{IsCellIn};

    ghost Value = { TableId };

    ghost view = { λ w. w.domain.domain };

    ghost invariant = { λ w. IsOf w.domain w.writer × IsOf w.domain w.reader × (w.table.writer.domain ≡ w.domain.domain) × IsCellIn w.domain.domain w.view };
}

/// One turn of the engine.
pub fn drive_on(domain: &Domain<()>, cpu: &mut Cpu<()>)
    requires { IsOf domain.now cpu.old }
    ensures { IsOf domain.now cpu.new }
{
    let _answer = domain.advance(cpu);
}

/// Puts a version whose first words are these, and whose others are zeros.
fn put_words(writer: &mut Writer, cpu: &mut Cpu<()>, words: &[u64; 3])
    requires { cpu.old.cpu.domain ≡ writer.old.domain }
    ensures writer { (writer.new.domain ≡ writer.old.domain) × (writer.new.cell ≡ writer.old.cell) }
    ensures stays { Stays cpu.old cpu.new }
{
    let Some(mut slot) = writer.blank() else {
        return;
    };
    writer.set(cpu, &mut slot, 0, words[0]);
    writer.set(cpu, &mut slot, 1, words[1]);
    writer.set(cpu, &mut slot, 2, words[2]);
    let _cookie = writer.put(cpu, slot);
}

impl World {
    /// A table without rows, in a cell of so many slots.
    pub fn new(alloc: Global, slots: u64) -> Result<World, MakeError> {
        let (domain, first, second, writer) = two(alloc, slots)?;
        let (table, view) = Table::new(writer);
        Ok(World {
            domain,
            writer: first,
            reader: second,
            table,
            view,
        })
    }

    /// A table of which nothing is put, in a cell whose first words are these.
    pub fn with_words(alloc: Global, words: &[u64; 3]) -> Result<World, MakeError> {
        let (domain, mut first, second, mut writer) = two(alloc, 2)?;
        put_words(&mut writer, &mut first, words);
        let (table, view) = Table::new(writer);
        Ok(World {
            domain,
            writer: first,
            reader: second,
            table,
            view,
        })
    }

    pub fn install(&mut self, key: u32, plug: u32) -> Result<u64, InstallRefusal>
        ensures { self.new ≡ self.old }
    {
        self.table
            .install(&self.domain, &mut self.writer, key, plug)
    }

    pub fn remove(&mut self, key: u32) -> Result<u64, RemoveRefusal>
        ensures { self.new ≡ self.old }
    {
        self.table.remove(&self.domain, &mut self.writer, key)
    }

    /// The plug of the key, as the other processor finds it.
    pub fn lookup(&mut self, key: u32) -> Option<u32>
        ensures { self.new ≡ self.old }
    {
        self.view.lookup(&mut self.reader, key).ok().flatten()
    }

    /// One turn of the engine.
    pub fn drive(&mut self)
        ensures { self.new ≡ self.old }
    {
        drive_on(&self.domain, &mut self.writer);
    }

    /// A lease by the processor that changes the table.
    pub fn lease(&mut self) -> Option<Lease>
        ensures same { self.new ≡ self.old }
        ensures here { IfSome result (λ l. l.held.domain ≡ self.new) }
    {
        self.view.lease(&mut self.writer).ok()
    }

    /// The plug of the key in the lease's version, as the other processor reads it.
    pub fn get(&mut self, lease: &mut Lease, key: u32) -> Option<u32>
        requires { lease.old.held.domain ≡ self.old }
        ensures same { self.new ≡ self.old }
        ensures lease { lease.new ≡ lease.old }
    {
        lease.get(&mut self.reader, key)
    }

    /// Ends the lease on the other processor.
    pub fn release(&mut self, lease: Lease)
        requires { lease.held.domain ≡ self.old }
        ensures { self.new ≡ self.old }
    {
        release(lease, &mut self.reader);
    }
}
