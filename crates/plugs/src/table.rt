//! Who changes a table.
ghost use Rattle.std.specs.Prelude.{◌≡◌, [], IfOk, MatchResult};
ghost use Rattle.sections.specs.Shelves.{words_of};
ghost use Rattle.domain.specs.Views.{IsOf};
ghost use Rattle.shelf.specs.Cells.{cell_of};
ghost use Rattle.plugs.specs.Tables.{text_of};
ghost use Rattle.plugs.specs.Changes.{Installs, IsNotInstalled, Removes, IsNotRemoved};

use crate::refusals::{InstallRefusal, RemoveRefusal};
use crate::rows::Rows;
use crate::view::TableView;
use domain::{Cpu, Domain, Writer, claim, publish};
use std::alloc::Allocator;
use std::marker::Model;

/// A table of plug-ins: each of at most fifteen keys has a plug. There is one for each cell, and it alone puts versions
/// there. Contracts see the cell's writer and the rows.
#[derive(Drop)]
pub struct Table {
    writer: Writer,
    rows: Rows,
}

impl Model for Table {
    ghost use Rattle.plugs.specs.Views.{TableState};

    ghost Value = { TableState };

    ghost use Rattle.plugs.specs.TableInsides.{view_of_table};

    ghost view = { view_of_table };
}

impl Table {
    /// Takes a cell, and gives what reads there. The table has no rows, and nothing is put: until the first change
    /// readers find what the cell has, which in a new domain is a table without rows.
    pub fn new(writer: Writer) -> (Table, TableView)
        ensures writer { result.0.writer ≡ writer }
        ensures empty { result.0.rows ≡ [] }
        ensures cell { result.1 ≡ cell_of writer }
    {
        let table = Table {
            writer,
            rows: Rows::new(),
        };
        let view = table.view();
        (table, view)
    }

    /// What reads the table, once more.
    pub fn view(&self) -> TableView
        ensures { result ≡ cell_of self.now.writer }
    {
        TableView::of_writer(&self.writer)
    }

    /// The key has this plug from then on, whether it had one before or not. The table is put as the next version, which
    /// is the answer, and the grace period is asked for behind which nobody reads the version that was current. It takes
    /// no memory and does not wait. [`InstallRefusal`] says when it is refused, and what that leaves.
    pub fn install<J, A: Allocator>(
        &mut self,
        domain: &Domain<J, A>,
        cpu: &mut Cpu<J, A>,
        key: u32,
        plug: u32,
    ) -> Result<u64, InstallRefusal>
        requires domain { IsOf domain.now cpu.old }
        requires table { self.old.writer.domain ≡ domain.now.domain }
        ensures here { IsOf domain.now cpu.new }
        ensures same { (self.new.writer.domain ≡ self.old.writer.domain) × (self.new.writer.cell ≡ self.old.writer.cell) }
        ensures installs { MatchResult result
            (λ version. Installs key plug version self.old cpu.old self.new cpu.new)
            (λ refusal. IsNotInstalled key refusal self.old cpu.old self.new cpu.new) }
        ensures has { IfOk result (λ version. words_of self.old.writer.cell version cpu.new.cpu.texts ≡ text_of self.new.rows) }
    {
        if self.rows.are_full_for(key) {
            return Err(InstallRefusal::Full);
        }
        let Some(slot) = claim(&mut self.writer, cpu) else {
            return Err(InstallRefusal::NoSlot);
        };
        self.rows.insert(key, plug);
        publish(&mut self.writer, domain, cpu, slot, &self.rows.text());
        Ok(self.writer.version())
    }

    /// The key has no plug from then on. The table is put as in [`Table::install`], which takes no memory either and does
    /// not wait. [`RemoveRefusal`] says when it is refused, and what that leaves.
    pub fn remove<J, A: Allocator>(
        &mut self,
        domain: &Domain<J, A>,
        cpu: &mut Cpu<J, A>,
        key: u32,
    ) -> Result<u64, RemoveRefusal>
        requires domain { IsOf domain.now cpu.old }
        requires table { self.old.writer.domain ≡ domain.now.domain }
        ensures here { IsOf domain.now cpu.new }
        ensures same { (self.new.writer.domain ≡ self.old.writer.domain) × (self.new.writer.cell ≡ self.old.writer.cell) }
        ensures removes { MatchResult result
            (λ version. Removes key version self.old cpu.old self.new cpu.new)
            (λ refusal. IsNotRemoved key refusal self.old cpu.old self.new cpu.new) }
        ensures has { IfOk result (λ version. words_of self.old.writer.cell version cpu.new.cpu.texts ≡ text_of self.new.rows) }
    {
        if self.rows.get(key).is_none() {
            return Err(RemoveRefusal::NotThere);
        }
        let Some(slot) = claim(&mut self.writer, cpu) else {
            return Err(RemoveRefusal::NoSlot);
        };
        self.rows.remove(key);
        publish(&mut self.writer, domain, cpu, slot, &self.rows.text());
        Ok(self.writer.version())
    }
}
