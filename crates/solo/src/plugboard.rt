//! A plug-in table with what reads there.
ghost use Rattle.std.specs.Prelude.{◌≡◌, []};

use domain::Writer;
use plugs::{Table, TableView};
use std::marker::Model;

/// A plug-in table of a domain in one hand: who changes it, and what reads there. Contracts see the table.
#[derive(Drop)]
pub struct Plugboard {
    pub(crate) table: Table,
    pub(crate) view: TableView,
}

impl Model for Plugboard {
    ghost use Rattle.plugs.specs.Views.{TableState};

    ghost Value = { TableState };

    ghost use Rattle.solo.specs.Plugboards.{view_of_plugboard, IsPlugboard};

    ghost view = { view_of_plugboard };

    ghost invariant = { IsPlugboard };
}

impl Plugboard {
    /// A table without rows, in a cell to which nothing is put.
    pub fn new(writer: Writer) -> Plugboard
        ensures { result ≡ record { writer = writer; rows = [] } }
    {
        let (table, view) = Table::new(writer);
        Plugboard { table, view }
    }
}
