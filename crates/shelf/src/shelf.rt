//! The writer of a cell, for values of one type.
ghost use Rattle.std.specs.Prelude.{◌≡◌, IfOk, MatchResult};
ghost use Rattle.sections.specs.Shelves.{words_of};
ghost use Rattle.domain.specs.Views.{IsOf};
ghost use Rattle.domain.specs.Publishing.{FindsNone};
ghost use Rattle.shelf.specs.Cells.{cell_of};
ghost use Rattle.shelf.specs.Replacing.{Replaces};

use crate::values::Values;
use crate::versioned::Versioned;
use domain::{Cpu, Domain, Writer, claim, publish};
use std::alloc::Allocator;
use std::marker::{Model, PhantomData};
use thiserror::Error;

/// No slot is free: none is blank, and of no retired one is the cookie done. Or 2^54 values were put.
#[derive(Clone, Copy, Debug, Error, PartialEq, Eq)]
#[error("no slot of the cell is free: synchronize, and call again")]
pub struct NoSlot;

/// What replaces the values of a cell. There is one for each cell. Contracts see the cell's writer.
#[derive(Drop)]
pub struct Shelf<T> {
    writer: Writer,
    marker: PhantomData<T>,
}

impl<T> Model for Shelf<T> {
    ghost use Rattle.sections.specs.WriterViews.{WriterView};

    ghost Value = { WriterView };

    ghost use Rattle.shelf.specs.Insides.{view_of_shelf};

    ghost view = { view_of_shelf };
}

impl<T: Versioned> Shelf<T> {
    /// Takes a cell, and gives what reads its values. Nothing is put.
    pub fn new(writer: Writer) -> (Shelf<T>, Values<T>)
        ensures { (result.0 ≡ writer) × (result.1 ≡ cell_of writer) }
    {
        let shelf = Shelf {
            writer,
            marker: PhantomData,
        };
        let values = shelf.values();
        (shelf, values)
    }

    /// What reads its values, once more.
    pub fn values(&self) -> Values<T>
        ensures { result ≡ cell_of self.now }
    {
        Values::of_writer(&self.writer)
    }

    /// Replaces the value (`rcu_assign_pointer`), and asks for the grace period behind which nobody reads the one that
    /// was there (`start_poll_synchronize_srcu`): the answer is the number of its cookie. Sections that have found an
    /// older value read that. It takes no memory and does not wait. Where no slot is free, retired ones may have become
    /// blank, and nothing else has changed.
    pub fn replace<J, A: Allocator>(
        &mut self,
        domain: &Domain<J, A>,
        cpu: &mut Cpu<J, A>,
        value: &T,
    ) -> Result<u64, NoSlot>
        requires domain { IsOf domain.now cpu.old }
        requires shelf { self.old.domain ≡ domain.now.domain }
        requires fits { T.fits value.now }
        ensures here { IsOf domain.now cpu.new }
        ensures same { (self.new.domain ≡ self.old.domain) × (self.new.cell ≡ self.old.cell) }
        ensures replaces { MatchResult result
            (λ cookie. Replaces (T.text value.now) cookie self.old cpu.old self.new cpu.new)
            (λ _. FindsNone self.old cpu.old self.new cpu.new) }
        ensures has { IfOk result (λ _. words_of self.old.cell self.new.version cpu.new.cpu.texts ≡ T.text value.now) }
    {
        let Some(slot) = claim(&mut self.writer, cpu) else {
            return Err(NoSlot);
        };
        Ok(publish(&mut self.writer, domain, cpu, slot, &value.encode()))
    }
}
