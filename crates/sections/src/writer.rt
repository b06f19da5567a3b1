//! The writer of a cell, and its slots.
use crate::board::DomainSeat;
use crate::token::{Home, Token};
use std::marker::Model;

mod boxes;
pub(crate) mod dealing;
mod filling;
mod putting;
mod reclaiming;

/// How a slot of a cell stands.
#[derive(Clone, Copy, Debug, PartialEq, Eq)]
pub enum Standing {
    /// It may be given out: nobody can read it.
    Blank,
    /// It was given out, to be filled and put.
    Out,
    /// Its version is current.
    Current,
    /// It was current. Once the cookie of this number is done, nobody can read it.
    Retired(u64),
}

/// The writer of a cell: it alone puts versions there, and fills slots. Contracts see how its slots stand, what their
/// words are, and which parts of boxes lie there.
#[derive(Drop)]
pub struct Writer {
    pub(crate) seat: DomainSeat,
    pub(crate) cell: usize,
    pub(crate) slots: usize,
    /// The version that is current.
    pub(crate) version: u64,
    /// The slot that is current.
    pub(crate) current: usize,
    pub(crate) standings: [Standing; 8],
    /// By what each slot knows its domain. It is with the slot while that is out.
    pub(crate) homes: [Option<Home>; 8],
}

impl Model for Writer {
    ghost use Rattle.sections.specs.WriterViews.{WriterView};

    ghost Value = { WriterView };

    ghost use Rattle.sections.specs.WriterInsides.{view_of_writer, IsWriter};

    ghost view = { view_of_writer };

    ghost invariant = { IsWriter };
}

impl Token for Writer {
    ghost domain = { λ w. w.domain };
}

/// A slot of a cell that nobody can read, to be filled by the writer of that cell. It can't be dropped: spend it by
/// [`Writer::put`] or [`Writer::give_back`].
pub struct Slot {
    pub(crate) home: Home,
    pub(crate) cell: usize,
    pub(crate) slot: usize,
}

impl Model for Slot {
    ghost use Rattle.sections.specs.WriterViews.{SlotView};

    ghost Value = { SlotView };

    ghost use Rattle.sections.specs.WriterInsides.{view_of_slot, IsSlot};

    ghost view = { view_of_slot };

    ghost invariant = { IsSlot };
}

impl Token for Slot {
    ghost domain = { λ s. s.domain };
}
