//! Open sections. A section's type tells where it may end.
ghost use Rattle.std.specs.Prelude.{◌≡◌};
ghost use Rattle.onedom.specs.Histories.{index_of};
ghost use Rattle.sections.specs.Words.{is_held};
ghost use Rattle.sections.specs.Calls.{EndsWithBegin};

use crate::board::DomainSeat;
use crate::token::Token;
use sseq::Index;
use std::marker::{Model, PhantomData};

/// Where a section may end.
pub trait Kind {
    ghost use Rattle.std.specs.Prelude.{Bool};

    ghost held: { Bool };
}

/// On the processor where it was begun.
#[derive(Drop)]
pub struct Here;

/// On any processor of the domain.
#[derive(Drop)]
pub struct Anywhere;

impl Kind for Here {
    ghost use Rattle.std.specs.Prelude.{false};

    ghost held = { false };
}

impl Kind for Anywhere {
    ghost use Rattle.std.specs.Prelude.{true};

    ghost held = { true };
}

/// A section that is open, and the right to end it.
pub struct Section<K: Kind = Here> {
    pub(crate) index: Index,
    pub(crate) processor: u16,
    pub(crate) seat: DomainSeat,
    pub(crate) kind: PhantomData<K>,
}

/// A section that is open, and the right to end it, on the processor where it was begun (`srcu_read_lock`). It can't
/// be dropped: spend it by [`Cpu::read_unlock`](crate::Cpu::read_unlock).
pub type Reading = Section<Here>;

/// A section that is open, and the right to end it, on any processor of the domain (`srcu_down_read`). It may go to
/// another thread. It can't be dropped: spend it by [`Cpu::up_read`](crate::Cpu::up_read).
pub type Held = Section<Anywhere>;

impl<K: Kind> Model for Section<K> {
    ghost use Rattle.sections.specs.Views.{ReadingView};

    ghost Value = { ReadingView };

    ghost use Rattle.sections.specs.KindInsides.{view_of_section, IsSection};

    ghost view = { view_of_section };

    ghost invariant = { IsSection K.held };
}

impl<K: Kind> Token for Section<K> {
    ghost domain = { λ s. s.domain };
}

impl<K: Kind> Section<K> {
    /// The index with which the section was begun.
    pub fn index(&self) -> Index
        ensures value { result ≡ self.now.index }
        ensures section { result ≡ index_of self.now.section self.now.seen }
    {
        self.index
    }

    /// The number of the processor where the section was begun. What the section has seen ends with this beginning.
    pub fn processor(&self) -> u16
        ensures value { result ≡ self.now.processor }
        ensures begun { EndsWithBegin self.now }
        ensures kind { is_held self.now.section ≡ K.held }
    {
        self.processor
    }
}
