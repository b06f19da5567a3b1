//! Reading versions: what a section finds in a cell stays as it is until the section ends.
ghost use Rattle.std.specs.Prelude.{◌≡◌, ◌<◌};
ghost use Rattle.sections.specs.Words.{cells_in};
ghost use Rattle.sections.specs.Reads.{Finds, IsPinned, ReadsWord, ReadsWords};

use super::pinning::{find_in, word_in, words_in};
use super::{Anywhere, Cpu, Held, Here, Kind, Section};
use crate::board::DomainSeat;
use crate::token::Token;
use std::alloc::Allocator;
use std::marker::Model;

/// What a section found in a cell: a version, and the slot in which it lies.
#[derive(Drop)]
pub struct Found {
    pub(crate) cell: usize,
    pub(crate) slot: usize,
    pub(crate) version: u64,
    pub(crate) seat: DomainSeat,
}

impl Model for Found {
    ghost use Rattle.sections.specs.Views.{FoundView};

    ghost Value = { FoundView };

    ghost use Rattle.sections.specs.PinInsides.{view_of_found, IsFound};

    ghost view = { view_of_found };

    ghost invariant = { IsFound };
}

impl Token for Found {
    ghost domain = { λ f. f.domain };
}

/// A version that a section found. It keeps the section lent, so that it stays open and the version as it is.
pub struct Pin<'a, K: Kind = Here> {
    pub section: &'a mut Section<K>,
    pub found: Found,
}

/// The section is as it was when the pin let go of it.
impl<K: Kind> Drop for Pin<'_, K> {
    fn drop(self)
        ensures { self.exit.0.now ≡ self.entry.section.now }
    {
        let Pin {
            section: _,
            found: _,
        } = self;
    }
}

/// A version that a section found, with that section. It can't be dropped: get the section back by
/// [`SectionPin::into_held`] and end it.
pub struct SectionPin<K: Kind = Here> {
    pub(crate) section: Section<K>,
    pub(crate) found: Found,
}

/// One that may go to another thread, and end there.
pub type HeldPin = SectionPin<Anywhere>;

impl<K: Kind> Model for SectionPin<K> {
    ghost use Rattle.sections.specs.Loans.{LoanView};

    ghost Value = { LoanView };

    ghost use Rattle.sections.specs.KindInsides.{view_of_section_pin, IsSectionPin};

    ghost view = { view_of_section_pin };

    ghost invariant = { IsSectionPin };
}

impl<K: Kind> Token for SectionPin<K> {
    ghost domain = { λ p. p.section.domain };
}

impl Found {
    /// The version, from 1 on; 0 where nothing was put into the cell.
    pub fn version(&self) -> u64
        ensures { result ≡ self.now.version }
    {
        self.version
    }
}

impl<K: Kind> Pin<'_, K> {
    /// The version that was found.
    pub fn version(&self) -> u64
        ensures { result ≡ self.now.found.version }
    {
        self.found.version
    }
}

impl<K: Kind> SectionPin<K> {
    /// The version that was found.
    pub fn version(&self) -> u64
        ensures { result ≡ self.now.found.version }
    {
        self.found.version
    }

    /// The section.
    pub fn section(&self) -> &Section<K>
        ensures { result.now ≡ self.now.section }
    {
        &self.section
    }

    /// The section, which is still open.
    pub fn into_held(self) -> Section<K>
        ensures section { result ≡ self.section }
        ensures pinned { IsPinned self.section self.found }
    {
        let SectionPin { section, found: _ } = self;
        section
    }
}

impl<A: Allocator> Cpu<A> {
    /// Finds what is current in the cell (`srcu_dereference`), in a section of the domain, whichever processor began it. One
    /// load of the cell. The words of that version stay as they are until the section ends.
    pub fn find<'a, K: Kind>(&mut self, section: &'a mut Section<K>, cell: usize) -> Pin<'a, K>
        requires here { section.old.domain ≡ self.old.domain }
        requires cell { cell < cells_in self.old.domain }
        ensures finds { Finds cell section.old self.old self.new result.found }
        ensures pinned { IsPinned section.old result.found }
        ensures section { result.section.now ≡ section.old }
        ensures same_reference { result.section.ghost_name ≡ section.entry.ghost_name }
    {
        let (word, seat) = find_in(&*self.table, &mut self.seat, &mut section.seat, cell);
        Pin {
            section,
            found: Found {
                cell,
                slot: (word % 16) as usize,
                version: word / 16,
                seat,
            },
        }
    }

    /// [`Cpu::find`] in a held section.
    pub fn find_down<'a>(&mut self, held: &'a mut Held, cell: usize) -> Pin<'a, Anywhere>
        requires here { held.old.domain ≡ self.old.domain }
        requires cell { cell < cells_in self.old.domain }
        ensures finds { Finds cell held.old self.old self.new result.found }
        ensures pinned { IsPinned held.old result.found }
        ensures section { result.section.now ≡ held.old }
        ensures same_reference { result.section.ghost_name ≡ held.entry.ghost_name }
    {
        self.find(held, cell)
    }

    /// Loads a word of the version that the pin found. It is that of the version, however long the section sleeps and
    /// whatever was put since. The pin stays as it is.
    pub fn word<K: Kind>(&mut self, pin: &mut Pin<'_, K>, place: usize) -> u64
        requires here { pin.old.section.now.domain ≡ self.old.domain }
        requires pinned { IsPinned pin.old.section.now pin.old.found }
        requires place { place < 16 }
        ensures reads { ReadsWord pin.old.section.now pin.old.found place result self.old self.new }
        ensures same { (pin.new.section.now ≡ pin.old.section.now) × (pin.new.found ≡ pin.old.found) }
        ensures same_reference { pin.new.section.ghost_name ≡ pin.old.section.ghost_name }
    {
        let section = &mut *pin.section;
        let found = &mut pin.found;
        word_in(
            &*self.table,
            &mut self.seat,
            &mut section.seat,
            &mut found.seat,
            found.cell,
            found.slot,
            place,
        )
    }

    /// Loads the sixteen words of the version that the pin found, as as many calls of [`Cpu::word`] would. But the section's
    /// right is lent once for all of them. The pin stays as it is.
    pub fn words<K: Kind>(&mut self, pin: &mut Pin<'_, K>) -> [u64; 16]
        requires here { pin.old.section.now.domain ≡ self.old.domain }
        requires pinned { IsPinned pin.old.section.now pin.old.found }
        ensures reads { ReadsWords pin.old.section.now pin.old.found result self.old self.new }
        ensures same { (pin.new.section.now ≡ pin.old.section.now) × (pin.new.found ≡ pin.old.found) }
        ensures same_reference { pin.new.section.ghost_name ≡ pin.old.section.ghost_name }
    {
        let section = &mut *pin.section;
        let found = &mut pin.found;
        words_in(
            &*self.table,
            &mut self.seat,
            &mut section.seat,
            &mut found.seat,
            found.cell,
            found.slot,
        )
    }

    /// As [`Cpu::find`], in a section which the pin then owns. It may go to another thread with a held one.
    pub fn find_held<K: Kind>(&mut self, section: Section<K>, cell: usize) -> SectionPin<K>
        requires here { section.domain ≡ self.old.domain }
        requires cell { cell < cells_in self.old.domain }
        ensures finds { Finds cell section self.old self.new result.found }
        ensures section { result.section ≡ section }
    {
        let mut section = section;
        let (word, seat) = find_in(&*self.table, &mut self.seat, &mut section.seat, cell);
        SectionPin {
            section,
            found: Found {
                cell,
                slot: (word % 16) as usize,
                version: word / 16,
                seat,
            },
        }
    }

    /// As [`Cpu::word`], of a pin that owns its section, on any processor of the domain.
    pub fn word_held<K: Kind>(&mut self, pin: &mut SectionPin<K>, place: usize) -> u64
        requires here { pin.old.section.domain ≡ self.old.domain }
        requires place { place < 16 }
        ensures reads { ReadsWord pin.old.section pin.old.found place result self.old self.new }
        ensures same { pin.new ≡ pin.old }
    {
        let section = &mut pin.section;
        let found = &mut pin.found;
        word_in(
            &*self.table,
            &mut self.seat,
            &mut section.seat,
            &mut found.seat,
            found.cell,
            found.slot,
            place,
        )
    }

    /// As [`Cpu::words`], of a pin that owns its section, on any processor of the domain.
    pub fn words_held<K: Kind>(&mut self, pin: &mut SectionPin<K>) -> [u64; 16]
        requires here { pin.old.section.domain ≡ self.old.domain }
        ensures reads { ReadsWords pin.old.section pin.old.found result self.old self.new }
        ensures same { pin.new ≡ pin.old }
    {
        let section = &mut pin.section;
        let found = &mut pin.found;
        words_in(
            &*self.table,
            &mut self.seat,
            &mut section.seat,
            &mut found.seat,
            found.cell,
            found.slot,
        )
    }
}
