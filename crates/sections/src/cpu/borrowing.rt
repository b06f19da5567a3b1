//! Parts of boxes that are out with sections.
ghost use Rattle.std.specs.Prelude.{◌≡◌, MatchResult};
ghost use Rattle.sections.specs.Loans.{CatchesUp, OffersBy, IsPartOf};
ghost use Rattle.sections.specs.Showing.{LacksParts};

use super::drawing::{draw_in, pay_in};
use super::pins::{Found, SectionPin};
use super::{Cpu, Here, Kind, Section};
use crate::board::DomainSeat;
use crate::token::Token;
use parts::Part;
use sseq::Index;
use std::alloc::Allocator;
use std::marker::{Model, PhantomData};
use vault::Vault;

/// An open section with a part of the box of a version that it found. The section can't end before the part is paid, which
/// gives it back. A loan can't be dropped.
pub struct Loan<K: Kind = Here> {
    pub(crate) index: Index,
    pub(crate) processor: u16,
    pub(crate) seat: DomainSeat,
    pub(crate) found: Found,
    pub(crate) kind: PhantomData<K>,
}

impl<K: Kind> Model for Loan<K> {
    ghost use Rattle.sections.specs.Loans.{LoanView};

    ghost Value = { LoanView };

    ghost use Rattle.sections.specs.LoanInsides.{view_of_loan, IsLoan};

    ghost view = { view_of_loan };

    ghost invariant = { IsLoan K.held };
}

impl<K: Kind> Token for Loan<K> {
    ghost domain = { λ l. l.section.domain };
}

impl<A: Allocator> Cpu<A> {
    /// Draws a part of the box of the version that the pin found, from this processor's stock. While the part is out the box
    /// stays where it is, and the section stays open. The section comes back where none was laid for this processor, or one is
    /// left here.
    pub fn draw<K: Kind, T: Drop, B: Allocator>(
        &mut self,
        pin: SectionPin<K>,
        vault: &Vault<T, B>,
    ) -> Result<(Loan<K>, Part<T>), Section<K>>
        requires here { pin.section.domain ≡ self.old.domain }
        requires vault { OffersBy self.old.processors vault.now pin.found }
        ensures catches { CatchesUp pin.section pin.found self.old self.new }
        ensures lends { MatchResult result (λ l. (l.0 ≡ pin) × IsPartOf l.1 pin.found) (λ s. (s ≡ pin.section) × LacksParts pin.found self.new) }
    {
        let SectionPin { section, found } = pin;
        let mut section = section;
        let mut found = found;
        let part = draw_in(
            &*self.table,
            &mut self.seat,
            &mut section.seat,
            &mut found.seat,
            self.processor,
            8 * found.cell + found.slot,
            vault,
        );
        let Section {
            index,
            processor,
            seat,
            kind,
        } = section;
        match part {
            Some(part) => {
                let loan = Loan {
                    index,
                    processor,
                    seat,
                    found,
                    kind: PhantomData,
                };
                Ok((loan, part))
            }
            None => Err(Section {
                index,
                processor,
                seat,
                kind,
            }),
        }
    }

    /// Pays the part of a loan into this processor's stock, wherever it was drawn. The section comes back as it was.
    pub fn pay<K: Kind, T: Drop, B: Allocator>(
        &mut self,
        loan: Loan<K>,
        part: Part<T>,
        vault: &Vault<T, B>,
    ) -> Section<K>
        requires here { loan.section.domain ≡ self.old.domain }
        requires vault { OffersBy self.old.processors vault.now loan.found }
        requires part { IsPartOf part loan.found }
        ensures catches { CatchesUp loan.section loan.found self.old self.new }
        ensures section { result ≡ loan.section }
    {
        let Loan {
            index,
            processor,
            mut seat,
            mut found,
            kind: _,
        } = loan;
        let slot = 8 * found.cell + found.slot;
        pay_in(
            &*self.table,
            &mut self.seat,
            &mut seat,
            &mut found.seat,
            self.processor,
            slot,
            vault,
            part,
        );
        Section {
            index,
            processor,
            seat,
            kind: PhantomData,
        }
    }
}
