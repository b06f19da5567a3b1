//! What reads the boxes of a cell.
ghost use Rattle.std.specs.Prelude.{◌≡◌, IfOk, MatchResult};
ghost use Rattle.sections.specs.Loans.{CatchesUp};
ghost use Rattle.domain.specs.Views.{Stays, with_cpu};
ghost use Rattle.boxes.specs.Boxes.{IsCellOf, IsPinOf};
ghost use Rattle.boxes.specs.Reading.{FindsBox, FindsNoBox};

use crate::pin::BoxPin;
use domain::{Cpu, Found, Kind, Section};
use std::alloc::{AllocError, Allocator, Global};
use std::marker::Model;
use std::sync::Arc;
use vault::Vault;

/// Reads the boxes of one cell, on any processor of its domain. Each thread has its own ([`Boxes::another`]).
#[derive(Drop)]
pub struct Boxes<V, A: Allocator = Global> {
    /// Where the parts lie that readers borrow.
    pub(crate) vault: Arc<Vault<V, A>, A>,
    pub(crate) processors: usize,
    pub(crate) cell: usize,
    /// Whoever has seen as much knows that all keys of the vault were laid in the cell.
    pub(crate) first: Found,
}

impl<V, A: Allocator> Model for Boxes<V, A> {
    ghost use Rattle.boxes.specs.Boxes.{BoxesView};

    ghost Value = { BoxesView };

    ghost use Rattle.boxes.specs.Insides.{view_of_boxes, IsBoxes};

    ghost view = { view_of_boxes };

    ghost invariant = { IsBoxes };
}

impl<V: Drop, A: Allocator> Boxes<V, A> {
    /// The same for another thread.
    pub fn another<J, B: Allocator>(&mut self, cpu: &Cpu<J, B>) -> Result<Boxes<V, A>, AllocError>
        requires cell { IsCellOf cpu.now.cpu self.old }
        ensures another { IfOk result (λ b. b ≡ self.old) }
        ensures same { self.new ≡ self.old }
    {
        let vault = Arc::try_clone(&self.vault)?;
        Ok(Boxes {
            vault,
            processors: self.processors,
            cell: self.cell,
            first: cpu.copy_found(&mut self.first),
        })
    }

    /// Finds the box that is there (`srcu_dereference`), in a section of the domain, which the pin then owns. It comes back
    /// where the version has no box for this processor, or one part of it is left here, which stays. It takes no memory and does
    /// not wait.
    pub fn find<J, B: Allocator, K: Kind>(
        &mut self,
        cpu: &mut Cpu<J, B>,
        section: Section<K>,
    ) -> Result<BoxPin<V, K>, Section<K>>
        requires here { section.domain ≡ cpu.old.cpu.domain }
        requires cell { IsCellOf cpu.old.cpu self.old }
        ensures finds { MatchResult result (λ p. FindsBox self.old section cpu.old.cpu cpu.new.cpu p) (λ s. FindsNoBox self.old section cpu.old.cpu cpu.new.cpu s) }
        ensures same { self.new ≡ self.old }
        ensures rest { cpu.new ≡ with_cpu cpu.new.cpu cpu.old }
        ensures stays { Stays cpu.old cpu.new }
    {
        cpu.recall(&mut self.first);
        let found = cpu.find_held(section, self.cell);
        match cpu.draw(found, &*self.vault) {
            Ok(drawn) => {
                let (loan, part) = drawn;
                Ok(BoxPin { loan, part })
            }
            Err(section) => Err(section),
        }
    }

    /// Gives the section of a pin back, on any processor of the domain. Once the section has ended, and a grace period after
    /// that, the box may come back to its writer. It takes no memory and does not wait.
    pub fn release<J, B: Allocator, K: Kind>(
        &self,
        cpu: &mut Cpu<J, B>,
        pin: BoxPin<V, K>,
    ) -> Section<K>
        requires here { pin.section.domain ≡ cpu.old.cpu.domain }
        requires cell { IsCellOf cpu.old.cpu self.now }
        requires pin { IsPinOf self.now pin }
        ensures catches { CatchesUp pin.section pin.found cpu.old.cpu cpu.new.cpu }
        ensures section { result ≡ pin.section }
        ensures rest { cpu.new ≡ with_cpu cpu.new.cpu cpu.old }
        ensures stays { Stays cpu.old cpu.new }
    {
        let BoxPin { loan, part } = pin;
        cpu.pay(loan, part, &*self.vault)
    }
}
