//! A device is taken, and given back on any processor.
ghost use Rattle.std.specs.Prelude.{◌≡◌, ◌<◌, IfErr, IfOk, IfSome, MatchOption, length};
ghost use Rattle.sections.specs.Calls.{LooksInVain};
ghost use Rattle.domain.specs.Views.{Stays, with_cpu};
ghost use Rattle.domain.specs.Waiting.{HasNoneOpen};
ghost use Rattle.boxes.specs.Boxes.{IsCellOf, IsPinOf};

use crate::index::Index;
use crate::users::Users;
use boxes::{HeldBox, Terms};
use domain::{Cpu, Exhausted};
use std::alloc::{Allocator, Global};

/// A device in use: a held section, with the device that it found. It may go to another thread, and can't be dropped:
/// [`Users::give_back`] ends it.
pub struct Use<K: Ord + Copy, V, A: Allocator = Global> {
    pub(crate) pin: HeldBox<Index<K, V, A>>,
    pub(crate) place: usize,
    ghost inside: { place < length pin.value },
}

impl<K: Ord + Copy, V: Drop, A: Allocator> Use<K, V, A> {
    ghost use Rattle.std.specs.List.{HoldsAt};
    ghost use Rattle.sections.specs.Loans.{offer_found};

    /// The device, however long ago it was removed.
    pub fn get(&self) -> &V
        ensures { HoldsAt (λ e. result.now ≡ e.part.value) self.now.pin.value self.now.place }
    {
        self.pin.get().device_at(self.place)
    }

    /// A use that found a version of these terms has a device of their index. It does nothing: contracts learn it from the call.
    pub fn agree(&self, terms: &Terms<Index<K, V, A>>)
        requires { terms.now.round ≡ (offer_found self.now.pin.found).round }
        ensures { self.now.pin.value ≡ terms.now.value }
    {
        self.pin.agree(terms);
    }
}

impl<K: Ord + Copy, V: Drop, A: Allocator> Users<K, V, A> {
    ghost use Rattle.registry.specs.Using.{GivesBack, Takes, TakesNone};

    /// Takes the device of a key into use, in a held section. None where no device has the key, or no
    /// part of it is left at this processor: `last` then knows the index that was read, if there was one.
    pub fn take<J, B: Allocator>(
        &mut self,
        cpu: &mut Cpu<J, B>,
        key: K,
    ) -> Result<Option<Use<K, V, A>>, Exhausted>
        requires cell { IsCellOf cpu.old.cpu self.old.boxes }
        ensures takes { IfOk result (λ t. MatchOption t
            (TakesNone K.cmp self.new.last key self.old.boxes cpu.old.cpu cpu.new.cpu)
            (λ u. Takes K.cmp key self.old.boxes cpu.old.cpu cpu.new.cpu u.pin u.place)) }
        ensures refused { IfErr result (λ _. LooksInVain cpu.old.cpu cpu.new.cpu) }
        ensures of { IfOk result (λ t. IfSome t (λ u. (u.pin.section.domain ≡ cpu.old.cpu.domain) × IsPinOf self.old.boxes u.pin)) }
        ensures same { self.new.boxes ≡ self.old.boxes }
        ensures rest { cpu.new ≡ with_cpu cpu.new.cpu cpu.old }
        ensures stays { Stays cpu.old cpu.new }
        ensures cell { IsCellOf cpu.new.cpu self.new.boxes }
        ensures still_none { HasNoneOpen cpu.old → HasNoneOpen cpu.new }
    {
        let held = cpu.down_read()?;
        match self.boxes.find(cpu, held) {
            Ok(pin) => match pin.get().place_of(key) {
                Some(place) => Ok(Some(Use { pin, place })),
                None => {
                    self.last = Some(pin.terms());
                    let held = self.boxes.release(cpu, pin);
                    cpu.up_read(held);
                    Ok(None)
                }
            },
            Err(held) => {
                self.last = None;
                cpu.up_read(held);
                Ok(None)
            }
        }
    }

    /// Ends a use, wherever it began. A grace period after that the device may come back, if it was removed.
    pub fn give_back<J, B: Allocator>(&self, cpu: &mut Cpu<J, B>, used: Use<K, V, A>)
        requires here { used.pin.section.domain ≡ cpu.old.cpu.domain }
        requires cell { IsCellOf cpu.old.cpu self.now.boxes }
        requires pin { IsPinOf self.now.boxes used.pin }
        ensures gives { GivesBack used.pin cpu.old.cpu cpu.new.cpu }
        ensures rest { cpu.new ≡ with_cpu cpu.new.cpu cpu.old }
        ensures stays { Stays cpu.old cpu.new }
        ensures cell { IsCellOf cpu.new.cpu self.now.boxes }
        ensures still_none { HasNoneOpen cpu.old → HasNoneOpen cpu.new }
    {
        let Use { pin, place: _ } = used;
        let held = self.boxes.release(cpu, pin);
        cpu.up_read(held);
    }
}
