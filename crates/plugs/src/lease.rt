//! A version of a table that is kept.
ghost use Rattle.std.specs.Prelude.{◌≡◌};
ghost use Rattle.onedom.specs.Histories.{index_of};
ghost use Rattle.sections.specs.Calls.{Unlocks};
ghost use Rattle.domain.specs.Views.{Stays, with_cpu};
ghost use Rattle.domain.specs.Acting.{loads, ends, ActsAs};
ghost use Rattle.plugs.specs.Reading.{Gets};

use crate::rows::plug_in;
use domain::{Cpu, HeldPin, Index};
use sections::Token;
use std::alloc::Allocator;
use std::marker::Model;

/// A held section with the version of a table that it found. It may go to another thread. As long as it is held, that
/// version stays as it is, whatever is put meanwhile. It can't be dropped: spend it by [`release`].
pub struct Lease {
    pin: HeldPin,
}

impl Model for Lease {
    ghost use Rattle.plugs.specs.Views.{LeaseView};

    ghost Value = { LeaseView };

    ghost use Rattle.plugs.specs.LeaseInsides.{view_of_lease};

    ghost view = { view_of_lease };
}

impl Token for Lease {
    ghost domain = { λ l. l.held.domain };
}

impl Lease {
    pub(crate) fn of_pin(pin: HeldPin) -> Lease
        ensures { result ≡ record { held = pin.section; found = pin.found } }
    {
        Lease { pin }
    }

    /// The version of the table, from 1 on; 0 where nothing was put.
    pub fn version(&self) -> u64
        ensures { result ≡ self.now.found.version }
    {
        self.pin.version()
    }

    /// The index of the section.
    pub fn index(&self) -> Index
        ensures value { result ≡ self.now.held.index }
        ensures section { result ≡ index_of self.now.held.section self.now.held.seen }
    {
        self.pin.section().index()
    }

    /// The plug of the key in the version of this lease, however old that is, on any processor of the domain. Words that
    /// are no table are read as one without rows. The lease stays as it is. It takes no memory and does not wait.
    pub fn get<J, A: Allocator>(&mut self, cpu: &mut Cpu<J, A>, key: u32) -> Option<u32>
        requires here { self.old.held.domain ≡ cpu.old.cpu.domain }
        ensures gets { Gets self.old key result cpu.old cpu.new }
        ensures same { self.new ≡ self.old }
        ensures rest { cpu.new ≡ with_cpu cpu.new.cpu cpu.old }
        ensures stays { Stays cpu.old cpu.new }
        ensures acts { ActsAs loads cpu.old cpu.new }
    {
        plug_in(&cpu.words_held(&mut self.pin), key)
    }
}

/// Ends the lease's section on this processor, which may be any of the domain (`srcu_up_read`). It takes no memory and
/// does not wait.
pub fn release<J, A: Allocator>(lease: Lease, cpu: &mut Cpu<J, A>)
    requires { lease.held.domain ≡ cpu.old.cpu.domain }
    ensures ends { Unlocks lease.held cpu.old.cpu cpu.new.cpu }
    ensures index { index_of lease.held.section cpu.new.cpu.seen ≡ lease.held.index }
    ensures rest { cpu.new ≡ with_cpu cpu.new.cpu cpu.old }
    ensures stays { Stays cpu.old cpu.new }
    ensures acts { ActsAs (ends lease.held.section) cpu.old cpu.new }
{
    let Lease { pin } = lease;
    cpu.up_read(pin.into_held());
}
