//! Taking out a token of a kind that is known, as that of a line's name is once the line was read. The branches of the
//! other kinds stand here. They are never reached.
ghost use Rattle.std.specs.Prelude.{◌≡◌, ◌<◌, Some};
ghost use Rattle.names.specs.Tokens.{token_at, kind_in, TakesOut};

use super::{NamedToken, Names};
use calls::Ticket;
use lines::Name;
use plugs::Lease;
use requests::Kind;
use sections::{Held, Look, Reading};
use std::alloc::Allocator;

impl<A: Allocator> Names<A> {
    /// Takes out what has this name. The name is then free, and there is no less room than there was.
    fn take(&mut self, name: &Name) -> NamedToken<A>
        requires { (k : Kind) × (kind_in name.now self.old.tokens ≡ Some k) }
        ensures taken { TakesOut name.now result self.old.tokens self.new.tokens }
        ensures room { 0 < self.old.room → 0 < self.new.room }
    {
        let Some(token) = self.remove(name) else {
            unreachable!()
        };
        token
    }

    /// Takes out the look of this name.
    pub fn take_look(&mut self, name: &Name) -> Look
        requires { kind_in name.now self.old.tokens ≡ Some Kind.Look }
        ensures taken { TakesOut name.now (NamedToken.Look result) self.old.tokens self.new.tokens }
        ensures room { 0 < self.old.room → 0 < self.new.room }
    {
        match self.take(name) {
            NamedToken::Look(look) => look,
            _other => unreachable!(),
        }
    }

    /// Takes out the reading of this name.
    pub fn take_reading(&mut self, name: &Name) -> Reading
        requires { kind_in name.now self.old.tokens ≡ Some Kind.Reading }
        ensures { TakesOut name.now (NamedToken.Reading result) self.old.tokens self.new.tokens }
    {
        match self.take(name) {
            NamedToken::Reading(reading) => reading,
            _other => unreachable!(),
        }
    }

    /// Takes out the held section of this name.
    pub fn take_held(&mut self, name: &Name) -> Held
        requires { kind_in name.now self.old.tokens ≡ Some Kind.Held }
        ensures { TakesOut name.now (NamedToken.Held result) self.old.tokens self.new.tokens }
    {
        match self.take(name) {
            NamedToken::Held(held) => held,
            _other => unreachable!(),
        }
    }

    /// Takes out the lease of this name.
    pub fn take_lease(&mut self, name: &Name) -> Lease
        requires { kind_in name.now self.old.tokens ≡ Some Kind.Lease }
        ensures taken { TakesOut name.now (NamedToken.Lease result) self.old.tokens self.new.tokens }
        ensures room { 0 < self.old.room → 0 < self.new.room }
    {
        match self.take(name) {
            NamedToken::Lease(lease) => lease,
            _other => unreachable!(),
        }
    }

    /// The ticket of this name, which keeps it.
    pub fn ticket(&self, name: &Name) -> &Ticket<Name, A>
        requires { kind_in name.now self.now.tokens ≡ Some Kind.Ticket }
        ensures { token_at name.now self.now.tokens ≡ Some (NamedToken.Ticket result.now) }
    {
        let Some(token) = self.get(name) else {
            unreachable!()
        };
        match token {
            NamedToken::Ticket(ticket) => ticket,
            _other => unreachable!(),
        }
    }
}
