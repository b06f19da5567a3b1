//! Which domain a value is of.
ghost use Rattle.std.specs.Prelude.{◌≡◌};

use crate::board::DomainSeat;
use crate::cpu::{Cookie, Look};
use crate::engine::EngineSeat;
use crate::plays;
use std::alloc::Allocator;
use std::marker::Model;

/// A value of one domain. Which one, contracts alone see.
pub trait Token {
    ghost use Rattle.atomic_table.specs.Seated.{TableId};

    ghost domain: { Self → TableId };
}

impl Token for Look {
    ghost domain = { λ l. l.domain };
}

impl Token for Cookie {
    ghost domain = { λ k. k.domain };
}

/// A domain, for what is made for values of that one domain. It takes no bytes, and contracts see the domain's table.
#[derive(Drop)]
pub struct Home {
    pub(crate) seat: DomainSeat,
}

impl Model for Home {
    ghost use Rattle.atomic_table.specs.Seated.{TableId};

    ghost Value = { TableId };

    ghost use Rattle.sections.specs.Homes.{home_of};

    ghost view = { home_of };
}

impl<A: Allocator> EngineSeat<A> {
    /// The domain that this seat drives. One load, which tells nothing.
    pub fn home(&mut self) -> Home
        ensures home { result ≡ self.old.domain }
        ensures same { self.new ≡ self.old }
    {
        let seat = self
            .table
            .shared
            .split_seat::<plays::GiveToken>(&mut self.seat);
        Home { seat }
    }
}
