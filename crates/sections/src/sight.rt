//! How far somebody has seen, as a value.
use crate::board::DomainSeat;
use crate::token::Token;
use std::marker::Model;

mod behind;

/// How far somebody has seen the history of a domain. It takes no bytes, and goes from hand to hand with what several
/// threads work on in turn: each goes on from where the last one was ([`Cpu::cookie_behind`](crate::Cpu::cookie_behind),
/// [`Cpu::how_far_behind`](crate::Cpu::how_far_behind)).
#[derive(Drop)]
pub struct Sight {
    pub(crate) seat: DomainSeat,
}

impl Model for Sight {
    ghost use Rattle.sections.specs.Sights.{SightView};

    ghost Value = { SightView };

    ghost use Rattle.sections.specs.SightInsides.{view_of_sight, IsSight};

    ghost view = { view_of_sight };

    ghost invariant = { IsSight };
}

impl Token for Sight {
    ghost domain = { λ s. s.domain };
}
