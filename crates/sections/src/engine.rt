//! The seat with which the grace periods of a domain are driven.
use crate::board::{DomainSeat, Words};
use sseq::Number;
use std::alloc::{Allocator, Global};
use std::marker::Model;
use std::sync::Arc;

mod periods;
mod standing;
mod ties;

/// The engine's seat at a domain's words: there is one, and it alone changes the number and the index word. Contracts
/// see what it has seen of the domain's history, its own events there, and its other steps.
#[derive(Drop)]
pub struct EngineSeat<A: Allocator = Global> {
    pub(crate) table: Arc<Words<A>, A>,
    pub(crate) seat: DomainSeat,
    /// How many processors the domain has.
    pub(crate) processors: u16,
    /// The number as it stands, since nobody else changes it.
    pub(crate) number: Number,
    /// How many grace periods there may ever be.
    pub(crate) periods: u64,
}

impl<A: Allocator> Model for EngineSeat<A> {
    ghost use Rattle.sections.specs.Views.{EngineView};

    ghost Value = { EngineView };

    ghost use Rattle.sections.specs.Insides.{view_of_engine, IsEngine};

    ghost view = { view_of_engine };

    ghost invariant = { IsEngine };
}
