//! Of which processor, of which domain a list is.
use crate::plays::Place;
use sections::Home;
use std::marker::Model;

/// What never changes in a processor's list of callbacks: its domain, its tally words and its processor. Contracts alone
/// read it, as the key of the lock round that list.
#[derive(Drop)]
pub struct Spot<J> {
    pub(crate) home: Home,
    pub(crate) seat: Place<J>,
    pub(crate) processor: u16,
}

impl<J> Model for Spot<J> {
    ghost use Rattle.calls.specs.Views.{ListKey};

    ghost Value = { ListKey };

    ghost use Rattle.calls.specs.Insides.{key_of_spot};

    ghost view = { key_of_spot };
}
