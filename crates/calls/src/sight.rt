//! What goes with a receipt.
use crate::plays::Place;
use std::marker::Model;

/// What its giver had seen of what was done on the tally words. It makes no steps, and has no bytes.
#[derive(Drop)]
pub struct TallySight<J> {
    pub(crate) seat: Place<J>,
}

impl<J> Model for TallySight<J> {
    ghost use Rattle.calls.specs.Views.{NoteView};

    ghost Value = { NoteView J };

    ghost use Rattle.calls.specs.Insides.{view_of_note};

    ghost view = { view_of_note };
}
