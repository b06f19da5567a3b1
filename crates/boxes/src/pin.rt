//! A box that a section found.
ghost use Rattle.std.specs.Prelude.{◌≡◌};
ghost use Rattle.sections.specs.Loans.{offer_found};

use domain::{Anywhere, Here, Kind, Loan};
use parts::{Part, Terms};
use std::marker::Model;

/// A box that a section found, with that section: it stays open, and the box where it is. A pin can't be dropped:
/// [`Boxes::release`](crate::Boxes::release) gives its section back.
pub struct BoxPin<V, K: Kind = Here> {
    pub(crate) loan: Loan<K>,
    pub(crate) part: Part<V>,
}

/// One that may go to another thread, and end there.
pub type HeldBox<V> = BoxPin<V, Anywhere>;

impl<V, K: Kind> Model for BoxPin<V, K> {
    ghost use Rattle.boxes.specs.Boxes.{PinView};

    ghost Value = { PinView V };

    ghost use Rattle.boxes.specs.Insides.{view_of_pin, IsPin};

    ghost view = { view_of_pin };

    ghost invariant = { IsPin };
}

impl<V, K: Kind> BoxPin<V, K> {
    /// The value in the box, however long the section has slept and whatever was put since. It makes no step.
    pub fn get(&self) -> &V
        ensures { result.now ≡ self.now.value }
    {
        self.part.get()
    }

    /// The part that reads the box. It is of the round that the version of the pin offers.
    pub fn part(&self) -> &Part<V>
        ensures { (result.now.round ≡ (offer_found self.now.found).round) × (result.now.value ≡ self.now.value) }
    {
        &self.part
    }

    /// What each pin of this pin's version reads, as knowledge to hand about.
    pub fn terms(&self) -> Terms<V>
        ensures { (result.round ≡ (offer_found self.now.found).round) × (result.value ≡ self.now.value) }
    {
        Terms::of_part(&self.part)
    }

    /// A pin of a version of these terms reads their value. It does nothing: contracts learn it from the call.
    pub fn agree(&self, terms: &Terms<V>)
        requires { terms.now.round ≡ (offer_found self.now.found).round }
        ensures { self.now.value ≡ terms.now.value }
    {
        terms.agree(&self.part);
    }
}
