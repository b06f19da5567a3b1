//! A processor's seat at the tally words.
ghost use Rattle.std.specs.Prelude.{◌≡◌};

use crate::entry::Arrival;
use crate::plays::{Place, Tallies};
use crate::spot::Spot;
use intake::LazyInlet;
use sections::Sight;
use std::alloc::{Allocator, Global};
use std::marker::Model;
use std::sync::Arc;

mod meeting;
mod queueing;
mod totals;

pub use totals::Totals;

/// The seat of a processor at the tally words, with the end of the line at which its calls come in. It goes with the
/// [`Cpu`](sections::Cpu) of the same number. Contracts see the domain, and what was done on the tally words, as far as
/// this seat has seen it: what it did itself is among it.
#[derive(Drop)]
pub struct CallSeat<J, A: Allocator = Global> {
    pub(crate) table: Arc<Tallies<J, A>, A>,
    pub(crate) seat: Place<J>,
    pub(crate) processor: u16,
    /// How many calls were queued here.
    pub(crate) queued: u64,
    /// Calls come in here.
    pub(crate) inlet: LazyInlet<Arrival<J>, Spot<J>, A>,
    /// As far as all who queued here had seen then.
    pub(crate) sight: Sight,
}

impl<J, A: Allocator> Model for CallSeat<J, A> {
    ghost use Rattle.calls.specs.Views.{CallSeatView};

    ghost Value = { CallSeatView J };

    ghost use Rattle.calls.specs.Insides.{view_of_seat, IsCallSeat};

    ghost view = { view_of_seat };

    ghost invariant = { IsCallSeat };
}

impl<J, A: Allocator> CallSeat<J, A> {
    /// The number of the seat's processor, from 0.
    pub fn processor(&self) -> u16
        ensures { result ≡ self.now.processor }
    {
        self.processor
    }
}

/// How many calls a processor may ever queue, 2^54.
pub(crate) const MOST_CALLS: u64 = 18_014_398_509_481_984;
