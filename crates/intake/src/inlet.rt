//! The end at which values come in.
ghost use Rattle.std.specs.Prelude.{◌≡◌, MatchResult};
ghost use Rattle.intake.specs.Rule.{MayFollow};
ghost use Rattle.intake.specs.Calls.{Pushes};

use crate::item::Item;
use crate::line::{Pass, SharedQueue};
use crate::plays;
use std::alloc::{Allocator, Global};
use std::marker::Model;
use std::sync::{Arc, Wait};

/// The end of a line at which values come in. There is one, and it knows all that was ever pushed; it touches no lock.
/// Contracts see which line it is, its key, and the list of all that was pushed.
#[derive(Drop)]
pub struct Inlet<T: Item<K>, K, A: Allocator = Global> {
    pub(crate) line: Arc<SharedQueue<T, K, A>, A>,
    pub(crate) pass: Pass<T, K, A>,
}

impl<T: Item<K>, K, A: Allocator> Model for Inlet<T, K, A> {
    ghost use Rattle.intake.specs.Views.{InletView};

    ghost Value = { InletView T K A };

    ghost use Rattle.intake.specs.Insides.{view_of_inlet, IsInlet};

    ghost view = { view_of_inlet };

    ghost invariant = { IsInlet };
}

impl<T: Item<K> + Drop, K, A: Allocator> Inlet<T, K, A> {
    /// Pushes a value behind all earlier ones. Where it is refused, it comes back, and nothing has changed: there was no
    /// memory for a block, or nearly 2^62 were pushed.
    ///
    /// The handle is for the queue, which waits for another pusher where there is one. Here there is none.
    pub fn push<R: Wait>(&mut self, rt: &R, item: T) -> Result<(), T>
        requires { MayFollow T.follows self.old.key self.old.pushed item }
        ensures { MatchResult result (λ _. Pushes self.old item self.new) (λ x. (x ≡ item) × (self.new ≡ self.old)) }
    {
        self.line
            .queue
            .push_as::<plays::Push, R>(rt, &mut self.pass, item)
    }
}
