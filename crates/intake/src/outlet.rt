//! The end at which values go out.
ghost use Rattle.std.specs.Prelude.{◌≡◌, MatchOption};
ghost use Rattle.intake.specs.Calls.{Pops};

use crate::item::Item;
use crate::line::{Pass, SharedQueue};
use crate::plays;
use std::alloc::{Allocator, Global};
use std::marker::Model;
use std::sync::{Arc, Wait};
use std::thread::yield_now;

/// The end of a line at which values go out. There is one. Contracts see which line it is, its key, and the list of all
/// that was taken out.
#[derive(Drop)]
pub struct Outlet<T: Item<K>, K, A: Allocator = Global> {
    pub(crate) line: Arc<SharedQueue<T, K, A>, A>,
    pub(crate) pass: Pass<T, K, A>,
}

impl<T: Item<K>, K, A: Allocator> Model for Outlet<T, K, A> {
    ghost use Rattle.intake.specs.Views.{OutletView};

    ghost Value = { OutletView T K A };

    ghost use Rattle.intake.specs.Insides.{view_of_outlet, IsOutlet};

    ghost view = { view_of_outlet };

    ghost invariant = { IsOutlet };
}

impl<T: Item<K> + Drop, K, A: Allocator> Outlet<T, K, A> {
    /// Takes out the value that was pushed first of those that are left. `None` where nothing is there. It waits while the value
    /// at the front is being pushed.
    pub fn pop<R: Wait>(&mut self, rt: &R) -> Option<T>
        ensures { MatchOption result (self.new ≡ self.old) (λ item. Pops T.follows self.old item self.new) }
    {
        self.line
            .queue
            .pop_as::<plays::Take<T, K>, R>(rt, &mut self.pass)
    }

    /// Takes out the value that was pushed first of those that are left. It waits while nothing is there.
    pub fn wait<R: Wait>(&mut self, rt: &R) -> T
        ensures { Pops T.follows self.old result self.new }
    {
        for _ in rt.forever() {
            if let Some(item) = self.pop(rt) {
                return item;
            }
            yield_now();
        }
        unreachable!()
    }
}
