//! A line and its two ends.
ghost use Rattle.std.specs.Prelude.{◌≡◌, Some, IfOk};
ghost use Rattle.crossbeam_queue.specs.SegTies.{IsSegPassOf};
ghost use Rattle.intake.specs.Rule.{pusher_of, taker_of, founder};
ghost use Rattle.intake.specs.Calls.{IsNew};

use crate::inlet::Inlet;
use crate::item::Item;
use crate::outlet::Outlet;
use crate::plays::{InTurn, Naming, Part};
use crate::view::View;
use crossbeam_queue::{RuledSegQueue, SegPass};
use std::alloc::{AllocError, Allocator};
use std::marker::Brand;
use std::sync::Arc;

/// There was not enough memory.
pub type Refused = AllocError;

pub(crate) type Queue<T, K, A> = RuledSegQueue<T, View<T, K>, InTurn<T, K>, A>;

pub(crate) type Pass<T, K, A> = SegPass<T, View<T, K>, A>;

/// The queue, which both ends have. Who drops the second end drops what is left in it.
pub(crate) struct SharedQueue<T: Item<K>, K, A: Allocator> {
    pub(crate) queue: Queue<T, K, A>,
}

impl<T: Item<K> + Drop, K, A: Allocator> Drop for SharedQueue<T, K, A> {
    fn drop(self) {
        let Self { queue } = self;
        queue.destroy();
    }
}

/// The pass of a new line becomes the pusher's, and the taker's is given.
fn part<T: Item<K>, K, A: Allocator, N: Naming<K>>(
    queue: &Queue<T, K, A>,
    pass: &mut Pass<T, K, A>,
) -> Pass<T, K, A>
    requires pass { IsSegPassOf queue.now pass.old × (pass.old.me.view.client ≡ founder) }
    ensures pusher { IsSegPassOf queue.now pass.new × (pass.new.me.view.client ≡ pusher_of N.key) }
    ensures taker { IsSegPassOf queue.now result × (result.me.view.client ≡ taker_of N.key) }
{
    queue.another::<Part<N>>(pass)
}

/// A new line with this key: nothing was pushed. Its ends may go to two threads.
pub fn open<T: Item<K> + Drop, K, A: Allocator + Copy>(
    alloc: A,
    key: &K,
) -> Result<(Inlet<T, K, A>, Outlet<T, K, A>), Refused>
    ensures { IfOk result (λ r. IsNew (Some key.now) r.0 r.1) }
{
    open_of::<T, K, A, Brand, K>(alloc, key)
}

/// The same with the key that the proof has from a value.
pub(crate) fn open_of<T: Item<K> + Drop, K, A: Allocator + Copy, N: Naming<K>, W>(
    alloc: A,
    whose: &W,
) -> Result<(Inlet<T, K, A>, Outlet<T, K, A>), Refused>
    ensures { IfOk result (λ r. IsNew N.key r.0 r.1) }
{
    let _ = whose;
    let (queue, mut pushing) = Queue::with_rule(alloc)?;
    let taking = part::<T, K, A, N>(&queue, &mut pushing);
    let line = Arc::new(alloc, SharedQueue { queue })?;
    let other = Arc::try_clone(&line)?;
    Ok((
        Inlet {
            line,
            pass: pushing,
        },
        Outlet {
            line: other,
            pass: taking,
        },
    ))
}
