//! A line whose queue is made at the first push. Until then it takes few bytes.
ghost use Rattle.std.specs.Prelude.{◌≡◌, [], Some, IfOk, MatchResult};
ghost use Rattle.intake.specs.Rule.{MayFollow};
ghost use Rattle.intake.specs.Calls.{PopsLazily, PushesLazily};
ghost use Rattle.intake.specs.Lazily.{IsInStage, Begins, IsOfKey, Reaches};

use crate::handover::{Fitting, Giver, Handover};
use crate::inlet::Inlet;
use crate::item::Item;
use crate::line::{Refused, open_of};
use crate::outlet::Outlet;
use std::alloc::{Allocator, Global};
use std::marker::{Brand, Model};
use std::sync::{Arc, Wait};

impl<T: Item<K>, K, A: Allocator> Fitting<K> for Outlet<T, K, A> {
    ghost use Rattle.std.specs.Prelude.{◌≡◌, [], Some};

    ghost fits = { λ o key. (o.key ≡ Some key) × (o.taken ≡ []) };
}

/// Where the second end goes, once there is a queue.
pub(crate) type OutletHandover<T, K, A> = Handover<Outlet<T, K, A>, K, A>;

/// The end at which values come in, as [`Inlet`]. It makes the queue. Contracts see the place of the line's handover, its key, and
/// the list of all that was pushed.
#[derive(Drop)]
pub struct LazyInlet<T: Item<K>, K, A: Allocator = Global> {
    pub(crate) place: Arc<OutletHandover<T, K, A>, A>,
    pub(crate) giver: Option<Giver<Outlet<T, K, A>, K>>,
    pub(crate) inlet: Option<Inlet<T, K, A>>,
    pub(crate) alloc: A,
}

impl<T: Item<K>, K, A: Allocator> Model for LazyInlet<T, K, A> {
    ghost use Rattle.intake.specs.Views.{LazyInletView};

    ghost Value = { LazyInletView T K };

    ghost use Rattle.intake.specs.Insides.{view_of_lazy_inlet, IsLazyInlet};

    ghost view = { view_of_lazy_inlet };

    ghost invariant = { IsLazyInlet };
}

/// The end at which values go out, as [`Outlet`]. Contracts see the place, the key, and the list of all that was taken out.
#[derive(Drop)]
pub struct LazyOutlet<T: Item<K>, K, A: Allocator = Global> {
    pub(crate) place: Arc<OutletHandover<T, K, A>, A>,
    pub(crate) outlet: Option<Outlet<T, K, A>>,
}

impl<T: Item<K>, K, A: Allocator> Model for LazyOutlet<T, K, A> {
    ghost use Rattle.intake.specs.Views.{LazyOutletView};

    ghost Value = { LazyOutletView T K };

    ghost use Rattle.intake.specs.Insides.{view_of_lazy_outlet, IsLazyOutlet};

    ghost view = { view_of_lazy_outlet };

    ghost invariant = { IsLazyOutlet };
}

/// The two ends of a new line with this key: nothing was pushed, and there is no queue yet. They may go to two threads. The pusher
/// hands the queue over through the place at which the taker waits.
pub fn open_lazily<T: Item<K> + Drop, K, A: Allocator + Copy>(
    alloc: A,
    key: &K,
) -> Result<(LazyInlet<T, K, A>, LazyOutlet<T, K, A>), Refused>
    ensures inlet { IfOk result (λ r. r.0 ≡ record { place = r.1.place; key = Some key.now; pushed = [] }) }
    ensures outlet { IfOk result (λ r. r.1 ≡ record { place = r.1.place; key = Some key.now; taken = [] }) }
{
    let (place, giver) = Handover::new(alloc, key)?;
    let place = Arc::new(alloc, place)?;
    let other = Arc::try_clone(&place)?;
    Ok((
        LazyInlet {
            place,
            giver: Some(giver),
            inlet: None,
            alloc,
        },
        LazyOutlet {
            place: other,
            outlet: None,
        },
    ))
}

/// Makes the queue where there is none, and gives its second end to the other side.
fn begin<T: Item<K> + Drop, K, A: Allocator + Copy>(
    alloc: A,
    place: &OutletHandover<T, K, A>,
    giver: &mut Option<Giver<Outlet<T, K, A>, K>>,
    inlet: &mut Option<Inlet<T, K, A>>,
) -> Result<(), Refused>
    requires { IsInStage place.now giver.old inlet.old }
    ensures { MatchResult result (λ _. Begins place.now.key inlet.old inlet.new) (λ _. (inlet.new ≡ inlet.old) × (giver.new ≡ giver.old)) }
{
    if inlet.is_some() {
        return Ok(());
    }
    let (first, outlet) = open_of::<T, K, A, Brand, OutletHandover<T, K, A>>(alloc, place)?;
    let Some(right) = giver.take() else {
        unreachable!();
    };
    place.give(outlet, right);
    *inlet = Some(first);
    Ok(())
}

/// Takes the second end over where that is still to be done. It waits until there is a queue.
fn reach<T: Item<K> + Drop, K, A: Allocator, R: Wait>(
    rt: &R,
    place: &OutletHandover<T, K, A>,
    outlet: &mut Option<Outlet<T, K, A>>,
)
    requires { IsOfKey place.now.key outlet.old }
    ensures { Reaches place.now.key outlet.old outlet.new }
{
    if outlet.is_none() {
        *outlet = Some(place.take(rt));
    }
}

impl<T: Item<K> + Drop, K, A: Allocator + Copy> LazyInlet<T, K, A> {
    /// Pushes a value after all earlier ones. The first push makes the queue. Where a value is refused, it comes back, and
    /// nothing has changed: there was no memory, or nearly 2^62 were pushed.
    ///
    /// The handle is for the queue, as in [`Inlet::push`].
    pub fn push<R: Wait>(&mut self, rt: &R, item: T) -> Result<(), T>
        requires { MayFollow T.follows self.old.key self.old.pushed item }
        ensures { MatchResult result (λ _. PushesLazily self.old item self.new) (λ x. (x ≡ item) × (self.new ≡ self.old)) }
    {
        let begun = begin(self.alloc, &self.place, &mut self.giver, &mut self.inlet);
        if begun.is_err() {
            return Err(item);
        }
        let Some(inlet) = &mut self.inlet else {
            unreachable!();
        };
        inlet.push(rt, item)
    }
}

impl<T: Item<K> + Drop, K, A: Allocator> LazyOutlet<T, K, A> {
    /// Takes out the value that was pushed first of those that are left. It waits while nothing is there.
    pub fn wait<R: Wait>(&mut self, rt: &R) -> T
        ensures { PopsLazily T.follows self.old result self.new }
    {
        reach(rt, &self.place, &mut self.outlet);
        let Some(outlet) = &mut self.outlet else {
            unreachable!();
        };
        outlet.wait(rt)
    }
}
