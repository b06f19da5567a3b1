//! A place through which one value goes once, from one end to another.
ghost use Rattle.std.specs.Prelude.{◌≡◌, IfOk};
ghost use Rattle.intake.specs.Passing.{Passed, HasSlot, HasValue};

use atomic_table::{Play, Seat, Table, TableRule};
use std::alloc::{AllocError, Allocator, Global};
use std::marker::{Model, PhantomData};
use std::sync::Wait;
use std::thread::yield_now;

/// The value lies there.
const THERE: u64 = 0;

/// The value is still to come, or was taken.
const AWAY: u64 = 1;

/// The place is new.
const NEW: u64 = 2;

/// A value that fits a key, or does not. Contracts alone see it.
pub trait Fitting<K> {
    ghost fits: { Self → K → Type 0 };
}

/// The rule: where the word says that the value lies there, the slot has one that fits. And the step that looks.
pub struct Pass<T, K> {
    marker: PhantomData<(T, K)>,
}

impl<T: Fitting<K>, K> TableRule<Option<T>, K, K> for Pass<T, K> {
    ghost holds = { λ key. Passed (λ x. T.fits x key) };

    ghost first = { λ key. key };
}

impl<T: Fitting<K>, K> Play<Option<T>, K> for Pass<T, K> {
    ghost then = { λ st m r n. (r ≡ 0 → HasValue (λ x. T.fits x m.0) n) × (r ≡ 2 → HasSlot n) };
}

/// The step that lets the value lie.
struct Lay;

impl<T, K> Play<Option<T>, K> for Lay {
    ghost then = { λ st m r n. Unit {0} };
}

/// A place through which one value goes once, from the end that has the [`Giver`] to the one that takes it. Contracts see
/// which place it is, and the key that the value fits.
#[derive(Drop)]
pub struct Handover<T: Fitting<K>, K, A: Allocator = Global> {
    pub(crate) table: Table<Option<T>, K, K, Pass<T, K>, A>,
}

impl<T: Fitting<K>, K, A: Allocator> Model for Handover<T, K, A> {
    ghost use Rattle.intake.specs.Views.{HandoverView};

    ghost Value = { HandoverView K };

    ghost use Rattle.intake.specs.Insides.{view_of_handover, IsHandover};

    ghost view = { view_of_handover };

    ghost invariant = { IsHandover };
}

/// The right to give the value, once. It takes no bytes. Contracts see for which place.
#[derive(Drop)]
pub struct Giver<T, K> {
    pub(crate) seat: Seat<Option<T>, K>,
}

impl<T, K> Model for Giver<T, K> {
    ghost use Rattle.atomic_table.specs.Seated.{TableId};

    ghost Value = { TableId };

    ghost use Rattle.intake.specs.Insides.{view_of_giver, IsGiver};

    ghost view = { view_of_giver };

    ghost invariant = { IsGiver };
}

impl<T: Fitting<K> + Drop, K, A: Allocator> Handover<T, K, A> {
    /// A place for a value that fits this key, and the right to give one.
    pub fn new(alloc: A, key: &K) -> Result<(Handover<T, K, A>, Giver<T, K>), AllocError>
        ensures key { IfOk result (λ made. made.0.key ≡ key.now) }
        ensures giver { IfOk result (λ made. made.1 ≡ made.0.place) }
    {
        let (table, _seat) = Table::vacant(alloc, &[NEW], 1, key)?;
        let (found, seat) = table.shared.swap_new_seat::<Pass<T, K>>(0, AWAY);
        // No other thread has the place yet, so it is found as it was made.
        if found != NEW {
            return Err(AllocError);
        }
        Ok((Handover { table }, Giver { seat }))
    }

    /// Gives the value. It never waits.
    pub fn give(&self, value: T, giver: Giver<T, K>)
        requires value { T.fits value self.now.key }
        requires giver { giver ≡ self.now.place }
    {
        let Giver { mut seat } = giver;
        let shared = &self.table.shared;
        // The slot before the word, which tells a taker that the value is there.
        drop(shared.exchange(&mut seat, 0, Some(value)));
        shared.store::<Lay>(&mut seat, 0, THERE);
    }

    /// Waits until the value was given, and takes it out.
    pub fn take<R: Wait>(&self, rt: &R) -> T
        ensures { T.fits result self.now.key }
    {
        let shared = &self.table.shared;
        for _ in rt.forever() {
            let (found, mut seat) = shared.swap_new_seat::<Pass<T, K>>(0, AWAY);
            if found == THERE {
                return shared.exchange(&mut seat, 0, None).unwrap();
            }
            yield_now();
        }
        unreachable!()
    }
}
