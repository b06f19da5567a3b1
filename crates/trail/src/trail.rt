//! One word and one slot of a table: where the word is 0, the value is at home. The word stands amid others that nobody
//! writes: locks that lie side by side on the heap would slow each other down if they shared a line.
ghost use Rattle.std.specs.Prelude.{◌≡◌, ◌∷◌, List, IfOk};
ghost use Rattle.trail.specs.Rule.{Kept, Fits, seizes_as, releases_as, Looks, newcomer, informed, spent};
ghost use Rattle.trail.specs.Calls.{IsLeft, IsEarlier, Follows};

use crate::view::View;
use atomic_table::{Badge, Join, Play, Refused, Seat, Table, TableRule};
use std::alloc::{AllocError, Allocator, Global};
use std::marker::{Model, PhantomData};
use std::sync::Wait;
use std::thread::yield_now;

/// How many words the table has: 256 bytes.
const WORDS: usize = 32;

/// Where the word stands: 128 bytes from the first and from behind the last one.
const LOCK: usize = 16;

/// A value that may lie behind a lock with a trail. Contracts alone see what is declared here.
pub trait Lies<K, E> {
    /// Whether the value fits a lock of this key.
    ghost fits: { K → Self → Type 0 };

    /// The value's state, as the trail keeps it.
    ghost state: { Self → E };

    /// Whether a value that was found in the first state may be left in the second.
    ghost goes: { E → E → Type 0 };
}

/// The rule: where the word is 0, a value lies in the slot that fits the lock's key, in the trail's newest state.
pub struct Guard<T, K, E> {
    marker: PhantomData<(T, K, E)>,
}

impl<T: Lies<K, E>, K, E> TableRule<Option<T>, View<K, E>, K> for Guard<T, K, E> {
    ghost holds = { λ key. Kept (T.fits key) T.state T.goes };

    ghost first = { newcomer };
}

/// The step that takes the value, where it lies there.
impl<T: Lies<K, E>, K, E> Play<Option<T>, View<K, E>> for Guard<T, K, E> {
    ghost then = { λ st m r n. seizes_as T.fits T.state m r n };
}

/// The step that lets the value lie.
pub struct Release<T, K, E> {
    marker: PhantomData<(T, K, E)>,
}

impl<T: Lies<K, E>, K, E> Play<Option<T>, View<K, E>> for Release<T, K, E> {
    ghost then = { λ st m r n. releases_as T.state m n };
}

/// A load, of whoever was told what another one had seen.
pub struct Look<T, K, E> {
    marker: PhantomData<(T, K, E)>,
}

impl<T: Lies<K, E>, K, E> Play<Option<T>, View<K, E>> for Look<T, K, E> {
    ghost then = { λ st m r n. Looks T.goes m n };
}

/// One seat tells another what it has seen.
pub struct Inform;

impl<K, E> Join<View<K, E>> for Inform {
    ghost both = { informed };

    ghost spent = { spent };
}

/// A lock round one value. Contracts see which lock it is and its key. The states in which its value was left, one after
/// another, are seen by whoever takes it or puts it back.
///
/// It spins, and yields in between, so a value should be out for a few steps at a time.
#[derive(Drop)]
pub struct Trail<T: Lies<K, E>, K, E, A: Allocator = Global> {
    pub(crate) table: Table<Option<T>, View<K, E>, K, Guard<T, K, E>, A>,
}

impl<T: Lies<K, E>, K, E, A: Allocator> Model for Trail<T, K, E, A> {
    ghost use Rattle.trail.specs.Views.{TrailView};

    ghost Value = { TrailView K };

    ghost use Rattle.trail.specs.Insides.{view_of_trail, IsTrail};

    ghost view = { view_of_trail };

    ghost invariant = { IsTrail };
}

/// The value of a lock is out. A loan can't be dropped: it ends in [`Trail::put_back`]. Contracts see of which lock, and all
/// states in which the value had been left when it was taken.
pub struct Loan<T, K, E> {
    pub(crate) seat: Seat<Option<T>, View<K, E>>,
}

impl<T, K, E> Model for Loan<T, K, E> {
    ghost use Rattle.trail.specs.Views.{SightView};

    ghost Value = { SightView E };

    ghost use Rattle.trail.specs.Insides.{view_of_loan, IsLoan};

    ghost view = { view_of_loan };

    ghost invariant = { IsLoan };
}

/// What was seen of a lock: the states in which its value had been left by a moment. It has no bytes.
#[derive(Drop)]
pub struct Sight<K, E> {
    pub(crate) badge: Badge<View<K, E>>,
}

impl<K, E> Model for Sight<K, E> {
    ghost use Rattle.trail.specs.Views.{SightView};

    ghost Value = { SightView E };

    ghost use Rattle.trail.specs.Insides.{view_of_sight, IsSight};

    ghost view = { view_of_sight };

    ghost invariant = { IsSight };
}

impl<T: Lies<K, E> + Drop, K, E, A: Allocator> Trail<T, K, E, A> {
    /// A lock with this value in it, which fits this key. `other` gives the memory for a moment, `alloc` for good.
    pub fn new<B: Allocator>(
        alloc: A,
        other: B,
        value: T,
        key: &K,
    ) -> Result<Trail<T, K, E, A>, AllocError>
        requires { T.fits key.now value }
        ensures { IfOk result (λ trail. trail.key ≡ key.now) }
    {
        let mut slots = Vec::with_capacity(other, 1)?;
        slots.push_reserved(Some(value));
        match Table::new(alloc, &[0; WORDS], slots, key) {
            Ok((table, _seat)) => Ok(Trail { table }),
            Err(Refused { slots: _ }) => Err(AllocError),
        }
    }
}

// No value is dropped here: its type need not be one that may be.
impl<T: Lies<K, E>, K, E, A: Allocator> Trail<T, K, E, A> {
    /// Waits until the value lies there, and takes it out. No other thread has it until it is put back.
    pub fn take<R: Wait>(&self, rt: &R) -> (T, Loan<T, K, E>)
        ensures fits { T.fits self.now.key result.0 }
        ensures lock { result.1.lock ≡ self.now.lock }
        ensures found { (before : List E) × (result.1.seen ≡ T.state result.0 ∷ before) }
    {
        let shared = &self.table.shared;
        for _ in rt.forever() {
            let (found, mut seat) = shared.swap_new_seat::<Guard<T, K, E>>(LOCK, 1);
            if found == 0 {
                let value = shared.exchange(&mut seat, 0, None).unwrap();
                return (value, Loan { seat });
            }
            yield_now();
        }
        unreachable!()
    }

    /// Puts the value back, in a state to which it may go from the one in which it was found.
    pub fn put_back(&self, value: T, loan: Loan<T, K, E>) -> Sight<K, E>
        requires fits { T.fits self.now.key value }
        requires lock { loan.lock ≡ self.now.lock }
        requires goes { IsLeft T.goes loan.seen (T.state value) }
        ensures lock { result.lock ≡ self.now.lock }
        ensures left { result.seen ≡ T.state value ∷ loan.seen }
    {
        let Loan { mut seat } = loan;
        let shared = &self.table.shared;
        match shared.exchange(&mut seat, 0, Some(value)) {
            None => {}
            Some(_) => unreachable!(),
        }
        shared.store::<Release<T, K, E>>(&mut seat, LOCK, 0);
        Sight {
            badge: seat.into_badge(),
        }
    }

    /// One sight hears of another of the same lock: of the two, one goes on from the other. In what it has then seen, the
    /// value went from each state to the next as it may.
    pub fn hear(&self, sight: Sight<K, E>, other: Sight<K, E>) -> Sight<K, E>
        requires lock { sight.lock ≡ self.now.lock }
        requires other { other.lock ≡ self.now.lock }
        ensures lock { result.lock ≡ self.now.lock }
        ensures covers { IsEarlier sight.seen result.seen }
        ensures hears { IsEarlier other.seen result.seen }
        ensures goes { (newest : E) × (before : List E) × (result.seen ≡ newest ∷ before) × Follows T.goes newest before }
    {
        let shared = &self.table.shared;
        let mut seat: Seat<Option<T>, View<K, E>> = sight.badge.into_seat();
        shared.join_seat::<Inform>(&mut seat, other.badge.into_seat());
        shared.load::<Look<T, K, E>>(&mut seat, LOCK);
        Sight {
            badge: seat.into_badge(),
        }
    }
}
