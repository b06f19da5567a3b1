//! One word and one slot of a table: where the word is 0, the value is at home. The word stands amid others that nobody
//! writes: locks that lie side by side on the heap would slow each other down if they shared a line.
ghost use Rattle.std.specs.Prelude.{◌≡◌, IfOk};
ghost use Rattle.keep.specs.Guarding.{Guarded, Seized};

use atomic_table::{Play, Refused, Seat, Table, TableRule};
use std::alloc::{AllocError, Allocator, Global};
use std::marker::{Model, PhantomData};
use std::sync::Wait;
use std::thread::yield_now;

/// How many words the table has: 120 bytes.
const WORDS: usize = 15;

/// Where the word stands: seven words before it and seven after it, so that a cache line of 64 bytes holds no other lock's.
const LOCK: usize = 7;

/// A value that has a key. Which one, contracts alone see.
pub trait Keyed<K> {
    ghost key: { Self → K };
}

/// The rule: where the word is 0, a value lies in the slot that has the lock's key. And the step that takes it.
pub struct Guard<T, K> {
    marker: PhantomData<(T, K)>,
}

impl<T: Keyed<K>, K> TableRule<Option<T>, K, K> for Guard<T, K> {
    ghost holds = { λ key. Guarded (λ x. T.key x ≡ key) };

    ghost first = { λ key. key };
}

impl<T: Keyed<K>, K> Play<Option<T>, K> for Guard<T, K> {
    ghost then = { λ st m r n. r ≡ 0 → Seized (λ x. T.key x ≡ m.0) n };
}

/// The step that lets the value lie.
struct Release;

impl<T, K> Play<Option<T>, K> for Release {
    ghost then = { λ st m r n. Unit {0} };
}

/// A lock round one value. Contracts see which lock it is and its key: the value that it guards always has that key.
/// A `std::sync::Mutex` can't say so: what is behind it has the facts of its type alone.
///
/// It spins, and yields in between, so a value should be out for a few steps at a time.
#[derive(Drop)]
pub struct Keep<T: Keyed<K>, K, A: Allocator = Global> {
    pub(crate) table: Table<Option<T>, K, K, Guard<T, K>, A>,
}

impl<T: Keyed<K>, K, A: Allocator> Model for Keep<T, K, A> {
    ghost use Rattle.keep.specs.Views.{KeepView};

    ghost Value = { KeepView K };

    ghost use Rattle.keep.specs.Insides.{view_of_keep, IsKeep};

    ghost view = { view_of_keep };

    ghost invariant = { IsKeep };
}

/// The value of a lock is out. A loan can't be dropped: it ends in [`Keep::put_back`]. Contracts see of which lock.
pub struct Loan<T, K> {
    pub(crate) seat: Seat<Option<T>, K>,
}

impl<T, K> Model for Loan<T, K> {
    ghost use Rattle.atomic_table.specs.Seated.{TableId};

    ghost Value = { TableId };

    ghost use Rattle.keep.specs.Insides.{view_of_loan, IsLoan};

    ghost view = { view_of_loan };

    ghost invariant = { IsLoan };
}

impl<T: Keyed<K> + Drop, K, A: Allocator> Keep<T, K, A> {
    /// A lock with this value in it, whose key is this one. `other` gives the memory for a moment, `alloc` for good.
    pub fn new<B: Allocator>(
        alloc: A,
        other: B,
        value: T,
        key: &K,
    ) -> Result<Keep<T, K, A>, AllocError>
        requires { T.key value ≡ key.now }
        ensures { IfOk result (λ kept. kept.key ≡ key.now) }
    {
        let mut slots = Vec::with_capacity(other, 1)?;
        slots.push_reserved(Some(value));
        match Table::new(alloc, &[0; WORDS], slots, key) {
            Ok((table, _seat)) => Ok(Keep { table }),
            Err(Refused { slots: _ }) => Err(AllocError),
        }
    }

    /// Waits until the value lies there, and takes it out. No other thread has it until it is put back.
    pub fn take<R: Wait>(&self, rt: &R) -> (T, Loan<T, K>)
        ensures value { T.key result.0 ≡ self.now.key }
        ensures loan { result.1 ≡ self.now.lock }
    {
        let shared = &self.table.shared;
        for _ in rt.forever() {
            let (found, mut seat) = shared.swap_new_seat::<Guard<T, K>>(LOCK, 1);
            // The word before the slot: who has changed the word from 0 to 1 is alone at the slot. The other way round two
            // threads could both look into the slot, and one of them would find nothing there.
            if found == 0 {
                let value = shared.exchange(&mut seat, 0, None).unwrap();
                return (value, Loan { seat });
            }
            yield_now();
        }
        unreachable!()
    }

    /// Puts the value back, or another one that has the same key.
    pub fn put_back(&self, value: T, loan: Loan<T, K>)
        requires value { T.key value ≡ self.now.key }
        requires loan { loan ≡ self.now.lock }
    {
        let Loan { mut seat } = loan;
        let shared = &self.table.shared;
        // The slot before the word: a thread that finds the word at 0 takes what lies in the slot, and the value has to be
        // there by then.
        drop(shared.exchange(&mut seat, 0, Some(value)));
        shared.store::<Release>(&mut seat, LOCK, 0);
    }
}
