//! A place where threads leave a value for one another. It is a table of one word and one slot.
ghost use Rattle.std.specs.Prelude.{◌≡◌, ◌⊎◌, None, IfErr, IfOk, IfSome};
ghost use Rattle.mailbox.specs.Rule.{Kept, newcomer, Enters, Claims, Lays, IsAt, IsLast, LiesShut, there, empty};

use crate::nameplate::Nameplate;
use crate::posted::Posted;
use atomic_table::{Closed, Play, Seat, Shared, Table, TableRule};
use std::alloc::{AllocError, Allocator, Global};
use std::marker::{Model, PhantomData};
use std::sync::Wait;
use std::thread::yield_now;

/// A value lies there.
const THERE: u64 = 0;

/// A thread is at the slot.
const BUSY: u64 = 1;

/// Nothing lies there.
const EMPTY: u64 = 2;

/// The place is closed.
const SHUT: u64 = 3;

/// What the proofs know of a seat. No value of this type is ever made.
pub struct View<K> {
    pub key: K,
    /// What the word is as long as the seat is at the slot, or has closed the place; else 0.
    pub pins: u64,
}

/// The rule: where the word says that a value lies there, the slot has one that fits; where nothing does, the slot is empty;
/// and at most one seat is at it. And the step of one who comes.
pub struct Post<T, K> {
    marker: PhantomData<(T, K)>,
}

impl<T: Posted<K>, K> TableRule<Option<T>, View<K>, Nameplate<K>> for Post<T, K> {
    ghost holds = { λ nameplate. Kept (λ x. T.fits x nameplate.key) };

    ghost first = { λ nameplate. newcomer nameplate.key };
}

impl<T: Posted<K>, K> Play<Option<T>, View<K>> for Post<T, K> {
    ghost then = { λ st m r n. Enters m n };
}

/// The step of one who takes the slot.
struct Claim<T, K> {
    marker: PhantomData<(T, K)>,
}

impl<T: Posted<K>, K> Play<Option<T>, View<K>> for Claim<T, K> {
    ghost then = { λ st m r n. Claims T.fits st.first m r n };
}

/// The step of one who lays the slot down.
struct Lay;

impl<T, K> Play<Option<T>, View<K>> for Lay {
    ghost then = { λ st m r n. Lays st.first m n };
}

type Board<T, K> = Shared<Option<T>, View<K>, Nameplate<K>, Post<T, K>>;

type SlotSeat<T, K> = Seat<Option<T>, View<K>>;

/// A place for one value, where any thread may leave one and any may take it. It never blocks. Contracts see which place it
/// is, and the key that its value fits. A mailbox for values that must be spent must be spent too: it ends in
/// [`Mailbox::close`].
#[derive(Drop)]
pub struct Mailbox<T: Posted<K>, K, A: Allocator = Global> {
    pub(crate) table: Table<Option<T>, View<K>, Nameplate<K>, Post<T, K>, A>,
}

impl<T: Posted<K>, K, A: Allocator> Model for Mailbox<T, K, A> {
    ghost use Rattle.mailbox.specs.Views.{MailboxView};

    ghost Value = { MailboxView K };

    ghost use Rattle.mailbox.specs.Insides.{view_of_mailbox, IsMailbox};

    ghost view = { view_of_mailbox };

    ghost invariant = { IsMailbox };
}

/// Takes the slot where the word is this one.
fn take_slot<T: Posted<K>, K>(top: &Board<T, K>, from: u64) -> Option<SlotSeat<T, K>>
    requires top { (top.now.table_id.words ≡ 1) × (top.now.table_id.slots ≡ 1) }
    requires from { (from ≡ there) ⊎ (from ≡ empty) }
    ensures { IfSome result (λ seat. IsAt T.fits top.now.table_id top.now.key.key from seat) }
{
    let (_, mut seat) = top.load_new_seat::<Post<T, K>>(0);
    let found = top.compare_exchange::<Claim<T, K>>(&mut seat, 0, from, BUSY);
    if found == from { Some(seat) } else { None }
}

/// What lay in a place, and the seat that has closed it.
type Last<T, K> = (Option<T>, SlotSeat<T, K>);

/// Closes the place where the word is this one.
fn shut_from<T: Posted<K>, K>(top: &Board<T, K>, from: u64) -> Option<Last<T, K>>
    requires top { (top.now.table_id.words ≡ 1) × (top.now.table_id.slots ≡ 1) }
    requires from { (from ≡ there) ⊎ (from ≡ empty) }
    ensures { IfSome result (λ last. IsLast T.fits top.now.table_id top.now.key.key last.0 last.1) }
{
    let mut seat = take_slot(top, from)?;
    let value = top.exchange(&mut seat, 0, None);
    top.store::<Lay>(&mut seat, 0, SHUT);
    Some((value, seat))
}

/// Closes the place. It waits for threads that are at it just now.
fn shut_place<R: Wait, T: Posted<K>, K>(rt: &R, top: &Board<T, K>) -> Last<T, K>
    requires { (top.now.table_id.words ≡ 1) × (top.now.table_id.slots ≡ 1) }
    ensures { IsLast T.fits top.now.table_id top.now.key.key result.0 result.1 }
{
    for _ in rt.forever() {
        if let Some(last) = shut_from(top, THERE) {
            return last;
        }
        if let Some(last) = shut_from(top, EMPTY) {
            return last;
        }
        yield_now();
    }
    unreachable!()
}

/// The slots of a place that was closed, of which none has a value.
fn free_all<T, A: Allocator>(mut closed: Closed<Option<T>, A>)
    requires { LiesShut closed }
{
    let nothing = closed.take(0);
    let None = nothing else { unreachable!() };
    closed.free();
}

impl<T: Posted<K>, K, A: Allocator> Mailbox<T, K, A> {
    /// A place for a value that fits this key, in which nothing lies.
    pub fn new(alloc: A, key: &K) -> Result<Mailbox<T, K, A>, AllocError>
        ensures { IfOk result (λ mailbox. mailbox.key ≡ key.now) }
    {
        let (table, _seat) = Table::vacant(alloc, &[EMPTY], 1, &Nameplate::of(key))?;
        Ok(Mailbox { table })
    }

    /// Leaves a value there. It comes back where another one lies there, or another thread is at the place just now.
    pub fn post(&self, value: T) -> Result<(), T>
        requires { T.fits value self.now.key }
        ensures { IfErr result (λ back. back ≡ value) }
    {
        let top = &self.table.shared;
        let Some(mut seat) = take_slot(top, EMPTY) else {
            return Err(value);
        };
        // The slot before the word, which tells a taker that the value is there.
        let nothing = top.exchange(&mut seat, 0, Some(value));
        let None = nothing else { unreachable!() };
        top.store::<Lay>(&mut seat, 0, THERE);
        Ok(())
    }

    /// Takes the value that lies there. None where nothing does, or another thread is at the place just now.
    pub fn take(&self) -> Option<T>
        ensures { IfSome result (λ value. T.fits value self.now.key) }
    {
        let top = &self.table.shared;
        let mut seat = take_slot(top, THERE)?;
        let value = top.exchange(&mut seat, 0, None).unwrap();
        top.store::<Lay>(&mut seat, 0, EMPTY);
        Some(value)
    }

    /// The end of the place. What lies there comes back.
    pub fn close<R: Wait>(self, rt: &R) -> Option<T>
        ensures { IfSome result (λ value. T.fits value self.key) }
    {
        let Mailbox { table } = self;
        let (value, seat) = shut_place(rt, &table.shared);
        free_all(table.close_with(seat));
        value
    }
}
