//! A vault, and what is done with its keys.
ghost use Rattle.std.specs.Prelude.{◌≡◌, ℕ, ◌+◌, ◌-◌, ◌<◌, ◌≤◌, suc, [], ◌∷◌, length, IfOk, MatchOption, None, Some};
ghost use Rattle.std.specs.Fn.{FnOnceReturnsAt};
ghost use Rattle.vault.specs.Keys.{AreKeys, IsKey};
ghost use Rattle.vault.specs.Rule.{Lies, count_of, dealer, round_of};
ghost use Rattle.vault.specs.Showing.{ShowsPart};
ghost use Rattle.vault.specs.declared.pile.Pile.{Pile as PileView};

use crate::key::{Key, Tally};
use crate::pile::Pile;
use crate::rule::{Deal, Open, Places, Shut};
use atomic_table::{Seat, Table};
use parts::Part;
use std::alloc::{AllocError, Allocator, Global};
use std::marker::Model;

/// The words of a vault: 128 bytes. Calls load one of them, and none is ever written.
const WORDS: usize = 16;

/// The word that calls load: a cache line away from what lies before the words and after them. A place that shared its line
/// would be written at each call of one thread, and all other threads would wait for the line.
const STEP: usize = 8;

/// A row of places, numbered from 0. In each lie parts of one box, 1 to 2^63 of them, or none. Any thread may use it; a place
/// opens by its key alone.
///
/// A vault that is dropped drops all parts that lie in it. Contracts see which vault it is, as the kit's number of its table.
#[derive(Drop)]
pub struct Vault<T, A: Allocator = Global> {
    pub(crate) table: Table<Option<Pile<T>>, Tally, u64, Places, A>,
}

impl<T, A: Allocator> Model for Vault<T, A> {
    ghost use Rattle.atomic_table.specs.Seated.{TableId};

    ghost Value = { TableId };

    ghost use Rattle.vault.specs.Insides.{view_of_vault, IsVault};

    ghost view = { view_of_vault };

    ghost invariant = { IsVault };
}

impl<T: Drop, A: Allocator> Vault<T, A> {
    /// A vault of so many places with nothing in them, and the key of each, in order. `alloc` gives the places' memory, `other`
    /// that of the list of keys. Returns an `AllocError` when either has none to give.
    pub fn new<B: Allocator>(
        alloc: A,
        other: B,
        places: usize,
    ) -> Result<(Vault<T, A>, Vec<Key, B>), AllocError>
        ensures { IfOk result (λ made. (length made.1.items ≡ places) × AreKeys made.0 0 made.1.items) }
    {
        let (table, rest) = Table::vacant(alloc, &[0; WORDS], places, &(places as u64))?;
        let vault = Vault { table };
        let keys = vault.deal(other, rest, places)?;
        Ok((vault, keys))
    }

    /// A key to each place.
    fn deal<B: Allocator>(
        &self,
        alloc: B,
        mut rest: Seat<Option<Pile<T>>, Tally>,
        places: usize,
    ) -> Result<Vec<Key, B>, AllocError>
        requires { (rest.table_id ≡ self.now) × (rest.me ≡ (dealer places, [])) }
        ensures { IfOk result (λ keys. (length keys.items ≡ places) × AreKeys self.now 0 keys.items) }
    {
        let shared = &self.table.shared;
        let mut keys = Vec::with_capacity(alloc, places)?;
        for _ in 0..places {
            keys.push(shared.split_seat::<Deal>(&mut rest).into_badge())?;
        }
        Ok(keys)
    }

    /// The seat of a key, and what lay in its place.
    fn open(&self, key: Key, place: usize) -> (Seat<Option<Pile<T>>, Tally>, Option<Pile<T>>)
        requires { (had : ℕ) × (round : ℕ) × IsKey self.now place had round key }
        ensures table { (result.0.table_id ≡ self.now) × (result.0.me.1 ≡ (place, None) ∷ []) }
        ensures key { (had round : ℕ) → IsKey self.now place had round key
            → (result.0.me.0 ≡ record { key = suc place; out = 1; count = had; round = round }) × Lies result.1 had round }
    {
        let shared = &self.table.shared;
        let mut seat: Seat<Option<Pile<T>>, Tally> = key.into_seat();
        shared.load::<Open>(&mut seat, STEP);
        let found = shared.exchange(&mut seat, place, None);
        (seat, found)
    }

    /// The key of a seat, once this lies in its place.
    fn shut(
        &self,
        mut seat: Seat<Option<Pile<T>>, Tally>,
        place: usize,
        pile: Option<Pile<T>>,
    ) -> Key
        requires table { (seat.table_id ≡ self.now) × (seat.me.1 ≡ (place, None) ∷ []) }
        requires key { seat.me.0.key ≡ suc place }
        ensures { IsKey self.now place (count_of pile) (round_of pile seat.me.0.round) result }
    {
        let shared = &self.table.shared;
        shared.exchange(&mut seat, place, pile);
        shared.load::<Shut>(&mut seat, STEP);
        seat.into_badge()
    }

    /// Cuts `count` parts, at least one, off those in the place of this key. None where there are no more than so many.
    /// It steps on the vault's word twice, and never waits.
    pub fn cut(&self, key: Key, place: usize, count: u64) -> (Key, Option<Part<T>>)
        requires key { (had : ℕ) × (round : ℕ) × IsKey self.now place had round key }
        requires some { 0 < count }
        ensures { (had round : ℕ) → IsKey self.now place had round key → MatchOption result.1
            ((had ≤ count) × IsKey self.now place had round result.0)
            (λ part. (count < had) × (part.count ≡ count) × (part.round ≡ round) × IsKey self.now place (had - count) round result.0) }
    {
        let (seat, found) = self.open(key, place);
        let Some(pile) = found else {
            return (self.shut(seat, place, None), None);
        };
        if pile.count <= count {
            return (self.shut(seat, place, Some(pile)), None);
        }
        let (rest, part) = pile.split(count);
        (self.shut(seat, place, Some(rest)), Some(part))
    }

    /// Adds parts to those in the place of this key. Parts of another round may lie where none are left.
    /// It steps on the vault's word twice, and never waits.
    pub fn add(&self, key: Key, place: usize, more: Pile<T>) -> Key
        requires { (had : ℕ) × (round : ℕ) × IsKey self.now place had round key × (0 < had → more.part.round ≡ round) }
        ensures { (had round : ℕ) → IsKey self.now place had round key → IsKey self.now place (had + more.part.count) more.part.round result }
    {
        let (seat, found) = self.open(key, place);
        let all = match found {
            Some(pile) => pile.join(more),
            None => more,
        };
        self.shut(seat, place, Some(all))
    }

    /// Takes all parts out of the place of this key. None where there are none.
    /// It steps on the vault's word twice, and never waits.
    pub fn empty(&self, key: Key, place: usize) -> (Key, Option<Pile<T>>)
        requires { (had : ℕ) × (round : ℕ) × IsKey self.now place had round key }
        ensures { (had round : ℕ) → IsKey self.now place had round key → IsKey self.now place 0 round result.0
            × MatchOption result.1 (had ≡ 0) (λ pile. (pile.part.count ≡ had) × (pile.part.round ≡ round)) }
    {
        let (seat, found) = self.open(key, place);
        (self.shut(seat, place, None), found)
    }

    /// Shows the parts that lie in the place of this key to a closure. None where there are none. They stay where they are. It
    /// steps on the vault's word twice, and never waits.
    pub fn show<U, F: FnOnce(&Part<T>) -> U>(
        &self,
        key: Key,
        place: usize,
        show: F,
    ) -> (Key, Option<U>)
        requires key { (had : ℕ) × (round : ℕ) × IsKey self.now place had round key }
        requires may { F.IsAlwaysCallable show }
        ensures key { (had round : ℕ) → IsKey self.now place had round key → IsKey self.now place had round result.0 }
        ensures shows { (had round : ℕ) → IsKey self.now place had round key → MatchOption result.1
            (had ≡ 0)
            (λ shown. (0 < had) × ShowsPart F.FnOnce show round shown) }
    {
        let shared = &self.table.shared;
        let mut seat: Seat<Option<Pile<T>>, Tally> = key.into_seat();
        shared.load::<Open>(&mut seat, STEP);
        let shown = show_in(&*seat.slot_mut(shared, place), show);
        shared.load::<Shut>(&mut seat, STEP);
        (seat.into_badge(), shown)
    }
}

/// Shows the parts of a pile to a closure, where there is one.
fn show_in<T, U, F: FnOnce(&Part<T>) -> U>(pile: &Option<Pile<T>>, show: F) -> Option<U>
    requires may { F.IsAlwaysCallable show }
    ensures { MatchOption result
        (pile.now ≡ None)
        (λ shown. (p : PileView T) × (pile.now ≡ Some p) × FnOnceReturnsAt F.FnOnce show p.part shown) }
{
    match pile {
        Some(pile) => Some(show(&pile.part)),
        None => None,
    }
}
