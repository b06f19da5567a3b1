//! All devices of a registry.
ghost use Rattle.std.specs.Prelude.{◌≡◌, ℕ, ◌+◌, ◌^◌, ◌<◌, ◌≤◌, [], ◌∷◌, ◌++◌, None, IfOk, IfSome, MatchOption, MatchResult, All, length, map, slice_index_or};
ghost use Rattle.std.specs.List.{AllWithin, HoldsAt, last_or, remove};
ghost use Rattle.std.specs.Vec.{vec_capacity};
ghost use Rattle.std.specs.declared.cmp.Ordering.TheVariants.{Less, Equal, Greater};
ghost use Rattle.registry.specs.Order.{AreInOrder};

use crate::device::Device;
use crate::index::Entry;
use std::alloc::{AllocError, Allocator};
use std::cmp::Ordering;

/// The devices that are there, and those that were removed and have not come back.
#[derive(Drop)]
pub(crate) struct Devices<K: Copy, V, A: Allocator> {
    /// What the next version shows, in the order of the keys.
    pub(crate) here: Vec<Device<K, V, A>, A>,
    /// In the order in which they were removed.
    pub(crate) leaving: Vec<Device<K, V, A>, A>,
}

impl<K: Ord + Copy, V: Drop, A: Allocator> Devices<K, V, A> {
    ghost use Rattle.registry.specs.Names.{ComesHome, HasItsNumber, Lends, ShowsItsOwn, name_of, swap, times_here};
    ghost use Rattle.registry.specs.Registry.{AreNumbered, AreParts};

    /// Where a device with this key stands, or where it would stand.
    pub(crate) fn place_of(&self, key: K) -> Result<usize, usize>
        requires { AreInOrder K.cmp (map (λ d. d.key) self.now.here.items) }
        ensures { MatchResult result
            (λ i. (i < length self.now.here.items) × HoldsAt (λ d. K.cmp d.key key ≡ Equal) self.now.here.items i)
            (λ i. (i ≤ length self.now.here.items) × AllWithin (λ d. K.cmp d.key key ≡ Less) self.now.here.items 0 i
            × AllWithin (λ d. K.cmp d.key key ≡ Greater) self.now.here.items i (length self.now.here.items)) }
    {
        self.here.binary_search_by(
            |device| -> Ordering
                ensures { result ≡ K.cmp device.now.key key }
            { device.key.cmp(&key) },
        )
    }

    /// Puts a device where another one stands, which it returns.
    pub(crate) fn put_at(&mut self, place: usize, device: Device<K, V, A>) -> Device<K, V, A>
        requires { place < length self.old.here.items }
        ensures leaving { self.new.leaving ≡ self.old.leaving }
        ensures here { self.new.here.items ≡ swap self.old.here.items place device }
        ensures old { result ≡ slice_index_or self.old.here.items place result }
    {
        let old = self.here.remove(place);
        self.here.insert(place, device).unwrap();
        old
    }

    /// One part of each device that is here.
    pub(crate) fn lend_all(&mut self, alloc: A) -> Result<Vec<Entry<K, V>, A>, AllocError>
        requires { All (λ d. d.out < 2 ^ 62) self.old.here.items }
        ensures leaving { self.new.leaving ≡ self.old.leaving }
        ensures capacity { vec_capacity self.new.here ≡ vec_capacity self.old.here }
        ensures lends { MatchResult result
            (λ entries. Lends 1 self.old.here.items self.new.here.items × AreParts entries.items self.old.here.items)
            (λ _. self.new.here.items ≡ self.old.here.items) }
    {
        let count = self.here.len();
        let mut entries = Vec::with_capacity(alloc, count)?;
        for place in 0..count {
            let device = &mut self.here[place];
            entries.push(device.lend()).unwrap();
        }
        Ok(entries)
    }

    /// Takes back what was just lent.
    pub(crate) fn take_back(&mut self, mut entries: Vec<Entry<K, V>, A>)
        requires many { length entries.items ≡ length self.old.here.items }
        requires parts { (k : ℕ) (e : _) (d : _) → k < length entries.items → (slice_index_or entries.items k e).part.round ≡ (slice_index_or self.old.here.items k d).deed.deed.round }
        ensures leaving { self.new.leaving ≡ self.old.leaving }
        ensures capacity { vec_capacity self.new.here ≡ vec_capacity self.old.here }
        ensures here { Lends 1 self.new.here.items self.old.here.items }
    {
        while let Some(entry) = entries.pop() {
            let device = &mut self.here[entries.len()];
            device.take_home(entry);
        }
    }

    /// Takes the parts of a version home that no section can read any more.
    pub(crate) fn take_home(&mut self, mut entries: Vec<Entry<K, V>, A>)
        requires numbered { (who : _) × All (ShowsItsOwn who) entries.items × AreNumbered K.cmp who self.old.here.items self.old.leaving.items }
        ensures here { ComesHome entries.items self.old.here.items self.new.here.items }
        ensures leaving { ComesHome entries.items self.old.leaving.items self.new.leaving.items }
    {
        // Both lists are in the order of the keys, so the next entry's device mostly stands before this one's.
        let mut place = self.here.len();
        while let Some(entry) = entries.pop() {
            place = self.take_one_home(entry, place);
        }
    }

    /// To the device of the entry, which is here or leaves. It looks right before a place first, and returns the device's own
    /// where it stands here, else that place.
    fn take_one_home(&mut self, entry: Entry<K, V>, before: usize) -> usize
        requires numbered { (who : _) × ShowsItsOwn who entry × AreNumbered K.cmp who self.old.here.items self.old.leaving.items }
        ensures here { ComesHome (entry ∷ []) self.old.here.items self.new.here.items }
        ensures leaving { ComesHome (entry ∷ []) self.old.leaving.items self.new.leaving.items }
    {
        match self.place_here(&entry, before) {
            Some(place) => {
                let device = &mut self.here[place];
                device.take_home(entry);
                place
            }
            None => {
                self.take_one_left(entry);
                before
            }
        }
    }

    /// Where the device of an entry stands, if it is here. Where it stands right before this place, nothing is searched.
    fn place_here(&self, entry: &Entry<K, V>, before: usize) -> Option<usize>
        requires numbered { (who : _) × ShowsItsOwn who entry.now × AreNumbered K.cmp who self.now.here.items self.now.leaving.items }
        ensures { MatchOption result
            (All (λ d. d.number ≡ entry.now.number → ⊥) self.now.here.items)
            (λ i. (i < length self.now.here.items) × HoldsAt (λ d. d.number ≡ entry.now.number) self.now.here.items i) }
    {
        let guess = before.wrapping_sub(1);
        if let Some(device) = self.here.get(guess) {
            if device.number == entry.number {
                return Some(guess);
            }
        }
        match self.place_of(entry.key) {
            Ok(place) => {
                if self.here[place].number == entry.number {
                    return Some(place);
                }
                None
            }
            Err(_) => None,
        }
    }

    /// To the device of the entry, which leaves. No version has an entry of another one.
    fn take_one_left(&mut self, entry: Entry<K, V>)
        requires numbered { (who : _) × ShowsItsOwn who entry × All (HasItsNumber who) self.old.leaving.items }
        requires one { times_here entry.number self.old.leaving.items ≤ 1 }
        ensures here { self.new.here.items ≡ self.old.here.items }
        ensures leaving { ComesHome (entry ∷ []) self.old.leaving.items self.new.leaving.items }
    {
        for place in 0..self.leaving.len() {
            if self.leaving[place].number == entry.number {
                let device = &mut self.leaving[place];
                device.take_home(entry);
                return;
            }
        }
    }

    /// A device that was removed and that no version has any more.
    pub(crate) fn take_whole(&mut self) -> Option<(K, V)>
        ensures here { self.new.here.items ≡ self.old.here.items }
        ensures takes { MatchOption result
            ((self.new.leaving.items ≡ self.old.leaving.items) × All (λ d. 0 < d.out) self.old.leaving.items)
            (λ name. (i : ℕ) × (i < length self.old.leaving.items) × HoldsAt (λ d. (name ≡ name_of d) × (d.out ≡ 0)) self.old.leaving.items i
            × (self.new.leaving.items ≡ remove self.old.leaving.items i)) }
    {
        for place in 0..self.leaving.len() {
            if self.leaving[place].out == 0 {
                let device = self.leaving.remove(place);
                return Some((device.key, device.into_value()));
            }
        }
        None
    }

    /// The device that was removed last, if no version has it any more.
    pub(crate) fn take_last(&mut self) -> Option<V>
        ensures here { self.new.here.items ≡ self.old.here.items }
        ensures takes { MatchOption result
            ((self.new.leaving.items ≡ self.old.leaving.items) × IfSome (last_or None self.old.leaving.items) (λ d. 0 < d.out))
            (λ value. (d : _) × (self.old.leaving.items ≡ self.new.leaving.items ++ d ∷ []) × (value ≡ d.deed.deed.value)) }
    {
        let device = self.leaving.pop()?;
        if device.out > 0 {
            self.leaving.push(device).unwrap();
            return None;
        }
        Some(device.into_value())
    }
}
