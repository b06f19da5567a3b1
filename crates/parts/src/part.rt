//! A frozen box: its parts, and its deed.
ghost use Rattle.std.specs.Prelude.{◌≡◌, ℕ, ◌+◌, ◌-◌, ◌^◌, ◌<◌, ◌≤◌};
ghost use Rattle.std_alloc.specs.Box.{box_allocator};
ghost use Rattle.parts.specs.Rounds.{part_owns, part_lends, deed_owns, deed_lends};

use std::alloc::Allocator;
use std::marker::Model;
use std::ops::Deref;

/// Some of the 2^63 parts of a frozen box, as one pointer. It reads the value on any thread, for as long as it is held.
///
/// A part that is dropped is lost: its box can't be thawed any more, and is never freed.
#[derive(Drop)]
pub struct Part<T> {
    place: *const T,
    /// Which freeze it comes from. The deed and all parts of one freeze have one round.
    pub ghost round: { ℕ },
    /// The value in the box.
    pub ghost value: { T },
    /// How many parts these are: 1 to 2^63.
    pub ghost count: { ℕ },
}

impl<T> Model for Part<T> {
    ghost also_owns = { λ d. part_owns T.row d.place d.value d.round d.count };

    ghost also_shares = { λ d _ κ. part_lends T.row d.place d.value d.round κ };
}

/// A part is used as the value in its box.
impl<T> Deref for Part<T> {
    type Target = T;

    ghost deref_gives = { λ part value. value ≡ part.value };

    fn deref(&self) -> &T {
        self.get()
    }
}

/// The right to have a frozen box back, against all of its parts. It can't be dropped, so that no box is lost unseen: it ends in
/// [`thaw`], in [`Deed::abandon`], or in a [`LooseDeed`](crate::LooseDeed), which may be dropped.
pub struct Deed<T, A: Allocator> {
    heap: A,
    place: *mut T,
    /// Which freeze it comes from.
    pub ghost round: { ℕ },
    /// The value in the box.
    pub ghost value: { T },
}

impl<T, A: Allocator> Model for Deed<T, A> {
    ghost also_owns = { λ v. deed_owns (A.dealloc_token v.heap) T.row v.place v.value v.round };

    ghost also_shares = { λ v _ κ. deed_lends T.row v.value v.round κ };
}

/// Freezes a box: its deed, and all 2^63 parts in one. It makes no step and takes no memory. The value is of a type that may be
/// dropped, as the box would drop it.
pub fn freeze<T: Drop, A: Allocator>(whole: Box<T, A>) -> (Deed<T, A>, Part<T>)
    ensures deed { (result.0.value ≡ whole.value) × (result.0.heap ≡ box_allocator whole) }
    ensures part { (result.1.round ≡ result.0.round) × (result.1.value ≡ whole.value) × (result.1.count ≡ 2 ^ 63) }
{
    let (place, heap) = Box::into_raw_with_allocator(whole);
    let all = Part { place };
    (Deed { heap, place }, all)
}

/// Makes the box again, from its deed and all of its parts. They have to be of one round, and all 2^63: then no other part is left
/// that could read. It makes no step.
pub fn thaw<T, A: Allocator>(deed: Deed<T, A>, all: Part<T>) -> Box<T, A>
    requires round { all.round ≡ deed.round }
    requires whole { all.count ≡ 2 ^ 63 }
    ensures deed { (result.value ≡ deed.value) × (box_allocator result ≡ deed.heap) }
    ensures part { result.value ≡ all.value }
{
    let Part { place: _ } = all;
    let Deed { heap, place } = deed;
    unsafe { Box::from_raw(heap, place) }
}

impl<T> Part<T> {
    /// The value in the box. It follows the part's pointer, and writes nothing.
    pub fn get(&self) -> &T
        ensures { result.now ≡ self.now.value }
    {
        unsafe { &*self.place }
    }

    /// Cuts off `count` parts, at least one and fewer than there are. Both still read.
    pub fn split(&mut self, count: u64) -> Part<T>
        requires { (0 < count) × (count < self.old.count) }
        ensures rest { self.new ≡ record self.old { count = self.old.count - count } }
        ensures part { result ≡ record self.old { count = count } }
        ensures range { self.old.count ≤ 2 ^ 63 }
    {
        Part { place: self.place }
    }

    /// Takes in parts of the same round. Contracts then see that both had one value, and that they are no more than 2^63 together.
    pub fn join(&mut self, other: Part<T>)
        requires { other.round ≡ self.old.round }
        ensures sum { self.new ≡ record self.old { count = self.old.count + other.count } }
        ensures range { (0 < other.count) × (self.new.count ≤ 2 ^ 63) }
        ensures agree { other.value ≡ self.old.value }
    {
        let Part { place: _ } = other;
    }

    /// Two parts of one round have one value. It does nothing: contracts learn it from the call.
    pub fn agree(&self, other: &Part<T>)
        requires { other.now.round ≡ self.now.round }
        ensures { other.now.value ≡ self.now.value }
    {}
}

impl<T, A: Allocator> Deed<T, A> {
    /// A part of the deed's round has the deed's value. It does nothing: contracts learn it from the call.
    pub fn agree(&self, part: &Part<T>)
        requires { part.now.round ≡ self.now.round }
        ensures { part.now.value ≡ self.now.value }
    {}

    /// Gives the box up. It is never freed, and its parts read it for good. Returns the box's allocator.
    pub fn abandon(self) -> A
        ensures { result ≡ self.heap }
    {
        let Deed { heap, place: _ } = self;
        heap
    }
}

// A part reads, so its value has to be one that several threads may read.
unsafe impl<T: Sync> Send for Part<T> {}

unsafe impl<T: Sync> Sync for Part<T> {}

// With all parts a deed is the box, so it crosses threads as the box would. A reference to it shows the allocator alone.
unsafe impl<T: Send, A: Allocator + Send> Send for Deed<T, A> {}

unsafe impl<T, A: Allocator + Sync> Sync for Deed<T, A> {}
