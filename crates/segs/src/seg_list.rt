//! The segmented list, and its calls.
ghost use Rattle.std.specs.Prelude.{◌≡◌, ◌+◌, ◌<◌, ◌≤◌, ◌↔◌, [], ◌∷◌, ◌++◌, length, min, IsOk, IsSome, IfSome, IfErr, OnOk, OnErr};
ghost use Rattle.std.specs.VecDeque.{deque_len, deque_capacity};
ghost use Rattle.segs.specs.MarkedList.{Done, Next, marked, assigned, advanced, lens, numbers, count_done, count_next, EndsInNext, IsInOrder};

use crate::segment::Segment;
use smallvec::SmallVec;
use std::alloc::{AllocError, Allocator, Global};
use std::collections::VecDeque;
use std::default::MadeWith;
use std::marker::Model;

/// There was no memory.
pub type Memory = AllocError;

/// Entries in the order in which they were pushed, in four segments as in the kernel: first those that are done, then
/// those of `wait` and of `next_ready`, which wait for a number each, and last those of `next`, which have none yet.
///
/// Contracts see no segments. To them the list is a marked one: each entry with its mark, which is done, at a number, or
/// next. Beside it they see `room`: how many pushes have their memory already.
///
/// All entries lie in one ring, and a segment is a count of its entries. So `assign` and `advance` move no entry and
/// cost the same for any list; `push` and `take_done` cost O(1) for each entry that comes and goes, where that of a push
/// is amortised over the times that the ring grows.
#[derive(Drop)]
pub struct SegList<T, A: Allocator = Global> {
    entries: VecDeque<T, A>,
    done: usize,
    wait: Segment,
    next_ready: Segment,
}

impl<T, A: Allocator> Model for SegList<T, A> {
    ghost use Rattle.std.specs.Prelude.{◌-◌};
    ghost use Rattle.std.specs.VecDeque.{deque_len, deque_capacity};
    ghost use Rattle.segs.specs.MarkedList.{MarkedList};
    ghost use Rattle.segs.specs.Segments.{segmented, AreSegments};

    ghost Value = { MarkedList T };

    ghost view = { λ list. record {
      entries = segmented list.entries.items list.done list.wait list.next_ready;
      room = deque_capacity list.entries - deque_len list.entries;
    } };

    ghost invariant = { λ list. AreSegments (deque_len list.entries) list.done list.wait list.next_ready };
}

impl<T, A: Allocator> SegList<T, A> {
    /// An empty list. It takes no memory until the first push or reserve.
    pub fn new(alloc: A) -> Self
        ensures { result.entries ≡ [] }
    {
        SegList {
            entries: VecDeque::new(alloc),
            done: 0,
            wait: Segment::EMPTY,
            next_ready: Segment::EMPTY,
        }
    }

    /// Makes room for so many more entries, so that as many pushes can't fail, whatever other calls come between them.
    /// `Memory` says that there was not enough; the entries stay as they were, either way.
    pub fn reserve(&mut self, additional: usize) -> Result<(), Memory>
        ensures room { OnOk result (additional ≤ self.new.room) }
        ensures refused { OnErr result (self.old.room < additional) }
        ensures kept { self.old.room ≤ self.new.room }
        ensures unchanged { self.new.entries ≡ self.old.entries }
    {
        self.entries.reserve(additional)
    }

    /// Adds the entry at the end of next (the kernel's `rcu_segcblist_enqueue`). Where there is no room and no memory for
    /// more, the entry comes back, and the list stays as it was.
    pub fn push(&mut self, entry: T) -> Result<(), (T, Memory)>
        ensures added { OnOk result (self.new.entries ≡ self.old.entries ++ (entry, Next) ∷ []) }
        ensures given_back { IfErr result (λ refused. refused.0 ≡ entry) }
        ensures unchanged { OnErr result (self.new.entries ≡ self.old.entries) }

        // A push uses up the room of one entry.
        ensures succeeds { 0 < self.old.room → IsOk result }
        ensures room { self.old.room ≤ self.new.room + 1 }
    {
        self.entries
            .push_back(entry)
            .map_err(|refused| (refused.value, AllocError))
    }

    /// Gives the entries of next a number for which they wait (after the kernel's `rcu_segcblist_accelerate`; the rule is
    /// our own). They join the last numbered segment that has entries where its number is at least `number`. Else they
    /// become, with `number`, the first numbered segment behind it that is empty. With none empty they stay in next.
    pub fn assign(&mut self, number: u64)
        ensures entries { self.new.entries ≡ assigned number self.old.entries }
        ensures room { self.new.room ≡ self.old.room }
    {
        let next = self.next_len();
        if next == 0 {
            return;
        }
        if self.wait.len == 0 {
            self.wait = Segment { len: next, number };
        } else if self.next_ready.len > 0 {
            // A smaller number may not hold entries that wait for a greater one: they would be done too early.
            if number <= self.next_ready.number {
                self.next_ready.len += next;
            }
        } else if number <= self.wait.number {
            self.wait.len += next;
        } else {
            self.next_ready = Segment { len: next, number };
        }
    }

    /// The entries that wait for `number` or a smaller one are done (the kernel's `rcu_segcblist_advance`).
    pub fn advance(&mut self, number: u64)
        ensures entries { self.new.entries ≡ advanced number self.old.entries }
        ensures room { self.new.room ≡ self.old.room }
    {
        // An empty segment has number 0, so it never holds another one up.
        if number < self.wait.number {
            return;
        }
        if number < self.next_ready.number {
            self.done += self.wait.len;
            self.wait = self.next_ready;
            self.next_ready = Segment::EMPTY;
        } else {
            self.done += self.wait.len + self.next_ready.len;
            self.wait = Segment::EMPTY;
            self.next_ready = Segment::EMPTY;
        }
    }

    /// The entry that was pushed last, where it has no number yet.
    pub fn last_next(&self) -> Option<&T>
        ensures variant { IsSome result ↔ (0 < count_next self.now.entries) }
        ensures last { IfSome result (λ entry. EndsInNext self.now.entries entry.now) }
    {
        if self.next_len() == 0 {
            return None;
        }
        self.entries.back()
    }

    /// How many entries are in done, wait, next-ready and next (the kernel's `seglen`).
    pub fn lens(&self) -> [usize; 4]
        ensures counts { result ≡ lens self.now.entries }

        // What is always so of the marks: done before numbers, which rise, before next, and two numbers at most.
        ensures in_order { IsInOrder self.now.entries }
    {
        let next = self.next_len();
        [self.done, self.wait.len, self.next_ready.len, next]
    }

    /// The numbers for which wait and next-ready wait (the kernel's `gp_seq`), 0 for one that is empty.
    pub fn numbers(&self) -> [u64; 2]
        ensures { result ≡ numbers self.now.entries }
    {
        [self.wait.number, self.next_ready.number]
    }

    fn next_len(&self) -> usize
        ensures { result ≡ count_next self.now.entries }
    {
        self.entries.len() - self.done - self.wait.len - self.next_ready.len
    }
}

impl<T: MadeWith<A> + Drop, A: Allocator + Copy> SegList<T, A> {
    /// Takes out the first entries that are done, in order: `max` of them, but no more than 8 and no more than there are
    /// (the kernel's `rcu_segcblist_extract_done_cbs`, which takes all). It takes no memory, and gives the room of what
    /// was taken back to the list.
    ///
    /// The places of the `SmallVec` that stay unused hold blank entries, so `T` needs one: a default or an empty
    /// collection. For a type that has none, make the entries `Option`s.
    pub fn take_done(&mut self, max: usize) -> SmallVec<T, 8, A>
        ensures in_order { self.old.entries ≡ marked Done result.items ++ self.new.entries }
        ensures many { length result.items ≡ min (min max 8) (count_done self.old.entries) }
        ensures inline { result.capacity ≡ 8 }
        ensures room { self.new.room ≡ self.old.room + length result.items }
    {
        let count = max.min(8).min(self.done);
        let taken = take_front(&mut self.entries, count);
        self.done -= count;
        taken
    }
}

// The first `count` entries, in order.
fn take_front<T: MadeWith<A> + Drop, A: Allocator + Copy>(
    entries: &mut VecDeque<T, A>,
    count: usize,
) -> SmallVec<T, 8, A>
    requires few { count ≤ 8 }
    requires there { count ≤ deque_len entries.old }
    ensures in_order { entries.old.items ≡ result.items ++ entries.new.items }
    ensures many { length result.items ≡ count }
    ensures inline { result.capacity ≡ 8 }
    ensures len { deque_len entries.new + count ≡ deque_len entries.old }
    ensures capacity { deque_capacity entries.new ≡ deque_capacity entries.old }
{
    let mut taken = SmallVec::new(*entries.allocator());
    for _ in 0..count {
        if let Some(entry) = entries.pop_front() {
            taken.push_reserved(entry);
        }
    }
    taken
}
