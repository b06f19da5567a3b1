//! For tests: an allocator that refuses or holds one allocation and counts those that are asked for, readers and writers that fail,
//! and a clock that a test sets.
#![tactic(auto)]

pub mod clocks;
pub mod fakes;

use std::alloc::{AllocError, Allocator};
use std::sync::atomic::AtomicU64;
use std::sync::atomic::Ordering::SeqCst;
use std::thread::yield_now;

/// How often a held allocation looks whether it may go on.
const LOOKS: u32 = 20_000_000;

/// What was asked of an allocator.
#[derive(Drop)]
struct Counts {
    /// How many allocations were asked for since it was told which to refuse or to hold.
    asked: AtomicU64,
    /// Which of them is refused, from 1 on. No other is; with 0 none is.
    refused: AtomicU64,
    /// Which of them waits, from 1 on; with 0 none does.
    held: AtomicU64,
    /// How many blocks are out.
    out: AtomicU64,
}

/// Waits until the allocation may go on, which is given up after so many looks.
fn wait(held: &AtomicU64) {
    for _ in 0..LOOKS {
        if held.load(SeqCst) == 0 {
            return;
        }
        yield_now();
    }
    held.store(0, SeqCst);
}

/// Counts an allocation that is asked for, and waits where it is held. Whether it is to be refused.
fn refuses(counts: &Counts) -> bool {
    let nth = counts.asked.fetch_add(1, SeqCst).wrapping_add(1);
    if nth == counts.held.load(SeqCst) {
        wait(&counts.held);
    }
    let is_refused = nth == counts.refused.load(SeqCst);
    if !is_refused {
        counts.out.fetch_add(1, SeqCst);
    }
    is_refused
}

/// Counts a block that is given back.
fn takes_back(counts: &Counts) {
    counts.out.fetch_sub(1, SeqCst);
}

/// Takes memory from another allocator, and refuses or holds the allocation that it is told to. Where a block grows it is a
/// new allocation. Threads may share it: collections have a `&` to it.
pub struct Refusing<B: Allocator> {
    inner: B,
    counts: Counts,
}

impl<B: Allocator> Refusing<B> {
    /// One that refuses nothing yet.
    pub fn new(inner: B) -> Refusing<B> {
        Refusing {
            inner,
            counts: Counts {
                asked: AtomicU64::new(0),
                refused: AtomicU64::new(0),
                held: AtomicU64::new(0),
                out: AtomicU64::new(0),
            },
        }
    }

    /// Refuses the `nth` allocation from now on, from 1 on, and no other; with 0 none.
    pub fn refuse(&self, nth: u64) {
        self.counts.asked.store(0, SeqCst);
        self.counts.refused.store(nth, SeqCst);
    }

    /// Holds the next allocation: it waits for [`Refusing::let_go`], with all that its thread has in hand.
    pub fn hold(&self) {
        self.counts.asked.store(0, SeqCst);
        self.counts.held.store(1, SeqCst);
    }

    /// Lets the held allocation go on. Whether it waited for that, and had not given up.
    pub fn let_go(&self) -> bool {
        self.counts.held.swap(0, SeqCst) != 0 && self.asked() > 0
    }

    /// How many allocations were asked for since then, with the refused one.
    pub fn asked(&self) -> u64 {
        self.counts.asked.load(SeqCst)
    }

    /// Whether one was refused since then.
    pub fn has_refused(&self) -> bool {
        let refused = self.counts.refused.load(SeqCst);
        0 < refused && refused <= self.asked()
    }

    /// How many blocks are out.
    pub fn out(&self) -> u64 {
        self.counts.out.load(SeqCst)
    }
}

impl<B: Allocator> Drop for Refusing<B> {
    fn drop(self) {
        let Self {
            inner: _,
            counts: _,
        } = self;
    }
}

unsafe impl<B: Allocator> Allocator for Refusing<B> {
    ghost dealloc_token = { λ heap ty ptr. B.dealloc_token heap.inner ty ptr };

    fn allocate(&self, size: usize, align: usize) -> Result<*mut u8, AllocError> {
        if refuses(&self.counts) {
            return Err(AllocError);
        }
        self.inner.allocate(size, align)
    }

    unsafe fn deallocate(&self, ptr: *mut u8, size: usize, align: usize) {
        takes_back(&self.counts);
        self.inner.deallocate(ptr, size, align);
    }
}
