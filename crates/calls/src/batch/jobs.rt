//! The jobs of a batch.
ghost use Rattle.std.specs.Prelude.{◌≡◌};
ghost use Rattle.calls.specs.Calls.{GivesNext, next_cookie};

use super::Batch;
use crate::entry::Entry;
use std::alloc::Allocator;

impl<J: Drop, A: Allocator + Copy> Batch<J, A> {
    /// The next job, the first one first. `None` exactly where the batch is empty.
    pub fn next(&mut self) -> Option<J>
        ensures { GivesNext self.old result self.new }
    {
        if self.entries.is_empty() {
            return None;
        }
        let Some(Entry { job, cookie: _ }) = self.entries.remove(0) else {
            unreachable!();
        };
        Some(job)
    }
}

impl<J, A: Allocator> Batch<J, A> {
    /// The number of the cookie of the job that [`Batch::next`] gives next. `None` exactly where the batch is empty. Whoever
    /// keeps names for queued jobs finds by it what the batch has reached.
    pub fn cookie(&self) -> Option<u64>
        ensures { result ≡ next_cookie self.now.entries }
    {
        let Some(next) = self.entries.first() else {
            return None;
        };
        let Some(entry) = next else { unreachable!() };
        Some(entry.cookie.number())
    }

    /// How many jobs there were when it was taken.
    pub fn count(&self) -> usize
        ensures { result ≡ self.now.count }
    {
        self.count
    }

    /// The processor on which they were queued.
    pub fn processor(&self) -> u16
        ensures { result ≡ self.now.processor }
    {
        self.processor
    }
}
