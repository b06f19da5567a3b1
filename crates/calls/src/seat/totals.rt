//! How many calls were queued on all processors together, and how many of these are finished.
ghost use Rattle.calls.specs.Totals.{SumsQueued, SumsFinished, AddsUp};

use super::CallSeat;
use std::alloc::Allocator;

/// The calls of all processors together, as the tally words tell.
#[derive(Clone, Copy, Debug, PartialEq, Eq)]
pub struct Totals {
    /// How many were ever queued.
    pub queued: u128,
    /// How many of them are finished: their jobs were given out, and the batch is over.
    pub finished: u128,
}

impl<J, A: Allocator> CallSeat<J, A> {
    /// Adds up the tally words: each queued word is loaded once, in the order of the processors, and then each finished
    /// word. While other processors queue or finish, the two sums may be of different moments. It takes no memory and
    /// waits for nothing.
    pub fn totals(&mut self) -> Totals
        ensures { AddsUp self.old result.queued result.finished self.new }
    {
        let queued = self.total_queued();
        let finished = self.total_finished();
        Totals { queued, finished }
    }

    /// The sum of the queued words.
    fn total_queued(&mut self) -> u128
        ensures { SumsQueued self.old result self.new }
    {
        let processors = self.processors();
        let mut total = 0;
        for processor in 0..processors {
            total += u128::from(self.load_queued(processor));
        }
        total
    }

    /// The sum of the finished words.
    fn total_finished(&mut self) -> u128
        ensures { SumsFinished self.old result self.new }
    {
        let processors = self.processors();
        let mut total = 0;
        for processor in 0..processors {
            total += u128::from(self.load_finished(processor));
        }
        total
    }
}
