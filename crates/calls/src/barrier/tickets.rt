//! How a barrier is started, and how one learns that it is done.
ghost use Rattle.std.specs.Prelude.{◌≡◌, ◌<◌, IfOk, IsTrue, MatchBool, MatchResult};
ghost use Rattle.calls.specs.Barriers.{IsQueued, IsCallOf, IsDone, Starts, CoversAll, IsBehind, Polls, AreFinished, Hears};

use super::Ticket;
use crate::calls::Calls;
use crate::receipt::Receipt;
use crate::refusals::Memory;
use crate::seat::CallSeat;
use std::alloc::Allocator;

impl<J, A: Allocator + Copy> Calls<J, A> {
    /// Starts a barrier (`srcu_barrier`), which waits for the calls that were queued before: each queued word is loaded
    /// once. Where there is not enough memory, no step was made.
    pub fn barrier_start<C: Allocator>(
        &self,
        seat: &mut CallSeat<J, C>,
    ) -> Result<Ticket<J, A>, Memory>
        requires { seat.old.tallies ≡ self.now.tallies }
        ensures starts { MatchResult result (λ ticket. Starts seat.old ticket seat.new) (λ _. seat.new ≡ seat.old) }

        // Each receipt is covered whose queueing this seat had seen: of its own processor, and those that it had heard.
        ensures covers { IfOk result (λ ticket. CoversAll ticket self.now.processors seat.old.seen) }
        ensures there { (seat.old.processor < seat.old.processors) × (seat.old.processors ≡ self.now.processors) }
    {
        let processors = seat.processors();
        let mut numbers = Vec::with_capacity(*self.lists.allocator(), processors)?;
        for processor in 0..processors {
            numbers.push_reserved(seat.load_queued(processor));
        }
        Ok(Ticket {
            numbers,
            note: seat.note(),
        })
    }
}

// The allocator can't be copied here, so nothing of this takes memory.
impl<J, A: Allocator> Calls<J, A> {
    /// Whether a barrier is done: as many calls are finished of each processor as it waits for. The finished words are
    /// loaded in the order of the processors, up to the first that has not got there. Any processor may ask, and as
    /// often as it likes; nothing is waited for.
    pub fn barrier_poll<B: Allocator, C: Allocator>(
        &self,
        seat: &mut CallSeat<J, C>,
        ticket: &Ticket<J, B>,
    ) -> bool
        requires { (seat.old.tallies ≡ self.now.tallies) × (ticket.now.tallies ≡ self.now.tallies) }
        ensures polls { Polls ticket.now seat.old result seat.new }
        ensures done { MatchBool result (IsDone ticket.now seat.new.seen) (IsBehind ticket.now seat.old seat.new) }

        // The job of each receipt that is covered was given out, and its batch is finished.
        ensures finished { IsTrue result → AreFinished ticket.now seat.new.seen }
    {
        let processors = seat.processors();
        for processor in 0..processors {
            if seat.load_finished(processor) < ticket.numbers[processor] {
                return false;
            }
        }
        true
    }

    /// One load of the queued word of the receipt's processor, by a seat that has then seen all that the one who queued
    /// the job had. So a barrier that this seat starts later covers the receipt, wherever its job was queued.
    pub fn hear<C: Allocator>(&self, seat: &mut CallSeat<J, C>, receipt: &mut Receipt<J>)
        requires { (seat.old.tallies ≡ self.now.tallies) × (receipt.old.tallies ≡ self.now.tallies) }
        ensures hears { Hears receipt.old seat.old seat.new }
        ensures same { receipt.new ≡ receipt.old }

        // Its job was queued: the load was over its number, and a barrier covers it from now on.
        ensures queued { IsQueued receipt.old seat.new.seen × IsCallOf receipt.old seat.new.seen }
    {
        // For the proof: each list has its words, so the processor is one of those that the seat knows.
        let _ = &self.lists;
        let _ = seat.processors();
        seat.load_behind(receipt.processor as usize, &mut receipt.note);
    }
}
