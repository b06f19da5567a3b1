//! How the seats of processors come to see one list of what was done on the tally words.
ghost use Rattle.std.specs.Prelude.{◌≡◌};
ghost use Rattle.calls.specs.Tallies.{IsBeginning};
ghost use Rattle.calls.specs.Meetings.{Covers, Accepts, SeesOut};

use super::CallSeat;
use crate::batch::Batch;
use crate::plays;
use crate::sight::TallySight;
use crate::tally::{see_all, see_batch_out, see_told};
use std::alloc::Allocator;
use std::marker::Brand;

// Loads that change nothing: for who has to show how far somebody has seen.
impl<J, A: Allocator> CallSeat<J, A> {
    /// One load by this seat, of its own queued word. It has then seen what the other has. Only processors that are there
    /// have finished batches.
    pub fn cover<B: Allocator>(&mut self, other: &mut CallSeat<J, B>)
        requires { other.old.tallies ≡ self.old.tallies }
        ensures covers { Covers self.old other.old.seen self.new }
        ensures other { other.new ≡ other.old }
    {
        let mut note = other.note();
        self.see(&mut note);
    }

    /// One load by the other seat, of its own queued word. It has then seen just what this one has. What it had seen, this
    /// one had seen before. Only processors that are there have finished batches.
    pub fn admit<B: Allocator>(&mut self, other: &mut CallSeat<J, B>)
        requires tallies { other.old.tallies ≡ self.old.tallies }
        requires covered { IsBeginning other.old.seen self.old.seen }
        ensures stays { self.new ≡ self.old }
        ensures accepts { Accepts other.old self.old.seen other.new }
    {
        let mut note = self.note();
        other.see_just(&mut note);
    }

    /// One load by this seat, of its own queued word. It may then have seen more of what was done. Only processors that are
    /// there have taken and finished batches, which a seat with no other one to cover learns by this call.
    pub fn catch_up(&mut self)
        ensures { Covers self.old self.old.seen self.new }
    {
        let mut note = self.note();
        self.see(&mut note);
    }

    /// One load by this seat, of its own queued word. It has then seen a moment at which the batch was out: all jobs of the
    /// batch were queued, and none of them was finished. The batch stays as it is. It takes no memory and waits for
    /// nothing.
    pub fn see_out<B: Allocator>(&mut self, batch: &mut Batch<J, B>)
        requires { batch.old.tallies ≡ self.old.tallies }
        ensures out { SeesOut batch.old self.old self.new }
        ensures batch { batch.new ≡ batch.old }
    {
        let top = &self.table.shared;
        see_batch_out::<J, Brand>(top, &mut self.seat, &mut batch.seat, self.processor);
    }

    /// One load, by a seat that has then seen all that is noted.
    fn see(&mut self, note: &mut TallySight<J>)
        requires { note.old.tallies ≡ self.old.tallies }
        ensures { Covers self.old note.old.seen self.new }
    {
        let top = &self.table.shared;
        let copy = top.split_seat::<plays::GiveNote>(&mut note.seat);
        top.join_seat::<plays::TakeNote>(&mut self.seat, copy);
        see_all::<J, Brand>(top, &mut self.seat, self.processor);
    }

    /// One load, by a seat that has then seen just what is noted.
    fn see_just(&mut self, note: &mut TallySight<J>)
        requires tallies { note.old.tallies ≡ self.old.tallies }
        requires since { IsBeginning self.old.seen note.old.seen }
        ensures { Accepts self.old note.old.seen self.new }
    {
        let top = &self.table.shared;
        let copy = top.split_seat::<plays::GiveNote>(&mut note.seat);
        top.join_seat::<plays::TakeNote>(&mut self.seat, copy);
        see_told::<J, Brand>(top, &mut self.seat, self.processor);
    }
}
