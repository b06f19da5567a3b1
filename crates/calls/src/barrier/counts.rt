//! Loads of the tally words.
ghost use Rattle.std.specs.Prelude.{◌≡◌, ◌<◌, ◌≤◌};
ghost use Rattle.calls.specs.declared.view.Act.TheVariants.{LoadQueued, LoadFinished};
ghost use Rattle.calls.specs.Tallies.{word_count, most_calls, queued_in, AreTakers, IsBeginning, AreTrue};
ghost use Rattle.calls.specs.Calls.{Does};

use crate::plays;
use crate::seat::CallSeat;
use crate::sight::TallySight;
use crate::tally::count_finished;
use std::alloc::Allocator;
use std::marker::Brand;

impl<J, A: Allocator> CallSeat<J, A> {
    /// How many processors have tallies.
    pub(crate) fn processors(&self) -> usize
        ensures count { result ≡ self.now.processors }
        ensures wide { self.now.tallies.words ≡ word_count self.now.processors }
        ensures there { self.now.processor < self.now.processors }
        ensures loads { AreTrue self.now.seen }
    {
        self.table.word_count() / 16
    }

    /// How many calls of a processor were queued: one load of its queued word.
    pub(crate) fn load_queued(&mut self, processor: usize) -> u64
        requires { processor < self.old.processors }
        ensures does { Does (LoadQueued processor result) self.old self.new }
        ensures few { result ≤ most_calls }
    {
        // For the proof: all words have places, so this one is no larger than a place may be.
        let _words = self.table.word_count();
        let top = &self.table.shared;
        top.load::<plays::CountQueued>(&mut self.seat, 16 * processor + 8)
    }

    /// The same, by a seat that has then seen all that is noted.
    pub(super) fn load_behind(&mut self, processor: usize, note: &mut TallySight<J>) -> u64
        requires there { processor < self.old.processors }
        requires note { note.old.tallies ≡ self.old.tallies }
        ensures does { Does (LoadQueued processor result) self.old self.new }
        ensures covers { IsBeginning note.old.seen self.new.seen }
        ensures not_below { queued_in processor note.old.seen ≤ result }
        ensures same { note.new ≡ note.old }
    {
        // For the proof, as above.
        let _words = self.table.word_count();
        let top = &self.table.shared;
        let copy = top.split_seat::<plays::GiveNote>(&mut note.seat);
        top.join_seat::<plays::TakeNote>(&mut self.seat, copy);
        let place = 16 * processor + 8;
        top.load::<plays::CountQueued>(&mut self.seat, place)
    }

    /// How many calls of a processor are finished: one load of its finished word. Those that were only taken out are
    /// not among them.
    pub(crate) fn load_finished(&mut self, processor: usize) -> u64
        requires { processor < self.old.processors }
        ensures does { Does (LoadFinished processor result) self.old self.new }
        ensures within { result ≤ queued_in processor self.new.seen }

        // Only processors that are there have finished batches.
        ensures takers { AreTakers self.old.processors self.new.seen }
    {
        // For the proof, as above.
        let _words = self.table.word_count();
        let top = &self.table.shared;
        count_finished::<J, Brand>(top, &mut self.seat, 16 * processor + 16)
    }

    /// Notes what this seat has seen.
    pub(crate) fn note(&mut self) -> TallySight<J>
        ensures same { self.new ≡ self.old }
        ensures note { result ≡ record { tallies = self.old.tallies; seen = self.old.seen } }
    {
        let top = &self.table.shared;
        let seat = top.split_seat::<plays::GiveNote>(&mut self.seat);
        TallySight { seat }
    }
}
