//! How calls come out of their line and into the list.
ghost use Rattle.std.specs.Prelude.{◌≡◌, ◌<◌, MatchResult, OnErr, OnOk};
ghost use Rattle.calls.specs.Tallies.{word_count, queued_in};
ghost use Rattle.calls.specs.Views.{next_of};
ghost use Rattle.calls.specs.Calls.{MayLook, MovesOne, Gathers, Looks, NotesLack, LacksRoom, FindsLens};

use super::List;
use crate::entry::Arrival;
use crate::plays::Board;
use crate::refusals::Memory;
use crate::seat::CallSeat;
use crate::tally::{lack_room, move_call, see_list};
use std::alloc::Allocator;
use std::marker::Brand;
use std::sync::Wait;

impl<J: Drop, A: Allocator> List<J, A> {
    /// Moves all calls that are counted as queued, as one load by the seat finds it. A call that was pushed and is not
    /// counted yet stays for the next time: it could be finished before it is counted. Where there is no memory for one, it
    /// and those behind it stay in their line.
    pub(crate) fn gather<R: Wait, C: Allocator>(
        &mut self,
        rt: &R,
        seat: &mut CallSeat<J, C>,
    ) -> Result<(), Memory>
        requires { MayLook self.old seat.old }
        ensures gathers { Gathers self.old seat.old self.new seat.new }
        ensures all { OnOk result (next_of self.new ≡ queued_in self.old.processor seat.new.seen) }
        ensures short { OnErr result (next_of self.new < self.new.counted) }
    {
        let top = &seat.table.shared;
        let counted = see_list::<J, Brand>(top, &mut seat.seat, &mut self.seat, self.processor);
        for _ in self.arrived..counted {
            self.move_one(rt, top)?;
        }
        Ok(())
    }

    /// Moves the next call. Its room is there before it leaves the line, so a lack of memory can't lose it.
    fn move_one<R: Wait>(&mut self, rt: &R, top: &Board<J>) -> Result<(), Memory>
        requires table { top.now.table_id ≡ self.old.tallies }
        requires wide { top.now.table_id.words ≡ word_count top.now.key.processors }
        requires more { next_of self.old < self.old.counted }
        ensures { MatchResult result (λ _. MovesOne self.old self.new) (λ _. self.new ≡ self.old) }
    {
        self.waiting.reserve(1)?;
        let Arrival { entry, sight, call } = self.outlet.wait(rt);
        let number = entry.cookie.number();
        let Ok(()) = self.waiting.push(Some(entry)) else {
            unreachable!();
        };
        // Where there is a free segment, the job waits for its own cookie: for a smaller number it would be given out too
        // early.
        self.waiting.assign(number);
        move_call(top, &mut self.seat, call);
        self.given = sight;
        self.arrived += 1;
        Ok(())
    }

    /// The seat looks at the list. It loads the queued word of the list's processor, which is a deed of its own, and then once
    /// more, which shows the list as it then is.
    pub(super) fn look<C: Allocator>(&mut self, seat: &mut CallSeat<J, C>)
        requires { MayLook self.old seat.old }
        ensures { Looks self.old seat.old self.new seat.new }
    {
        // For the proof: so many processors have words here, and the list's is one of them.
        let _processors = seat.processors();
        seat.load_queued(self.processor as usize);
        let top = &seat.table.shared;
        see_list::<J, Brand>(top, &mut seat.seat, &mut self.seat, self.processor);
    }

    /// The seat notes how many of the calls that came in are moved, where not all are: a load of the queued word with the list
    /// in hand, which is a deed of its own.
    pub(super) fn note_lack<C: Allocator>(&mut self, seat: &mut CallSeat<J, C>)
        requires look { MayLook self.old seat.old }
        requires short { next_of self.old < self.old.counted }
        ensures notes { NotesLack self.old seat.old seat.new }
        ensures same { self.new ≡ self.old }
    {
        let top = &seat.table.shared;
        lack_room(top, &mut seat.seat, &mut self.seat, self.processor);
    }

    /// How many entries are done, wait for the first and for the second number, and have none yet; and the two numbers,
    /// 0 where there is none. What is out isn't counted. All calls that are counted as queued are moved first; where there is
    /// no memory for one, nothing is answered, and nothing is lost: the seat notes how many were moved. Else it looks: so this is
    /// the list of its processor, as it then is.
    pub fn lens<R: Wait, C: Allocator>(
        &mut self,
        rt: &R,
        seat: &mut CallSeat<J, C>,
    ) -> Result<([usize; 4], [u64; 2]), Memory>
        requires { MayLook self.old seat.old }
        ensures found { MatchResult result
            (λ found. FindsLens self.old seat.old found self.new seat.new)
            (λ _. LacksRoom self.old seat.old self.new seat.new) }
    {
        match self.gather(rt, seat) {
            Ok(()) => {
                self.look(seat);
                Ok((self.waiting.lens(), self.waiting.numbers()))
            }
            Err(refusal) => {
                self.note_lack(seat);
                Err(refusal)
            }
        }
    }
}
