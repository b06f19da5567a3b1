//! Held sections: begun on one processor and ended on any.
ghost use Rattle.std.specs.Prelude.{◌≡◌, true, MatchResult};
ghost use Rattle.onedom.specs.Histories.{index_of};
ghost use Rattle.sections.specs.Words.{is_held};
ghost use Rattle.sections.specs.Calls.{DownReads, Unlocks, LooksInVain};

use super::steps::begin_held;
use super::{Cpu, Exhausted, Held};
use crate::board::{INDEX_PLACE, place_of_unlock};
use crate::plays;
use sseq::Index;
use std::alloc::Allocator;
use std::marker::PhantomData;

impl<A: Allocator> Cpu<A> {
    /// Begins a section of the current index that may end on any processor of the domain (`srcu_down_read`). It is
    /// refused as [`Cpu::read_lock`] is: the index word was loaded, and nothing else was done.
    pub fn down_read(&mut self) -> Result<Held, Exhausted>
        ensures { MatchResult result (λ h. DownReads self.old self.new h) (λ _. LooksInVain self.old self.new) }
    {
        let top = &self.table.shared;
        let current = Index::of_word(top.load::<plays::LoadIndex>(&mut self.seat, INDEX_PLACE));
        if self.begun[current.place()] == self.limit {
            return Err(Exhausted);
        }
        let seat = begin_held(top, &mut self.seat, self.processor, current);
        self.begun[current.place()] += 1;
        self.settled += 1;
        Ok(Held {
            index: current,
            processor: self.processor,
            seat,
            kind: PhantomData,
        })
    }

    /// Ends the held section on this processor, wherever it was begun (`srcu_up_read`), with the index that it was begun
    /// with. Both are of one domain.
    pub fn up_read(&mut self, held: Held)
        requires { held.domain ≡ self.old.domain }
        ensures ends { Unlocks held self.old self.new }
        ensures index { index_of held.section self.new.seen ≡ held.index }
        ensures kind { is_held held.section ≡ true }
    {
        let Held {
            index,
            processor: _,
            seat: token,
            kind: _,
        } = held;
        let top = &self.table.shared;
        top.join_seat::<plays::TakeToken>(&mut self.seat, token);
        top.fetch_add::<plays::Unlock>(&mut self.seat, place_of_unlock(self.processor, index), 1);
    }
}
