//! What a processor does.
ghost use Rattle.std.specs.Prelude.{◌≡◌, ◌≤◌, false, length, MatchResult};
ghost use Rattle.onedom.specs.Histories.{index_of, IsBeginning};
ghost use Rattle.sections.specs.Words.{is_held, open_readings};
ghost use Rattle.sections.specs.Calls.{Looks, Enters, ReadLocks, Unlocks, HasBegun, LooksInVain, IsExhausted, IsHere, Hears, Accepts, Ties};

use super::steps::{accept, begin_section, cover};
use super::{Cpu, Exhausted, Look, Reading};
use crate::board::{INDEX_PLACE, place_of_unlock};
use crate::plays;
use sseq::Index;
use std::alloc::Allocator;
use std::marker::PhantomData;

impl<A: Allocator> Cpu<A> {
    /// The number of this processor, from 0.
    pub fn processor(&self) -> u16
        ensures { result ≡ self.now.processor }
    {
        self.processor
    }

    /// Reads the index word, and what it finds is the current index.
    pub fn look(&mut self) -> Look
        ensures { Looks self.old self.new result }
    {
        let top = &self.table.shared;
        let index = Index::of_word(top.load::<plays::LoadIndex>(&mut self.seat, INDEX_PLACE));
        let seat = top.split_seat::<plays::GiveToken>(&mut self.seat);
        Look { index, seat }
    }

    /// Begins a section of the look's index. It is refused, with no step, exactly where this processor has begun as
    /// many sections of this index as the limit allows. The look is gone then, and nothing else has changed.
    pub fn enter(&mut self, look: Look) -> Result<Reading, Exhausted>
        requires { look.domain ≡ self.old.domain }
        ensures { MatchResult result (λ r. Enters self.old look self.new r) (λ _. IsExhausted self.old look.index × (self.new ≡ self.old)) }
    {
        let Look { index, seat: token } = look;
        let top = &self.table.shared;
        if self.begun[index.place()] == self.limit {
            return Err(Exhausted);
        }
        top.join_seat::<plays::TakeToken>(&mut self.seat, token);
        let seat = begin_section(top, &mut self.seat, self.processor, index);
        self.begun[index.place()] += 1;
        Ok(Reading {
            index,
            processor: self.processor,
            seat,
            kind: PhantomData,
        })
    }

    /// Begins a section of the current index (`srcu_read_lock`): a look, and then what [`Cpu::enter`] does. Where it is
    /// refused, the index word was loaded, and nothing else was done.
    pub fn read_lock(&mut self) -> Result<Reading, Exhausted>
        ensures { MatchResult result (λ r. ReadLocks self.old self.new r) (λ _. LooksInVain self.old self.new) }
    {
        let top = &self.table.shared;
        let current = Index::of_word(top.load::<plays::LoadIndex>(&mut self.seat, INDEX_PLACE));
        if self.begun[current.place()] == self.limit {
            return Err(Exhausted);
        }
        // The index may be stale by now: a flip may have come between the load and this step. The section counts with the
        // index that it has, whose scan may be over. A period that has started needn't wait for it: it began later. Each
        // later period scans both indexes. If it scanned the current one alone, it could end while this section is open.
        let seat = begin_section(top, &mut self.seat, self.processor, current);
        self.begun[current.place()] += 1;
        Ok(Reading {
            index: current,
            processor: self.processor,
            seat,
            kind: PhantomData,
        })
    }

    /// Ends the reading's section, which was begun on this processor (`srcu_read_unlock`), with the reading's index.
    pub fn read_unlock(&mut self, reading: Reading)
        requires { IsHere self.old reading }
        ensures ends { Unlocks reading self.old self.new }
        ensures begun { HasBegun self.old reading }
        ensures index { index_of reading.section self.new.seen ≡ reading.index }
        ensures kind { is_held reading.section ≡ false }
    {
        let Reading {
            index,
            processor: _,
            seat: token,
            kind: _,
        } = reading;
        let top = &self.table.shared;
        top.join_seat::<plays::TakeToken>(&mut self.seat, token);
        top.fetch_add::<plays::Unlock>(&mut self.seat, place_of_unlock(self.processor, index), 1);
        self.settled += 1;
    }

    /// How many readings were given out here and are not closed. Held sections don't count: they may end elsewhere.
    pub fn open_here(&self) -> u64
        ensures { result ≡ length (open_readings self.now.mine) }
    {
        self.begun[0] + self.begun[1] - self.settled
    }
}

// Loads that change nothing: for who has to show how far somebody has seen.
impl<A: Allocator> Cpu<A> {
    /// One load of the index word by this processor, which has then seen what the other has. Both are of one domain.
    pub fn cover(&mut self, other: &mut Cpu<A>)
        requires { other.old.domain ≡ self.old.domain }
        ensures hears { Hears self.old other.old.seen other.old.changes self.new }
        ensures other { other.new ≡ other.old }
    {
        cover(&self.table.shared, &mut self.seat, &mut other.seat);
    }

    /// One load of the index word by the other processor, which has then seen just as much as this one. This one must
    /// have seen what the other has, as after [`Cpu::cover`]. Both are of one domain.
    pub fn admit(&mut self, other: &mut Cpu<A>)
        requires domain { other.old.domain ≡ self.old.domain }
        requires covered { IsBeginning other.old.seen self.old.seen × (other.old.changes ≤ self.old.changes) }
        ensures this { self.new ≡ self.old }
        ensures other { Accepts other.old self.old.seen self.old.changes self.old.texts other.new }
    {
        accept(&self.table.shared, &mut other.seat, &mut self.seat);
    }

    /// One load of the index word by this processor, and then one by the other. Both have then seen one history, in
    /// which each of the two has just its own events. What each had seen is a beginning of it. Both are of one domain.
    pub fn tie(&mut self, other: &mut Cpu<A>)
        requires { other.old.domain ≡ self.old.domain }
        ensures { Ties self.old other.old self.new other.new }
    {
        self.cover(other);
        self.admit(other);
    }
}
