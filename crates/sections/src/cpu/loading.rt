//! Sixteen words that are loaded in the last step of a section: the section's right is at the processor's own seat then, where
//! its end needs it, so nothing is lent.
ghost use Rattle.std.specs.Prelude.{◌≡◌, ◌<◌, List, ℕ};
ghost use Rattle.std.specs.Fn.{FnOnceReturnsAt};
ghost use Rattle.sections.specs.Words.{cells_in};
ghost use Rattle.sections.specs.Seats.{IsPlaced, IsOfProcessor};
ghost use Rattle.sections.specs.Calls.{IsHere};
ghost use Rattle.sections.specs.Showing.{HasSection, ReadsHere, ReadsAndEnds};

use super::{Cpu, Reading};
use crate::board::{DomainSeat, Words, place_of_cell, place_of_unlock, place_of_word};
use crate::plays;
use std::alloc::Allocator;

impl<A: Allocator> Cpu<A> {
    /// Finds what is current in the cell (`srcu_dereference`), in the section of a reading that was begun here, loads the
    /// sixteen words of that version, shows them to a closure, and ends the section (`srcu_read_unlock`). The closure may
    /// sleep, and is lent no processor.
    #[inline(always)]
    pub fn show_words_and_unlock<U, F: FnOnce(&[u64; 16]) -> U>(
        &mut self,
        reading: Reading,
        cell: usize,
        show: F,
    ) -> U
        requires here { IsHere self.old reading }
        requires cell { cell < cells_in self.old.domain }
        requires may { F.IsAlwaysCallable show }
        ensures { (words : List ℕ) × ReadsAndEnds cell reading words self.old self.new × FnOnceReturnsAt F.FnOnce show words result }
    {
        let Reading {
            index,
            processor: _,
            seat: token,
            kind: _,
        } = reading;
        let top = &self.table.shared;
        top.join_seat::<plays::TakeToken>(&mut self.seat, token);
        let words = words_here(&*self.table, &mut self.seat, cell);
        // Before the end: what the closure does with the words lies in the section that found them.
        let shown = show(&words);
        top.fetch_add::<plays::Unlock>(&mut self.seat, place_of_unlock(self.processor, index), 1);
        self.settled += 1;
        shown
    }

    /// As [`Cpu::show_words_and_unlock`], and returns the words.
    #[inline(always)]
    pub fn words_and_unlock(&mut self, reading: Reading, cell: usize) -> [u64; 16]
        requires here { IsHere self.old reading }
        requires cell { cell < cells_in self.old.domain }
        ensures { ReadsAndEnds cell reading result self.old self.new }
    {
        self.show_words_and_unlock(
            reading,
            cell,
            |words: &[u64; 16]| -> [u64; 16]
                ensures { result ≡ words.now }
            { *words },
        )
    }
}

/// Finds what is current in the cell by a seat that has the right to a section itself, and loads the sixteen words of that
/// version.
#[inline(always)]
fn words_here<A: Allocator>(table: &Words<A>, seat: &mut DomainSeat, cell: usize) -> [u64; 16]
    requires placed { IsPlaced table.now.shared.key table.now.shared.table_id seat.old }
    requires role { IsOfProcessor table.now.shared.key.processors seat.old.me.0 }
    requires section { HasSection seat.old }
    requires cell { cell < cells_in table.now.shared.table_id }
    ensures { ReadsHere cell seat.old result seat.new }
{
    let top = &table.shared;
    let found = top.load::<plays::FindThere>(seat, place_of_cell(table, cell));
    let first = place_of_word(table, cell, (found % 16) as usize, 0);
    let mut words = [0; 16];
    for place in 0..16 {
        words[place] = top.load::<plays::LoadNext>(seat, first + place);
    }
    words
}
