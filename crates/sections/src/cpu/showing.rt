//! A box that is shown to a closure in a section of one call: the section's right stays at the processor's own seat from its
//! beginning to its end, so no token is cut off, and nothing is lent.
ghost use Rattle.std.specs.Prelude.{◌≡◌, ◌*◌, ◌<◌, MatchOption, MatchResult};
ghost use Rattle.vault.specs.Showing.{ShowsPart};
ghost use Rattle.sections.specs.Words.{cells_in};
ghost use Rattle.sections.specs.Boxes.{KnowsVault};
ghost use Rattle.sections.specs.Calls.{LooksInVain};
ghost use Rattle.sections.specs.Loans.{offer_found};
ghost use Rattle.sections.specs.Showing.{HasNoneAt};
ghost use Rattle.sections.specs.OneCall.{FindsInSection};

use super::drawing::show_here;
use super::pins::Found;
use super::steps::cover;
use super::{Cpu, Exhausted};
use crate::board::{place_of_cell, place_of_lock, place_of_unlock};
use crate::plays;
use parts::Part;
use sseq::Index;
use std::alloc::Allocator;
use vault::Vault;

impl<A: Allocator> Cpu<A> {
    /// Begins a section (`srcu_read_lock`), finds the box that is current in the cell (`srcu_dereference`), shows parts of it to
    /// a closure, and ends the section (`srcu_read_unlock`). One load of the index word gives the section its index, and has
    /// seen all that was seen when `known` was found. The closure may sleep, and is lent no processor. None where the version
    /// has no box that was laid for this processor. Where it is refused, the index word was loaded, and nothing else was done.
    #[inline(always)]
    pub fn show_in_section<T: Drop, B: Allocator, U, F: FnOnce(&Part<T>) -> U>(
        &mut self,
        known: &mut Found,
        cell: usize,
        vault: &Vault<T, B>,
        show: F,
    ) -> Result<Option<U>, Exhausted>
        requires here { known.old.domain ≡ self.old.domain }
        requires cell { cell < cells_in self.old.domain }
        requires vault { KnowsVault cell (8 * self.old.processors) vault.now known.old.texts }
        requires may { F.IsAlwaysCallable show }
        ensures shows { MatchResult result
            (λ found. (reads : FindsInSection cell known.old self.old self.new) × MatchOption found
            (HasNoneAt self.old.processor reads.ends.found)
            (λ shown. ShowsPart F.FnOnce show (offer_found reads.ends.found).round shown))
            (λ _. LooksInVain self.old self.new) }
        ensures known { known.new ≡ known.old }
    {
        let table = &*self.table;
        let top = &table.shared;
        let processor = self.processor;
        let current = Index::of_word(cover(top, &mut self.seat, &mut known.seat));
        if self.begun[current.place()] == self.limit {
            return Err(Exhausted);
        }
        // A load behind the locked step waits for it, so what can be known before it is.
        let there = place_of_cell(table, cell);
        // The index may be stale by now, as in [`Cpu::read_lock`].
        top.fetch_add::<plays::Lock>(&mut self.seat, place_of_lock(processor, current), 1);
        self.begun[current.place()] += 1;
        let shown = show_here(table, &mut self.seat, processor, cell, there, vault, show);
        top.fetch_add::<plays::Unlock>(&mut self.seat, place_of_unlock(processor, current), 1);
        self.settled += 1;
        Ok(shown)
    }
}
