//! What the engine's seat does in a grace period.
ghost use Rattle.std.specs.Prelude.{◌≡◌, ◌+◌, ◌*◌, ◌^◌, ◌<◌};
ghost use Rattle.sseq.specs.declared.index.Index.{Index};
ghost use Rattle.sseq.specs.Indexes.{low_bit, other_index};
ghost use Rattle.onedom.specs.declared.event.Event.TheVariants.{Start, Finish};
ghost use Rattle.onedom.specs.declared.event.Maker.TheVariants.{Engine};
ghost use Rattle.onedom.specs.Histories.{WasEmpty};
ghost use Rattle.sections.specs.Words.{number_word, index_word, IsIdle, IsBeforeFlip, IsFlipping, IsBehindFlip};
ghost use Rattle.sections.specs.EngineCalls.{AddsEngineEvent, CountsUnlocks, CountsLocks, Flips, MovesOn, OpenAtStartAreClosed};

use super::EngineSeat;
use crate::board::{INDEX_PLACE, NUMBER_PLACE, place_of_lock, place_of_unlock};
use crate::plays;
use sseq::{Index, Number};
use std::alloc::Allocator;

impl<A: Allocator> EngineSeat<A> {
    /// Starts a grace period (`rcu_seq_start`), and answers the number from then on. None may run, and fewer than
    /// `periods` may have ended.
    pub fn add_start(&mut self) -> Number
        requires idle { IsIdle self.old.changes }
        requires room { number_word self.old.changes < 4 * self.old.periods }
        ensures event { AddsEngineEvent (Start Engine) self.old self.new }
        ensures number { result ≡ number_word self.new.changes }
    {
        let top = &self.table.shared;
        top.fetch_add::<plays::StartPeriod>(&mut self.seat, NUMBER_PLACE, 1);
        self.number = self.number.started();
        self.number
    }

    /// How many sections of the index have ended on the processor, wherever they were begun: one load of its unlock
    /// counter. On all processors no more than 2^60 were begun.
    pub fn unlocks(&mut self, processor: u16, index: Index) -> u64
        requires { processor < self.old.processors }
        ensures { CountsUnlocks processor index result self.old self.new }
    {
        let top = &self.table.shared;
        top.load::<plays::CountUnlocks>(&mut self.seat, place_of_unlock(processor, index))
    }

    /// How many sections of the index were begun on the processor: one load of its lock counter. On all processors they
    /// are no more than 2^60.
    pub fn locks(&mut self, processor: u16, index: Index) -> u64
        requires { processor < self.old.processors }
        ensures { CountsLocks processor index result self.old self.new }
    {
        let top = &self.table.shared;
        top.load::<plays::CountLocks>(&mut self.seat, place_of_lock(processor, index))
    }

    /// The first step of the flip: sections that begin from now on get the other index, but for those whose look is
    /// older. It answers that index. The first scan must have passed: since the start there was a moment at which no
    /// section of this index was open.
    pub fn flip(&mut self) -> Index
        requires running { IsBeforeFlip self.old.changes }
        requires empty { WasEmpty (other_index (low_bit (index_word self.old.changes))) self.old.seen }
        ensures step { Flips self.old self.new }
        ensures index { result ≡ low_bit (index_word self.new.changes) }
    {
        let top = &self.table.shared;
        let before = top.fetch_add::<plays::Flip>(&mut self.seat, INDEX_PLACE, 1);
        Index::of_word(before + 1)
    }

    /// The second step of the flip: the number says that the second scan may begin. It answers the number.
    pub fn add_scan2(&mut self) -> Number
        requires { IsFlipping self.old.changes }
        ensures step { MovesOn self.old self.new }
        ensures number { result ≡ number_word self.new.changes }
    {
        let top = &self.table.shared;
        top.fetch_add::<plays::MoveOn>(&mut self.seat, NUMBER_PLACE, 1);
        self.number = self.number.flipped();
        self.number
    }

    /// Ends the grace period (`rcu_seq_end`), and answers the number from then on. Both scans must have passed: for
    /// each index there was a moment since the start at which no section of it was open. So every section is closed
    /// that was open at the start.
    pub fn add_end(&mut self) -> Number
        requires flipped { IsBehindFlip self.old.changes }
        requires empty { (i : Index) → WasEmpty i self.old.seen }
        ensures event { AddsEngineEvent (Finish Engine) self.old self.new }
        ensures number { result ≡ number_word self.new.changes }
        ensures closed { OpenAtStartAreClosed self.old.seen self.new.seen }
    {
        let top = &self.table.shared;
        top.fetch_add::<plays::FinishPeriod>(&mut self.seat, NUMBER_PLACE, 2);
        self.number = self.number.finished();
        self.number
    }
}
