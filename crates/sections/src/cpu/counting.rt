//! What a processor finds in the counters of all.
ghost use Rattle.std.specs.Prelude.{◌<◌};
ghost use Rattle.sections.specs.Calls.{FindsLocks, FindsUnlocks};

use super::Cpu;
use crate::board::{place_of_lock, place_of_unlock};
use crate::plays;
use sseq::Index;
use std::alloc::Allocator;

impl<A: Allocator> Cpu<A> {
    /// How many sections of the index were begun on a processor of the domain: one load of its lock counter. On all
    /// processors they are no more than 2^60.
    pub fn locks(&mut self, processor: u16, index: Index) -> u64
        requires { processor < self.old.processors }
        ensures { FindsLocks processor index result self.old self.new }
    {
        let top = &self.table.shared;
        top.load::<plays::CountLocks>(&mut self.seat, place_of_lock(processor, index))
    }

    /// How many sections of the index have ended on a processor of the domain, wherever they were begun: one load of its
    /// unlock counter. On all processors no more than 2^60 were begun.
    pub fn unlocks(&mut self, processor: u16, index: Index) -> u64
        requires { processor < self.old.processors }
        ensures { FindsUnlocks processor index result self.old self.new }
    {
        let top = &self.table.shared;
        top.load::<plays::CountUnlocks>(&mut self.seat, place_of_unlock(processor, index))
    }
}
