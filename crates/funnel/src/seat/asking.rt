//! What a processor asks, and what is asked for.
ghost use Rattle.funnel.specs.Calls.{IsOfProcessor, Asks, LoadsRoot, IsAskedFor};

use super::climb::{climb, leaf_of, load_root};
use super::{FunnelSeat, Level};
use crate::view::Holder;
use sseq::{Needs, Number};
use std::alloc::Allocator;

impl<A: Allocator> FunnelSeat<A> {
    /// Asks for the grace period that ends with this number (`srcu_funnel_gp_start`), at the leaf of the seat's processor
    /// and then at each node above it, until one holds the number or more. There the call stops: whoever raised that
    /// node sees to the rest. The seat is a processor's. It takes no memory and does not wait.
    pub fn ask(&mut self, number: Number) -> Level
        requires { IsOfProcessor self.old }
        ensures asks { Asks number self.old result self.new }
        ensures root { IsAskedFor number result self.new }
    {
        let Holder::Processor(processor) = self.holder else {
            unreachable!();
        };
        let leaf = leaf_of(self.nodes, processor);
        climb(
            &self.table.shared,
            &mut self.seat,
            processor,
            leaf,
            number.get(),
        )
    }

    /// The need of the tree (`srcu_gp_seq_needed`), as one load of the root finds it: the greatest number that was raised
    /// there, 0 if none, and never a smaller one than the seat had seen.
    pub fn root_need(&mut self) -> Number
        ensures { LoadsRoot self.old result self.new }
    {
        let found = load_root(&self.table.shared, &mut self.seat);
        Number::new(found).unwrap()
    }
}

impl<A: Allocator> Needs for FunnelSeat<A> {
    ghost loads = { LoadsRoot };

    fn root_need(&mut self) -> Number {
        FunnelSeat::root_need(self)
    }
}
