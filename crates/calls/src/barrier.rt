//! Barriers: waiting until all callbacks that were queued before are run.
use crate::sight::TallySight;
use std::alloc::{Allocator, Global};
use std::marker::Model;

mod counts;
mod tickets;

/// What a barrier waits for (`srcu_barrier`): of each processor, how many calls had been queued when the barrier was
/// started. It is done once as many are finished of each. Contracts see the numbers, in the order of the processors.
#[derive(Drop)]
pub struct Ticket<J, A: Allocator = Global> {
    pub(crate) numbers: Vec<u64, A>,
    /// It tells contracts at which tally words the barrier was started.
    pub(crate) note: TallySight<J>,
}

impl<J, A: Allocator> Model for Ticket<J, A> {
    ghost use Rattle.calls.specs.Views.{TicketView};

    ghost Value = { TicketView };

    ghost use Rattle.calls.specs.Insides.{view_of_ticket, IsTicket};

    ghost view = { view_of_ticket };

    ghost invariant = { IsTicket };
}
