//! The tree that seats are at.
ghost use Rattle.std.specs.Prelude.{◌≡◌};

use crate::seat::{FunnelSeat, Nodes};
use std::alloc::{Allocator, Global};
use std::marker::Model;
use std::sync::Arc;

/// A tree of needs, for who shares it and has no seat there. Contracts see which one it is.
#[derive(Drop)]
pub struct Funnel<A: Allocator = Global> {
    pub(crate) table: Arc<Nodes<A>, A>,
}

impl<A: Allocator> Model for Funnel<A> {
    ghost use Rattle.atomic_table.specs.Seated.{TableId};

    ghost Value = { TableId };

    ghost use Rattle.funnel.specs.Insides.{view_of_funnel};

    ghost view = { view_of_funnel };
}

impl<A: Allocator> FunnelSeat<A> {
    /// The tree that the seat was at. The seat is gone then.
    pub fn into_tree(self) -> Funnel<A>
        ensures { result ≡ self.domain }
    {
        Funnel { table: self.table }
    }
}
