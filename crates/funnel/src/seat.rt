//! A holder's seat at a tree of needs.
use crate::plays::{InOneTree, NoSlot, Rule, TreeView};
use crate::view::{Holder, Known, Load, Raise, Shape};
use atomic_table::Table;
use std::alloc::{Allocator, Global};
use std::marker::Model;
use std::sync::Arc;

mod asking;
pub(crate) mod climb;
mod ties;

pub(crate) type Nodes<A> = Table<NoSlot, TreeView, Shape, Rule, A>;

pub(crate) type Board = annals::Board<NoSlot, Raise, Load, Known, Shape, InOneTree>;

pub(crate) type Place = annals::Place<NoSlot, Raise, Load, Known>;

/// The seat of a processor, or of the engine, at a tree of needs. It is a value that one thread owns. Contracts see what
/// it has seen of the tree's history, its own raises there, and what its loads of the root found.
#[derive(Drop)]
pub struct FunnelSeat<A: Allocator = Global> {
    pub(crate) table: Arc<Nodes<A>, A>,
    pub(crate) seat: Place,
    pub(crate) holder: Holder,
    /// How many nodes the tree has.
    pub(crate) nodes: usize,
}

impl<A: Allocator> Model for FunnelSeat<A> {
    ghost use Rattle.funnel.specs.Views.{FunnelView};

    ghost Value = { FunnelView };

    ghost use Rattle.funnel.specs.Insides.{view_of_seat, IsFunnelSeat};

    ghost view = { view_of_seat };

    ghost invariant = { IsFunnelSeat };
}

/// How far an [`FunnelSeat::ask`] climbed.
#[derive(Clone, Copy, Debug, PartialEq, Eq)]
pub struct Level {
    /// How many nodes it touched, from the leaf upward: at least one, and at most the tree's height.
    pub nodes: usize,
    /// Whether the last of them held the number or more before.
    pub found: bool,
}
