//! The rule of the tree, and what each step on it tells the one that makes it.
ghost use Rattle.funnel.specs.Rule.{tree_client};
ghost use Rattle.funnel.specs.Plays.{raised, looked, admitted};

use crate::view::{Known, Load, Raise, Shape};
use annals::{Annals, Chronicle, View};
use atomic_table::Play;

/// The table has no slots.
pub(crate) type NoSlot = Option<u64>;

pub(crate) type TreeView = View<Raise, Load, Known>;

pub(crate) type Rule = Annals<InOneTree>;

/// Each step is a raise or a load of the root, in one legal history.
pub struct InOneTree;

impl Chronicle<NoSlot, Raise, Load, Known, Shape> for InOneTree {
    ghost client = { tree_client };
}

/// `fetch_max` of a node.
pub(crate) struct RaiseNode;

impl Play<NoSlot, TreeView> for RaiseNode {
    ghost then = { raised };
}

/// Load of the root.
pub(crate) struct LoadRoot;

impl Play<NoSlot, TreeView> for LoadRoot {
    ghost then = { looked };
}

/// Load of the root by a seat that has then seen just what it was told.
pub(crate) struct Admit;

impl Play<NoSlot, TreeView> for Admit {
    ghost then = { admitted };
}
