//! Needs that climb a tree to its root (the kernel's `srcu_funnel_gp_start`): each processor asks for grace periods at its
//! leaf, and the engine loads the root. Each node holds the greatest number that was raised there.
#![tactic(auto)]

mod laws;
mod making;
mod plays;
mod seat;
#[cfg(test)]
mod tests;
mod tree;
mod view;

pub use laws::{needs_of_a_tree, tree_of_a_funnel};
pub use making::{Memory, make};
pub use seat::{FunnelSeat, Level};
pub use tree::Funnel;
