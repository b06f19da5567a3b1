//! How calls come in: one end pushes entries and touches no lock, the other one takes them out, in their order.
#![tactic(auto)]

mod handover;
mod inlet;
mod item;
mod lazy;
mod line;
mod outlet;
mod plays;
mod view;

pub use handover::{Fitting, Giver, Handover};
pub use inlet::Inlet;
pub use item::Item;
pub use lazy::{LazyInlet, LazyOutlet, open_lazily};
pub use line::{Refused, open};
pub use outlet::Outlet;
