//! Places for parts of boxes, each of which one key opens. A key has no bytes and names no type of boxes.
#![tactic(auto)]

mod key;
mod pile;
mod rule;
mod vault;

pub use key::{Key, Tally};
pub use pile::Pile;
pub use vault::Vault;
