//! The numbers of a sleepable RCU domain: which of two indexes a section has, and where its grace periods stand.
#![tactic(auto)]

mod index;
mod needs;
mod number;
#[cfg(test)]
mod tests;

pub use index::Index;
pub use needs::Needs;
pub use number::{COMPLETED, Number, Phase, completed, is_done, snap, state};
