//! The tests of vault, and callers of it whose wrong bodies show what its contracts ask, and those of parts.
#![tactic(auto)]

mod pairs;
mod rounds;
#[cfg(test)]
mod tests;

pub use pairs::{add_to_both, thaw_both};
pub use rounds::{carry, collect, lay, move_one, read_at};
