//! A box that many threads read at once and that comes back whole. [`freeze`] turns it into 2^63 parts and one deed. Each part reads
//! the value with no step and no count in memory. [`thaw`] makes the box again from the deed and all of its parts.
#![tactic(auto)]

mod loose;
mod part;
mod terms;
#[cfg(test)]
mod tests;

pub use loose::LooseDeed;
pub use part::{Deed, Part, freeze, thaw};
pub use terms::Terms;
