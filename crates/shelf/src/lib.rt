//! Values of a user's own type as versions of a cell. A writer replaces the value, and readers read the one that they
//! find, inside a section. A slot is used again only behind a grace period.
#![tactic(auto)]

mod name;
mod shelf;
mod values;
mod versioned;

pub use name::DomainName;
pub use shelf::{NoSlot, Shelf};
pub use values::Values;
pub use versioned::Versioned;
