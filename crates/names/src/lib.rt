//! What has a name in a domain of a script: tokens, and the section on its desk.
#![tactic(auto)]

mod names;
mod open;
mod parking;

pub use names::{NamedToken, Names, Tokens, take_last};
pub use open::Open;
pub use parking::Parking;
