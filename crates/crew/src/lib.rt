//! Workers at work at once, each on a thread of its own. All come back, with what they gave in order.
#![tactic(auto)]

mod crew;
mod member;

pub use crew::{at_once, at_once_beside};
