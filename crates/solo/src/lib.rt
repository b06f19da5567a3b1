//! A sleepable RCU domain in one hand: one thread drives all of its processors and its engine.
#![tactic(auto)]

mod members;
mod notifier;
mod plugboard;
mod queued;
mod refusals;
mod solo;
mod taking;

pub use domain::{InUse, Totals};
pub use notifier::Notifier;
pub use plugboard::Plugboard;
pub use queued::Queued;
pub use solo::Solo;
