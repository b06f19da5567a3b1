//! The engine that carries a grace period of a sleepable RCU domain from its start to its end, one atomic step at a
//! time, and the place where it lies between two turns, from which any processor may drive it.
#![tactic(auto)]

mod engine;
mod grace_periods;
mod needed;
mod period;
mod place;
mod progress;
pub mod refusals;
mod station;

pub use engine::Engine;
pub use grace_periods::GracePeriods;
pub use progress::{NotStarted, Pace, PeriodsExhausted, Progress};
pub use station::Station;
pub use station::seat::StationSeat;
