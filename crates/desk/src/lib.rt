//! Shared places for one value. A desk is for values that must be spent: each swap leaves a value there or nothing, and
//! answers what it found. A bay is for a value that may be dropped: it lies there, or just one seat holds it.
#![tactic(auto)]

mod bay;
mod desk;
mod laws;
mod plays;
mod seat;
mod view;

pub use bay::seat::BaySeat;
pub use bay::work::Task;
pub use bay::{Alike, Bay};
pub use desk::Desk;
pub use laws::{holders_of_a_bay, makers_of_swaps, swaps_of_a_bay};
pub use seat::DeskSeat;
