//! A lock round one value that keeps a trail: contracts see each state in which the value was left there. And a stock, behind
//! such a lock, of values that come and go.
#![tactic(auto)]

mod shelf;
mod stock;
mod trail;
mod view;

pub use shelf::Stocked;
pub use stock::{Filled, Out, Stock};
pub use trail::{Lies, Loan, Sight, Trail};
