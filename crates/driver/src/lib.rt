//! Somebody who carries grace periods and runs callbacks (`srcu_advance_state`, `srcu_invoke_callbacks`), and processors
//! for threads that come and go.
#![tactic(auto)]

mod counts;
mod driving;
mod home;
mod pause;
mod pool;
mod reading;
mod refusals;
mod report;
mod serving;
mod sign;
mod stop;
mod watcher;

pub use counts::Served;
pub use driving::{Stopped, serve, serve_until, serve_with};
pub use pool::{AtHome, Lent, Pool, Slip};
pub use reading::read;
pub use refusals::GiveRefusal;
pub use report::{Report, Stall, Tallied, Tally};
pub use serving::run_batch;
pub use stop::{Stop, Told};
