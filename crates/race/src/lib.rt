//! A race over a table of plug-ins: threads lease its versions and hand the leases to one another, while another one
//! installs and queues callbacks. In the end what they counted stands beside what the domain tells.
#![tactic(auto)]

mod course;
mod ending;
mod gate;
mod line;
mod making;
mod racing;
mod reader;
mod totals;
mod updater;
mod workers;

pub use domain::{Memory, Totals};
pub use gate::{At, Gate};
pub use racing::race;
pub use totals::RaceTotals;
