//! What a watcher of a domain finds: its counters, who holds a grace period up, and the whole domain at a glance. Each prints
//! itself.
#![tactic(auto)]

mod counters;
mod snapshot;

pub use counters::{Counters, Counts, Holder, Pair};
pub use snapshot::{Columns, Glance, Snapshot, Table};
