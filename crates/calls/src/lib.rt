//! Callbacks (`call_srcu`): a job is queued on a processor, and given out after a full grace period, once, in order. The
//! thread that takes jobs out may be another one than those that queued them.
#![tactic(auto)]

mod barrier;
mod batch;
mod calls;
mod entry;
mod laws;
mod list;
mod making;
mod plays;
mod receipt;
mod refusals;
mod seat;
mod sight;
mod spot;
mod tally;
mod view;

pub use barrier::Ticket;
pub use batch::Batch;
pub use calls::Calls;
pub use entry::{Arrival, Entry};
pub use laws::{
    barriers_of_callbacks, jobs_of_callbacks, tallies_of_callbacks, totals_of_callbacks,
};
pub use list::List;
pub use receipt::Receipt;
pub use refusals::{CallRefusal, Memory, TakeRefusal};
pub use seat::{CallSeat, Totals};
pub use sight::TallySight;
pub use spot::Spot;
