//! A notifier chain of any length, which owns its handlers (`linux/notifier.h`): they are called in the order of their
//! priorities, and may sleep, while others are registered. `Roster::unregister` returns one that no call is inside.
#![tactic(auto)]

mod callers;
mod rank;
mod roster;

pub use callers::Callers;
pub use notify::{BAD, DONE, Handler, OK, STOP, STOP_BIT};
pub use rank::Rank;
pub use registry::{InsertRefusal, StayRefusal, WaitRefusal};
pub use roster::{Roster, make};
