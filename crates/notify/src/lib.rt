//! A notifier chain over sleepable RCU (`srcu_notifier_head`): handlers are called in the order of their priorities, and
//! may sleep, while a writer registers and unregisters others.
#![tactic(auto)]

mod block;
mod blocks;
mod chain;
mod handler;
mod order;
mod refusals;
mod text;
mod view;

pub use chain::Chain;
pub use handler::{BAD, DONE, Handler, OK, STOP, STOP_BIT};
pub use refusals::{RegisterRefusal, UnregisterRefusal};
pub use view::ChainView;
