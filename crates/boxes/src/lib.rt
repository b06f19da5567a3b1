//! Values of any type in a cell: `rcu_assign_pointer` and `srcu_dereference` for what lies in a box. Readers read it with
//! no copy. Its writer gets the box back, with its value, once no section can read it any more.
#![tactic(auto)]

mod laying;
mod making;
mod pin;
mod readers;
mod rest;
mod showing;
mod writer;

pub use making::make;
pub use parts::{Part, Terms};
pub use pin::{BoxPin, HeldBox};
pub use readers::Boxes;
pub use writer::{BoxWriter, NoSlot};
