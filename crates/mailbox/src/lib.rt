//! A place where threads leave a value for one another. Contracts keep knowing of which domain it is.
#![tactic(auto)]

mod mailbox;
mod nameplate;
mod posted;
mod tokens;
mod waiting;

pub use mailbox::Mailbox;
pub use posted::Posted;
