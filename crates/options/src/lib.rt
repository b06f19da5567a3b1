//! The command line of `srcuctl`: what it takes, what its help says, and what its options set.
#![tactic(auto)]

mod command_line;
mod help;
mod size;
mod view;

pub use command_line::{command, explain, limits_of};
pub use help::of_scripts;
pub use size::{Size, size_of};
pub use view::{Unfit, odd_number, refuse, view_of};
