//! The lines of a script: their words, names and numbers, and the run of what answers them, from a reader to a writer.
#![tactic(auto)]

mod error;
mod line;
mod name;
mod output;
mod run;
mod word;

pub use error::{Outcome, RunError};
pub use name::Name;
pub use run::{Answers, run_lines};
pub use word::{is_name, number, words};
