//! A lock round one value, of which contracts keep knowing something while nobody has it: which key fits it.
#![tactic(auto)]

mod keep;

pub use keep::{Keep, Keyed, Loan};
