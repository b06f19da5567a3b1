//! The tests of intake.
#![tactic(auto)]

#[cfg(test)]
mod tests;
