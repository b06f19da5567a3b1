//! The tests of desk.
#![tactic(auto)]

#[cfg(test)]
mod tests;
