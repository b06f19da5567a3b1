//! The tests of keep.
#![tactic(auto)]

#[cfg(test)]
mod tests;
