//! The tests of trail.
#![tactic(auto)]

#[cfg(test)]
mod tests;
