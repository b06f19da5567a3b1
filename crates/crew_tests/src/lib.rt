//! The tests of crew.
#![tactic(auto)]

#[cfg(test)]
mod tests;
