//! The tests of srcu.
#![tactic(auto)]

#[cfg(test)]
mod tests;
