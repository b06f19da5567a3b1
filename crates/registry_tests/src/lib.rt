//! The tests of registry.
#![tactic(auto)]

#[cfg(test)]
mod tests;
