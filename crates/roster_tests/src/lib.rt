//! The tests of roster.
#![tactic(auto)]

#[cfg(test)]
mod tests;
