//! The tests of calls.
#![tactic(auto)]

#[cfg(test)]
mod tests;
