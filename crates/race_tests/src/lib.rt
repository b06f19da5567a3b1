//! The tests of race.
#![tactic(auto)]

#[cfg(test)]
mod tests;
