//! The tests of domain with several threads, and of what waits.
#![tactic(auto)]

#[cfg(test)]
mod tests;
