//! The tests of notify.
#![tactic(auto)]

#[cfg(test)]
mod tests;
