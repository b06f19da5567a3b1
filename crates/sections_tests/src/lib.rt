//! The tests of sections.
#![tactic(auto)]

#[cfg(test)]
mod tests;
