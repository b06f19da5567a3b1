//! The tests of onedom.
#![tactic(auto)]

#[cfg(test)]
mod tests;
