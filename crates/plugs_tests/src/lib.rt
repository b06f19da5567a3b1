//! The tests of plugs.
#![tactic(auto)]

#[cfg(test)]
mod tests;
