//! The tests of scan.
#![tactic(auto)]

#[cfg(test)]
mod tests;
