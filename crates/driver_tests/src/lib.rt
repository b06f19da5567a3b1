//! The tests of driver.
#![tactic(auto)]

#[cfg(test)]
mod tests;
