//! The tests of boxes.
#![tactic(auto)]

#[cfg(test)]
mod tests;
