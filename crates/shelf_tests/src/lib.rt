//! The tests of shelf.
#![tactic(auto)]

#[cfg(test)]
mod tests;
