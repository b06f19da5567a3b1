//! The tests of domain, most of them in one thread.
#![tactic(auto)]

#[cfg(test)]
mod tests;
