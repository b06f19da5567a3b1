//! The tests of requests.
#![tactic(auto)]

#[cfg(test)]
mod tests;
