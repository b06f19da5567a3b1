//! The tests of mailbox.
#![tactic(auto)]

#[cfg(test)]
mod tests;
