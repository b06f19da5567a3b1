//! The tests of segs.
#![tactic(auto)]

#[cfg(test)]
mod tests;
