//! Each allocation refused in turn.
#![tactic(auto)]

#[cfg(test)]
mod tests;
