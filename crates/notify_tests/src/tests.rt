//! Chains of a small domain.
mod called;
mod changes;
mod numbers;
mod sleeping;
mod words;
mod world;
