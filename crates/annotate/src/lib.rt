//! A run as text: each line with its number and its reply. At the left is a picture of what is open. Under a faulty or refused
//! line a sentence says why.
#![tactic(auto)]

mod columns;
mod omitted;
mod page;
mod paint;

pub use page::{COLUMNS, Page};
