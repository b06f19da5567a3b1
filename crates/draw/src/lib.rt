//! A run as a picture, an SVG: time goes down, one row a line, with grace periods, sections and jobs at the left.
#![tactic(auto)]

mod bar;
mod crowd;
mod frame;
mod key;
mod paint;
mod picture;
mod places;
mod rows;
mod style;
mod svg;

pub use bar::{Bar, bars};
pub use picture::{MOST_LINES, Picture};
