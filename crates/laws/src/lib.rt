//! Laws that follow from the contracts of a domain: a period that is driven ends, no other domain delays it, and a barrier
//! covers what its starter had counted.
#![tactic(auto)]

mod barriers;
mod driving;

pub use barriers::barriers_cover_counts;
pub use driving::{drive_beside, drive_to_the_end, turns_in_a_row};
