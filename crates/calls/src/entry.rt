//! What waits in a processor's list, and how it comes in.
use crate::plays::Place;
use sections::{Given, Sight};

mod turn;

/// A job that was queued, and the cookie of that moment, which keeps what the queuer had then seen.
#[derive(Drop)]
pub struct Entry<J> {
    pub job: J,
    pub cookie: Given,
}

/// A job on its way to the list of its processor.
#[derive(Drop)]
pub struct Arrival<J> {
    pub(crate) entry: Entry<J>,
    /// As far as its queuer had seen, and all who queued there before.
    pub(crate) sight: Sight,
    /// The right of the call: the proofs know by it which one of those that were queued it is. It has no bytes.
    pub(crate) call: Place<J>,
}
