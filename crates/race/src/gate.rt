//! Where readers tell how far they are.

/// Where a reader is.
#[derive(Clone, Copy, Debug, PartialEq, Eq)]
pub enum At {
    /// It comes to the line, and goes when all readers have come there.
    Line,
    /// Its lease is open, and nothing was read by it.
    Inside,
    /// The lease has answered, and is still open.
    Answered,
}

/// What readers call on their way. A gate that waits holds them up there. At the line it holds up all workers. Elsewhere
/// the reader's lease is open: a grace period that waits for it can't end meanwhile, nor can the race.
pub trait Gate {
    /// Reader `worker`, from 0 on, is there in this round, from 0 on. It comes to the line once, before round 0. The writer
    /// passes no gate.
    fn pass(&self, worker: usize, round: u64, at: At);
}
