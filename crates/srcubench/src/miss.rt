//! What a measured call gave in place of what is measured.
use domain::Exhausted;
use std::alloc::AllocFailed;
use std::error::Error;
use std::fmt;

/// What was not done.
#[derive(Clone, Copy, Debug, PartialEq, Eq)]
pub enum Miss {
    /// There was no memory for the handlers.
    Memory,
    /// No section was begun.
    NoSection,
    /// A call of the chain gave another last result, or called another number of handlers.
    Called { last: u32, count: u64 },
    /// The key has no plug.
    NoPlug,
    /// The cell has no box.
    NoBox,
    /// The key has another plug, or the box another number.
    Found(u32),
}

impl<T: Drop> From<AllocFailed<T>> for Miss {
    fn from(_refusal: AllocFailed<T>) -> Miss {
        Miss::Memory
    }
}

impl From<Exhausted> for Miss {
    fn from(_refusal: Exhausted) -> Miss {
        Miss::NoSection
    }
}

impl fmt::Display for Miss {
    fn fmt<W: fmt::Write>(&self, f: &mut fmt::Formatter<W>) -> fmt::Result {
        match self {
            Miss::Memory => write!(f, "out of memory"),
            Miss::NoSection => write!(f, "no section can begin"),
            Miss::Called { last, count } => write!(f, "{count} handlers were called: {last}"),
            Miss::NoPlug => write!(f, "the key has no plug"),
            Miss::NoBox => write!(f, "the cell has no box"),
            Miss::Found(number) => write!(f, "{number} was found"),
        }
    }
}

impl Error for Miss {}
