//! Why a run measured nothing.
use std::error::Error;
use std::fmt;

/// What went otherwise than it should.
#[derive(Clone, Copy, Debug, PartialEq, Eq)]
pub enum Miss {
    /// There was no memory.
    Memory,
    /// Another number was read than was put last.
    Read(u64),
    /// There was nothing to read.
    NoRead,
    /// A word of the command line is no number in reach.
    Words,
}

impl fmt::Display for Miss {
    fn fmt<W: fmt::Write>(&self, f: &mut fmt::Formatter<W>) -> fmt::Result {
        match self {
            Miss::Memory => write!(f, "out of memory"),
            Miss::Read(number) => write!(f, "{number} was read"),
            Miss::NoRead => write!(f, "nothing can be read"),
            Miss::Words => write!(f, "READS and REPETITIONS are numbers from 1 on"),
        }
    }
}

impl Error for Miss {}
