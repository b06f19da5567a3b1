//! Why a run measured nothing.
use domain::PeriodsExhausted;
use std::error::Error;
use std::fmt;

/// What went otherwise than it should.
#[derive(Clone, Copy, Debug, PartialEq, Eq)]
pub enum Miss {
    /// There was no memory.
    Memory,
    /// The driver ended early.
    NotServed(PeriodsExhausted),
    /// Another number of jobs was queued, or run, than should have been.
    Jobs { queued: u64, run: u64 },
    /// No section was begun.
    NoSection,
    /// The job was not run in time.
    NotRun,
    /// The job was run before its section ended.
    RunEarly,
    /// The clock could not be read.
    NoClock,
}

impl fmt::Display for Miss {
    fn fmt<W: fmt::Write>(&self, f: &mut fmt::Formatter<W>) -> fmt::Result {
        match self {
            Miss::Memory => write!(f, "out of memory"),
            Miss::NotServed(refusal) => write!(f, "{refusal}"),
            Miss::Jobs { queued, run } => write!(f, "{queued} jobs were queued, and {run} run"),
            Miss::NoSection => write!(f, "no section can begin"),
            Miss::NotRun => write!(f, "a job was not run in time"),
            Miss::RunEarly => write!(f, "a job was run before its section ended"),
            Miss::NoClock => write!(f, "the clock can't be read"),
        }
    }
}

impl Error for Miss {}
