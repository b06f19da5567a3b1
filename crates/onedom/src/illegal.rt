//! Why an event was refused.
use std::error::Error;
use std::fmt;

/// Why a domain refused an event. It was left as it was.
#[derive(Clone, Copy, Debug, PartialEq, Eq, Hash)]
pub enum Illegal {
    /// A section of this number was begun before: each number is used once.
    SectionUsed = 1,
    /// The section was never begun, or has ended already.
    NotOpen = 2,
    /// A grace period runs, and there is one at a time.
    PeriodRunning = 3,
    /// No grace period runs that could end.
    NoPeriod = 4,
    /// A section that was open when the grace period started is still open.
    StillOpen = 5,
    /// The cookie is not the one that is given now.
    WrongCookie = 6,
    /// The answer is not the one that the cookie gets now, or this is no cookie: neither a multiple of
    /// four nor 1.
    WrongPoll = 7,
    /// That is not the slot and the version that are current in the cell.
    WrongFind = 8,
    /// The slot is current in the cell, or an open section has found it, or this is not the cell's next version.
    WrongPut = 9,
    /// The event may follow, but there was no memory to keep it.
    Memory = 10,
}

impl fmt::Display for Illegal {
    ghost use Rattle.std.specs.Prelude.{Some};
    ghost use Rattle.onedom.specs.Refusals.{illegal_text};

    ghost output = { λ cause. Some (illegal_text cause) };

    fn fmt<W: fmt::Write>(&self, f: &mut fmt::Formatter<W>) -> fmt::Result {
        match self {
            Illegal::SectionUsed => f.write_str("the section's number was used before"),
            Illegal::NotOpen => f.write_str("the section is not open"),
            Illegal::PeriodRunning => f.write_str("a grace period runs"),
            Illegal::NoPeriod => f.write_str("no grace period runs"),
            Illegal::StillOpen => f.write_str("a section that was open at the start is open"),
            Illegal::WrongCookie => f.write_str("another cookie is given now"),
            Illegal::WrongPoll => f.write_str("that is not the answer to this cookie"),
            Illegal::WrongFind => f.write_str("that is not current in the cell"),
            Illegal::WrongPut => f.write_str("that can't be put into the cell"),
            Illegal::Memory => f.write_str("out of memory"),
        }
    }
}

impl Error for Illegal {}
