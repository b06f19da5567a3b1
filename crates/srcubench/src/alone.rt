//! Loops that are run alone, in one thread, so that a tool can count their instructions.
ghost use Rattle.std.specs.Prelude.{◌≤◌, ◌^◌};
ghost use Rattle.srcubench.specs.Done.{CanRun};

use crate::work::{Changes, Periods, Reads, Work};

/// A thing that is done again and again.
#[derive(Clone, Copy, Debug, PartialEq, Eq)]
pub enum Loop {
    /// A pair of `read_lock` and `read_unlock`.
    Pair,
    /// A held section that begins on one processor and ends on another.
    Held,
    /// A section in which a version is found and one word of it is read.
    Word,
    /// The same with all sixteen words.
    Words,
    /// A section in which a box is found and read.
    Box,
    /// One key of a table of fifteen that is looked up.
    Lookup,
    /// A call of a chain of four handlers.
    Chain,
    /// A value that is put, with its grace period.
    Put,
    /// A grace period of a domain with one processor, by three calls of `advance`.
    Period,
    /// The same, asked for and driven in one turn.
    Drive,
    /// A call of `synchronize` there.
    Synchronize,
}

impl Loop {
    const ALL: [Loop; 11] = [
        Loop::Pair,
        Loop::Held,
        Loop::Word,
        Loop::Words,
        Loop::Box,
        Loop::Lookup,
        Loop::Chain,
        Loop::Put,
        Loop::Period,
        Loop::Drive,
        Loop::Synchronize,
    ];

    fn name(self) -> &'static str {
        match self {
            Loop::Pair => "pair",
            Loop::Held => "held",
            Loop::Word => "word",
            Loop::Words => "words",
            Loop::Box => "box",
            Loop::Lookup => "lookup",
            Loop::Chain => "chain",
            Loop::Put => "put",
            Loop::Period => "period",
            Loop::Drive => "drive",
            Loop::Synchronize => "synchronize",
        }
    }

    /// The loop with this name.
    pub fn named(name: &str) -> Option<Loop> {
        Loop::ALL.into_iter().find(|it| it.name() == name)
    }

    /// So many of it, in one thread.
    pub fn work(self, times: u64) -> Work
        requires some { 1 ≤ times }
        ensures { CanRun result }
    {
        let (threads, processors) = (1, 1);
        match self {
            Loop::Pair => Work::Read(Reads::Pairs {
                threads,
                pairs: times,
            }),
            Loop::Held => Work::Read(Reads::HeldPairs { pairs: times }),
            Loop::Word => Work::Read(Reads::Finds {
                threads,
                words: 1,
                times,
            }),
            Loop::Words => Work::Read(Reads::Finds {
                threads,
                words: 16,
                times,
            }),
            Loop::Box => Work::Read(Reads::Boxes { threads, times }),
            Loop::Lookup => Work::Read(Reads::Looks {
                threads,
                leased: false,
                times,
            }),
            Loop::Chain => Work::Read(Reads::ChainCalls {
                threads,
                blocks: 4,
                times,
            }),
            Loop::Put => Work::Change(Changes::Puts { times }),
            Loop::Period => Work::Period(Periods::DrivenPeriods {
                processors,
                periods: times,
            }),
            Loop::Drive => Work::Period(Periods::DrivenAtOnce {
                processors,
                periods: times,
            }),
            Loop::Synchronize => Work::Period(Periods::Waits { processors, times }),
        }
    }
}
