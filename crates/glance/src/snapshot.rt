//! A domain at a glance, and how it is printed.
ghost use Rattle.std.specs.Prelude.{◌≡◌};
ghost use Rattle.glance.specs.Glances.{pair_at, pair_in, columns_of, counters_of, counts_from, AreLent, IsGlanceAt};

use crate::counters::{Counters, Counts, Pair};
use sseq::{Index, Number, state};
use std::alloc::{Allocator, Global};
use std::fmt;

/// A domain at a glance, after `srcu_torture_stats_print`. Each word was loaded once, at a moment of its own. It prints itself
/// with a line for each processor; [`Snapshot::table`] prints every word.
#[derive(Drop)]
pub struct Snapshot<A: Allocator = Global> {
    /// The number of the domain, which tells the phase too.
    pub number: Number,
    /// The index that new sections get.
    pub index: Index,
    /// The greatest number that is asked for.
    pub need: Number,
    /// The counters of index 0.
    pub zero: Counters<A>,
    /// The counters of index 1.
    pub one: Counters<A>,
    /// How many callbacks were ever queued, on all processors.
    pub queued: u128,
    /// How many of them are finished. These words were loaded after those of the queued, so they may be ahead.
    pub finished: u128,
}

impl<A: Allocator> Counters<A> {
    /// The same counters as slices.
    pub fn columns(&self) -> Columns<'_>
        ensures { AreLent self.now result }
    {
        Columns {
            unlocks: self.unlocks.as_slice(),
            locks: self.locks.as_slice(),
            ended: self.ended,
            begun: self.begun,
        }
    }
}

impl<A: Allocator> Snapshot<A> {
    /// The counters of an index.
    pub fn of(&self, index: Index) -> &Counters<A>
        ensures { result.now ≡ counters_of index self.now }
    {
        match index {
            Index::Zero => &self.zero,
            Index::One => &self.one,
        }
    }

    /// The same words, with the counters as slices.
    pub fn glance(&self) -> Glance<'_>
        ensures { IsGlanceAt self.now result }
    {
        Glance {
            number: &self.number,
            index: self.index,
            need: &self.need,
            zero: self.zero.columns(),
            one: self.one.columns(),
            queued: self.queued,
            finished: self.finished,
        }
    }

    /// The four counters of a processor. None where the domain has no such processor.
    pub fn row(&self, processor: u16) -> Option<Counts>
        ensures { result ≡ counts_from (pair_at self.now.zero processor) (pair_at self.now.one processor) }
    {
        self.glance().row(processor)
    }

    /// The same with every word, in columns.
    pub fn table(&self) -> Table<'_>
        ensures { IsGlanceAt self.now result.glance }
    {
        self.glance().table()
    }
}

/// As a [`Glance`] prints itself.
impl<A: Allocator> fmt::Display for Snapshot<A> {
    fn fmt<W: fmt::Write>(&self, f: &mut fmt::Formatter<W>) -> fmt::Result {
        write!(f, "{}", self.glance())
    }
}

/// The counters of one index on all processors, in the order of the processors, as slices.
#[derive(Clone, Copy)]
pub struct Columns<'s> {
    /// How many sections of the index have ended on each, wherever they were begun.
    pub unlocks: &'s [u64],
    /// How many sections of the index were begun on each.
    pub locks: &'s [u64],
    /// The sum of the unlocks, at most 2^60.
    pub ended: u64,
    /// The sum of the locks, at most 2^60, and no less than that of the unlocks.
    pub begun: u64,
}

impl Columns<'_> {
    /// The two counters of a processor. None where the domain has no such processor.
    pub fn pair(&self, processor: u16) -> Option<Pair>
        ensures { result ≡ pair_in self.now processor }
    {
        let at = usize::from(processor);
        Some(Pair {
            locks: *self.locks.get(at)?,
            unlocks: *self.unlocks.get(at)?,
        })
    }

    /// The two sums.
    pub fn sums(&self) -> Pair
        ensures locks { result.locks ≡ self.now.begun }
        ensures unlocks { result.unlocks ≡ self.now.ended }
    {
        Pair {
            locks: self.begun,
            unlocks: self.ended,
        }
    }
}

/// A snapshot whose counters are slices, and whose numbers are lent, so that it can be copied and handed to a closure. It
/// prints itself with a line for each processor; [`Glance::table`] prints every word.
#[derive(Clone, Copy)]
pub struct Glance<'s> {
    /// The number of the domain, which tells the phase too.
    pub number: &'s Number,
    /// The index that new sections get.
    pub index: Index,
    /// The greatest number that is asked for.
    pub need: &'s Number,
    /// The counters of index 0.
    pub zero: Columns<'s>,
    /// The counters of index 1.
    pub one: Columns<'s>,
    /// How many callbacks were ever queued, on all processors.
    pub queued: u128,
    /// How many of them are finished. These words were loaded after those of the queued, so they may be ahead.
    pub finished: u128,
}

impl<'s> Glance<'s> {
    /// The counters of an index.
    pub fn of(&self, index: Index) -> Columns<'s>
        ensures { result ≡ columns_of index self.now }
    {
        match index {
            Index::Zero => self.zero,
            Index::One => self.one,
        }
    }

    /// The four counters of a processor. None where the domain has no such processor.
    pub fn row(&self, processor: u16) -> Option<Counts>
        ensures { result ≡ counts_from (pair_in self.now.zero processor) (pair_in self.now.one processor) }
    {
        Some(Counts {
            zero: self.zero.pair(processor)?,
            one: self.one.pair(processor)?,
        })
    }

    /// The same with every word, in columns.
    pub fn table(&self) -> Table<'s>
        ensures { result.glance ≡ self.now }
    {
        let glance = Glance {
            number: self.number,
            index: self.index,
            need: self.need,
            zero: self.zero,
            one: self.one,
            queued: self.queued,
            finished: self.finished,
        };
        Table { glance }
    }

    /// The first line, which both forms share.
    fn head<W: fmt::Write>(&self, f: &mut fmt::Formatter<W>) -> fmt::Result {
        let Glance {
            number,
            index,
            need,
            queued,
            finished,
            ..
        } = *self;
        let phase = state(*number);
        writeln!(
            f,
            "number {number} {phase}, index {index}, need {need}, queued {queued}, finished {finished}"
        )
    }
}

/// A line for the domain, one for each processor, and the sums. `-3 +3` is what index 0 and index 1 have open on balance.
impl fmt::Display for Glance<'_> {
    fn fmt<W: fmt::Write>(&self, f: &mut fmt::Formatter<W>) -> fmt::Result {
        self.head(f)?;
        for processor in 0..u16::try_from(self.zero.locks.len()).unwrap_or(u16::MAX) {
            if let Some(counts) = self.row(processor) {
                writeln!(f, "processor {processor}: {counts}")?;
            }
        }
        write!(f, "all: {} {}", self.zero.sums(), self.one.sums())
    }
}

/// What [`Glance::table`] prints: a row for each processor, with its four counters and what is open on balance.
#[derive(Clone, Copy)]
pub struct Table<'s> {
    /// The words that it prints.
    pub glance: Glance<'s>,
}

/// A row of the table, under this name.
fn write_row<W: fmt::Write>(f: &mut fmt::Formatter<W>, counts: Counts) -> fmt::Result {
    let Counts { zero, one } = counts;
    write!(
        f,
        " {:>12} {:>12} {:>12} {:>12} {counts}",
        zero.unlocks, zero.locks, one.unlocks, one.locks
    )
}

impl fmt::Display for Table<'_> {
    fn fmt<W: fmt::Write>(&self, f: &mut fmt::Formatter<W>) -> fmt::Result {
        let Table { glance } = self;
        glance.head(f)?;
        f.write_str("processor    unlocks 0      locks 0    unlocks 1      locks 1 open")?;
        for processor in 0..u16::try_from(glance.zero.locks.len()).unwrap_or(u16::MAX) {
            if let Some(counts) = glance.row(processor) {
                write!(f, "\n{processor:>9}")?;
                write_row(f, counts)?;
            }
        }
        f.write_str("\n      all")?;
        let all = Counts {
            zero: glance.zero.sums(),
            one: glance.one.sums(),
        };
        write_row(f, all)
    }
}
