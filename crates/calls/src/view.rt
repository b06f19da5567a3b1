//! What the proofs know of a seat at the tally words. But for `Plan`, no value of these types is ever made.
use crate::entry::Entry;
use std::marker::{Model, PhantomData};

/// What the rule of the tally words is told when they are made.
#[derive(Clone, Copy, Debug)]
pub struct Plan {
    /// How many processors have tallies.
    pub processors: usize,
}

/// What was done on a tally word.
pub enum Act<J> {
    /// 1 was added to the queued word of the processor whose seat did it: this came in last.
    Queue {
        entry: Entry<J>,
    },
    /// A load of the queued word of this processor, with its list in hand: so many calls that had come in were moved
    /// before, what waited for this number was done, and at most so many jobs were taken out.
    Take {
        processor: u16,
        number: u64,
        max: usize,
        moved: u64,
    },
    /// So many were added to the finished word of this processor.
    Finish {
        processor: u16,
        count: u64,
    },
    /// A load of the queued word of this processor, with its list in hand: so many calls that had come in were moved there,
    /// and the next one had no room.
    LackRoom {
        processor: u16,
        moved: u64,
    },
    /// A load of the queued word of this processor, with what it found.
    LoadQueued {
        processor: u16,
        found: u64,
    },
    /// A load of the finished word of this processor, with what it found.
    LoadFinished {
        processor: u16,
        found: u64,
    },
}

/// A step on a tally word, and the processor whose seat made it.
pub struct Deed<J> {
    pub by: u16,
    pub act: Act<J>,
}

/// An entry of the log, with no bytes. Contracts see a deed.
pub struct Logged<J> {
    marker: PhantomData<J>,
}

impl<J> Model for Logged<J> {
    ghost use Rattle.calls.specs.declared.view.Deed.{Deed};
    ghost use Rattle.calls.specs.declared.view.Act.TheVariants.{LoadQueued};

    ghost Value = { Deed J };

    ghost view = { λ _. record { by = 0; act = LoadQueued 0 0 } };
}

/// What waits in a processor's list, with marks. Contracts see a list.
pub struct Waiting<J> {
    marker: PhantomData<J>,
}

impl<J> Model for Waiting<J> {
    ghost use Rattle.std.specs.Prelude.{List, []};
    ghost use Rattle.segs.specs.MarkedList.{Mark};
    ghost use Rattle.calls.specs.declared.entry.Entry.{Entry};

    ghost Value = { List (Entry J × Mark) };

    ghost view = { λ _. [] };
}

/// What a processor's list knows.
pub struct Known<J> {
    /// How many calls were queued, at least.
    pub queued: u64,
    /// How many of them were finished.
    pub finished: u64,
    /// How many are in the batch that is out.
    pub out: Option<u64>,
    /// How many were moved behind those that wait, since something was last taken out.
    pub moved: u64,
    pub waiting: Waiting<J>,
}

/// A right. That of a list: no call of this processor is moved, nothing is taken out, and no batch of it is finished,
/// without the list. And that of a call that is being queued.
pub enum ListRight<J> {
    NoList,
    OfList {
        processor: u16,
        known: Known<J>,
    },
    /// The seat's processor is about to queue this call.
    Calling {
        entry: Entry<J>,
    },
    /// The call that has this number on the processor, as soon as it is counted there.
    OfCall {
        processor: u16,
        number: u64,
        entry: Entry<J>,
    },
}

/// The right of a batch that is out: to add its count to the finished word.
pub enum BatchRight {
    NoBatch,
    OfBatch {
        processor: u16,
        /// How many calls were finished before the batch.
        first: u64,
        count: u64,
    },
}

/// What one seat may do, and knows beside what was done.
pub struct Rights<J> {
    pub list: ListRight<J>,
    pub batch: BatchRight,
}

/// The same in a view, with no bytes. Contracts see rights.
pub struct Held<J> {
    marker: PhantomData<J>,
}

impl<J> Model for Held<J> {
    ghost use Rattle.calls.specs.declared.view.Rights.{Rights};
    ghost use Rattle.calls.specs.declared.view.ListRight.TheVariants.{NoList};
    ghost use Rattle.calls.specs.declared.view.BatchRight.TheVariants.{NoBatch};

    ghost Value = { Rights J };

    ghost view = { λ _. record { list = NoList; batch = NoBatch } };
}
