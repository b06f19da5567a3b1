//! A batch of jobs that were given out.
use crate::entry::Entry;
use crate::plays::Place;
use smallvec::SmallVec;
use std::alloc::{Allocator, Global};
use std::marker::Model;

mod jobs;

/// Jobs of one processor that were given out, in their order, at most eight. It must be spent: once it is empty, by
/// [`Calls::finish`](crate::Calls::finish) or [`List::finish`](crate::List::finish). Contracts see the entries that are
/// left in it, each with its cookie, how many there were, and the number of the first among all that its processor
/// ever queued.
pub struct Batch<J, A: Allocator = Global> {
    pub(crate) entries: SmallVec<Option<Entry<J>>, 8, A>,
    pub(crate) count: usize,
    pub(crate) processor: u16,
    /// It has the right to add the count to the finished word.
    pub(crate) seat: Place<J>,
}

impl<J, A: Allocator> Model for Batch<J, A> {
    ghost use Rattle.calls.specs.Views.{BatchView};

    ghost Value = { BatchView J };

    ghost use Rattle.calls.specs.Insides.{view_of_batch, IsBatch};

    ghost view = { view_of_batch };

    ghost invariant = { IsBatch };
}
